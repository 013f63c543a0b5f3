// The forms that values have.
ghost use Rattle.std.specs.Prelude.{◌≡◌};
ghost use Rattle.felica_named.specs.Form.{longest, form_of_letter, well_formed, challenge_form, has_digits, is_bytes, is_list, entries, entry_well};

use felica_calls::bytes::all_digits;

// 1024 codes or block numbers with the commas between them; 16384 bytes.
const MAX_LIST_TEXT: usize = 5119;

const MAX_BYTES_TEXT: usize = 32768;

#[derive(Clone, Copy, Debug, PartialEq, Eq)]
pub(crate) enum Form {
    // So many bytes.
    Bytes(u8),
    // 8 bytes, or 16.
    Challenge,
    // A list of two-byte numbers.
    Words,
    // A list of numbers of one digit or two.
    Numbers,
    AnyBytes,
}

impl Form {
    // The form that this letter or digit stands for. No `TryFrom`: its error would say nothing, and `form_of` would drop it by `ok()`.
    #[tactic(auto, unfolding(crate::specs::Form::form_of_letter))]
    pub(crate) fn from_letter(letter: u8) -> Option<Form>
        ensures { result ≡ form_of_letter letter }
    {
        match letter {
            b'1' => Some(Form::Bytes(1)),
            b'2' => Some(Form::Bytes(2)),
            b'8' => Some(Form::Bytes(8)),
            b'C' => Some(Form::Challenge),
            b'W' => Some(Form::Words),
            b'N' => Some(Form::Numbers),
            b'B' => Some(Form::AnyBytes),
            _ => None,
        }
    }

    pub(crate) fn longest(self) -> usize
        ensures { result ≡ longest self }
    {
        match self {
            Form::AnyBytes => MAX_BYTES_TEXT,
            _ => MAX_LIST_TEXT,
        }
    }

    #[tactic(auto, unfolding(crate::specs::Form::well_formed))]
    pub(crate) fn fits(self, value: &[u8]) -> bool
        ensures { result ≡ well_formed self value.now }
    {
        match self {
            Form::Bytes(count) => has_digits(value, 2 * usize::from(count)),
            Form::Challenge => has_digits(value, 16) || has_digits(value, 32),
            Form::Words => is_list(value, 4, 4),
            Form::Numbers => is_list(value, 1, 2),
            Form::AnyBytes => is_bytes(value),
        }
    }
}

fn has_digits(value: &[u8], count: usize) -> bool
    ensures { result ≡ has_digits count value.now }
{
    value.len() == count && all_digits(value)
}

fn is_bytes(value: &[u8]) -> bool
    ensures { result ≡ is_bytes value.now }
{
    value == b"-".as_slice() || !value.is_empty() && value.len() % 2 == 0 && all_digits(value)
}

// `-`, or entries of `least` to `most` digits, parted by commas.
fn is_list(value: &[u8], least: usize, most: usize) -> bool
    ensures { result ≡ is_list least most value.now }
{
    value == b"-".as_slice() || are_entries(value, least, most)
}

fn are_entries(value: &[u8], least: usize, most: usize) -> bool
    ensures { result ≡ entries least most value.now }
{
    value
        .split(|byte| *byte == b',')
        .all(|entry| is_entry(entry, least, most))
}

fn is_entry(entry: &[u8], least: usize, most: usize) -> bool
    ensures { result ≡ entry_well least most entry.now }
{
    (least..=most).contains(&entry.len()) && all_digits(entry)
}
