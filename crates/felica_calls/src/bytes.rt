// The bytes of a call: hexadecimal digits, written to a lent buffer.
ghost use Rattle.std.specs.Prelude.{◌≡◌};
ghost use Rattle.felica_text.specs.Text.{digit_of};
ghost use Rattle.felica_put.specs.Output.{Puts};
ghost use Rattle.felica_calls.specs.Bytes.{decoded, read_last, read_bytes, bytes_of, all_digits, digits_or_blanks, has_zero_x, byte_of, value_of};

use crate::fault::Fault;
use crate::field::{behind_field, behind_space};
use felica_put::Output;
use felica_text::hex::digit_value;

// How many there are in the last field, with the space before it.
#[tactic(auto, unfolding(crate::specs::Bytes::read_last))]
pub(crate) fn read_last(rest: &[u8], bytes: &mut [u8]) -> Result<usize, Fault>
    ensures { decoded result bytes.new ≡ read_last rest.now bytes.old }
{
    let field = behind_space(rest);
    let behind = behind_field(field);
    if behind.is_empty() {
        return read_bytes(field, bytes);
    }
    if has_zero_x(field) {
        return Err(Fault::ZeroX);
    }
    if digits_or_blanks(behind) {
        return Err(Fault::BlankInside);
    }
    Err(Fault::ExtraField)
}

#[tactic(auto, unfolding(crate::specs::Bytes::read_bytes))]
pub(crate) fn read_bytes(field: &[u8], bytes: &mut [u8]) -> Result<usize, Fault>
    ensures { decoded result bytes.new ≡ read_bytes field.now bytes.old }
{
    if field.is_empty() {
        return Err(Fault::MissingField);
    }
    if field == b"-".as_slice() {
        return Ok(0);
    }
    if has_zero_x(field) {
        return Err(Fault::ZeroX);
    }
    if !all_digits(field) {
        return Err(Fault::NoDigit);
    }
    if field.len() % 2 == 1 {
        return Err(Fault::OddDigits);
    }
    let count = field.len() / 2;
    if bytes.len() < count {
        return Err(Fault::TooManyBytes);
    }
    decode(field, &mut Output::new(bytes));
    Ok(count)
}

// Pairs of digits as bytes, as many as there is room for.
pub fn decode(field: &[u8], bytes: &mut Output<u8>)
    ensures { Puts bytes.old bytes.new (bytes_of field.now) }
{
    for &[high, low] in field.as_chunks::<2>().0 {
        bytes.put(byte_of(high, low));
    }
}

#[tactic(auto, unfolding(crate::specs::Bytes::all_digits))]
pub fn all_digits(field: &[u8]) -> bool
    ensures { result ≡ all_digits field.now }
{
    field.iter().all(|digit| digit_value(*digit).is_some())
}

// Digits and blanks alone.
#[tactic(auto, unfolding(crate::specs::Bytes::digits_or_blanks))]
fn digits_or_blanks(text: &[u8]) -> bool
    ensures { result ≡ digits_or_blanks text.now }
{
    text.iter()
        .all(|byte| *byte == b' ' || digit_value(*byte).is_some())
}

// A 0x in front, as source code has it.
fn has_zero_x(field: &[u8]) -> bool
    ensures { result ≡ has_zero_x field.now }
{
    field.starts_with(b"0x") || field.starts_with(b"0X")
}

pub(crate) fn byte_of(high: u8, low: u8) -> u8
    ensures { result ≡ byte_of high low }
{
    16 * value_of(high) + value_of(low)
}

// A digit's value; what is no digit counts as 0.
pub fn value_of(digit: u8) -> u8
    ensures { result ≡ value_of (digit_of digit) }
{
    digit_value(digit).unwrap_or(0)
}
