// Numbers and lists put into a lent buffer as text. No `Display`: it writes through `fmt::Write`, which may answer an `Err` and says what it wrote only where it does not.
ghost use Rattle.std.specs.Prelude.{◌≡◌, List, ℕ};
ghost use Rattle.felica_text.specs.Text.{byte_text, word_text, nibble_text, digits_text, bytes_text, parted, decimal_text};
ghost use Rattle.felica_put.specs.Output.{Puts};

use crate::hex::hex_digit;
use felica_put::Output;

// A byte in two digits.
pub fn put_hex_byte(out: &mut Output<u8>, byte: u8)
    ensures { Puts out.old out.new (byte_text byte) }
{
    out.put(hex_digit(byte / 16));
    out.put(hex_digit(byte));
}

// A two-byte number in four digits.
pub fn put_hex_word(out: &mut Output<u8>, word: u16)
    ensures { Puts out.old out.new (word_text word) }
{
    let [high, low] = word.to_be_bytes();
    put_hex_byte(out, high);
    put_hex_byte(out, low);
}

// Bytes in two digits each, and `-` for none.
pub fn put_hex(out: &mut Output<u8>, bytes: &[u8])
    ensures { Puts out.old out.new (bytes_text bytes.now) }
{
    if bytes.is_empty() {
        out.put(b'-');
        return;
    }
    for byte in bytes {
        put_hex_byte(out, *byte);
    }
}

// A number below 16 in one digit.
fn put_nibble(out: &mut Output<u8>, nibble: u8)
    ensures { Puts out.old out.new (nibble_text nibble) }
{
    out.put(hex_digit(nibble));
}

// Two-byte numbers in four digits each, parted by commas, and `-` for none.
pub fn put_words(out: &mut Output<u8>, words: &[u16])
    ensures { Puts out.old out.new (parted word_text words.now) }
{
    put_parted(out, words, put_hex_word);
}

// Numbers below 16 in one digit each, parted by commas, and `-` for none.
pub fn put_nibbles(out: &mut Output<u8>, nibbles: &[u8])
    ensures { Puts out.old out.new (parted nibble_text nibbles.now) }
{
    put_parted(out, nibbles, put_nibble);
}

// Entries parted by commas, as `put_entry` puts each, and `-` for none. By a closure: the trait of values is felica_fields', which stands on this crate.
fn put_parted<T: Copy, F: Fn(&mut Output<u8>, T)>(out: &mut Output<u8>, entries: &[T], put_entry: F)
    ghost entry: { T → List ℕ }
    requires callable { F.IsAlwaysCallable put_entry }
    requires puts { (a : _) (x : T) (b : _) → F.post put_entry a x tt b → Puts a.now b.now (entry x) }
    ensures { Puts out.old out.new (parted entry entries.now) }
{
    let Some((first, rest)) = entries.split_first() else {
        out.put(b'-');
        return;
    };
    put_entry(out, *first);
    for entry in rest {
        out.put(b',');
        put_entry(out, *entry);
    }
}

// Digits are found from the last one on, so they go into an array from its end: a `usize` has at most 20. Most numbers have one, which is put at once.
pub fn put_decimal(out: &mut Output<u8>, number: usize)
    ensures { Puts out.old out.new (decimal_text number) }
{
    if number < 10 {
        out.put(b'0' + number as u8);
        return;
    }
    let mut digits = [0; 20];
    let mut first = 20;
    let mut rest = number;
    while 0 < rest {
        first -= 1;
        digits[first] = b'0' + (rest % 10) as u8;
        rest /= 10;
    }
    out.put_all(&digits[first..]);
}
