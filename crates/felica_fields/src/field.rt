// A field of an answer: a space, the name, `=` and the value. A name is passed with its space and its `=`.
ghost use Rattle.std.specs.Prelude.{◌≡◌, List, ℕ, ◌++◌};
ghost use Rattle.felica_command.specs.Meaning.{bytes_at};
ghost use Rattle.felica_text.specs.Text.{byte_text, word_text, nibble_text, bytes_text, parted};
ghost use Rattle.felica_put.specs.Output.{Puts};

use felica_command::command::Part;
use felica_put::Output;
use felica_text::put::{put_hex, put_hex_byte, put_hex_word, put_nibbles, put_words};

// A value that a field may have, and the text of it.
// Not `Display`, for the reason that felica_text/src/put.rt has.
pub trait Value {
    ghost text: { Self → List ℕ };

    fn put(self, out: &mut Output<u8>)
        ensures { Puts out.old out.new (text self) };
}

pub fn put_field<V: Value>(out: &mut Output<u8>, name: &[u8], value: V)
    ensures { Puts out.old out.new (name.now ++ V.text value) }
{
    out.put_all(name);
    value.put(out);
}

// A byte in two digits.
impl Value for u8 {
    ghost text = { byte_text };

    fn put(self, out: &mut Output<u8>) {
        put_hex_byte(out, self);
    }
}

// A two-byte number in four digits.
impl Value for u16 {
    ghost text = { word_text };

    fn put(self, out: &mut Output<u8>) {
        put_hex_word(out, self);
    }
}

// Bytes in two digits each, and `-` for none.
impl Value for &[u8] {
    ghost text = { λ bytes. bytes_text bytes.now };

    fn put(self, out: &mut Output<u8>) {
        put_hex(out, self);
    }
}

// Two-byte numbers parted by commas, and `-` for none.
impl Value for &[u16] {
    ghost text = { λ words. parted word_text words.now };

    fn put(self, out: &mut Output<u8>) {
        put_words(out, self);
    }
}

// Numbers below 16 in one digit each.
#[derive(Clone, Copy, Debug, PartialEq, Eq)]
pub struct Nibbles<'a>(pub &'a [u8]);

// Parted by commas, and `-` for none.
impl Value for Nibbles<'_> {
    ghost text = { λ nibbles. parted nibble_text nibbles.0.now };

    fn put(self, out: &mut Output<u8>) {
        put_nibbles(out, self.0);
    }
}

// The bytes of a part, as far as the payload has them.
pub fn bytes_of(payload: &[u8], part: Part) -> &[u8]
    ensures { result.now ≡ bytes_at payload.now part }
{
    let rest = &payload[part.start.min(payload.len())..];
    &rest[..part.count.min(rest.len())]
}
