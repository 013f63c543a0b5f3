// The entries of a list, read from the payload one after the other and put as text.
ghost use Rattle.std.specs.Prelude.{◌≡◌, List, ℕ, drop};
ghost use Rattle.felica_format.specs.Read.{read_element};
ghost use Rattle.felica_command.specs.Types.{element_is};
ghost use Rattle.felica_text.specs.Text.{word_text};
ghost use Rattle.felica_put.specs.Output.{Puts};
ghost use Rattle.felica_fields.specs.Entries.{TextRead, read_code, element_text, formed_text, taken_text, entry_text};

use crate::field::Value;
use felica_command::types::BlockListElement;
use felica_cursor::cursor::{Cursor, word_of};
use felica_put::Output;
use felica_text::hex::hex_digit;
use felica_text::put::put_hex_word;

// What an entry of a list is: a value, and how it is read from the payload.
pub(crate) trait Entry: Value + Copy {
    ghost read: { List ℕ → TextRead };

    // The entry at a place, with the place behind it, if the payload has one there.
    fn entry_at(payload: &[u8], at: usize) -> Option<(Self, usize)>
        ensures { read (drop at payload.now) ≡ entry_text Self.text payload.now result };
}

impl Entry for u16 {
    ghost read = { λ s. taken_text word_text (read_code s) };

    fn entry_at(payload: &[u8], at: usize) -> Option<(u16, usize)> {
        let rest = payload.get(at..)?;
        let [low, high, ..] = rest else {
            return None;
        };
        Some((word_of(*low, *high), at + 2))
    }
}

impl Entry for BlockListElement {
    ghost read = { λ s. taken_text formed_text (read_element s) };

    fn entry_at(payload: &[u8], at: usize) -> Option<(BlockListElement, usize)> {
        let (taken, behind) = (Cursor { payload, at }).take_element().ok()?;
        Some((taken.element, behind.at))
    }
}

// Block number, place in the service code list, access mode.
impl Value for BlockListElement {
    ghost text = { λ element. element_text (element_is element) };

    fn put(self, out: &mut Output<u8>) {
        put_hex_word(out, self.block_number_or_key_version.0);
        out.put(b'/');
        out.put(hex_digit(self.service_code_list_index));
        out.put(b'/');
        out.put(hex_digit(self.access_mode));
    }
}
