// The lists of a command, read from the payload and put as text: entries parted by commas, and `-` for none.
ghost use Rattle.std.specs.Prelude.{◌≡◌, drop};
ghost use Rattle.felica_text.specs.Text.{parted};
ghost use Rattle.felica_put.specs.Output.{Puts};
ghost use Rattle.felica_fields.specs.Entries.{texts_of, codes_text, blocks_text};

use crate::entry::Entry;
use crate::field::Value;
use felica_command::command::Part;
use felica_command::types::BlockListElement;
use felica_put::Output;

// The codes of a list: the payload, and the part of it that they are.
#[derive(Clone, Copy, Debug, PartialEq, Eq)]
pub struct Codes<'a>(pub &'a [u8], pub Part);

impl Value for Codes<'_> {
    ghost text = { λ codes. codes_text codes.0.now codes.1 };

    fn put(self, out: &mut Output<u8>) {
        put_list::<u16>(out, self.0, self.1);
    }
}

// The elements of a block list, in the same way.
// Not one `List<E>`: it would carry a marker for a type that no field has, and make `Entry` public.
#[derive(Clone, Copy, Debug, PartialEq, Eq)]
pub struct Blocks<'a>(pub &'a [u8], pub Part);

impl Value for Blocks<'_> {
    ghost text = { λ blocks. blocks_text blocks.0.now blocks.1 };

    fn put(self, out: &mut Output<u8>) {
        put_list::<BlockListElement>(out, self.0, self.1);
    }
}

// As many entries as the payload has whole. Not by felica_text's walk over a slice: without a heap the entries are not gathered first.
fn put_list<E: Entry>(out: &mut Output<u8>, payload: &[u8], list: Part)
    ensures { Puts out.old out.new (parted (λ text. text) (texts_of E.read list.count (drop list.start payload.now))) }
{
    if list.count == 0 {
        out.put(b'-');
        return;
    }
    let Some((first, mut place)) = E::entry_at(payload, list.start) else {
        out.put(b'-');
        return;
    };
    first.put(out);
    for _ in 1..list.count {
        let Some((next, behind)) = E::entry_at(payload, place) else {
            return;
        };
        out.put(b',');
        next.put(out);
        place = behind;
    }
}
