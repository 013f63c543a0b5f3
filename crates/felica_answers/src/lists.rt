// The line that answers a call of the list reader.
ghost use Rattle.std.specs.Prelude.{◌≡◌, take};
ghost use Rattle.felica_put.specs.Output.{Puts};
ghost use Rattle.felica_lists.specs.Lists.{buffers};
ghost use Rattle.felica_answers.specs.Lists.{listed_text};

use felica_command::command::{Parsed, Refusal};
use felica_fields::field::{Nibbles, put_field};
use felica_fields::refusal::put_refusal;
use felica_put::Output;
use felica_text::put::put_hex_byte;

// The line of what the list reader answers, with the lists at the front of the buffers that it was lent. Five slices, since `ListBuffers` has them to write to,
// and whoever lends them here may lend them to be read only.
pub fn put_listed(
    out: &mut Output<u8>,
    listed: Result<Parsed, Refusal>,
    first: &[u16],
    second: &[u16],
    numbers: &[u16],
    places: &[u8],
    modes: &[u8],
)
    ensures { Puts out.old out.new (listed_text listed (buffers first.now second.now numbers.now places.now modes.now)) }
{
    match listed {
        Ok(parsed) => {
            let lists = parsed.command.lists();
            let blocks = lists.block_list.count;
            out.put_all(b"OK ");
            put_hex_byte(out, parsed.command.command_code());
            put_field(out, b" first=", front(first, lists.first_codes.count));
            put_field(out, b" second=", front(second, lists.second_codes.count));
            put_field(out, b" numbers=", front(numbers, blocks));
            put_field(out, b" places=", Nibbles(front(places, blocks)));
            put_field(out, b" modes=", Nibbles(front(modes, blocks)));
        }
        Err(refusal) => put_refusal(out, refusal),
    }
}

pub(crate) fn front<T>(items: &[T], count: usize) -> &[T]
    ensures { result.now ≡ take count items.now }
{
    &items[..count.min(items.len())]
}
