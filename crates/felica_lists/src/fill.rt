// The lists of a command, read from the payload and written to the front of their buffers.
ghost use Rattle.std.specs.Prelude.{◌≡◌, ◌≤◌, length};
ghost use Rattle.felica_command.specs.Meaning.{codes_at};
ghost use Rattle.felica_command.specs.Places.{CodesInside, ElementsInside};
ghost use Rattle.felica_lists.specs.Lists.{front};
ghost use Rattle.felica_lists.specs.Fill.{numbers_at, places_at, modes_at, lists_at, ListsInside, room_for, fill as filling, filled};
ghost use Rattle.felica_lists.specs.Lent.{held, SameReferences};

use crate::buffers::ListBuffers;
use felica_command::command::Part;
use felica_command::lists::Lists;
use felica_cursor::cursor::Cursor;
use felica_format::error::Reason;

// That the lists lie inside the payload is asked by three functions and said by no type: a `Part` is public and may be any two numbers.
// Writes all lists, or nothing where a buffer is shorter than its list. So every buffer is measured before one is written.
pub(crate) fn fill(payload: &[u8], lists: Lists, out: &mut ListBuffers) -> Result<(), Reason>
    requires { ListsInside payload.now lists }
    ensures same_references { SameReferences out.old out.new }
    ensures filled { filled result (held out.new) ≡ filling (lists_at payload.now lists) (held out.old) }
{
    if !has_room(lists, out) {
        return Err(Reason::BufferTooSmall);
    }
    fill_codes(payload, lists.first_codes, out.first);
    fill_codes(payload, lists.second_codes, out.second);
    fill_blocks(
        payload,
        lists.block_list,
        out.numbers,
        out.places,
        out.modes,
    );
    Ok(())
}

fn has_room(lists: Lists, out: &ListBuffers) -> bool
    ensures { result ≡ room_for lists (held out.now) }
{
    lists.first_codes.count <= out.first.len()
        && lists.second_codes.count <= out.second.len()
        && lists.block_list.count <= out.numbers.len()
        && lists.block_list.count <= out.places.len()
        && lists.block_list.count <= out.modes.len()
}

fn fill_codes(payload: &[u8], list: Part, out: &mut [u16])
    requires { CodesInside payload.now list × (list.count ≤ length out.old) }
    ensures { out.new ≡ front (codes_at payload.now list) out.old }
{
    let codes = &payload[list.start..].as_chunks::<2>().0[..list.count];
    // Stored by index: behind a loop over a `zip` with `iter_mut` (tried), nothing is known of what the buffer holds.
    for (i, code) in codes.iter().enumerate() {
        out[i] = u16::from_le_bytes(*code);
    }
}

fn fill_blocks(payload: &[u8], list: Part, numbers: &mut [u16], places: &mut [u8], modes: &mut [u8])
    requires { ElementsInside payload.now list × (list.count ≤ length numbers.old) × (list.count ≤ length places.old) × (list.count ≤ length modes.old) }
    ensures { (numbers.new ≡ front (numbers_at payload.now list) numbers.old) × (places.new ≡ front (places_at payload.now list) places.old) × (modes.new ≡ front (modes_at payload.now list) modes.old) }
{
    let mut cursor = Cursor {
        payload,
        at: list.start,
    };
    // By index too: tried as a `zip` of the three `iter_mut`, nothing is known behind the loop of what the buffers hold.
    for i in 0..list.count {
        // The parser has taken these elements, so that none is refused here.
        let Ok((taken, behind)) = cursor.take_element() else {
            unreachable!()
        };
        numbers[i] = taken.element.block_number_or_key_version.0;
        places[i] = taken.element.service_code_list_index;
        modes[i] = taken.element.access_mode;
        cursor = behind;
    }
}
