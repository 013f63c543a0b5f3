// One entry of a part, in its wrapper. A part may be any two numbers: an entry that does not stand inside the payload is none.
// A list is named as `Parsed` names it, a part beside the payload that it counts from: a struct of both would be made for one entry and taken apart at once.
#![tactic(auto)]

ghost use Rattle.std.specs.Prelude.{◌≡◌};
ghost use Rattle.felica_entries.specs.Entries.{code_entry, element_entry, service_code_found, node_code_found, block_found};

use felica_command::command::Part;
use felica_command::types::{NodeCode, ServiceCode};
use felica_cursor::cursor::{Cursor, FormedElement, word_of};

#[tactic(auto, using(crate::proofs::OneEntry::no_code, crate::proofs::OneEntry::no_room, crate::proofs::OneEntry::one_code))]
fn word_entry(payload: &[u8], list: Part, i: usize) -> Option<u16>
    ensures { result ≡ code_entry payload.now list i }
{
    let left = payload.len().saturating_sub(list.start);
    if list.count <= i || left / 2 <= i {
        return None;
    }
    let at = list.start + 2 * i;
    Some(word_of(payload[at], payload[at + 1]))
}

// Not one function with `node_code_at`: it would carry `From<u16>` for both wrappers, with a law, to share one `map`.
pub fn service_code_at(payload: &[u8], list: Part, i: usize) -> Option<ServiceCode>
    ensures { service_code_found result ≡ code_entry payload.now list i }
{
    word_entry(payload, list, i).map(ServiceCode)
}

pub fn node_code_at(payload: &[u8], list: Part, i: usize) -> Option<NodeCode>
    ensures { node_code_found result ≡ code_entry payload.now list i }
{
    word_entry(payload, list, i).map(NodeCode)
}

// The elements in front of it are walked over, since each has two bytes or three.
pub fn block_at(payload: &[u8], list: Part, i: usize) -> Option<FormedElement>
    ensures { block_found result ≡ element_entry payload.now list i }
{
    if list.count <= i {
        return None;
    }
    let mut cursor = Cursor {
        payload,
        at: list.start,
    };
    for _element in 0..i {
        let (_, behind) = cursor.take_element().ok()?;
        cursor = behind;
    }
    let (element, _) = cursor.take_element().ok()?;
    Some(element)
}
