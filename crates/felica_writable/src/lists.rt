// The lists. Their entries are in range by their types, but for places and modes.
ghost use Rattle.std.specs.Prelude.{◌≡◌, leb};
ghost use Rattle.felica_format.specs.Basic.{◌and◌, all_below};
ghost use Rattle.felica_format.specs.Command.{zip_elements};
ghost use Rattle.felica_format.specs.Writable.{codes_ok, same_length, elements_ok, data_ok, package_ok};
ghost use Rattle.felica_layout.specs.Layout.{codes_meant, behind_meant};

use felica_format::constants::{BLOCK_SIZE, Bounds, MAX_BLOCK_COUNT, MIN_BLOCK_COUNT};
use felica_layout::Behind;

pub(crate) fn codes_ok(codes: Option<Bounds>, list: &[u16]) -> bool
    ensures { result ≡ codes_ok (codes_meant codes) list.now }
{
    match codes {
        None => list.is_empty(),
        Some(bounds) => is_between(bounds.least, list.len(), bounds.greatest),
    }
}

fn is_between(least: u8, count: usize, greatest: u8) -> bool
    ensures { result ≡ (leb least count and leb count greatest) }
{
    (usize::from(least)..=usize::from(greatest)).contains(&count)
}

// The three lists of a block list: of one length, with places below 16 and modes below 8.
// Three parameters and no `Handed` (tried): of a slice that is a parameter the check knows that its entries fit their type, of one in a struct it does not.
pub(crate) fn elements_ok(present: bool, numbers: &[u16], places: &[u8], modes: &[u8]) -> bool
    ensures { result ≡ (same_length numbers.now places.now modes.now and elements_ok present (zip_elements numbers.now places.now modes.now)) }
{
    let count = numbers.len();
    if places.len() != count || modes.len() != count {
        return false;
    }
    if !present {
        return count == 0;
    }
    is_between(MIN_BLOCK_COUNT, count, MAX_BLOCK_COUNT)
        && all_below(places, 16)
        && all_below(modes, 8)
}

fn all_below(list: &[u8], bound: u8) -> bool
    ensures { result ≡ all_below bound list.now }
{
    list.iter().all(|&entry| entry < bound)
}

// 16 bytes for each of so many elements.
pub(crate) fn data_ok(present: bool, blocks: usize, data: &[u8]) -> bool
    ensures { result ≡ data_ok present blocks «data».now }
{
    if !present {
        return data.is_empty();
    }
    data.len() % BLOCK_SIZE == 0 && data.len() / BLOCK_SIZE == blocks
}

pub(crate) fn package_ok(behind: Option<Behind>, package: &[u8]) -> bool
    ensures { result ≡ package_ok (behind_meant behind) «package».now }
{
    match behind {
        Some(Behind::Package) => true,
        None | Some(Behind::IgnoredBytes) => package.is_empty(),
    }
}
