// What stands at the front of the rest of a piece.
ghost use Rattle.std.specs.Prelude.{◌≡◌};
ghost use Rattle.felica_log.specs.Ahead.{ahead_of};

use crate::{LINE_ROOM, MAX_RECORDS, Stop};
use felica_format::constants::MAX_BLOCK_COUNT;
use felica_totals::Totals;

// The size byte of the record to be listed next, or why there is none. `room` is how many bytes can still be put into the buffer.
#[tactic(auto, using(crate::proofs::Turn::ahead_none, crate::proofs::Turn::ahead_some, std::proofs::lemmas::Bool::Decides::nat_tests))]
pub(crate) fn look_ahead(rest: &[u8], room: usize, totals: Totals) -> Result<u8, Stop>
    ensures { result ≡ ahead_of rest.now room totals }
{
    let [size, behind @ ..] = rest else {
        return Err(Stop::AtEnd);
    };
    if MAX_RECORDS <= totals.records {
        return Err(Stop::AtLimit);
    }
    if behind.len() < usize::from(*size) {
        return Err(Stop::AtCut);
    }
    if room < LINE_ROOM {
        return Err(Stop::NoRoom);
    }
    if !totals.has_room(usize::from(MAX_BLOCK_COUNT)) {
        return Err(Stop::TotalsFull);
    }
    Ok(*size)
}
