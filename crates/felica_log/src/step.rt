// A step over a piece of a log.
ghost use Rattle.std.specs.Prelude.{◌≡◌};
ghost use Rattle.felica_put.specs.Output.{held};
ghost use Rattle.felica_log.specs.Step.{reached, step};

use crate::Stop;
use crate::ahead::look_ahead;
use felica_line::put_frame_line;
use felica_put::Output;
use felica_totals::Totals;

// How far a step came: the bytes of the piece that are listed, and why it stopped.
#[derive(Clone, Copy, Debug, PartialEq, Eq)]
pub struct Progress {
    pub used: usize,
    pub stop: Stop,
}

// Lists the whole records at the front of `piece` into `out`, which stays the same room: that is said beside `reached`, which speaks of
// what it holds. `totals` are those of the records before it, and count these too.
pub fn list_records(piece: &[u8], out: &mut Output<u8>, totals: &mut Totals) -> Progress
    ensures same_reference { out.new.room.ghost_name ≡ out.old.room.ghost_name }
    ensures reached { reached (held out.new) totals.new result.used result.stop ≡ step (held out.old) totals.old piece.now }
{
    // By its index, which is part of the answer: a record says its own length, and no iterator of std walks by that.
    let mut used = 0;
    loop {
        let rest = &piece[used..];
        let room = out.room.len().saturating_sub(out.len);
        let size = match look_ahead(rest, room, *totals) {
            Ok(size) => size,
            Err(stop) => return Progress { used, stop },
        };
        let end = usize::from(size) + 1;
        totals.count(put_frame_line(out, totals.records + 1, &rest[1..end]));
        used += end;
    }
}
