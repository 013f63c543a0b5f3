// Logs: a step over the whole records of a piece of a log, which lists them into a lent buffer, and the lines behind the last record.
#![tactic(auto)]

ghost use Rattle.std.specs.Prelude.{◌≡◌};
ghost use Rattle.felica_log.specs.Step.{lacks_room};

mod ahead;
pub mod end;
pub mod step;

// After so many records reading stops.
pub const MAX_RECORDS: usize = 1_000_000;

// No line of a listing is longer, and neither are the lines behind the last record together.
pub const LINE_ROOM: usize = 128;

// Why a step stops: nothing of the piece is left; 1,000,000 records have been read, and a byte follows; the record is cut off; the buffer has less room than
// `LINE_ROOM`; the totals have no room for a record of 255 blocks.
#[derive(Clone, Copy, Debug, PartialEq, Eq)]
pub enum Stop {
    AtEnd,
    AtLimit,
    AtCut,
    NoRoom,
    TotalsFull,
}

impl Stop {
    // Whether there is more to list, once what was put is out of the buffer.
    pub fn lacks_room(self) -> bool
        ensures { result ≡ lacks_room self }
    {
        self == Self::NoRoom
    }
}
