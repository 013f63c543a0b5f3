// The four running totals of a listing.
#![tactic(auto)]

ghost use Rattle.std.specs.Prelude.{◌≡◌};
ghost use Rattle.felica_totals.specs.Count.{no_totals, has_room, counted_within, counted_record};

#[derive(Clone, Copy, Debug, Default, PartialEq, Eq)]
pub struct Totals {
    pub records: usize,
    pub accepted: usize,
    pub refused: usize,
    // In accepted frames.
    pub blocks: usize,
}

impl Totals {
    pub fn new() -> Totals
        ensures { result ≡ no_totals }
    {
        Totals::default()
    }

    // Whether one more record of so many blocks can be counted, accepted or refused, without a sum past its width.
    pub fn has_room(self, blocks: usize) -> bool
        ensures { result ≡ has_room self blocks }
    {
        self.records < usize::MAX
            && self.accepted < usize::MAX
            && self.refused < usize::MAX
            && blocks <= usize::MAX - self.blocks
    }

    // After one more record, of so many blocks where it was accepted; without room for it, as they were.
    pub fn counted(self, accepted: Option<usize>) -> Totals
        ensures { result ≡ counted_record self accepted }
    {
        match accepted {
            Some(blocks) => after_record(self, true, blocks),
            None => after_record(self, false, 0),
        }
    }

    // Document 01 asks for totals by value first, and for one thin function that lends them.
    pub fn count(&mut self, accepted: Option<usize>)
        ensures { self.new ≡ counted_record self.old accepted }
    {
        *self = self.counted(accepted);
    }
}

// The totals after one more record. Its blocks have to find room whether it was accepted or refused; they are counted where it was accepted. Without room the totals stay as
// they were.
pub fn after_record(totals: Totals, accepted: bool, blocks: usize) -> Totals
    ensures { result ≡ counted_within totals accepted blocks }
{
    if !totals.has_room(blocks) {
        return totals;
    }
    let records = totals.records + 1;
    let sum = totals.blocks + blocks;
    if accepted {
        Totals {
            records,
            accepted: totals.accepted + 1,
            blocks: sum,
            ..totals
        }
    } else {
        Totals {
            records,
            refused: totals.refused + 1,
            ..totals
        }
    }
}

// Brings lent totals up to date.
pub fn count_record(totals: &mut Totals, accepted: bool, blocks: usize)
    ensures { totals.new ≡ counted_within totals.old accepted blocks }
{
    *totals = after_record(*totals, accepted, blocks);
}
