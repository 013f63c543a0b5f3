// The lengths behind a call of the list reader.
ghost use Rattle.std.specs.Prelude.{◌≡◌};
ghost use Rattle.felica_calls.specs.Sizes.{read_sizes};

use crate::fault::Fault;
use crate::field::Fields;
use crate::number::read_number;

// The longest buffer that is lent. The longest list has 255 entries.
pub const MAX_LENT: usize = 1024;

// The lengths of the five buffers that are lent.
#[derive(Clone, Copy, Debug, PartialEq, Eq)]
pub struct Sizes {
    pub first: usize,
    pub second: usize,
    pub numbers: usize,
    pub places: usize,
    pub modes: usize,
}

// Five lengths, each behind a space, and nothing behind them.
#[tactic(auto, unfolding(crate::specs::Sizes::read_sizes))]
pub(crate) fn read_sizes(text: &[u8]) -> Result<Sizes, Fault>
    ensures { result ≡ read_sizes text.now }
{
    let mut fields = Fields { rest: text };
    let sizes = Sizes {
        first: read_number(fields.take_next(), MAX_LENT)?,
        second: read_number(fields.take_next(), MAX_LENT)?,
        numbers: read_number(fields.take_next(), MAX_LENT)?,
        places: read_number(fields.take_next(), MAX_LENT)?,
        modes: read_number(fields.take_next(), MAX_LENT)?,
    };
    if !fields.rest.is_empty() {
        return Err(Fault::ExtraField);
    }
    Ok(sizes)
}
