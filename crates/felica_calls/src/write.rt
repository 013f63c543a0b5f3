// A call of the writer: the size of its buffer, a command code, and the fields of the command.
ghost use Rattle.std.specs.Prelude.{◌≡◌};
ghost use Rattle.felica_calls.specs.Write.{write_of, behind_code};

use crate::call::Call;
use crate::fault::Fault;
use crate::field::{Fields, behind_field, behind_next};
use crate::number::read_number;
use crate::source::read_code;

// The longest buffer that the writer is lent.
pub const MAX_ROOM: usize = 16384;

pub(crate) fn read_write(rest: &[u8]) -> Result<Call, Fault>
    ensures { result ≡ write_of rest.now }
{
    let mut fields = Fields { rest };
    let room = read_number(fields.take_next(), MAX_ROOM)?;
    let code = read_code(fields.take_next())?;
    Ok(Call::Write(room, code))
}

// What follows the command code.
pub fn behind_code(line: &[u8]) -> &[u8]
    ensures { result.now ≡ behind_code line.now }
{
    behind_next(behind_next(behind_field(line)))
}
