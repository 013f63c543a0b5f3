// A result, told to a caller that knows bytes and numbers only.
ghost use Rattle.std.specs.Prelude.{◌≡◌};
ghost use Rattle.felica_c.specs.Boundary.{lent, told};
ghost use Rattle.felica_c.specs.Fields.{tell as tell_parsed, unwritten_by};

use crate::answer::{FelicaAnswer, FelicaWritten};
use crate::fields::put_fields;
use felica_command::command::{Parsed, Refusal};

// Where the result is a command, all of `idm`, `challenge`, `fields` and `parts` are written, zero where the command lacks them. A refusal changes no byte.
// Four arrays, as C lends them.
pub fn tell(
    parsed: Result<Parsed, Refusal>,
    idm: &mut [u8; 8],
    challenge: &mut [u8; 16],
    fields: &mut [u16; 5],
    parts: &mut [usize; 10],
) -> FelicaAnswer
    ensures { told result (lent idm.new challenge.new fields.new parts.new) ≡ tell_parsed parsed (lent idm.old challenge.old fields.old parts.old) }
{
    match parsed {
        Ok(parsed) => {
            // By variables: the check knows no array that is copied from field to field.
            let its_idm = parsed.idm;
            let its_challenge = parsed.challenge;
            *idm = its_idm;
            *challenge = its_challenge;
            FelicaAnswer {
                refusal: 0,
                code: put_fields(parsed.command, fields, parts),
                long_count: u16::from(parsed.long),
            }
        }
        Err(why) => FelicaAnswer {
            refusal: why.reason.number(),
            code: why.command_code.unwrap_or(0),
            long_count: 0,
        },
    }
}

// A refusal of the writer.
// Not a `From`: C takes a refusal as a number and 0, and `unwritten` says that nothing is written.
pub fn unwritten(why: Refusal) -> FelicaWritten
    ensures { result ≡ unwritten_by why }
{
    FelicaWritten {
        refusal: why.reason.number(),
        length: 0,
    }
}
