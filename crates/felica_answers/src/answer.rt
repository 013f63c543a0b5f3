// The line that answers a call of the parser: `OK`, the code and the fields of the command, or `NO`, the number of the refusal and the code.
ghost use Rattle.std.specs.Prelude.{◌≡◌};
ghost use Rattle.felica_put.specs.Output.{Puts};
ghost use Rattle.felica_answers.specs.Answer.{command_text, line_of};

use crate::fields::put_fields;
use felica_command::command::{Parsed, Refusal};
use felica_fields::refusal::put_refusal;
use felica_put::Output;
use felica_text::put::put_hex_byte;

// The payload is the one that the places in `parsed` count from: of a frame, the bytes behind its length byte.
pub fn put_answer(out: &mut Output<u8>, payload: &[u8], parsed: Result<Parsed, Refusal>)
    ensures { Puts out.old out.new (line_of payload.now parsed) }
{
    match parsed {
        Ok(parsed) => put_command(out, payload, parsed),
        Err(refusal) => put_refusal(out, refusal),
    }
}

fn put_command(out: &mut Output<u8>, payload: &[u8], parsed: Parsed)
    ensures { Puts out.old out.new (command_text payload.now parsed.idm parsed.challenge parsed.command) }
{
    out.put_all(b"OK ");
    put_hex_byte(out, parsed.command.command_code());
    put_fields(out, payload, parsed);
}
