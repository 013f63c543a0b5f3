// The list reader. It parses, then writes first codes, second codes, block numbers, service places and access modes to the front of five lent buffers. Where one
// is shorter than its list, it gives 21 and writes nothing.
#![tactic(auto)]

ghost use Rattle.std.specs.Prelude.{◌≡◌, drop};
ghost use Rattle.felica_format.specs.Read.{read_frame, read_payload, read_secure};
ghost use Rattle.felica_command.specs.Places.{places_of, Inside};
ghost use Rattle.felica_lists.specs.Fill.{given, give};
ghost use Rattle.felica_lists.specs.Lent.{held, SameReferences};
ghost use Rattle.felica_lists.specs.Rules.{ListAccount};

pub mod buffers;
mod fill;

use buffers::ListBuffers;
use felica_command::command::{Parsed, Refusal};
use felica_frame::{parse_frame, payload_of};
use felica_parse::parse_payload;
use felica_secure::parse_secure_payload;
use fill::fill;

// A frame.
pub fn list_frame(frame: &[u8], out: &mut ListBuffers) -> Result<Parsed, Refusal>
    ensures same_references { SameReferences out.old out.new }
    ensures listed { ListAccount (drop 1 frame.now) 1 (read_frame frame.now) (held out.old) result (held out.new) }
{
    list_parsed(payload_of(frame), parse_frame(frame), out)
}

// A payload.
pub fn list_payload(payload: &[u8], out: &mut ListBuffers) -> Result<Parsed, Refusal>
    ensures same_references { SameReferences out.old out.new }
    ensures listed { ListAccount payload.now 1 (read_payload payload.now) (held out.old) result (held out.new) }
{
    list_parsed(payload, parse_payload(payload), out)
}

// A secure code with its decrypted payload.
pub fn list_secure_payload(
    command_code: u8,
    payload: &[u8],
    out: &mut ListBuffers,
) -> Result<Parsed, Refusal>
    ensures same_references { SameReferences out.old out.new }
    ensures listed { ListAccount payload.now 0 (read_secure command_code payload.now) (held out.old) result (held out.new) }
{
    list_parsed(payload, parse_secure_payload(command_code, payload), out)
}

fn list_parsed(
    payload: &[u8],
    parsed: Result<Parsed, Refusal>,
    out: &mut ListBuffers,
) -> Result<Parsed, Refusal>
    requires { Inside payload.now (places_of parsed) }
    ensures same_references { SameReferences out.old out.new }
    ensures given { given result (held out.new) ≡ give payload.now parsed (held out.old) }
{
    let parsed = parsed?;
    fill(payload, parsed.command.lists(), out).map_err(|reason| Refusal::of_command(
        reason,
        parsed.command.command_code(),
    ))?;
    Ok(parsed)
}
