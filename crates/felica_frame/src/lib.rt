// The port of parse_frame of command/parse.rs.
#![tactic(auto)]

ghost use Rattle.std.specs.Prelude.{◌≡◌, drop};
ghost use Rattle.felica_format.specs.Read.{read_frame};
ghost use Rattle.felica_command.specs.Places.{ParserAccount};

use felica_command::command::{Parsed, Refusal};
use felica_format::error::Reason;
use felica_parse::parse_payload;

// The length byte counts itself. The places of the parts count from the first byte behind it.
pub fn parse_frame(frame: &[u8]) -> Result<Parsed, Refusal>
    ensures { ParserAccount (drop 1 frame.now) 1 (read_frame frame.now) result }
{
    let Some((&expected_len, payload)) = frame.split_first() else {
        return Err(Refusal::without_code(Reason::EmptyFrame));
    };
    if usize::from(expected_len) != frame.len() {
        return Err(Refusal::without_code(Reason::LengthByteWrong));
    }
    parse_payload(payload)
}

// The bytes that the places in a result of `parse_frame` count from.
pub fn payload_of(frame: &[u8]) -> &[u8]
    ensures { result.now ≡ drop 1 frame.now }
{
    frame.get(1..).unwrap_or(frame)
}
