// The line of one frame in a listing, put into a lent buffer.
#![tactic(auto)]

ghost use Rattle.std.specs.Prelude.{◌≡◌};
ghost use Rattle.felica_format.specs.Read.{read_frame};
ghost use Rattle.felica_command.specs.Meaning.{meaning};
ghost use Rattle.felica_command.specs.Places.{places_of, Inside};
ghost use Rattle.felica_put.specs.Output.{Puts};
ghost use Rattle.felica_line.specs.Line.{frame_text, record_line, accepted_blocks};

mod accepted;

use accepted::put_accepted;
use felica_command::command::{Parsed, Refusal};
use felica_fields::refusal::put_refusal;
use felica_frame::{parse_frame, payload_of};
use felica_put::Output;
use felica_text::put::put_decimal;

// How many blocks the frame has, if it is accepted.
pub fn put_frame_line(out: &mut Output<u8>, ordinal: usize, frame: &[u8]) -> Option<usize>
    ensures line { Puts out.old out.new (record_line ordinal (read_frame frame.now)) }
    ensures blocks { result ≡ accepted_blocks (read_frame frame.now) }
{
    put_decimal(out, ordinal);
    out.put(b' ');
    let blocks = put_result(out, payload_of(frame), parse_frame(frame));
    out.put(b'\n');
    blocks
}

// What the parser gave for the payload, without ordinal and line feed.
fn put_result(
    out: &mut Output<u8>,
    payload: &[u8],
    parsed: Result<Parsed, Refusal>,
) -> Option<usize>
    requires { Inside payload.now (places_of parsed) }
    ensures text { Puts out.old out.new (frame_text (meaning payload.now parsed)) }
    ensures blocks { result ≡ accepted_blocks (meaning payload.now parsed) }
{
    match parsed {
        Ok(parsed) => {
            let lists = parsed.command.lists();
            put_accepted(
                out,
                parsed.command.command_code(),
                payload,
                lists,
                parsed.long,
            );
            Some(lists.block_list.count)
        }
        Err(refusal) => {
            put_refusal(out, refusal);
            None
        }
    }
}
