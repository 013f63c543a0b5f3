// The line that answers a call of the writer.
ghost use Rattle.std.specs.Prelude.{◌≡◌};
ghost use Rattle.felica_put.specs.Output.{Puts};
ghost use Rattle.felica_write.specs.Writing.{meaning, outcome};
ghost use Rattle.felica_answers.specs.Written.{bytes_line, written_line};

use crate::lists::front;
use felica_command::command::Refusal;
use felica_fields::refusal::put_refusal;
use felica_put::Output;
use felica_text::put::{put_decimal, put_hex};

// The bytes stand at the front of the buffer that the writer was lent.
pub fn put_written(out: &mut Output<u8>, written: Result<usize, Refusal>, room: &[u8])
    ensures { Puts out.old out.new (written_line (outcome (meaning written) room.now)) }
{
    match written {
        Ok(count) => put_count_and_bytes(out, count, front(room, count)),
        Err(refusal) => put_refusal(out, refusal),
    }
}

// The count beside the bytes: a caller may tell more than the buffer holds.
fn put_count_and_bytes(out: &mut Output<u8>, count: usize, bytes: &[u8])
    ensures { Puts out.old out.new (bytes_line count bytes.now) }
{
    out.put_all(b"OK ");
    put_decimal(out, count);
    out.put(b' ');
    put_hex(out, bytes);
}
