// The answers to lines, as far as they wait to be written.
ghost use Rattle.std.specs.Prelude.{◌≡◌, ◌≤◌, false, OnOk, IfOk, length, drop, ◌-◌, ◌++◌, List, ℕ};
ghost use Rattle.felica_put.specs.Output.{held};
ghost use Rattle.felica_answering.specs.Answers.{max_call_bytes};
ghost use Rattle.felica.specs.Lines.{max_line};
ghost use Rattle.felica.specs.Room.{input_size, HasAnswerRoom};
ghost use Rattle.felica.specs.Held.{Passed, LineAnswered, AllAnswered};

use felica_answering::{ANSWER_ROOM, answer_line};
use felica_calls::fault::{Fault, put_fault};
use felica_put::Output;
use felica_stream::make_room;
use felica_text::find::find;
use std::io::{self, Write};

// The answers that wait, and the buffer that the bytes of a call are read to.
#[derive(Drop)]
pub(crate) struct Waiting<'a> {
    pub(crate) out: Output<'a, u8>,
    pub(crate) bytes: &'a mut [u8],
    pub(crate) ghost room: { HasAnswerRoom out },
    pub(crate) ghost bytes_size: { length bytes.now ≡ max_call_bytes },
}

// Answers a line, or the rest of one that is too long, in room that is made for it first. Here and below writer, line and waiting are lent one by one: a method of one struct could
// not lend a line of its input and change the rest of it at once.
pub(crate) fn answer_next<W: Write>(
    writer: &mut W,
    line: &[u8],
    too_long: bool,
    waiting: &mut Waiting,
) -> io::Result<()>
    requires { too_long ≡ false → length line.now ≤ max_line }
    ensures { OnOk result ((passed : List ℕ) → Passed too_long passed → LineAnswered (W.contents writer.old) (held waiting.old.out) (passed ++ line.now) (W.contents writer.new) (held waiting.new.out)) }
{
    make_room(writer, &mut waiting.out, ANSWER_ROOM)?;
    if too_long {
        put_fault(&mut waiting.out, Fault::LineTooLong);
        waiting.out.put(b'\n');
    } else {
        answer_line(line, &mut *waiting.bytes, &mut waiting.out);
    }
    Ok(())
}

// Answers the lines that end in `input`, and says how many bytes are behind them. The first is the rest of one that is too long where `too_long` says so.
pub(crate) fn answer_lines<W: Write>(
    writer: &mut W,
    input: &[u8],
    too_long: &mut bool,
    waiting: &mut Waiting,
) -> io::Result<usize>
    requires { length input.now ≤ input_size }
    ensures { IfOk result (λ left. (left ≤ length input.now) × AllAnswered (W.contents writer.old) (held waiting.old.out) too_long.old input.now (W.contents writer.new) (held waiting.new.out) too_long.new (drop (length input.now - left) input.now)) }
{
    let mut rest = input;
    // Not `split`: it would give what stands behind the last line feed as a line too, and that is the rest.
    while let Some(end) = find(rest, b'\n') {
        answer_next(writer, &rest[..end], *too_long, waiting)?;
        *too_long = false;
        rest = &rest[end + 1..];
    }
    Ok(rest.len())
}
