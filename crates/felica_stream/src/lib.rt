// A program's input and output in large pieces: input read behind what is still held, the rest of it moved to the front, and output written where room is
// needed.
#![tactic(auto)]

ghost use Rattle.std.specs.Prelude.{◌≡◌, ◌≤◌, ◌<◌, ◌+◌, ◌-◌, Ok, IfOk, OnOk, OnErr, IsOk, IsErr, length, take, drop};
ghost use Rattle.std.specs.Io.KnownBytes.{Consumes, Keeps, Appends, IsAtEnd};
ghost use Rattle.felica_stream.specs.Held.{moved, still_waiting, RoomMade};

pub mod arguments;
pub mod failure;

use felica_put::Output;
use std::io::{self, ErrorKind, Read, Write};

// Reads once behind the `held` bytes at the front of `input`, which keep their values, and answers how many are held then; where there is no room behind them it reads
// nothing. What is read, how much, and whether that fails, is the reader's.
// `held` stands beside the lent array, since it may be any number: a struct whose ghost field says that it lies inside would ask that of callers. Each program has such a
// struct, `Input`.
#[tactic(auto, using(crate::proofs::Held::read_behind))]
pub fn read_more<R: Read>(reader: &mut R, input: &mut [u8], held: usize) -> io::Result<usize>
    ensures bytes { IfOk result (λ more. Consumes (R.remaining reader.old) (R.remaining reader.new) (drop held (take more input.new))) }
    ensures end { IfOk result (λ more. more ≡ held → held < length input.old → IsAtEnd (R.remaining reader.new)) }
    ensures counts { IfOk result (λ more. (more ≤ length input.new) × (held ≤ length input.old → held ≤ more)) }
    ensures err { OnErr result (Keeps (R.remaining reader.old) (R.remaining reader.new)) }
    ensures kept { take held input.new ≡ take held input.old }
    ensures full { length input.old ≤ held → (result ≡ Ok (length input.old)) × (input.new ≡ input.old) }
{
    if input.len() <= held {
        return Ok(input.len());
    }
    let got = reader.read(&mut input[held..])?;
    Ok(held + got)
}

// Moves the bytes of `input` from `from` to `end` to its front.
pub fn keep_rest(input: &mut [u8], from: usize, end: usize)
    ensures { input.new ≡ moved input.old from end }
{
    if from <= end && end <= input.len() {
        input.copy_within(from..end, 0);
    }
}

// Writes the first `waiting` bytes of `out` where less than `room` is left behind them, and answers how many of them wait then. Whether a write fails is the writer's;
// bytes that are not there cannot be written. `waiting` stands beside `out` as `held` does above: past the end it is answered by an error.
pub fn write_waiting<W: Write>(
    writer: &mut W,
    out: &[u8],
    waiting: usize,
    room: usize,
) -> io::Result<usize>
    ensures bytes { IfOk result (λ left. Appends (W.contents writer.old) (W.contents writer.new) (take (waiting - left) out.now)) }
    ensures counts { IfOk result (λ left. left ≡ still_waiting (length out.now) waiting room) }
    ensures ok { waiting + room ≤ length out.now → IsOk result }
    ensures missing { length out.now < waiting → IsErr result }
{
    let Some(free) = out.len().checked_sub(waiting) else {
        return Err(ErrorKind::InvalidInput.into());
    };
    if room <= free {
        return Ok(waiting);
    }
    writer.write_all(&out[..waiting])?;
    Ok(0)
}

// The same of what is put into `out`, of which nothing waits where that fails.
pub fn make_room<W: Write>(writer: &mut W, out: &mut Output<u8>, room: usize) -> io::Result<()>
    ensures bytes { OnOk result (Appends (W.contents writer.old) (W.contents writer.new) (take (out.old.len - out.new.len) out.old.room.now)) }
    ensures out { RoomMade out.old out.new room }
    ensures ok { out.old.len + room ≤ length out.old.room.now → IsOk result }
    ensures missing { length out.old.room.now < out.old.len → IsErr result }
{
    let left = write_put(writer, out, room);
    out.len = *left.as_ref().unwrap_or(&0);
    left.map(|_| ())
}

// Borrows the output whole, so that its length can be set behind the write.
fn write_put<W: Write>(writer: &mut W, out: &Output<u8>, room: usize) -> io::Result<usize>
    ensures bytes { IfOk result (λ left. Appends (W.contents writer.old) (W.contents writer.new) (take (out.now.len - left) out.now.room.now)) }
    ensures counts { IfOk result (λ left. left ≡ still_waiting (length out.now.room.now) out.now.len room) }
    ensures ok { out.now.len + room ≤ length out.now.room.now → IsOk result }
    ensures missing { length out.now.room.now < out.now.len → IsErr result }
{
    let bytes = &*out.room;
    write_waiting(writer, bytes, out.len, room)
}
