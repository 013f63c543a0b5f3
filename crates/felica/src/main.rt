// Answers calls: reads them on standard input, a line each, and writes a line for each to standard output.
#![tactic(auto)]

ghost use Rattle.std.specs.Prelude.{◌≡◌, ◌≤◌, ◌<◌, true, false, OnOk, IfOk, length, take, drop};
ghost use Rattle.std.specs.Process.{exit_status};
ghost use Rattle.std.specs.Io.KnownBytes.{Consumes, IsAtEnd};
ghost use Rattle.felica_put.specs.Output.{held};
ghost use Rattle.felica.specs.Lines.{TakesAnswers};
ghost use Rattle.felica.specs.Room.{input_size};
ghost use Rattle.felica.specs.Held.{bytes_in, AllAnswered, AllRead, LastAnswered};

mod input;
mod usage;
mod waiting;

use felica_answering::MAX_CALL_BYTES;
use felica_put::Output;
use felica_stream::arguments::join_arguments;
use felica_stream::failure::{Failure, status_of};
use felica_stream::{keep_rest, make_room, read_more};
use input::Input;
use std::io::{self, Read, Write};
use std::process::ExitCode;
use usage::answer_words;
use waiting::{Waiting, answer_lines, answer_next};

// Answers the lines that end in what is held, and moves the rest to the front. The rest of a line that fills the buffer, or that is too long already, is passed over.
fn answer_held<W: Write>(writer: &mut W, input: &mut Input, waiting: &mut Waiting) -> io::Result<()>
    ensures answered { OnOk result (AllAnswered (W.contents writer.old) (held waiting.old.out) input.old.too_long (bytes_in input.old) (W.contents writer.new) (held waiting.new.out) input.new.too_long (bytes_in input.new)) }
    ensures room { OnOk result (input.new.held < input_size) }
{
    let end = input.held;
    let room = &mut *input.room;
    let left = answer_lines(writer, &room[..end], &mut input.too_long, waiting)?;
    if input.too_long || left == room.len() {
        input.too_long = true;
        input.held = 0;
    } else {
        keep_rest(room, end - left, end);
        input.held = left;
    }
    Ok(())
}

// Reads once behind what is held, and answers whether the input has ended: there is room to read into, so that a read which brings nothing is its end.
fn read_piece<R: Read>(reader: &mut R, input: &mut Input) -> io::Result<bool>
    requires { input.old.held < input_size }
    ensures bytes { OnOk result (Consumes (R.remaining reader.old) (R.remaining reader.new) (drop input.old.held (bytes_in input.new))) }
    ensures end { IfOk result (λ ended. ended ≡ true → IsAtEnd (R.remaining reader.new)) }
    ensures more { IfOk result (λ ended. ended ≡ false → input.old.held < input.new.held) }
    ensures kept { OnOk result ((input.old.held ≤ input.new.held) × (take input.old.held input.new.room.now ≡ bytes_in input.old)) }
    ensures line { input.new.too_long ≡ input.old.too_long }
{
    let end = input.held;
    let more = read_more(reader, &mut *input.room, end)?;
    input.held = more;
    Ok(more == end)
}

// Reads the calls and answers every line that ends, until what is held is the last line, which does not. What waits is written before each read: it may be what the other side waits
// for before it writes on. A proved loop has to end, and nothing says that the input does: the turns are counted.
fn feed<R: Read, W: Write>(
    reader: &mut R,
    writer: &mut W,
    input: &mut Input,
    waiting: &mut Waiting,
) -> Result<(), Failure>
    requires started { (input.old.held ≡ 0) × (input.old.too_long ≡ false) × (waiting.old.out.len ≡ 0) }
    ensures room { OnOk result (input.new.held < input_size) }
    ensures all { OnOk result (AllRead (R.remaining reader.old) (R.remaining reader.new) (W.contents writer.old) (W.contents writer.new) (held waiting.new.out) input.new.too_long (bytes_in input.new)) }
{
    for _ in 0..u64::MAX {
        let all = waiting.out.room.len();
        make_room(writer, &mut waiting.out, all).map_err(|_| Failure::Write)?;
        let ended = read_piece(reader, input).map_err(|_| Failure::Read)?;
        answer_held(writer, input, waiting).map_err(|_| Failure::Write)?;
        if ended {
            return Ok(());
        }
    }
    Ok(())
}

// Answers what is held as the last line, if there is one.
fn answer_last<W: Write>(writer: &mut W, input: &mut Input, waiting: &mut Waiting) -> io::Result<()>
    requires { input.old.held < input_size }
    ensures { OnOk result (LastAnswered (W.contents writer.old) (held waiting.old.out) input.old.too_long (bytes_in input.old) (W.contents writer.new) (held waiting.new.out)) }
{
    let end = input.held;
    if end == 0 && !input.too_long {
        return Ok(());
    }
    let room = &mut *input.room;
    answer_next(writer, &room[..end], input.too_long, waiting)
}

// Answers all calls.
fn answer_all<R: Read, W: Write>(
    reader: &mut R,
    writer: &mut W,
    input: &mut Input,
    waiting: &mut Waiting,
) -> Result<(), Failure>
    requires { (input.old.held ≡ 0) × (input.old.too_long ≡ false) × (waiting.old.out.len ≡ 0) }
    ensures { OnOk result (TakesAnswers (R.remaining reader.old) (W.contents writer.old) (W.contents writer.new)) }
{
    feed(reader, writer, input, waiting)?;
    answer_last(writer, input, waiting).map_err(|_| Failure::Write)?;
    writer
        .write_all(waiting.out.filled())
        .map_err(|_| Failure::Write)
}

// Answers the calls; where not all are answered, the status is not 0. The arrays are lent by `main`, since there is no heap.
fn run<R: Read, W: Write, E: Write>(
    reader: &mut R,
    writer: &mut W,
    errors: &mut E,
    input: &mut [u8],
    waiting: &mut Waiting,
) -> ExitCode
    requires { (length input.old ≡ input_size) × (waiting.old.out.len ≡ 0) }
    ensures { exit_status result ≡ 0 → TakesAnswers (R.remaining reader.old) (W.contents writer.old) (W.contents writer.new) }
{
    let mut input = Input {
        room: input,
        held: 0,
        too_long: false,
    };
    let answered = answer_all(reader, writer, &mut input, waiting);
    status_of(
        answered,
        errors,
        b"felica: the calls cannot be read\n",
        b"felica: the answers cannot be written\n",
    )
}

fn main(rt: HostRuntime) -> ExitCode {
    let mut input = [0u8; 65536];
    let mut bytes = [0u8; MAX_CALL_BYTES];
    let mut out = [0u8; 65536];
    let mut waiting = Waiting {
        out: Output::new(&mut out),
        bytes: &mut bytes,
    };
    // Words that are too long for a line get the usage, as an empty word does.
    let words = join_arguments(&rt, &mut input).unwrap_or(Some(0));
    match words {
        None => run(
            &mut rt.stdin(),
            &mut rt.stdout(),
            &mut rt.stderr(),
            &mut input,
            &mut waiting,
        ),
        Some(end) => answer_words(
            &mut rt.stdout(),
            &mut rt.stderr(),
            &input[..end],
            &mut waiting,
        ),
    }
}
