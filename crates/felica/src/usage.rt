// What the program does with words behind its name.
ghost use Rattle.std.specs.Prelude.{◌≡◌, ◌≤◌, OnOk, length};
ghost use Rattle.felica.specs.Lines.{max_line, TakesAnswer};

use crate::waiting::{Waiting, answer_next};
use felica_calls::field::field_of;
use felica_stream::arguments::NOT_KNOWN;
use std::io::{self, Write};
use std::process::ExitCode;

// Bytes of the longest line.
const MAX_LINE: usize = 65535;

const USAGE: &[u8] = b"\
usage: felica < CALLS     answers the calls on its input, a line each
       felica CALL        answers this call alone
       felica --help      says this

A call is F and a frame, P and a payload, or S, a secure code and its payload, in hexadecimal; LONG or L before
one of these asks for its long forms or its lists, and W for a command's bytes (docs/CALLS.md).

       felica F 0600FFFF0000
       printf 'F 0600FFFF0000\\nF 02\\n' | felica
";

// Answers the call that the words say, or says how the program is used. The input is not read.
pub(crate) fn answer_words<W: Write, E: Write>(
    writer: &mut W,
    errors: &mut E,
    words: &[u8],
    waiting: &mut Waiting,
) -> ExitCode
    requires { waiting.old.out.len ≡ 0 }
{
    let answered = if words == b"--help".as_slice() {
        writer.write_all(USAGE)
    } else if words.len() <= MAX_LINE && is_call(words) {
        answer_alone(writer, words, waiting)
    } else {
        let _ = errors.write_all(USAGE);
        return ExitCode::from(NOT_KNOWN);
    };
    if answered.is_ok() {
        return ExitCode::SUCCESS;
    }
    let _ = errors.write_all(b"felica: the answer cannot be written\n");
    ExitCode::FAILURE
}

fn answer_alone<W: Write>(writer: &mut W, line: &[u8], waiting: &mut Waiting) -> io::Result<()>
    requires { (length line.now ≤ max_line) × (waiting.old.out.len ≡ 0) }
    ensures { OnOk result (TakesAnswer line.now (W.contents writer.old) (W.contents writer.new)) }
{
    answer_next(writer, line, false, waiting)?;
    writer.write_all(waiting.out.filled())
}

// Whether the words begin as a call does. A line feed in them would make two lines of them.
fn is_call(words: &[u8]) -> bool {
    matches!(field_of(words), b"F" | b"P" | b"S" | b"LONG" | b"L" | b"W") && !words.contains(&b'\n')
}
