// A line answered: what it calls for is asked of the parser, the list reader or the writer, and the answer is put into a lent buffer.
#![tactic(auto)]

ghost use Rattle.felica_answering.specs.Answers.{CallPut, LinePut};

mod lists;
mod parse;

use felica_calls::call::{Call, read_call, without_cr};
use felica_calls::fault::put_fault;
use felica_calls::write::behind_code;
use felica_put::Output;
use felica_writing::answer_write;
use lists::answer_list;
use parse::{answer_long, answer_parse};

fn answer_call(line: &[u8], bytes: &mut [u8], out: &mut Output<u8>)
    ensures { CallPut line.now bytes.old out.old out.new }
{
    match read_call(line, bytes) {
        Ok(Call::Parse(source, count)) => answer_parse(source, &bytes[..count], out),
        Ok(Call::Long(source, count)) => answer_long(source, &bytes[..count], out),
        Ok(Call::List(source, count, sizes)) => answer_list(source, &bytes[..count], sizes, out),
        Ok(Call::Write(size, code)) => answer_write(size, code, behind_code(line), out),
        Err(fault) => put_fault(out, fault),
    }
}

// Bytes of the longest call, and the room for the longest answer and its line feed, `answer_room` of the definitions: a package of so many bytes in digits, and the fields before it.
pub const MAX_CALL_BYTES: usize = 16384;

pub const ANSWER_ROOM: usize = 33024;

// An empty line is answered too, so that there is a line for each line. The bytes of a call are read to a lent buffer: one of `MAX_CALL_BYTES` has room for the longest call.
pub fn answer_line(line: &[u8], bytes: &mut [u8], out: &mut Output<u8>)
    ensures { LinePut line.now bytes.old out.old out.new }
{
    answer_call(without_cr(line), bytes, out);
    out.put(b'\n');
}
