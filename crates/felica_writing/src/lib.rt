// Answers to calls of the writer. It is lent a buffer of the size of the call, and the line is put from what stands there then.
#![tactic(auto)]

ghost use Rattle.std.specs.Prelude.{◌≡◌, ◌≤◌, map};
ghost use Rattle.felica_format.specs.Basic.{zeros};
ghost use Rattle.felica_put.specs.Output.{Puts};
ghost use Rattle.felica_calls.specs.Bytes.{bytes_of};
ghost use Rattle.felica_calls.specs.Write.{max_room};
ghost use Rattle.felica_named.specs.Handed.{command_named, front_with};
ghost use Rattle.felica_named.specs.Values.{value_named, numbers_in};
ghost use Rattle.felica_named.specs.Named.{noted_in};
ghost use Rattle.felica_write.specs.Writing.{writing};
ghost use Rattle.felica_answers.specs.Written.{written_line};
ghost use Rattle.felica_writing.specs.Answer.{write_answer};

use felica_answers::written::put_written;
use felica_calls::fault::{Fault, put_fault};
use felica_calls::write::MAX_ROOM;
use felica_named::lists::Number;
use felica_named::names::Field;
use felica_named::notes::Named;
use felica_put::Output;
use felica_writable::handed::Handed;
use felica_write::write;

// The longest lists that a well formed value has: of words in four digits, of numbers in one, and bytes in two. There is no heap, so each is put into an array of that length.
const MAX_WORDS: usize = 1024;

const MAX_SMALL: usize = 2560;

const MAX_BYTES: usize = 16384;

// The fields stand in `text`, behind the command code.
#[tactic(auto, unfolding(crate::specs::Answer::write_answer))]
pub fn answer_write(size: usize, code: u8, text: &[u8], out: &mut Output<u8>)
    ensures { Puts out.old out.new (write_answer size code text.now) }
{
    // No call that was read has such a size; but this function asks nothing of its caller.
    if MAX_ROOM < size {
        put_fault(out, Fault::BufferTooLong);
        return;
    }
    let mut named = Named::unread(text);
    match named.note_fields() {
        Ok(()) => answer_named(size, code, &named, out),
        Err(wrong) => {
            put_fault(out, wrong.fault);
            out.put_all(b": ");
            out.put_all(wrong.name(text));
        }
    }
}

fn answer_named(size: usize, code: u8, named: &Named, out: &mut Output<u8>)
    requires { size ≤ max_room }
    ensures { Puts out.old out.new (written_line (writing (command_named code (noted_in named.now)) (zeros size))) }
{
    let mut first = [0; MAX_WORDS];
    let mut second = [0; MAX_WORDS];
    let mut numbers = [0; MAX_WORDS];
    let mut places = [0; MAX_SMALL];
    let mut modes = [0; MAX_SMALL];
    let mut data = [0; MAX_BYTES];
    let mut package = [0; MAX_BYTES];
    let mut room = [0; MAX_ROOM];
    let command = Handed {
        code,
        fixed: named.fixed(code),
        first: list_in(named, Field::First, &mut first),
        second: list_in(named, Field::Second, &mut second),
        numbers: list_in(named, Field::Numbers, &mut numbers),
        places: list_in(named, Field::Places, &mut places),
        modes: list_in(named, Field::Modes, &mut modes),
        data: bytes_in(named, Field::Data, &mut data),
        package: bytes_in(named, Field::Package, &mut package),
    };
    let lent = &mut room[..size];
    let written = write(command, lent);
    put_written(out, written, lent);
}

// The list of a field, in a lent buffer. What `filled` lends ends with `list`, so that it is cut from `room` again; `bytes_in` does the same.
fn list_in<'a, T: Number>(named: &Named, field: Field, room: &'a mut [T]) -> &'a [T]
    ensures { result.now ≡ front_with room.old (map T.number (numbers_in T.KEPT (value_named (noted_in named.now) field))) }
{
    let mut list = Output::new(room);
    named.numbers(field, &mut list);
    let count = list.filled().len();
    &room[..count]
}

// Its bytes, in a lent buffer. Not one function with `list_in`: the method would be a closure, which the contract would have to describe.
fn bytes_in<'a>(named: &Named, field: Field, room: &'a mut [u8]) -> &'a [u8]
    ensures { result.now ≡ front_with room.old (bytes_of (value_named (noted_in named.now) field)) }
{
    let mut bytes = Output::new(room);
    named.bytes(field, &mut bytes);
    let count = bytes.filled().len();
    &room[..count]
}
