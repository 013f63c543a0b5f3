// A line as a call: a name, then fields, each behind one space. The bytes of a call go to a lent buffer.
ghost use Rattle.std.specs.Prelude.{◌≡◌};
ghost use Rattle.felica_calls.specs.Read.{read};
ghost use Rattle.felica_calls.specs.Call.{called, without_cr, read_asked, read_list, read_call};

use crate::bytes::{read_bytes, read_last};
use crate::fault::Fault;
use crate::field::{Fields, behind_field, behind_space, field_of};
use crate::sizes::{Sizes, read_sizes};
use crate::source::{Source, behind_source, read_source};
use crate::write::read_write;

// What a line calls for. Its bytes are counted and not held: a slice has an address, which the equation of `read_call` could not name.
#[derive(Clone, Copy, Debug, PartialEq, Eq)]
pub enum Call {
    // To parse so many bytes.
    Parse(Source, usize),
    // To tell how many of their elements were long.
    Long(Source, usize),
    // To write their lists to buffers of these lengths.
    List(Source, usize, Sizes),
    // To write a command of this code to a buffer of this size. Its fields stand behind the code.
    Write(usize, u8),
}

// The line without the CR at its end, if one stands there. It is no part of a call.
#[tactic(auto, unfolding(crate::specs::Call::without_cr))]
pub fn without_cr(line: &[u8]) -> &[u8]
    ensures { result.now ≡ without_cr line.now }
{
    line.strip_suffix(b"\r").unwrap_or(line)
}

#[tactic(auto, unfolding(crate::specs::Call::read_call))]
pub fn read_call(line: &[u8], bytes: &mut [u8]) -> Result<Call, Fault>
    ensures { called result bytes.new ≡ read_call line.now bytes.old }
{
    if line.is_empty() {
        return Err(Fault::EmptyLine);
    }
    let rest = behind_field(line);
    match field_of(line) {
        b"L" => read_list(behind_space(rest), bytes),
        b"W" => read_write(rest),
        b"LONG" => {
            let (source, count) = read_asked(behind_space(rest), bytes)?;
            Ok(Call::Long(source, count))
        }
        _ => {
            let (source, count) = read_asked(line, bytes)?;
            Ok(Call::Parse(source, count))
        }
    }
}

// What is asked about: a source, and its bytes as the last field.
#[tactic(auto, unfolding(crate::specs::Call::read_asked))]
fn read_asked(text: &[u8], bytes: &mut [u8]) -> Result<(Source, usize), Fault>
    ensures { read result bytes.new ≡ read_asked text.now bytes.old }
{
    let source = read_source(text)?;
    let count = read_last(behind_source(text, source), bytes)?;
    Ok((source, count))
}

// A source and its bytes, then the lengths of the buffers for its lists. No byte is read before the lengths are seen to be right.
#[tactic(auto, unfolding(crate::specs::Call::read_list))]
fn read_list(text: &[u8], bytes: &mut [u8]) -> Result<Call, Fault>
    ensures { called result bytes.new ≡ read_list text.now bytes.old }
{
    let source = read_source(text)?;
    let mut fields = Fields {
        rest: behind_source(text, source),
    };
    let field = fields.take_next();
    let sizes = read_sizes(fields.rest)?;
    let count = read_bytes(field, bytes)?;
    Ok(Call::List(source, count, sizes))
}
