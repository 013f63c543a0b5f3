// The writer: the frame of a plain command and the payload of a secure one, in its shortest form, at the front of a lent buffer.
#![tactic(auto)]

ghost use Rattle.std.specs.Prelude.{◌≡◌};
ghost use Rattle.felica_writable.specs.Handed.{handed_by};
ghost use Rattle.felica_write.specs.Writing.{meaning, outcome, writing};

mod body;
mod head;
mod size;

use body::put_body;
use felica_command::command::Refusal;
use felica_format::error::Reason;
use felica_layout::row_of;
use felica_put::Output;
use felica_writable::body_ok;
use felica_writable::handed::Handed;
use head::{put_head, room_for};
use size::body_size;

// How many bytes stand at the front of the buffer then (a count and no slice, as C gets it); or 22 or 21, with the code handed in, and no byte of the buffer is changed.
// `Fixed` says which fields a code has. A list that it lacks has to be empty and a fixed field zero, else it is 22.
pub fn write(command: Handed<'_>, out: &mut [u8]) -> Result<usize, Refusal>
    ensures { outcome (meaning result) out.new ≡ writing (handed_by command.entry) out.old }
{
    let code = command.code;
    let row = row_of(code);
    if !body_ok(row.layout, command) {
        return Err(Refusal::of_command(Reason::Unwritable, code));
    }
    let size = body_size(row.layout, command);
    room_for(row.class, size, command.package.len(), out.len()).map_err(
        |reason| Refusal::of_command(reason, code),
    )?;
    let mut output = Output::new(out);
    put_head(&mut output, row.class, code, size);
    put_body(&mut output, row.layout, command);
    Ok(output.len)
}
