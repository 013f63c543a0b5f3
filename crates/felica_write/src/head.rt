// What a class asks beyond the body: a frame begins with its size and the code, and has 255 bytes at most.
ghost use Rattle.std.specs.Prelude.{◌≡◌, ◌+◌, ◌≤◌};
ghost use Rattle.felica_format.specs.declared.classes.Class.TheVariants.{Plain};
ghost use Rattle.felica_put.specs.Output.{Puts};
ghost use Rattle.felica_write.specs.Head.{room_for, frame_room, payload_room, head_bytes};

use felica_format::classes::Class;
use felica_format::constants::MAX_PACKET_LEN;
use felica_format::error::Reason;
use felica_put::Output;

// Bytes in front of the body of a frame.
const HEAD_LEN: usize = 2;

// Whether there is room for a body of `size` bytes and a package behind it: 22 where no frame is so long, 21 where the buffer is too small.
pub(crate) fn room_for(class: Class, size: usize, package: usize, room: usize) -> Result<(), Reason>
    ensures { result ≡ room_for class size «package» room }
{
    match class {
        Class::Plain => frame_room(size, room),
        Class::Secure => payload_room(size, package, room),
        Class::Unknown => Err(Reason::Unwritable),
    }
}

// A plain command has no package.
fn frame_room(size: usize, room: usize) -> Result<(), Reason>
    ensures { result ≡ frame_room size room }
{
    if MAX_PACKET_LEN - HEAD_LEN < size {
        return Err(Reason::Unwritable);
    }
    if room < HEAD_LEN + size {
        return Err(Reason::BufferTooSmall);
    }
    Ok(())
}

// A package may be of any length, so that no sum with it is made.
fn payload_room(size: usize, package: usize, room: usize) -> Result<(), Reason>
    ensures { result ≡ payload_room size «package» room }
{
    if room < size || room - size < package {
        return Err(Reason::BufferTooSmall);
    }
    Ok(())
}

#[tactic(auto, unfolding(felica_put::specs::Put::put))]
pub(crate) fn put_head(out: &mut Output<'_, u8>, class: Class, code: u8, size: usize)
    requires { class ≡ Plain → 2 + size ≤ 255 }
    ensures { Puts out.old out.new (head_bytes class code size) }
{
    match class {
        Class::Plain => {
            // One by one: an array of the two is copied as a word, which waits until each of its bytes is stored; that takes 6 ns more of 95.
            out.put((HEAD_LEN + size) as u8);
            out.put(code);
        }
        Class::Secure | Class::Unknown => {}
    }
}
