// What an accepted frame is listed by: its code, how many codes and blocks it has and how many of these were long, and a mark for each code.
ghost use Rattle.std.specs.Prelude.{◌≡◌, [], ◌∷◌, ◌++◌};
ghost use Rattle.felica_command.specs.Meaning.{codes_at};
ghost use Rattle.felica_command.specs.Places.{CodesInside};
ghost use Rattle.felica_put.specs.Output.{Puts};
ghost use Rattle.felica_line.specs.Line.{mark_text, marks_text, mark_field, accepted_text};

use felica_command::command::Part;
use felica_command::lists::Lists;
use felica_put::Output;
use felica_text::put::{put_decimal, put_hex_byte};

// The codes are those of two lists of the payload, in field order. That a list lies inside the payload is asked by three functions, and no type says it: a `Part` is public
// and may be any two numbers.
pub(crate) fn put_accepted(out: &mut Output<u8>, code: u8, payload: &[u8], lists: Lists, long: u8)
    requires { CodesInside payload.now lists.first_codes × CodesInside payload.now lists.second_codes }
    ensures { Puts out.old out.new (accepted_text code (codes_at payload.now lists.first_codes ++ codes_at payload.now lists.second_codes) lists.block_list.count long) }
{
    out.put_all(b"OK ");
    put_hex_byte(out, code);
    out.put(b' ');
    put_decimal(out, lists.first_codes.count + lists.second_codes.count);
    out.put(b' ');
    put_decimal(out, lists.block_list.count);
    out.put(b' ');
    put_decimal(out, usize::from(long));
    out.put(b' ');
    put_mark_field(out, payload, lists.first_codes, lists.second_codes);
}

fn put_mark_field(out: &mut Output<u8>, payload: &[u8], first: Part, second: Part)
    requires { CodesInside payload.now first × CodesInside payload.now second }
    ensures { Puts out.old out.new (mark_field (codes_at payload.now first ++ codes_at payload.now second)) }
{
    if first.count + second.count == 0 {
        out.put(b'-');
        return;
    }
    put_marks(out, payload, first);
    put_marks(out, payload, second);
}

fn put_marks(out: &mut Output<u8>, payload: &[u8], list: Part)
    requires { CodesInside payload.now list }
    ensures { Puts out.old out.new (marks_text (codes_at payload.now list)) }
{
    for code in &payload[list.start..].as_chunks::<2>().0[..list.count] {
        out.put(mark_of(u16::from_le_bytes(*code)));
    }
}

// The system, an area, a service that needs no key, or one that needs one.
fn mark_of(code: u16) -> u8
    ensures { result ∷ [] ≡ mark_text code }
{
    if code == 0xFFFF {
        b's'
    } else if code % 64 < 2 {
        b'a'
    } else if code % 2 == 1 {
        b'o'
    } else {
        b'k'
    }
}
