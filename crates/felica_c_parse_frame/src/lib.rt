// The parser for C: a frame. include/felica.h says what it promises in words.
#![tactic(auto)]

ghost use Rattle.std.specs.Prelude.{◌≡◌, drop};
ghost use Rattle.felica_format.specs.Read.{read_frame};
ghost use Rattle.felica_c.specs.Boundary.{lent, told, telling};

use felica_c::answer::FelicaAnswer;
use felica_c::tell::tell;
use felica_frame::parse_frame;

#[unsafe(no_mangle)]
pub extern "C" fn felica_parse_frame(
    frame: &[u8],
    idm: &mut [u8; 8],
    challenge: &mut [u8; 16],
    fields: &mut [u16; 5],
    parts: &mut [usize; 10],
) -> FelicaAnswer
    ensures { told result (lent idm.new challenge.new fields.new parts.new) ≡ telling 1 (drop 1 frame.now) (read_frame frame.now) (lent idm.old challenge.old fields.old parts.old) }
{
    let parsed = parse_frame(frame);
    tell(parsed, idm, challenge, fields, parts)
}
