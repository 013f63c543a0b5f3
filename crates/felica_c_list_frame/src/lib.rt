// The list reader for C: a frame. include/felica.h says what it promises in words.
#![tactic(auto)]

ghost use Rattle.std.specs.Prelude.{◌≡◌, drop};
ghost use Rattle.felica_format.specs.Read.{read_frame};
ghost use Rattle.felica_lists.specs.Lists.{buffers, listed};
ghost use Rattle.felica_c.specs.Boundary.{lent, told, telling};

use felica_c::answer::FelicaAnswer;
use felica_c::tell::tell;
use felica_lists::buffers::ListBuffers;
use felica_lists::list_frame;

#[unsafe(no_mangle)]
pub extern "C" fn felica_list_frame(
    frame: &[u8],
    first: &mut [u16],
    second: &mut [u16],
    numbers: &mut [u16],
    places: &mut [u8],
    modes: &mut [u8],
    idm: &mut [u8; 8],
    challenge: &mut [u8; 16],
    fields: &mut [u16; 5],
    parts: &mut [usize; 10],
) -> FelicaAnswer
    ensures { (told result (lent idm.new challenge.new fields.new parts.new) ≡ telling 1 (drop 1 frame.now) (listed (read_frame frame.now) (buffers first.old second.old numbers.old places.old modes.old)).answer (lent idm.old challenge.old fields.old parts.old)) × (buffers first.new second.new numbers.new places.new modes.new ≡ (listed (read_frame frame.now) (buffers first.old second.old numbers.old places.old modes.old)).buffers) }
{
    let mut buffers = ListBuffers {
        first,
        second,
        numbers,
        places,
        modes,
    };
    let parsed = list_frame(frame, &mut buffers);
    tell(parsed, idm, challenge, fields, parts)
}
