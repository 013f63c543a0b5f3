// The list reader for C: a payload. include/felica.h says what it promises in words.
#![tactic(auto)]

ghost use Rattle.std.specs.Prelude.{◌≡◌};
ghost use Rattle.felica_format.specs.Read.{read_payload};
ghost use Rattle.felica_lists.specs.Lists.{buffers, listed};
ghost use Rattle.felica_c.specs.Boundary.{lent, told, telling};

use felica_c::answer::FelicaAnswer;
use felica_c::tell::tell;
use felica_lists::buffers::ListBuffers;
use felica_lists::list_payload;

#[unsafe(no_mangle)]
pub extern "C" fn felica_list_payload(
    payload: &[u8],
    first: &mut [u16],
    second: &mut [u16],
    numbers: &mut [u16],
    places: &mut [u8],
    modes: &mut [u8],
    idm: &mut [u8; 8],
    challenge: &mut [u8; 16],
    fields: &mut [u16; 5],
    parts: &mut [usize; 10],
) -> FelicaAnswer
    ensures { (told result (lent idm.new challenge.new fields.new parts.new) ≡ telling 1 payload.now (listed (read_payload payload.now) (buffers first.old second.old numbers.old places.old modes.old)).answer (lent idm.old challenge.old fields.old parts.old)) × (buffers first.new second.new numbers.new places.new modes.new ≡ (listed (read_payload payload.now) (buffers first.old second.old numbers.old places.old modes.old)).buffers) }
{
    let mut buffers = ListBuffers {
        first,
        second,
        numbers,
        places,
        modes,
    };
    let parsed = list_payload(payload, &mut buffers);
    tell(parsed, idm, challenge, fields, parts)
}
