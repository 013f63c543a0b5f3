// The writer for C. include/felica.h says what it promises in words, and has these parameters.
#![tactic(auto)]

ghost use Rattle.std.specs.Prelude.{◌≡◌};
ghost use Rattle.felica_command.specs.Handed.{handed};
ghost use Rattle.felica_write.specs.Writing.{writing};
ghost use Rattle.felica_c.specs.Boundary.{fixed, written_answer};

use felica_c::answer::FelicaWritten;
use felica_c::tell::unwritten;
use felica_command::fixed::Fixed;
use felica_writable::handed::Handed;
use felica_write::write;

#[unsafe(no_mangle)]
pub extern "C" fn felica_write(
    code: u8,
    idm: &[u8; 8],
    challenge: &[u8; 16],
    selector: u8,
    number: u16,
    index: u16,
    option: u8,
    choice: u8,
    first: &[u16],
    second: &[u16],
    numbers: &[u16],
    places: &[u8],
    modes: &[u8],
    data: &[u8],
    package: &[u8],
    out: &mut [u8],
) -> FelicaWritten
    ensures { (result ≡ written_answer (writing (handed code (fixed idm.now challenge.now selector number index option choice) first.now second.now numbers.now places.now modes.now «data».now «package».now) out.old).answer) × (out.new ≡ (writing (handed code (fixed idm.now challenge.now selector number index option choice) first.now second.now numbers.now places.now modes.now «data».now «package».now) out.old).buffer) }
{
    let fixed = Fixed {
        idm: *idm,
        selector,
        number,
        index,
        option,
        choice,
        challenge: *challenge,
    };
    let command = Handed {
        code,
        fixed,
        first,
        second,
        numbers,
        places,
        modes,
        data,
        package,
    };
    match write(command, out) {
        Ok(length) => FelicaWritten { refusal: 0, length },
        Err(why) => unwritten(why),
    }
}
