// The parser for C: a secure code with its decrypted payload. include/felica.h says what it promises in words.
#![tactic(auto)]

ghost use Rattle.std.specs.Prelude.{◌≡◌};
ghost use Rattle.felica_format.specs.Read.{read_secure};
ghost use Rattle.felica_c.specs.Boundary.{lent, told, telling};

use felica_c::answer::FelicaAnswer;
use felica_c::tell::tell;
use felica_secure::parse_secure_payload;

#[unsafe(no_mangle)]
pub extern "C" fn felica_parse_secure_payload(
    command_code: u8,
    payload: &[u8],
    idm: &mut [u8; 8],
    challenge: &mut [u8; 16],
    fields: &mut [u16; 5],
    parts: &mut [usize; 10],
) -> FelicaAnswer
    ensures { told result (lent idm.new challenge.new fields.new parts.new) ≡ telling 0 payload.now (read_secure command_code payload.now) (lent idm.old challenge.old fields.old parts.old) }
{
    let parsed = parse_secure_payload(command_code, payload);
    tell(parsed, idm, challenge, fields, parts)
}
