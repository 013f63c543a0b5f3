// What the bytes of a call are, by its name and, of a secure payload, the command code behind that.
ghost use Rattle.std.specs.Prelude.{◌≡◌};
ghost use Rattle.felica_calls.specs.Source.{read_source, behind_source, read_command_code};

use crate::bytes::{all_digits, byte_of};
use crate::fault::Fault;
use crate::field::{behind_field, behind_next, field_of, next_field};

#[derive(Clone, Copy, Debug, PartialEq, Eq)]
pub enum Source {
    Frame,
    Payload,
    // The decrypted payload of this secure code.
    Secure(u8),
}

#[tactic(auto, unfolding(crate::specs::Source::read_source))]
pub(crate) fn read_source(text: &[u8]) -> Result<Source, Fault>
    ensures { result ≡ read_source text.now }
{
    if text.is_empty() {
        return Err(Fault::MissingField);
    }
    match field_of(text) {
        b"F" => Ok(Source::Frame),
        b"P" => Ok(Source::Payload),
        b"S" => {
            let code = read_code(next_field(behind_field(text)))?;
            Ok(Source::Secure(code))
        }
        _ => Err(Fault::UnknownCall),
    }
}

// A command code in its two digits.
#[tactic(auto, unfolding(crate::specs::Source::read_command_code))]
pub(crate) fn read_code(field: &[u8]) -> Result<u8, Fault>
    ensures { result ≡ read_command_code field.now }
{
    match field {
        [] => Err(Fault::MissingField),
        [high, low] if all_digits(field) => Ok(byte_of(*high, *low)),
        [_, _] => Err(Fault::NoDigit),
        _ => Err(Fault::CodeSize),
    }
}

// What follows the name, and the code of a secure payload.
pub(crate) fn behind_source(text: &[u8], source: Source) -> &[u8]
    ensures { result.now ≡ behind_source source text.now }
{
    match source {
        Source::Frame | Source::Payload => behind_field(text),
        Source::Secure(_) => behind_next(behind_field(text)),
    }
}
