// Decimal numbers.
ghost use Rattle.std.specs.Prelude.{◌≡◌};
ghost use Rattle.felica_calls.specs.Number.{all_decimal, read_number};

use crate::fault::Fault;

// A field as a length of at most `most`. Digits are added up only until they pass it, so that no sum overflows.
// Not by `parse`: it takes a `str`, for which the bytes would be tested a second time, and knows no bound but the width.
#[tactic(auto, unfolding(crate::specs::Number::read_number))]
pub(crate) fn read_number(field: &[u8], most: usize) -> Result<usize, Fault>
    ensures { result ≡ read_number most field.now }
{
    if field.is_empty() {
        return Err(Fault::MissingField);
    }
    if !all_decimal(field) {
        return Err(Fault::NoNumber);
    }
    let mut value = 0;
    for &byte in field {
        let digit = usize::from(byte - b'0');
        if most < digit || (most - digit) / 10 < value {
            return Err(Fault::BufferTooLong);
        }
        value = 10 * value + digit;
    }
    Ok(value)
}

#[tactic(auto, unfolding(crate::specs::Number::all_decimal))]
fn all_decimal(field: &[u8]) -> bool
    ensures { result ≡ all_decimal field.now }
{
    field.iter().all(|byte| byte.is_ascii_digit())
}
