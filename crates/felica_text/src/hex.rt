// Hexadecimal digits: put in capitals, read in either case.
ghost use Rattle.std.specs.Prelude.{◌≡◌, ◌%◌};
ghost use Rattle.felica_text.specs.Text.{digit_text, digit_of};

// The digit of the low four bits. `char::from_digit` writes small letters, and takes and gives what is no byte.
pub fn hex_digit(value: u8) -> u8
    ensures { result ≡ digit_text (value % 16) }
{
    let low = value % 16;
    if low < 10 {
        b'0' + low
    } else {
        b'A' + (low - 10)
    }
}

// The number of a digit, if the byte is one. `char::to_digit` gives a `u32`, which would have to be cast. A small letter is taken as its capital first: with a third range
// the compiler jumps by each digit, which a processor can't foresee.
pub fn digit_value(digit: u8) -> Option<u8>
    ensures { result ≡ digit_of digit }
{
    let capital = if digit < b'a' { digit } else { digit - 32 };
    match capital {
        b'0'..=b'9' => Some(capital - b'0'),
        b'A'..=b'F' => Some(capital - b'A' + 10),
        _ => None,
    }
}
