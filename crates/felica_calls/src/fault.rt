// What can be wrong with a call, and the line that says it.
ghost use Rattle.std.specs.Prelude.{◌≡◌};
ghost use Rattle.felica_put.specs.Output.{Puts};
ghost use Rattle.felica_calls.specs.Fault.{reason, fault_text};

use felica_put::Output;

#[derive(Clone, Copy, Debug, PartialEq, Eq)]
pub enum Fault {
    EmptyLine,
    LineTooLong,
    UnknownCall,
    MissingField,
    ExtraField,
    BlankInside,
    CodeSize,
    ZeroX,
    NoDigit,
    OddDigits,
    TooManyBytes,
    NoNumber,
    BufferTooLong,
    UnknownField,
    FieldTwice,
    MalformedValue,
    ValueTooLong,
}

impl Fault {
    pub fn reason(self) -> &'static [u8]
        ensures { result.now ≡ reason self }
    {
        match self {
            Fault::EmptyLine => b"empty line",
            Fault::LineTooLong => b"line too long",
            Fault::UnknownCall => b"unknown call",
            Fault::MissingField => b"missing field",
            Fault::ExtraField => b"extra field",
            Fault::BlankInside => b"blank inside the bytes",
            Fault::CodeSize => b"command code not of two digits",
            Fault::ZeroX => b"0x in front of the bytes",
            Fault::NoDigit => b"not a hexadecimal digit",
            Fault::OddDigits => b"odd number of hexadecimal digits",
            Fault::TooManyBytes => b"too many bytes",
            Fault::NoNumber => b"not a decimal number",
            Fault::BufferTooLong => b"buffer too long",
            Fault::UnknownField => b"unknown field",
            Fault::FieldTwice => b"field given twice",
            Fault::MalformedValue => b"malformed value",
            Fault::ValueTooLong => b"value too long",
        }
    }
}

// Not a `Display`: it would write through `fmt::Write`, which may answer an `Err` and says what it wrote only where it does not.
pub fn put_fault(out: &mut Output<u8>, fault: Fault)
    ensures { Puts out.old out.new (fault_text fault) }
{
    out.put_all(b"BAD CALL: ");
    out.put_all(fault.reason());
}
