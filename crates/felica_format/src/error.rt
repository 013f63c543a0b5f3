// Why bytes are refused: the texts of error.rs under `Protocol`, with the numbers of document 01's table. Behind them those of the list reader and the writer.
ghost use Rattle.std.specs.Prelude.{◌≡◌};
ghost use Rattle.felica_format.specs.Reasons.{number_of};

#[derive(Clone, Copy, Debug, PartialEq, Eq)]
pub enum Reason {
    EmptyFrame = 1,
    LengthByteWrong = 2,
    EmptyPayload = 3,
    SecureCode = 4,
    UnknownCode = 5,
    IdmMissing = 6,
    // Also: challenge, operation or type byte missing.
    TooShort = 7,
    TrailingBytes = 8,
    // Counts are first or second in field order. A secure block count is a first.
    FirstCountMissing = 9,
    FirstCountOutOfRange = 10,
    SecondCountMissing = 11,
    SecondCountOutOfRange = 12,
    CodeListTruncated = 13,
    BlockListTruncated = 14,
    ShortBlockNumberMissing = 15,
    LongBlockNumberMissing = 16,
    DataTruncated = 17,
    ReservedNotZero = 18,
    // Request code, encryption type or property type.
    FirstTypeUndefined = 19,
    // Time slots or packet type.
    SecondTypeUndefined = 20,
    BufferTooSmall = 21,
    // No accepted frame and no accepted secure payload gives what the writer was handed.
    Unwritable = 22,
}

impl Reason {
    // The table's word. A method and no `From<Reason> for u8`: `u8::from(reason)` would not say that it is the number of the table.
    pub fn number(self) -> u8
        ensures { result ≡ number_of self }
    {
        self as u8
    }
}
