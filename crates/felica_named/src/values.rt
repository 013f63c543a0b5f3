// The values of noted fields.
ghost use Rattle.std.specs.Prelude.{◌≡◌};
ghost use Rattle.felica_put.specs.Output.{Puts};
ghost use Rattle.felica_calls.specs.Bytes.{bytes_of};
ghost use Rattle.felica_named.specs.Values.{value_at, value_named, bytes_over, all_zero};
ghost use Rattle.felica_named.specs.Named.{noted_in};

use crate::names::Field;
use crate::notes::Named;
use felica_calls::bytes::decode;
use felica_calls::field::field_of;
use felica_put::Output;

impl Named<'_> {
    // The value of a field: none where it is not named.
    pub fn value(&self, field: Field) -> &[u8]
        ensures { result.now ≡ value_named (noted_in self.now) field }
    {
        value_at(self.text, self.starts[field.place()])
    }

    // Its bytes.
    pub fn bytes(&self, field: Field, bytes: &mut Output<u8>)
        ensures { Puts bytes.old bytes.new (bytes_of (value_named (noted_in self.now) field)) }
    {
        decode(self.value(field), bytes);
    }

    // The same, put to the front of a buffer.
    pub(crate) fn fill(&self, field: Field, bytes: &mut [u8])
        ensures { bytes.new ≡ bytes_over bytes.old (value_named (noted_in self.now) field) }
    {
        self.bytes(field, &mut Output::new(bytes));
    }
}

// The value that begins at `start`.
pub(crate) fn value_at(text: &[u8], start: Option<usize>) -> &[u8]
    ensures { result.now ≡ value_at text.now start }
{
    match start {
        Some(start) => field_of(text.get(start..).unwrap_or(&[])),
        None => &[],
    }
}

// One call of `all`: a function for this and the bytes 00 of felica_cursor would take the byte, and be that call again.
#[tactic(auto, unfolding(crate::specs::Values::all_zero))]
pub(crate) fn all_zero(value: &[u8]) -> bool
    ensures { result ≡ all_zero value.now }
{
    value.iter().all(|digit| *digit == b'0')
}
