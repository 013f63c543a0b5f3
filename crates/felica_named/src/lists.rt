// Lists of numbers, written to lent buffers.
ghost use Rattle.std.specs.Prelude.{◌≡◌, ℕ, ◌*◌, ◌<◌, ◌≤◌, map};
ghost use Rattle.std.proofs.Common.{rules};
ghost use Rattle.felica_put.specs.Output.{Puts};
ghost use Rattle.felica_named.specs.Values.{value_named, numbers_in, numbers_from};
ghost use Rattle.felica_named.specs.Named.{noted_in};

use crate::names::Field;
use crate::notes::Named;
use felica_calls::bytes::value_of;
use felica_put::Output;

// A number of a list: a two-byte number, or one of a byte.
pub trait Number: Copy {
    ghost KEPT: { ℕ };

    // What counts below this is kept of the digits before another one, so that the number stays within its type.
    const KEPT: u16;

    ghost number: { ℕ → Self };

    fn number(digits: u16) -> Self
        requires { digits < 16 * KEPT }
        ensures { result ≡ number digits };

    ghost range: { (0 < KEPT) × (KEPT ≤ 4096) };
}

impl Number for u16 {
    ghost KEPT = { 4096 };

    const KEPT: u16 = 4096;

    ghost number = { λ n. n };

    fn number(digits: u16) -> u16 {
        digits
    }

    ghost range = { Prim.search rules };
}

impl Number for u8 {
    ghost KEPT = { 16 };

    const KEPT: u16 = 16;

    ghost number = { λ n. n };

    fn number(digits: u16) -> u8 {
        digits as u8
    }

    ghost range = { Prim.search rules };
}

impl Named<'_> {
    pub fn numbers<T: Number>(&self, field: Field, numbers: &mut Output<T>)
        ensures { Puts numbers.old numbers.new (map T.number (numbers_in T.KEPT (value_named (noted_in self.now) field))) }
    {
        let value = self.value(field);
        if !value.is_empty() && value != b"-".as_slice() {
            put_numbers(value, numbers);
        }
    }
}

// Not by `split`: what a loop over it asks was proved, but in a function with a type parameter the logic refuses what Rattle states of such an iterator (`iterator-loop-entry`).
// Behind a `for_each` nothing is known of `numbers`.
fn put_numbers<T: Number>(value: &[u8], numbers: &mut Output<T>)
    ensures { Puts numbers.old numbers.new (map T.number (numbers_from T.KEPT 0 value.now)) }
{
    let mut number = 0;
    for &digit in value {
        if digit == b',' {
            numbers.put(T::number(number));
            number = 0;
        } else {
            number = number % T::KEPT * 16 + u16::from(value_of(digit));
        }
    }
    numbers.put(T::number(number));
}
