// The line that tells how many elements were long.
ghost use Rattle.std.specs.Prelude.{◌≡◌, List, ℕ};
ghost use Rattle.felica_command.specs.Meaning.{meaning};
ghost use Rattle.felica_put.specs.Output.{Puts};
ghost use Rattle.felica_answers.specs.Long.{long_text, long_line};

use felica_command::command::{Parsed, Refusal};
use felica_fields::refusal::put_refusal;
use felica_put::Output;
use felica_text::put::put_decimal;

// Whatever the payload is that `parsed` was read from.
pub fn put_long(out: &mut Output<u8>, parsed: Result<Parsed, Refusal>)
    ensures { (s : List ℕ) → Puts out.old out.new (long_line (meaning s parsed)) }
{
    match parsed {
        Ok(parsed) => put_count(out, parsed.long),
        Err(refusal) => put_refusal(out, refusal),
    }
}

fn put_count(out: &mut Output<u8>, long: u8)
    ensures { Puts out.old out.new (long_text long) }
{
    out.put_all(b"OK longs=");
    put_decimal(out, usize::from(long));
}
