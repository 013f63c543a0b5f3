// A refusal as text: `NO`, the number of its reason and the code, or `--` where it has none.
ghost use Rattle.felica_put.specs.Output.{Puts};
ghost use Rattle.felica_fields.specs.Refused.{refusal_text};

use felica_command::command::Refusal;
use felica_put::Output;
use felica_text::put::{put_decimal, put_hex_byte};

// Not `Display`, for the reason that felica_text/src/put.rt has.
pub fn put_refusal(out: &mut Output<u8>, refusal: Refusal)
    ensures { Puts out.old out.new (refusal_text refusal) }
{
    out.put_all(b"NO ");
    put_decimal(out, usize::from(refusal.reason.number()));
    let Some(code) = refusal.command_code else {
        out.put_all(b" --");
        return;
    };
    out.put(b' ');
    put_hex_byte(out, code);
}
