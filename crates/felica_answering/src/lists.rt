// Answers to calls of the list reader. It is lent buffers of the lengths of the call, and the line is put from what stands in them then.
ghost use Rattle.felica_put.specs.Output.{Puts};
ghost use Rattle.felica_lists.specs.Lent.{held, SameReferences};
ghost use Rattle.felica_lists.specs.Lists.{buffers, listed};
ghost use Rattle.felica_lists.specs.Rules.{ListAccount};
ghost use Rattle.felica_calls.specs.Sizes.{Lent};
ghost use Rattle.felica_answering.specs.Source.{reading_of, payload_in, body_at};
ghost use Rattle.felica_answering.specs.Lists.{list_answer};

use felica_answers::lists::put_listed;
use felica_calls::sizes::{MAX_LENT, Sizes};
use felica_calls::source::Source;
use felica_command::command::{Parsed, Refusal};
use felica_lists::buffers::ListBuffers;
use felica_lists::{list_frame, list_payload, list_secure_payload};
use felica_put::Output;

pub(crate) fn answer_list(source: Source, bytes: &[u8], sizes: Sizes, out: &mut Output<u8>)
    requires { Lent sizes }
    ensures { Puts out.old out.new (list_answer (reading_of source bytes.now) sizes) }
{
    // There is no heap: arrays of the greatest length, of which the call's lengths are lent.
    let mut first = [0u16; MAX_LENT];
    let mut second = [0u16; MAX_LENT];
    let mut numbers = [0u16; MAX_LENT];
    let mut places = [0u8; MAX_LENT];
    let mut modes = [0u8; MAX_LENT];
    let first = &mut first[..sizes.first];
    let second = &mut second[..sizes.second];
    let numbers = &mut numbers[..sizes.numbers];
    let places = &mut places[..sizes.places];
    let modes = &mut modes[..sizes.modes];
    let mut lent = ListBuffers {
        first,
        second,
        numbers,
        places,
        modes,
    };
    let parsed = list(source, bytes, &mut lent);
    put_listed(out, parsed, first, second, numbers, places, modes);
}

// `list`, and in parse.rt `parse` and `payload_in`, match on the source, each for itself: a trait in their place would have these three methods in three impls, nine
// functions for three.
fn list(source: Source, bytes: &[u8], buffers: &mut ListBuffers) -> Result<Parsed, Refusal>
    ensures same_references { SameReferences buffers.old buffers.new }
    ensures listed { ListAccount (payload_in source bytes.now) (body_at source) (reading_of source bytes.now) (held buffers.old) result (held buffers.new) }
{
    match source {
        Source::Frame => list_frame(bytes, buffers),
        Source::Payload => list_payload(bytes, buffers),
        Source::Secure(code) => list_secure_payload(code, bytes, buffers),
    }
}
