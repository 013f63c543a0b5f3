// Answers to calls of the parser, and to those that ask how many elements were long.
ghost use Rattle.std.specs.Prelude.{◌≡◌};
ghost use Rattle.felica_command.specs.Places.{Account};
ghost use Rattle.felica_command.specs.Meaning.{ParserResult};
ghost use Rattle.felica_put.specs.Output.{Puts};
ghost use Rattle.felica_answers.specs.Answer.{line_of};
ghost use Rattle.felica_answers.specs.Long.{long_line};
ghost use Rattle.felica_answering.specs.Source.{reading_of, payload_in, body_at};

use felica_answers::answer::put_answer;
use felica_answers::long::put_long;
use felica_calls::source::Source;
use felica_command::command::{Parsed, Refusal};
use felica_frame::{parse_frame, payload_of};
use felica_parse::parse_payload;
use felica_put::Output;
use felica_secure::parse_secure_payload;

// The line of the one result that the definitions allow.
pub(crate) fn answer_parse(source: Source, bytes: &[u8], out: &mut Output<u8>)
    ensures { (p : ParserResult) × Account (payload_in source bytes.now) (body_at source) (reading_of source bytes.now) p × Puts out.old out.new (line_of (payload_in source bytes.now) p) }
{
    put_answer(out, payload_in(source, bytes), parse(source, bytes));
}

// The line that tells how many elements were long.
pub(crate) fn answer_long(source: Source, bytes: &[u8], out: &mut Output<u8>)
    ensures { Puts out.old out.new (long_line (reading_of source bytes.now)) }
{
    put_long(out, parse(source, bytes));
}

fn parse(source: Source, bytes: &[u8]) -> Result<Parsed, Refusal>
    ensures { Account (payload_in source bytes.now) (body_at source) (reading_of source bytes.now) result }
{
    match source {
        Source::Frame => parse_frame(bytes),
        Source::Payload => parse_payload(bytes),
        Source::Secure(code) => parse_secure_payload(code, bytes),
    }
}

fn payload_in(source: Source, bytes: &[u8]) -> &[u8]
    ensures { result.now ≡ payload_in source bytes.now }
{
    match source {
        Source::Frame => payload_of(bytes),
        Source::Payload | Source::Secure(_) => bytes,
    }
}
