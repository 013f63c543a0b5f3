// The fields of a line, each behind one space.
ghost use Rattle.std.specs.Prelude.{◌≡◌, drop};
ghost use Rattle.felica_calls.specs.Field.{field_of, behind_field, next_field, behind_next};

use felica_text::find::before;

// A walk along the fields: nothing is left, or the space before the next one.
#[derive(Clone, Copy, Debug, PartialEq, Eq)]
pub(crate) struct Fields<'a> {
    pub(crate) rest: &'a [u8],
}

impl<'a> Fields<'a> {
    pub(crate) fn take_next(&mut self) -> &'a [u8]
        ensures taken { result.now ≡ next_field self.old.rest.now }
        ensures left { self.new.rest.now ≡ behind_next self.old.rest.now }
    {
        let next = next_field(self.rest);
        self.rest = behind_next(self.rest);
        next
    }
}

// The first field.
pub fn field_of(text: &[u8]) -> &[u8]
    ensures { result.now ≡ field_of text.now }
{
    before(text, b' ')
}

// What follows the first field: nothing, or a space and the next field.
#[tactic(auto, using(felica_text::proofs::Before::before_within))]
pub(crate) fn behind_field(text: &[u8]) -> &[u8]
    ensures { result.now ≡ behind_field text.now }
{
    &text[field_of(text).len()..]
}

pub(crate) fn behind_space(text: &[u8]) -> &[u8]
    ensures { result.now ≡ drop 1 text.now }
{
    match text {
        [_, rest @ ..] => rest,
        [] => text,
    }
}

// The field behind a space.
pub fn next_field(rest: &[u8]) -> &[u8]
    ensures { result.now ≡ next_field rest.now }
{
    field_of(behind_space(rest))
}

pub(crate) fn behind_next(rest: &[u8]) -> &[u8]
    ensures { result.now ≡ behind_next rest.now }
{
    behind_field(behind_space(rest))
}
