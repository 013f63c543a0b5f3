// What is wrong with a writer's call, and with which of its fields.
ghost use Rattle.std.specs.Prelude.{◌≡◌};
ghost use Rattle.felica_named.specs.Notes.{is_tellable, told_name, name_at};

use felica_calls::fault::Fault;
use felica_calls::field::next_field;
use felica_text::find::before;

// The length of the longest name, `issue_parameter`.
const MAX_NAME: usize = 15;

// A fault, and the place of the field that has it, with its space, in the text of the fields. A place and no slice, as in `Named`.
#[derive(Clone, Copy, Debug, PartialEq, Eq)]
pub struct FieldFault {
    pub fault: Fault,
    pub at: usize,
}

impl FieldFault {
    // The name of that field, no more of it than the longest name has.
    pub fn name(self, text: &[u8]) -> &[u8]
        ensures { result.now ≡ name_at text.now self.at }
    {
        let name = before(next_field(text.get(self.at..).unwrap_or(&[])), b'=');
        told_name(name.get(..MAX_NAME).unwrap_or(name))
    }
}

// Other bytes than those of visible characters are not told: they could pass for another answer.
fn told_name(name: &[u8]) -> &[u8]
    ensures { result.now ≡ told_name name.now }
{
    if name.is_empty() {
        return b"-";
    }
    if is_tellable(name) { name } else { b"?" }
}

#[tactic(auto, unfolding(crate::specs::Notes::is_tellable))]
fn is_tellable(text: &[u8]) -> bool
    ensures { result ≡ is_tellable text.now }
{
    text.iter().all(u8::is_ascii_graphic)
}
