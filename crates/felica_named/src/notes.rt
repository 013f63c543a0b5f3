// A walk along the fields. Each is noted by where its value begins, at the number of its name, or what is wrong with it is told.
ghost use Rattle.std.specs.Prelude.{◌≡◌, ◌+◌, ◌<◌, ◌^◌, length};
ghost use Rattle.felica_named.specs.Names.{names};
ghost use Rattle.felica_named.specs.Notes.{noted, noted_by, note_from, unread, fields_noted, note, note_value, form_of, slot_of};
ghost use Rattle.felica_named.specs.Named.{noted_in, answer_in};

use crate::fault::FieldFault;
use crate::form::Form;
use crate::names::{NAMES, names, place_in};
use felica_calls::fault::Fault;
use felica_text::find::find;

// The fields of a writer's call: their text, and at the number of each name where its value begins there. Places and no slices: a slice has an address, which the equation of
// `read` could not name. No `impl Model`: a `Copy` struct with a lifetime may have none, and contracts speak of it by `noted_in`.
#[derive(Clone, Copy, Debug, PartialEq, Eq)]
pub struct Named<'a> {
    pub text: &'a [u8],
    pub starts: [Option<usize>; NAMES],
}

impl<'a> Named<'a> {
    // None of its fields is noted yet.
    #[tactic(auto, unfolding(crate::specs::Names::names))]
    pub fn unread(text: &'a [u8]) -> Named<'a>
        ensures { noted_in result ≡ unread text.now }
    {
        Named {
            text,
            starts: [None; NAMES],
        }
    }

    pub fn read(text: &'a [u8]) -> Result<Named<'a>, FieldFault>
        ensures { answer_in result ≡ fields_noted text.now }
    {
        let mut named = Named::unread(text);
        named.note_fields()?;
        Ok(named)
    }

    // Notes the fields beside those that are noted. Where it is noted is the caller's to keep: a value answered by `read` is copied twice, 3 KB each time.
    pub fn note_fields(&mut self) -> Result<(), FieldFault>
        ensures text { self.new.text ≡ self.old.text }
        ensures noted { noted_by result self.new.starts ≡ note_from (length self.old.text.now) names self.old.text.now 0 self.old.starts }
    {
        note_all(self.text, &mut self.starts)
    }
}

fn note_all(text: &[u8], starts: &mut [Option<usize>]) -> Result<(), FieldFault>
    ensures { noted_by result starts.new ≡ note_from (length text.now) names text.now 0 starts.old }
{
    let table = names();
    let mut at = 0;
    // Each field begins with its space; a first one need not have it. `at` is summed up, since `starts` holds places in the text and `chunk_by` gives the fields alone.
    for field in text.chunk_by(|_, next| *next != b' ') {
        if let Err(fault) = note(table, field, at, starts) {
            return Err(FieldFault { fault, at });
        }
        at += field.len();
    }
    Ok(())
}

// The table is passed on, since the definitions speak of any.
#[tactic(auto, unfolding(crate::specs::Notes::note, crate::specs::Notes::note_placed))]
fn note(table: &[u8], field: &[u8], at: usize, starts: &mut [Option<usize>]) -> Result<(), Fault>
    requires { at + length field.now < 2 ^ 64 }
    ensures { noted result starts.new ≡ note table.now field.now at starts.old }
{
    let Some(name_end) = find(field, b'=') else {
        return Err(Fault::UnknownField);
    };
    let behind = name_end + 1;
    let value = &field[behind..];
    let Some(place) = place_in(table, &field[..behind]) else {
        return Err(Fault::UnknownField);
    };
    let form = form_of(table, place, behind);
    note_value(
        form,
        slot_of(form, place, value),
        value,
        at + behind,
        starts,
    )
}

fn form_of(table: &[u8], place: usize, behind: usize) -> Option<Form>
    requires { place < length table.now }
    ensures { result ≡ form_of table.now place behind }
{
    Form::from_letter(*table[place..].get(behind)?)
}

fn slot_of(form: Option<Form>, place: usize, value: &[u8]) -> usize
    requires { place + 1 < 2 ^ 64 }
    ensures { result ≡ slot_of form place value.now }
{
    match form {
        Some(Form::Challenge) if value.len() == 32 => place + 1,
        _ => place,
    }
}

#[tactic(auto, unfolding(crate::specs::Notes::note_value, crate::specs::Notes::note_formed))]
fn note_value(
    form: Option<Form>,
    slot: usize,
    value: &[u8],
    start: usize,
    starts: &mut [Option<usize>],
) -> Result<(), Fault>
    ensures { noted result starts.new ≡ note_value form slot value.now start starts.old }
{
    if starts.len() <= slot {
        return Err(Fault::UnknownField);
    }
    if starts[slot].is_some() {
        return Err(Fault::FieldTwice);
    }
    let Some(form) = form else {
        return Err(Fault::MalformedValue);
    };
    if !form.fits(value) {
        return Err(Fault::MalformedValue);
    }
    if form.longest() < value.len() {
        return Err(Fault::ValueTooLong);
    }
    starts[slot] = Some(start);
    Ok(())
}
