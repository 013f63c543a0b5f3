// How many bytes the parts of a body have.
// Apart from `put_body`, which goes over the same parts: one walk for both would have what is put as a type parameter, and would count byte by byte where a part here is
// one product or sum.
ghost use Rattle.std.specs.Prelude.{◌≡◌, cond, ◌≤◌, length, ltb};
ghost use Rattle.felica_format.specs.Read.{size_of};
ghost use Rattle.felica_layout.specs.Layout.{layout_meant, ending_meant};
ghost use Rattle.felica_writable.specs.Handed.{handed_by};
ghost use Rattle.felica_write.specs.Body.{IsFew, Ready};
ghost use Rattle.felica_write.specs.Size.{short_size, front_size};

use crate::body::LEAST_LONG;
use felica_format::constants::IDM_LEN;
use felica_layout::{Ending, Layout};
use felica_writable::handed::Handed;

// All but the package.
pub(crate) fn body_size(layout: Layout, command: Handed<'_>) -> usize
    requires ready { Ready (handed_by command) }
    requires few_fixed { size_of (ending_meant layout.ending) ≤ 16 }
    ensures { result ≡ front_size (layout_meant layout) (length command.entry.first.now) (length command.entry.second.now) command.entry.numbers.now (length command.entry.data.now) }
{
    size_if(layout.idm, IDM_LEN)
        + size_if(layout.selector.is_some(), 1)
        + size_if(layout.first.is_some(), 1 + 2 * command.first.len())
        + size_if(layout.second.is_some(), 1 + 2 * command.second.len())
        + size_if(layout.elements, 1 + short_size(command.numbers))
        + command.data.len()
        + ending_size(layout.ending)
}

fn size_if(present: bool, size: usize) -> usize
    ensures chosen { result ≡ cond present size 0 }
    ensures bound { result ≤ size }
{
    if present { size } else { 0 }
}

// Elements in their shortest form.
fn short_size(numbers: &[u16]) -> usize
    requires { IsFew numbers.now }
    ensures size { result ≡ short_size numbers.now }
    ensures bound { result ≤ 765 }
{
    numbers.iter().map(|&number| element_size(number)).sum()
}

fn element_size(number: u16) -> usize
    ensures { result ≡ cond (ltb number 256) 2 3 }
{
    if number < LEAST_LONG { 2 } else { 3 }
}

fn ending_size(ending: Option<Ending>) -> usize
    ensures { result ≡ size_of (ending_meant ending) }
{
    match ending {
        None => 0,
        Some(Ending::Bytes(count)) => count,
        Some(Ending::Word | Ending::Reserved) => 2,
        Some(Ending::Words | Ending::Polling) => 4,
        Some(Ending::Parameter) => 8,
    }
}
