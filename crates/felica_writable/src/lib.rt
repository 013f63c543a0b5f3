// Whether a layout can carry what was handed in: each value has the range of its part, and a part that the layout lacks is zero or empty.
#![tactic(auto, using(crate::proofs::Laws::known_tests), unfolding(felica_format::specs::Writable::idm_ok, felica_format::specs::Writable::selector_ok, felica_format::specs::Writable::codes_ok, felica_format::specs::Writable::same_length, felica_format::specs::Writable::elements_ok, felica_format::specs::Writable::data_ok, felica_format::specs::Writable::end_fields_ok, felica_format::specs::Writable::package_ok))]

ghost use Rattle.std.specs.Prelude.{◌≡◌};
ghost use Rattle.felica_format.specs.Writable.{body_ok};
ghost use Rattle.felica_layout.specs.Layout.{layout_meant};
ghost use Rattle.felica_writable.specs.Handed.{handed_by};

mod fields;
pub mod handed;
mod lists;

use felica_layout::Layout;
use fields::{end_fields_ok, idm_ok, selector_ok};
use handed::Handed;
use lists::{codes_ok, data_ok, elements_ok, package_ok};

pub fn body_ok(layout: Layout, command: Handed<'_>) -> bool
    ensures { result ≡ body_ok (layout_meant layout) (handed_by command.entry) }
{
    let fixed = command.fixed;
    idm_ok(layout.idm, fixed.idm)
        && selector_ok(layout.selector, fixed.selector)
        && codes_ok(layout.first, command.first)
        && codes_ok(layout.second, command.second)
        && elements_ok(
            layout.elements,
            command.numbers,
            command.places,
            command.modes,
        )
        && data_ok(layout.block_data, command.numbers.len(), command.data)
        && end_fields_ok(layout.ending, fixed)
        && package_ok(layout.behind, command.package)
}
