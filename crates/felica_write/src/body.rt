// The parts of a body, put into a buffer one behind the other.
ghost use Rattle.std.specs.Prelude.{false, [], ◌<◌, ◌≤◌};
ghost use Rattle.felica_format.specs.Basic.{word_bytes};
ghost use Rattle.felica_format.specs.Command.{end_fields, elements_of};
ghost use Rattle.felica_format.specs.Read.{size_of};
ghost use Rattle.felica_format.specs.Write.{data_bytes, package_bytes, selector_bytes, codes_bytes, element_bytes, elements_bytes, ending_bytes, body_bytes};
ghost use Rattle.felica_layout.specs.Layout.{layout_meant, selector_meant, codes_meant, ending_meant, behind_meant};
ghost use Rattle.felica_put.specs.Output.{Puts};
ghost use Rattle.felica_writable.specs.Handed.{handed_by};
ghost use Rattle.felica_write.specs.Body.{IsFew, Ready, element};

use felica_command::fixed::Fixed;
use felica_format::constants::Bounds;
use felica_layout::{Behind, Ending, Layout, Selector};
use felica_put::Output;
use felica_writable::handed::Handed;

// The least block number that takes two bytes.
pub(crate) const LEAST_LONG: u16 = 256;

// `Ready` is asked by three functions and not said by a type: `Handed` is public, so that a ghost field would ask it of callers.
pub(crate) fn put_body(out: &mut Output<'_, u8>, layout: Layout, command: Handed<'_>)
    requires ready { Ready (handed_by command) }
    requires few_fixed { size_of (ending_meant layout.ending) ≤ 16 }
    ensures { Puts out.old out.new (body_bytes (layout_meant layout) [] (handed_by command.entry)) }
{
    let fixed = command.fixed;
    put_if(out, layout.idm, &fixed.idm);
    put_selector(out, layout.selector, fixed.selector);
    put_codes(out, layout.first, command.first);
    put_codes(out, layout.second, command.second);
    put_elements(out, layout.elements, command);
    put_if(out, layout.block_data, command.data);
    put_ending(out, layout.ending, fixed);
    put_package(out, layout.behind, command.package);
}

// The IDm, or the data.
#[tactic(auto, unfolding(felica_format::specs::Write::data_bytes, felica_put::specs::Put::put))]
fn put_if(out: &mut Output<'_, u8>, present: bool, bytes: &[u8])
    ensures { Puts out.old out.new (data_bytes present «bytes».now) }
{
    if present {
        out.put_all(bytes);
    }
}

#[tactic(auto, unfolding(felica_format::specs::Write::selector_bytes, felica_put::specs::Put::put))]
fn put_selector(out: &mut Output<'_, u8>, selector: Option<Selector>, value: u8)
    ensures { Puts out.old out.new (selector_bytes (selector_meant selector) value) }
{
    if selector.is_some() {
        out.put(value);
    }
}

// The count, and the codes.
#[tactic(auto, unfolding(felica_format::specs::Write::codes_bytes, felica_put::specs::Put::put))]
fn put_codes(out: &mut Output<'_, u8>, codes: Option<Bounds>, list: &[u16])
    requires { IsFew list.now }
    ensures { Puts out.old out.new (codes_bytes (codes_meant codes) list.now) }
{
    if codes.is_none() {
        return;
    }
    out.put(list.len() as u8);
    for &code in list {
        put_word(out, code);
    }
}

// The low byte first.
#[tactic(auto, unfolding(felica_put::specs::Put::put))]
fn put_word(out: &mut Output<'_, u8>, word: u16)
    ensures { Puts out.old out.new (word_bytes word) }
{
    out.put_all(&word.to_le_bytes());
}

#[tactic(auto, unfolding(felica_format::specs::Write::elements_bytes, felica_put::specs::Put::put))]
fn put_elements(out: &mut Output<'_, u8>, present: bool, command: Handed<'_>)
    requires { Ready (handed_by command) }
    ensures { Puts out.old out.new (elements_bytes present [] (elements_of (handed_by command.entry))) }
{
    if !present {
        return;
    }
    out.put(command.numbers.len() as u8);
    for ((&number, &place), &mode) in command
        .numbers
        .iter()
        .zip(command.places)
        .zip(command.modes)
    {
        put_element(out, number, place, mode);
    }
}

// One element in its shortest form: bit 7 of its first byte says that one byte of block number follows.
#[tactic(auto, using(felica_writable::proofs::Laws::known_tests), unfolding(felica_format::specs::Write::element_bytes, felica_format::specs::Write::short_bytes, felica_format::specs::Write::long_bytes, felica_put::specs::Put::put))]
fn put_element(out: &mut Output<'_, u8>, number: u16, place: u8, mode: u8)
    requires place_small { place < 16 }
    requires mode_small { mode < 8 }
    ensures { Puts out.old out.new (element_bytes false (element number place mode)) }
{
    // One by one: an array of the bytes is copied as a word, which waits until each of them is stored; 15 short elements then take 136 ns and not 95.
    let head = 16 * mode + place;
    if number < LEAST_LONG {
        out.put(128 + head);
        out.put(number as u8);
    } else {
        out.put(head);
        put_word(out, number);
    }
}

#[tactic(auto, unfolding(felica_format::specs::Write::ending_bytes, felica_put::specs::Put::put))]
fn put_ending(out: &mut Output<'_, u8>, ending: Option<Ending>, fixed: Fixed)
    requires { size_of (ending_meant ending) ≤ 16 }
    ensures { Puts out.old out.new (ending_bytes (ending_meant ending) (end_fields fixed.number fixed.index fixed.option fixed.choice fixed.challenge)) }
{
    match ending {
        None => {}
        // Eight and sixteen apart, so that the compiler knows how many bytes it copies.
        Some(Ending::Bytes(8)) => out.put_all(&fixed.challenge[..8]),
        Some(Ending::Bytes(16)) => out.put_all(&fixed.challenge),
        Some(Ending::Bytes(count)) => out.put_all(&fixed.challenge[..count]),
        Some(Ending::Word) => put_word(out, fixed.number),
        Some(Ending::Words) => {
            put_word(out, fixed.number);
            put_word(out, fixed.index);
        }
        Some(Ending::Reserved) => out.put_all(b"\0\0"),
        Some(Ending::Polling) => {
            let [high, low] = fixed.number.to_be_bytes();
            out.put_all(&[high, low, fixed.option, fixed.choice]);
        }
        Some(Ending::Parameter) => out.put_all(&[0, 0, 0, 0, fixed.option, fixed.choice, 0, 0]),
    }
}

// Apart from `put_if`, since what stands behind a body is one of two things, and no flag.
#[tactic(auto, unfolding(felica_format::specs::Write::package_bytes, felica_put::specs::Put::put))]
fn put_package(out: &mut Output<'_, u8>, behind: Option<Behind>, package: &[u8])
    ensures { Puts out.old out.new (package_bytes (behind_meant behind) «package».now) }
{
    match behind {
        Some(Behind::Package) => out.put_all(package),
        None | Some(Behind::IgnoredBytes) => {}
    }
}
