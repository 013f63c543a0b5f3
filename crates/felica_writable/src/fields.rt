// The fixed fields.
ghost use Rattle.std.specs.Prelude.{◌≡◌, suc, ◌-◌, length, drop};
ghost use Rattle.felica_format.specs.Basic.{◌and◌, zeros};
ghost use Rattle.felica_format.specs.Command.{end_fields};
ghost use Rattle.felica_format.specs.Writable.{same_list, are_bytes, idm_ok, selector_ok, ranges, ranges_of, end_fields_ok};
ghost use Rattle.felica_layout.specs.Layout.{selector_meant, ending_meant};

use felica_command::fixed::Fixed;
use felica_format::constants::is_polling_time_slot;
use felica_layout::{Ending, Selector};

pub(crate) fn idm_ok(present: bool, idm: [u8; 8]) -> bool
    ensures { result ≡ idm_ok present idm }
{
    present || all_zero(&idm)
}

pub(crate) fn selector_ok(selector: Option<Selector>, value: u8) -> bool
    ensures { result ≡ selector_ok (selector_meant selector) value }
{
    match selector {
        None => value == 0,
        Some(Selector::TypeByte) => value <= 1,
        Some(Selector::AnyByte) => true,
    }
}

// Without an early exit, so that the compiler can test many bytes at once. By `all`, as felica_cursor tests its two or four bytes, it goes byte by byte.
fn all_zero(bytes: &[u8]) -> bool
    ensures { result ≡ same_list bytes.now (zeros (length bytes.now)) }
{
    bytes.iter().fold(true, |clear, &byte| clear & (byte == 0))
}

// The greatest values of the fields that end a body. What it lacks is 0.
// Types are numbers here, as C hands them in, and a greatest value tests all of them alike; `from_byte` would be a case for each ending.
#[derive(Clone, Copy, Debug, Default, PartialEq, Eq)]
struct Greatest {
    number: u16,
    index: u16,
    option: u8,
}

fn greatest_of(ending: Option<Ending>) -> Greatest
    ensures { ranges (suc result.number) (suc result.index) (suc result.option) (ranges_of (ending_meant ending)).choices (ranges_of (ending_meant ending)).filled ≡ ranges_of (ending_meant ending) }
{
    let none = Greatest::default();
    match ending {
        None | Some(Ending::Bytes(_) | Ending::Reserved) => none,
        Some(Ending::Word) => Greatest {
            number: u16::MAX,
            ..none
        },
        Some(Ending::Words) => Greatest {
            number: u16::MAX,
            index: u16::MAX,
            ..none
        },
        Some(Ending::Polling) => Greatest {
            number: u16::MAX,
            option: 2,
            ..none
        },
        Some(Ending::Parameter) => Greatest { option: 1, ..none },
    }
}

// Time slots, packet type.
fn choice_ok(ending: Option<Ending>, choice: u8) -> bool
    ensures { result ≡ (ranges_of (ending_meant ending)).choices choice }
{
    match ending {
        Some(Ending::Polling) => is_polling_time_slot(choice),
        Some(Ending::Parameter) => choice <= 1,
        _ => choice == 0,
    }
}

// Endings of eight and of sixteen bytes, which alone the layouts of codes have, and those of none have arms of their own, so that the compiler knows how many bytes it tests.
// `greatest_of` and `choice_ok` match on their own: each gives another column of `ranges_of`.
fn challenge_ok(ending: Option<Ending>, challenge: [u8; 16]) -> bool
    ensures { result ≡ (are_bytes 16 challenge and same_list (drop (ranges_of (ending_meant ending)).filled challenge) (zeros (16 - (ranges_of (ending_meant ending)).filled))) }
{
    match ending {
        Some(Ending::Bytes(8)) => all_zero(&challenge[8..]),
        Some(Ending::Bytes(16)) => true,
        Some(Ending::Bytes(filled)) => all_zero(challenge.get(filled..).unwrap_or(&[])),
        _ => all_zero(&challenge),
    }
}

pub(crate) fn end_fields_ok(ending: Option<Ending>, fixed: Fixed) -> bool
    ensures { result ≡ end_fields_ok (ranges_of (ending_meant ending)) (end_fields fixed.number fixed.index fixed.option fixed.choice fixed.challenge) }
{
    let most = greatest_of(ending);
    fixed.number <= most.number
        && fixed.index <= most.index
        && fixed.option <= most.option
        && choice_ok(ending, fixed.choice)
        && challenge_ok(ending, fixed.challenge)
}
