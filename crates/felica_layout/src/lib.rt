// The layout of each command: one order of parts, each there or not, as specs/Layout.antt of felica_format has it in document 01's words.
#![tactic(auto, unfolding(crate::specs::Layout::row_of, felica_format::specs::Layout::class_of, felica_format::specs::Layout::layout_of, felica_format::specs::Layout::layout_in, felica_format::specs::Layout::has, felica_format::specs::Layout::plain_rows, felica_format::specs::Layout::secure_rows))]

ghost use Rattle.std.specs.Prelude.{◌≡◌, true, false, Some};
ghost use Rattle.felica_format.specs.Layout.{layout, no_selector, no_codes, ◌to◌, bytes, bare, nothing, has, plain_rows};
ghost use Rattle.felica_format.specs.declared.classes.Class.TheVariants.{Plain, Secure};
ghost use Rattle.felica_layout.specs.Layout.{selector_meant, ending_meant, behind_meant, layout_meant, row, row_meant, row_of};

use felica_format::classes::Class;
use felica_format::constants;
use felica_format::constants::{Bounds, NODE_PROPERTY_CODES, SERVICE_CODES};

// The byte in front of a code list.
#[derive(Clone, Copy, PartialEq, Eq, Debug)]
pub enum Selector {
    // 28: 00 or 01.
    TypeByte,
    // 40: any byte.
    AnyByte,
}

// The fixed bytes that end a body.
#[derive(Clone, Copy, PartialEq, Eq, Debug)]
pub enum Ending {
    // So many bytes of the challenge; of 80 the issue id and the issue parameter.
    Bytes(usize),
    // One two-byte number.
    Word,
    // Two of them.
    Words,
    // Two bytes 00.
    Reserved,
    // System code, high byte first, request code, time slots.
    Polling,
    // Four bytes 00, encryption type, packet type, two bytes 00.
    Parameter,
}

// What may stand behind them.
#[derive(Clone, Copy, PartialEq, Eq, Debug)]
pub enum Behind {
    // Any bytes, which are no part of the command.
    IgnoredBytes,
    Package,
}

// The parts in their order.
#[derive(Clone, Copy, Debug, Default, PartialEq, Eq)]
pub struct Layout {
    pub idm: bool,
    pub selector: Option<Selector>,
    // The bounds of how many codes stand behind their count.
    pub first: Option<Bounds>,
    pub second: Option<Bounds>,
    pub elements: bool,
    pub block_data: bool,
    pub ending: Option<Ending>,
    pub behind: Option<Behind>,
}

// The class of a code, and its layout; an unknown code has no bytes.
// No `Option<Row>`: `Class::Unknown`, which the class table needs, would still be an arm of each match, one that never comes.
#[derive(Clone, Copy, Debug, PartialEq, Eq)]
pub struct Row {
    pub class: Class,
    pub layout: Layout,
}

// The bounds of service codes are those of node codes. The class stands in felica_format's table too, which the parser reads alone.
pub fn row_of(code: u8) -> Row
    ensures { row_meant result ≡ row_of code }
{
    match code {
        constants::POLLING_COMMAND_CODE => fixed(false, Ending::Polling),
        constants::REQUEST_SERVICE_COMMAND_CODE
        | constants::REQUEST_BLOCK_INFORMATION_COMMAND_CODE
        | constants::REQUEST_BLOCK_INFORMATION_EX_COMMAND_CODE
        | constants::REQUEST_SERVICE_V2_COMMAND_CODE => coded(None, SERVICE_CODES, None),
        constants::REQUEST_RESPONSE_COMMAND_CODE
        | constants::REQUEST_SYSTEM_CODE_COMMAND_CODE
        | constants::REQUEST_PRODUCT_INFORMATION_COMMAND_CODE => plain(Layout {
            idm: true,
            ..Layout::default()
        }),
        constants::READ_WITHOUT_ENCRYPTION_COMMAND_CODE => codes_and_blocks(false),
        constants::WRITE_WITHOUT_ENCRYPTION_COMMAND_CODE => codes_and_blocks(true),
        constants::SEARCH_SERVICE_CODE_COMMAND_CODE
        | constants::GET_AREA_INFORMATION_COMMAND_CODE => fixed(true, Ending::Word),
        constants::AUTHENTICATION1_COMMAND_CODE => two_code_lists(),
        constants::AUTHENTICATION2_COMMAND_CODE => fixed(true, Ending::Bytes(8)),
        constants::REQUEST_CODE_LIST_COMMAND_CODE => fixed(true, Ending::Words),
        constants::SET_PARAMETER_COMMAND_CODE => fixed(true, Ending::Parameter),
        constants::GET_CONTAINER_ISSUE_INFORMATION_COMMAND_CODE
        | constants::GET_SYSTEM_STATUS_COMMAND_CODE
        | constants::REQUEST_SPECIFICATION_VERSION_COMMAND_CODE
        | constants::RESET_MODE_COMMAND_CODE => fixed(true, Ending::Reserved),
        constants::GET_NODE_PROPERTY_COMMAND_CODE => coded(
            Some(Selector::TypeByte),
            NODE_PROPERTY_CODES,
            None,
        ),
        constants::GET_CONTAINER_PROPERTY_COMMAND_CODE => fixed(false, Ending::Word),
        constants::AUTHENTICATION1_V2_COMMAND_CODE => coded(
            Some(Selector::AnyByte),
            SERVICE_CODES,
            Some(Ending::Bytes(16)),
        ),
        constants::AUTHENTICATION2_V2_COMMAND_CODE => fixed(true, Ending::Bytes(16)),
        constants::GET_CONTAINER_ID_COMMAND_CODE => fixed(false, Ending::Reserved),
        _ => secure_row(code),
    }
}

fn secure_row(code: u8) -> Row
    requires { has plain_rows code ≡ false }
    ensures { row_meant result ≡ row_of code }
{
    match code {
        constants::READ_COMMAND_CODE | constants::READ_V2_COMMAND_CODE => payload_row(
            true,
            false,
            None,
            Some(Behind::IgnoredBytes),
        ),
        constants::WRITE_COMMAND_CODE | constants::WRITE_V2_COMMAND_CODE => payload_row(
            true,
            true,
            None,
            Some(Behind::IgnoredBytes),
        ),
        constants::REGISTER_ISSUE_ID_COMMAND_CODE => payload_row(
            false,
            false,
            Some(Ending::Bytes(16)),
            Some(Behind::Package),
        ),
        constants::REGISTER_AREA_COMMAND_CODE | constants::REGISTER_SERVICE_COMMAND_CODE =>
            payload_row(false, false, Some(Ending::Word), Some(Behind::Package)),
        constants::CHANGE_SYSTEM_BLOCK_COMMAND_CODE => payload_row(false, false, None, None),
        _ => Row {
            class: Class::Unknown,
            layout: Layout::default(),
        },
    }
}

// Without a list.
fn fixed(idm: bool, ending: Ending) -> Row
    ensures { row_meant result ≡ row Plain (layout idm no_selector no_codes no_codes false false (ending_meant (Some ending)) nothing) }
{
    plain(Layout {
        idm,
        ending: Some(ending),
        ..Layout::default()
    })
}

// With one code list, and a challenge or none.
fn coded(selector: Option<Selector>, bounds: Bounds, ending: Option<Ending>) -> Row
    ensures { row_meant result ≡ row Plain (layout true (selector_meant selector) (bounds.least to bounds.greatest) no_codes false false (ending_meant ending) nothing) }
{
    plain(Layout {
        idm: true,
        selector,
        first: Some(bounds),
        ending,
        ..Layout::default()
    })
}

// With areas and services.
fn two_code_lists() -> Row
    ensures { row_meant result ≡ row Plain (layout true no_selector (0 to 32) (0 to 32) false false (bytes 8) nothing) }
{
    plain(Layout {
        idm: true,
        first: Some(constants::AREA_AND_SERVICE_CODES),
        second: Some(constants::AREA_AND_SERVICE_CODES),
        ending: Some(Ending::Bytes(8)),
        ..Layout::default()
    })
}

fn codes_and_blocks(block_data: bool) -> Row
    ensures { row_meant result ≡ row Plain (layout true no_selector (1 to 16) no_codes true block_data bare nothing) }
{
    plain(Layout {
        idm: true,
        first: Some(constants::RW_SERVICE_CODES),
        elements: true,
        block_data,
        ..Layout::default()
    })
}

fn plain(layout: Layout) -> Row
    ensures { row_meant result ≡ row Plain (layout_meant layout) }
{
    Row {
        class: Class::Plain,
        layout,
    }
}

fn payload_row(
    elements: bool,
    block_data: bool,
    ending: Option<Ending>,
    behind: Option<Behind>,
) -> Row
    ensures { row_meant result ≡ row Secure (layout false no_selector no_codes no_codes elements block_data (ending_meant ending) (behind_meant behind)) }
{
    Row {
        class: Class::Secure,
        layout: Layout {
            elements,
            block_data,
            ending,
            behind,
            ..Layout::default()
        },
    }
}
