// The constants of constants.rs that the commands use, under its names, and the functions that read its tables or stand in place of one.
// Limits of counts are bytes, as the counts are.
ghost use Rattle.std.specs.Prelude.{◌≡◌, leb};
ghost use Rattle.felica_format.specs.Layout.{bounds_at};
ghost use Rattle.felica_format.specs.Read.{is_time_slots};

pub const IDM_LEN: usize = 8;

// Bytes of a block.
pub const BLOCK_SIZE: usize = 16;

// Bytes of the longest frame.
pub const MAX_PACKET_LEN: usize = 0xFF;

pub const MAX_SERVICE_CODES: u8 = 0x20;

// The same where blocks are read or written without encryption.
pub const MAX_RW_SERVICE_CODES: u8 = 0x10;

pub const MAX_NODE_CODES: u8 = 0x20;

// The same where node properties are asked for.
pub const MAX_NODE_PROPERTY_CODES: u8 = 0x10;

pub const POLLING_COMMAND_CODE: u8 = 0x00;

pub const REQUEST_SERVICE_COMMAND_CODE: u8 = 0x02;

pub const REQUEST_RESPONSE_COMMAND_CODE: u8 = 0x04;

pub const READ_WITHOUT_ENCRYPTION_COMMAND_CODE: u8 = 0x06;

pub const WRITE_WITHOUT_ENCRYPTION_COMMAND_CODE: u8 = 0x08;

pub const SEARCH_SERVICE_CODE_COMMAND_CODE: u8 = 0x0A;

pub const REQUEST_SYSTEM_CODE_COMMAND_CODE: u8 = 0x0C;

pub const REQUEST_BLOCK_INFORMATION_COMMAND_CODE: u8 = 0x0E;

pub const AUTHENTICATION1_COMMAND_CODE: u8 = 0x10;

pub const AUTHENTICATION2_COMMAND_CODE: u8 = 0x12;

pub const REQUEST_CODE_LIST_COMMAND_CODE: u8 = 0x1A;

pub const REQUEST_BLOCK_INFORMATION_EX_COMMAND_CODE: u8 = 0x1E;

pub const SET_PARAMETER_COMMAND_CODE: u8 = 0x20;

pub const GET_CONTAINER_ISSUE_INFORMATION_COMMAND_CODE: u8 = 0x22;

pub const GET_AREA_INFORMATION_COMMAND_CODE: u8 = 0x24;

pub const GET_NODE_PROPERTY_COMMAND_CODE: u8 = 0x28;

pub const GET_CONTAINER_PROPERTY_COMMAND_CODE: u8 = 0x2E;

pub const REQUEST_SERVICE_V2_COMMAND_CODE: u8 = 0x32;

pub const GET_SYSTEM_STATUS_COMMAND_CODE: u8 = 0x38;

pub const REQUEST_PRODUCT_INFORMATION_COMMAND_CODE: u8 = 0x3A;

pub const REQUEST_SPECIFICATION_VERSION_COMMAND_CODE: u8 = 0x3C;

pub const RESET_MODE_COMMAND_CODE: u8 = 0x3E;

pub const AUTHENTICATION1_V2_COMMAND_CODE: u8 = 0x40;

pub const AUTHENTICATION2_V2_COMMAND_CODE: u8 = 0x42;

pub const GET_CONTAINER_ID_COMMAND_CODE: u8 = 0x70;

// The secure commands.
pub const READ_COMMAND_CODE: u8 = 0x14;

pub const WRITE_COMMAND_CODE: u8 = 0x16;

pub const READ_V2_COMMAND_CODE: u8 = 0x44;

pub const WRITE_V2_COMMAND_CODE: u8 = 0x46;

pub const REGISTER_ISSUE_ID_COMMAND_CODE: u8 = 0x80;

pub const REGISTER_AREA_COMMAND_CODE: u8 = 0x82;

pub const REGISTER_SERVICE_COMMAND_CODE: u8 = 0x84;

pub const CHANGE_SYSTEM_BLOCK_COMMAND_CODE: u8 = 0x8E;

// The least and the greatest count of a list of codes.
#[derive(Clone, Copy, Debug, PartialEq, Eq)]
pub struct Bounds {
    pub least: u8,
    pub greatest: u8,
}

// Of a layout without a code list: document 01 asks for one table of 25 rows, 0 and 0 where a layout has none.
const NO_CODES: Bounds = Bounds {
    least: 0,
    greatest: 0,
};

pub const SERVICE_CODES: Bounds = Bounds {
    least: 1,
    greatest: MAX_SERVICE_CODES,
};

pub const RW_SERVICE_CODES: Bounds = Bounds {
    least: 1,
    greatest: MAX_RW_SERVICE_CODES,
};

pub const AREA_AND_SERVICE_CODES: Bounds = Bounds {
    least: 0,
    greatest: MAX_SERVICE_CODES,
};

pub const NODE_CODES: Bounds = Bounds {
    least: 1,
    greatest: MAX_NODE_CODES,
};

pub const NODE_PROPERTY_CODES: Bounds = Bounds {
    least: 1,
    greatest: MAX_NODE_PROPERTY_CODES,
};

// A row for each plain code, in rising order; Authentication1's two lists share theirs.
const BOUNDS: [Bounds; 25] = [
    NO_CODES, // 00
    SERVICE_CODES, // 02
    NO_CODES, // 04
    RW_SERVICE_CODES, // 06
    RW_SERVICE_CODES, // 08
    NO_CODES, // 0A
    NO_CODES, // 0C
    NODE_CODES, // 0E
    AREA_AND_SERVICE_CODES, // 10
    NO_CODES, // 12
    NO_CODES, // 1A
    NODE_CODES, // 1E
    NO_CODES, // 20
    NO_CODES, // 22
    NO_CODES, // 24
    NODE_PROPERTY_CODES, // 28
    NO_CODES, // 2E
    SERVICE_CODES, // 32
    NO_CODES, // 38
    NO_CODES, // 3A
    NO_CODES, // 3C
    NO_CODES, // 3E
    SERVICE_CODES, // 40
    NO_CODES, // 42
    NO_CODES, // 70
];

// The bounds of a block count, which all block lists share. The Rust writes the least one where it is used.
pub const MIN_BLOCK_COUNT: u8 = 1;

pub const MAX_BLOCK_COUNT: u8 = 0xFF;

// A row of the table, and no codes from 25 up. A caller names its row by a literal, so that the compiler puts its values in place of the table.
pub fn bounds_at(row: usize) -> Bounds
    ensures { result ≡ bounds_at row }
{
    BOUNDS.get(row).copied().unwrap_or(NO_CODES)
}

const POLLING_REQUEST_CODES: [u8; 3] = [0x00, 0x01, 0x02];

pub fn is_polling_request_code(value: u8) -> bool
    ensures { result ≡ leb value 2 }
{
    POLLING_REQUEST_CODES.contains(&value)
}

// In place of the Rust's POLLING_TIME_SLOTS: a value below 16 that shares no set bit with its successor.
pub fn is_polling_time_slot(value: u8) -> bool
    ensures { result ≡ is_time_slots value }
{
    value < 16 && value & (value + 1) == 0
}
