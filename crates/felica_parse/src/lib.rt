// The port of command/parse.rs: a payload. Frames are felica_frame's, secure codes felica_secure's.
#![tactic(auto)]

ghost use Rattle.std.specs.Prelude.{◌≡◌, ℕ, List, Some};
ghost use Rattle.felica_format.specs.Layout.{class_of};
ghost use Rattle.felica_format.specs.Read.{read_payload, read_plain_as, refused};
ghost use Rattle.felica_format.specs.Reasons.{number_of};
ghost use Rattle.felica_command.specs.Places.{Account, ParserAccount};
ghost use Rattle.felica_cursor.specs.Taken.{rest};
ghost use Rattle.felica_cursor.specs.Body.{result_of};
ghost use Rattle.felica_parse.specs.Codes.{NotPlain};

mod kinds;
mod plain;

use felica_command::command::{Parsed, Refusal};
use felica_cursor::cursor::Cursor;
use felica_format::classes::{Class, class_of};
use felica_format::constants;
use felica_format::error::Reason;
use plain::{
    parse_authentication1, parse_authentication1_v2, parse_authentication2,
    parse_authentication2_v2, parse_code_list, parse_get_container_id,
    parse_get_container_property, parse_get_node_property, parse_idm_alone, parse_idm_and_reserved,
    parse_idm_and_word, parse_polling, parse_read_without_encryption, parse_request_code_list,
    parse_set_parameter, parse_write_without_encryption,
};

// A payload: the code byte and the body of its command.
pub fn parse_payload(payload: &[u8]) -> Result<Parsed, Refusal>
    ensures { ParserAccount payload.now 1 (read_payload payload.now) result }
{
    let Some(&command_code) = payload.first() else {
        return Err(Refusal::without_code(Reason::EmptyPayload));
    };
    let body = Cursor { payload, at: 1 };
    parse_command(command_code, body).map_err(|reason| Refusal::of_command(reason, command_code))
}

// The body of a command, by its code.
#[tactic(auto, using(crate::proofs::Entry::plain_read, felica_command::proofs::Settled::refusal_account), unfolding(felica_format::specs::Layout::class_of, felica_format::specs::Layout::has, felica_format::specs::Layout::plain_rows))]
fn parse_command(command_code: u8, start: Cursor) -> Result<Parsed, Reason>
    ensures { Account start.entry.payload.now start.entry.at (read_plain_as (class_of command_code) command_code (rest start.entry)) (result_of command_code result) }
{
    match command_code {
        constants::POLLING_COMMAND_CODE => parse_polling(start),
        constants::REQUEST_SERVICE_COMMAND_CODE
        | constants::REQUEST_BLOCK_INFORMATION_COMMAND_CODE
        | constants::REQUEST_BLOCK_INFORMATION_EX_COMMAND_CODE
        | constants::REQUEST_SERVICE_V2_COMMAND_CODE => parse_code_list(start, command_code),
        constants::REQUEST_RESPONSE_COMMAND_CODE
        | constants::REQUEST_SYSTEM_CODE_COMMAND_CODE
        | constants::REQUEST_PRODUCT_INFORMATION_COMMAND_CODE => parse_idm_alone(
            start,
            command_code,
        ),
        constants::READ_WITHOUT_ENCRYPTION_COMMAND_CODE => parse_read_without_encryption(start),
        constants::WRITE_WITHOUT_ENCRYPTION_COMMAND_CODE => parse_write_without_encryption(start),
        constants::SEARCH_SERVICE_CODE_COMMAND_CODE
        | constants::GET_AREA_INFORMATION_COMMAND_CODE => parse_idm_and_word(start, command_code),
        constants::AUTHENTICATION1_COMMAND_CODE => parse_authentication1(start),
        constants::AUTHENTICATION2_COMMAND_CODE => parse_authentication2(start),
        constants::REQUEST_CODE_LIST_COMMAND_CODE => parse_request_code_list(start),
        constants::SET_PARAMETER_COMMAND_CODE => parse_set_parameter(start),
        constants::GET_CONTAINER_ISSUE_INFORMATION_COMMAND_CODE
        | constants::GET_SYSTEM_STATUS_COMMAND_CODE
        | constants::REQUEST_SPECIFICATION_VERSION_COMMAND_CODE
        | constants::RESET_MODE_COMMAND_CODE => parse_idm_and_reserved(start, command_code),
        constants::GET_NODE_PROPERTY_COMMAND_CODE => parse_get_node_property(start),
        constants::GET_CONTAINER_PROPERTY_COMMAND_CODE => parse_get_container_property(start),
        constants::AUTHENTICATION1_V2_COMMAND_CODE => parse_authentication1_v2(start),
        constants::AUTHENTICATION2_V2_COMMAND_CODE => parse_authentication2_v2(start),
        constants::GET_CONTAINER_ID_COMMAND_CODE => parse_get_container_id(start),
        _ => Err(not_plain(command_code)),
    }
}

// Why a code that is no plain one is refused in a plain payload.
fn not_plain(command_code: u8) -> Reason
    requires { NotPlain command_code }
    ensures { (s : List ℕ) → read_plain_as (class_of command_code) command_code s ≡ refused (number_of result) (Some command_code) }
{
    match class_of(command_code) {
        Class::Secure => Reason::SecureCode,
        // The caller has taken every plain code.
        Class::Unknown | Class::Plain => Reason::UnknownCode,
    }
}
