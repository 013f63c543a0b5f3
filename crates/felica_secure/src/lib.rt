// The port of parse_secure_payload of command/parse.rs: a secure code with its decrypted payload.
#![tactic(auto)]

ghost use Rattle.felica_format.specs.Read.{read_secure};
ghost use Rattle.felica_command.specs.Places.{Account, ParserAccount};
ghost use Rattle.felica_cursor.specs.Taken.{rest};
ghost use Rattle.felica_cursor.specs.Body.{result_of};

mod bodies;
mod kinds;

use bodies::{
    parse_change_system_block, parse_read, parse_register, parse_register_issue_id, parse_write,
};
use felica_command::command::{Parsed, Refusal};
use felica_cursor::cursor::Cursor;
use felica_format::constants;
use felica_format::error::Reason;

// A plain code is unknown here.
pub fn parse_secure_payload(command_code: u8, payload: &[u8]) -> Result<Parsed, Refusal>
    ensures { ParserAccount payload.now 0 (read_secure command_code payload.now) result }
{
    let body = Cursor { payload, at: 0 };
    parse_command(command_code, body).map_err(|reason| Refusal::of_command(reason, command_code))
}

// The body of a command, by its code.
#[tactic(auto, using(crate::proofs::Entry::secure_read, crate::proofs::Entry::secure_refused), unfolding(felica_format::specs::Layout::class_of, felica_format::specs::Layout::has, felica_format::specs::Layout::plain_rows, felica_format::specs::Layout::secure_rows))]
fn parse_command(command_code: u8, start: Cursor) -> Result<Parsed, Reason>
    ensures { Account start.entry.payload.now start.entry.at (read_secure command_code (rest start.entry)) (result_of command_code result) }
{
    match command_code {
        constants::READ_COMMAND_CODE | constants::READ_V2_COMMAND_CODE => parse_read(
            start,
            command_code,
        ),
        constants::WRITE_COMMAND_CODE | constants::WRITE_V2_COMMAND_CODE => parse_write(
            start,
            command_code,
        ),
        constants::REGISTER_ISSUE_ID_COMMAND_CODE => parse_register_issue_id(start),
        constants::REGISTER_AREA_COMMAND_CODE | constants::REGISTER_SERVICE_COMMAND_CODE =>
            parse_register(start, command_code),
        constants::CHANGE_SYSTEM_BLOCK_COMMAND_CODE => parse_change_system_block(start),
        _ => Err(Reason::UnknownCode),
    }
}
