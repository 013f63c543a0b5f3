// The secure commands, by their decrypted payloads. There is no code byte, and a body begins at 0.
ghost use Rattle.felica_cursor.specs.Body.{BodyRead};
ghost use Rattle.felica_secure.specs.Codes.{ReadCode, WriteCode, RegisterCode};

use crate::kinds::{read_kind, register_kind, write_kind};
use felica_command::command::{FelicaStandardCommand, Parsed};
use felica_cursor::cursor::{Cursor, FIRST_COUNT};
use felica_format::error::Reason;

// Read and Read v2: bytes behind the block list are ignored. The code stands beside the cursor, as in felica_parse/src/plain.rt.
pub(crate) fn parse_read(start: Cursor, command_code: u8) -> Result<Parsed, Reason>
    requires { ReadCode command_code }
    ensures { BodyRead start.entry command_code result }
{
    let (blocks, _) = start.take_block_list(FIRST_COUNT)?;
    Ok(Parsed {
        long: blocks.long,
        ..Parsed::bare(read_kind(command_code, blocks.list))
    })
}

// Write and Write v2: bytes behind the data are ignored.
pub(crate) fn parse_write(start: Cursor, command_code: u8) -> Result<Parsed, Reason>
    requires { WriteCode command_code }
    ensures { BodyRead start.entry command_code result }
{
    let (blocks, behind_blocks) = start.take_block_list(FIRST_COUNT)?;
    let (data, _) = behind_blocks.take_data(blocks.list.count)?;
    Ok(Parsed {
        long: blocks.long,
        ..Parsed::bare(write_kind(command_code, blocks.list, data))
    })
}

pub(crate) fn parse_register_issue_id(start: Cursor) -> Result<Parsed, Reason>
    ensures { BodyRead start.entry 0x80 result }
{
    let (challenge, behind_issue) = start.take_issue()?;
    let package = behind_issue.package();
    Ok(Parsed {
        challenge,
        ..Parsed::bare(FelicaStandardCommand::RegisterIssueId { package })
    })
}

// Register Area and Register Service.
pub(crate) fn parse_register(start: Cursor, command_code: u8) -> Result<Parsed, Reason>
    requires { RegisterCode command_code }
    ensures { BodyRead start.entry command_code result }
{
    let (number, behind_word) = start.take_packaged_word()?;
    let package = behind_word.package();
    Ok(Parsed::bare(register_kind(command_code, number, package)))
}

pub(crate) fn parse_change_system_block(start: Cursor) -> Result<Parsed, Reason>
    ensures { BodyRead start.entry 0x8E result }
{
    start.take_end()?;
    Ok(Parsed::bare(FelicaStandardCommand::ChangeSystemBlock))
}
