// The command of each code where two share a layout, picked by the code as in felica_parse.
ghost use Rattle.std.specs.Prelude.{◌≡◌};
ghost use Rattle.felica_command.specs.Meaning.{no_part, fields_of, blocks, packed};
ghost use Rattle.felica_secure.specs.Codes.{ReadCode, WriteCode, RegisterCode};

use felica_command::command::{FelicaStandardCommand, Part};
use felica_command::types::{NodeCode, ServiceCode};
use felica_format::constants;

pub(crate) fn read_kind(command_code: u8, block_list: Part) -> FelicaStandardCommand
    requires { ReadCode command_code }
    ensures { fields_of result ≡ blocks command_code no_part block_list no_part }
{
    match command_code {
        constants::READ_COMMAND_CODE => FelicaStandardCommand::Read { block_list },
        _ => FelicaStandardCommand::ReadV2 { block_list },
    }
}

pub(crate) fn write_kind(command_code: u8, block_list: Part, bytes: Part) -> FelicaStandardCommand
    requires { WriteCode command_code }
    ensures { fields_of result ≡ blocks command_code no_part block_list bytes }
{
    match command_code {
        constants::WRITE_COMMAND_CODE => FelicaStandardCommand::Write {
            block_list,
            data: bytes,
        },
        _ => FelicaStandardCommand::WriteV2 {
            block_list,
            data: bytes,
        },
    }
}

pub(crate) fn register_kind(command_code: u8, number: u16, tail: Part) -> FelicaStandardCommand
    requires { RegisterCode command_code }
    ensures { fields_of result ≡ packed command_code number tail }
{
    match command_code {
        constants::REGISTER_AREA_COMMAND_CODE => FelicaStandardCommand::RegisterArea {
            area_code: NodeCode(number),
            package: tail,
        },
        _ => FelicaStandardCommand::RegisterService {
            service_code: ServiceCode(number),
            package: tail,
        },
    }
}
