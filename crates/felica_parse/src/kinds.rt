// The command of each code where several share a layout. The code picks it: a closure in its place would have to be described in each contract.
ghost use Rattle.std.specs.Prelude.{◌≡◌};
ghost use Rattle.felica_command.specs.Meaning.{fields_of, fixed, listed};
ghost use Rattle.felica_parse.specs.Codes.{CodeListCode, IdmAloneCode, WordCode, ReservedCode};

use felica_command::command::{FelicaStandardCommand, Part};
use felica_command::types::NodeCode;
use felica_format::constants;

pub(crate) fn code_list_kind(command_code: u8, codes: Part) -> FelicaStandardCommand
    requires { CodeListCode command_code }
    ensures { fields_of result ≡ listed command_code 0 codes }
{
    match command_code {
        constants::REQUEST_SERVICE_COMMAND_CODE => FelicaStandardCommand::RequestService {
            service_codes: codes,
        },
        constants::REQUEST_BLOCK_INFORMATION_COMMAND_CODE =>
            FelicaStandardCommand::RequestBlockInformation { node_codes: codes },
        constants::REQUEST_BLOCK_INFORMATION_EX_COMMAND_CODE =>
            FelicaStandardCommand::RequestBlockInformationEx { node_codes: codes },
        _ => FelicaStandardCommand::RequestServiceV2 {
            service_codes: codes,
        },
    }
}

pub(crate) fn idm_alone_kind(command_code: u8) -> FelicaStandardCommand
    requires { IdmAloneCode command_code }
    ensures { fields_of result ≡ fixed command_code 0 0 0 0 }
{
    match command_code {
        constants::REQUEST_RESPONSE_COMMAND_CODE => FelicaStandardCommand::RequestResponse,
        constants::REQUEST_SYSTEM_CODE_COMMAND_CODE => FelicaStandardCommand::RequestSystemCode,
        _ => FelicaStandardCommand::RequestProductInformation,
    }
}

pub(crate) fn word_kind(command_code: u8, number: u16) -> FelicaStandardCommand
    requires { WordCode command_code }
    ensures { fields_of result ≡ fixed command_code number 0 0 0 }
{
    match command_code {
        constants::SEARCH_SERVICE_CODE_COMMAND_CODE => FelicaStandardCommand::SearchServiceCode {
            service_index: number,
        },
        _ => FelicaStandardCommand::GetAreaInformation {
            node_code: NodeCode(number),
        },
    }
}

pub(crate) fn reserved_kind(command_code: u8) -> FelicaStandardCommand
    requires { ReservedCode command_code }
    ensures { fields_of result ≡ fixed command_code 0 0 0 0 }
{
    match command_code {
        constants::GET_CONTAINER_ISSUE_INFORMATION_COMMAND_CODE =>
            FelicaStandardCommand::GetContainerIssueInformation,
        constants::GET_SYSTEM_STATUS_COMMAND_CODE => FelicaStandardCommand::GetSystemStatus,
        constants::REQUEST_SPECIFICATION_VERSION_COMMAND_CODE =>
            FelicaStandardCommand::RequestSpecificationVersion,
        _ => FelicaStandardCommand::ResetMode,
    }
}
