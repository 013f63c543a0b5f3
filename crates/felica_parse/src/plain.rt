// The plain commands, by their bodies. In a payload a body begins behind the code byte, at 1.
ghost use Rattle.std.specs.Prelude.{◌≡◌};
ghost use Rattle.felica_cursor.specs.Body.{BodyRead};
ghost use Rattle.felica_parse.specs.Codes.{CodeListCode, IdmAloneCode, WordCode, ReservedCode};

use crate::kinds::{code_list_kind, idm_alone_kind, reserved_kind, word_kind};
use felica_command::command::{FelicaStandardCommand, Parsed};
use felica_command::types::{ContainerProperty, NodeCode};
use felica_cursor::cursor::{Cursor, FIRST_COUNT, SECOND_COUNT};
use felica_cursor::endings::{Parameter, Polling};
use felica_format::error::Reason;

// Rows of the table of bounds. The codes of `parse_code_list` have equal bounds, and the first one's row serves them all.
const REQUEST_SERVICE_ROW: usize = 1;

const READ_WITHOUT_ENCRYPTION_ROW: usize = 3;

const WRITE_WITHOUT_ENCRYPTION_ROW: usize = 4;

const AUTHENTICATION1_ROW: usize = 8;

const GET_NODE_PROPERTY_ROW: usize = 15;

const AUTHENTICATION1_V2_ROW: usize = 22;

pub(crate) fn parse_polling(start: Cursor) -> Result<Parsed, Reason>
    ensures { BodyRead start.entry 0x00 result }
{
    let (polling, _) = start.take_polling()?;
    let Polling {
        system_code,
        request_code,
        time_slots,
    } = polling;
    Ok(Parsed::bare(FelicaStandardCommand::Polling {
        system_code,
        request_code,
        time_slots,
    }))
}

// parse_request_service, parse_request_block_information, parse_request_block_information_ex and parse_request_service_v2.
// Here and below the code stands beside the cursor: a struct of both would be taken apart at once, since a step wants the cursor alone and the variant the code.
pub(crate) fn parse_code_list(start: Cursor, command_code: u8) -> Result<Parsed, Reason>
    requires { CodeListCode command_code }
    ensures { BodyRead start.entry command_code result }
{
    let (idm, behind_idm) = start.take_idm()?;
    let (codes, behind_codes) = behind_idm.take_u16_list(REQUEST_SERVICE_ROW, FIRST_COUNT)?;
    behind_codes.take_end()?;
    Ok(Parsed {
        idm,
        ..Parsed::bare(code_list_kind(command_code, codes))
    })
}

// parse_request_response, parse_request_system_code and parse_request_product_information
pub(crate) fn parse_idm_alone(start: Cursor, command_code: u8) -> Result<Parsed, Reason>
    requires { IdmAloneCode command_code }
    ensures { BodyRead start.entry command_code result }
{
    let (idm, behind_idm) = start.take_idm()?;
    behind_idm.take_end()?;
    Ok(Parsed {
        idm,
        ..Parsed::bare(idm_alone_kind(command_code))
    })
}

pub(crate) fn parse_read_without_encryption(start: Cursor) -> Result<Parsed, Reason>
    ensures { BodyRead start.entry 0x06 result }
{
    let (idm, behind_idm) = start.take_idm()?;
    let (service_codes, behind_codes) = behind_idm.take_u16_list(
        READ_WITHOUT_ENCRYPTION_ROW,
        FIRST_COUNT,
    )?;
    let (blocks, behind_blocks) = behind_codes.take_block_list(SECOND_COUNT)?;
    behind_blocks.take_end()?;
    Ok(Parsed {
        idm,
        long: blocks.long,
        ..Parsed::bare(FelicaStandardCommand::ReadWithoutEncryption {
            service_codes,
            block_list: blocks.list,
        })
    })
}

pub(crate) fn parse_write_without_encryption(start: Cursor) -> Result<Parsed, Reason>
    ensures { BodyRead start.entry 0x08 result }
{
    let (idm, behind_idm) = start.take_idm()?;
    let (service_codes, behind_codes) = behind_idm.take_u16_list(
        WRITE_WITHOUT_ENCRYPTION_ROW,
        FIRST_COUNT,
    )?;
    let (blocks, behind_blocks) = behind_codes.take_block_list(SECOND_COUNT)?;
    let (data, behind_data) = behind_blocks.take_data(blocks.list.count)?;
    behind_data.take_end()?;
    Ok(Parsed {
        idm,
        long: blocks.long,
        ..Parsed::bare(FelicaStandardCommand::WriteWithoutEncryption {
            service_codes,
            block_list: blocks.list,
            data,
        })
    })
}

// parse_search_service_code and parse_get_area_information
pub(crate) fn parse_idm_and_word(start: Cursor, command_code: u8) -> Result<Parsed, Reason>
    requires { WordCode command_code }
    ensures { BodyRead start.entry command_code result }
{
    let (idm, behind_idm) = start.take_idm()?;
    let (number, _) = behind_idm.take_word()?;
    Ok(Parsed {
        idm,
        ..Parsed::bare(word_kind(command_code, number))
    })
}

pub(crate) fn parse_authentication1(start: Cursor) -> Result<Parsed, Reason>
    ensures { BodyRead start.entry 0x10 result }
{
    let (idm, behind_idm) = start.take_idm()?;
    let (areas, behind_areas) = behind_idm.take_u16_list(AUTHENTICATION1_ROW, FIRST_COUNT)?;
    let (services, behind_services) = behind_areas.take_u16_list(
        AUTHENTICATION1_ROW,
        SECOND_COUNT,
    )?;
    let (challenge, _) = behind_services.take_challenge_8()?;
    Ok(Parsed {
        idm,
        challenge,
        ..Parsed::bare(FelicaStandardCommand::Authentication1 { areas, services })
    })
}

// Not one function with parse_authentication2_v2: there the code would have to choose the step, the layout and the variant.
pub(crate) fn parse_authentication2(start: Cursor) -> Result<Parsed, Reason>
    ensures { BodyRead start.entry 0x12 result }
{
    let (idm, behind_idm) = start.take_idm()?;
    let (challenge, _) = behind_idm.take_challenge_8()?;
    Ok(Parsed {
        idm,
        challenge,
        ..Parsed::bare(FelicaStandardCommand::Authentication2)
    })
}

pub(crate) fn parse_request_code_list(start: Cursor) -> Result<Parsed, Reason>
    ensures { BodyRead start.entry 0x1A result }
{
    let (idm, behind_idm) = start.take_idm()?;
    let ((parent, index), _) = behind_idm.take_words()?;
    Ok(Parsed {
        idm,
        ..Parsed::bare(FelicaStandardCommand::RequestCodeList {
            parent_node_code: NodeCode(parent),
            index,
        })
    })
}

pub(crate) fn parse_set_parameter(start: Cursor) -> Result<Parsed, Reason>
    ensures { BodyRead start.entry 0x20 result }
{
    let (idm, behind_idm) = start.take_idm()?;
    let (parameter, _) = behind_idm.take_parameter()?;
    let Parameter {
        encryption_type,
        packet_type,
    } = parameter;
    Ok(Parsed {
        idm,
        ..Parsed::bare(FelicaStandardCommand::SetParameter {
            encryption_type,
            packet_type,
        })
    })
}

// parse_get_container_issue_information, parse_get_system_status, parse_request_specification_version and parse_reset_mode
pub(crate) fn parse_idm_and_reserved(start: Cursor, command_code: u8) -> Result<Parsed, Reason>
    requires { ReservedCode command_code }
    ensures { BodyRead start.entry command_code result }
{
    let (idm, behind_idm) = start.take_idm()?;
    behind_idm.take_reserved()?;
    Ok(Parsed {
        idm,
        ..Parsed::bare(reserved_kind(command_code))
    })
}

pub(crate) fn parse_get_node_property(start: Cursor) -> Result<Parsed, Reason>
    ensures { BodyRead start.entry 0x28 result }
{
    let (idm, behind_idm) = start.take_idm()?;
    let (node_property_type, behind_type) = behind_idm.take_node_property_type()?;
    let (node_codes, behind_codes) = behind_type.take_u16_list(GET_NODE_PROPERTY_ROW, FIRST_COUNT)?;
    behind_codes.take_end()?;
    Ok(Parsed {
        idm,
        ..Parsed::bare(FelicaStandardCommand::GetNodeProperty {
            node_property_type,
            node_codes,
        })
    })
}

pub(crate) fn parse_get_container_property(start: Cursor) -> Result<Parsed, Reason>
    ensures { BodyRead start.entry 0x2E result }
{
    let (index, _) = start.take_word()?;
    let property = ContainerProperty::from_index(index);
    Ok(Parsed::bare(FelicaStandardCommand::GetContainerProperty { property }))
}

pub(crate) fn parse_authentication1_v2(start: Cursor) -> Result<Parsed, Reason>
    ensures { BodyRead start.entry 0x40 result }
{
    let (idm, behind_idm) = start.take_idm()?;
    let (operation_parameter, behind_parameter) = behind_idm.take_operation_parameter()?;
    let (nodes, behind_nodes) = behind_parameter.take_u16_list(
        AUTHENTICATION1_V2_ROW,
        FIRST_COUNT,
    )?;
    let (challenge, _) = behind_nodes.take_challenge_16()?;
    Ok(Parsed {
        idm,
        challenge,
        ..Parsed::bare(FelicaStandardCommand::Authentication1V2 {
            operation_parameter,
            nodes,
        })
    })
}

pub(crate) fn parse_authentication2_v2(start: Cursor) -> Result<Parsed, Reason>
    ensures { BodyRead start.entry 0x42 result }
{
    let (idm, behind_idm) = start.take_idm()?;
    let (challenge, _) = behind_idm.take_challenge_16()?;
    Ok(Parsed {
        idm,
        challenge,
        ..Parsed::bare(FelicaStandardCommand::Authentication2V2)
    })
}

pub(crate) fn parse_get_container_id(start: Cursor) -> Result<Parsed, Reason>
    ensures { BodyRead start.entry 0x70 result }
{
    start.take_reserved()?;
    Ok(Parsed::bare(FelicaStandardCommand::GetContainerId))
}
