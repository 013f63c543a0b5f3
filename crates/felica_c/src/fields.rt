// The fields of a command as numbers, in the order of `fields` and `parts` (include/felica.h), zero where the command lacks them. Each answers the command code.
// One match puts them all: with a match for the numbers and one for each part, a call of the parser took a fifth more instructions, and one of the list reader two fifths.
ghost use Rattle.std.specs.Prelude.{◌≡◌};
ghost use Rattle.felica_command.specs.Meaning.{fields_of, fields as row, fixed, listed, blocks, packed, no_part};
ghost use Rattle.felica_command.specs.declared.types.ContainerProperty.TheVariants.{Property1};
ghost use Rattle.felica_command.specs.Places.{places};
ghost use Rattle.felica_c.specs.Boundary.{parts_of};
ghost use Rattle.felica_c.specs.Fields.{put, put_fields};

use felica_command::command::{FelicaStandardCommand, Part};
use felica_format::constants as codes;

const NONE: Part = Part { start: 0, count: 0 };

// The memory that C lends for a command; each `put_*` writes all of it. Contracts number the fields: `exit.0` is what `fields` points to at the end, `exit.1.0` the same of
// `parts`.
#[derive(Drop)]
struct FieldsAndParts<'a> {
    fields: &'a mut [u16; 5],
    parts: &'a mut [usize; 10],
}

pub(crate) fn put_fields(
    command: FelicaStandardCommand,
    fields: &mut [u16; 5],
    parts: &mut [usize; 10],
) -> u8
    ensures { put result fields.new parts.new ≡ put_fields (fields_of command) }
{
    let out = FieldsAndParts { fields, parts };
    match command {
        FelicaStandardCommand::Polling {
            system_code,
            request_code,
            time_slots,
        } => out.put_fixed(
            codes::POLLING_COMMAND_CODE,
            system_code,
            0,
            request_code,
            time_slots,
        ),
        FelicaStandardCommand::RequestService { service_codes } => out.put_listed(
            codes::REQUEST_SERVICE_COMMAND_CODE,
            0,
            service_codes,
        ),
        FelicaStandardCommand::RequestResponse => out.put_code(
            codes::REQUEST_RESPONSE_COMMAND_CODE,
        ),
        FelicaStandardCommand::ReadWithoutEncryption {
            service_codes,
            block_list,
        } => out.put_blocks(
            codes::READ_WITHOUT_ENCRYPTION_COMMAND_CODE,
            service_codes,
            block_list,
            NONE,
        ),
        FelicaStandardCommand::WriteWithoutEncryption {
            service_codes,
            block_list,
            data,
        } => out.put_blocks(
            codes::WRITE_WITHOUT_ENCRYPTION_COMMAND_CODE,
            service_codes,
            block_list,
            data,
        ),
        FelicaStandardCommand::SearchServiceCode { service_index } => out.put_fixed(
            codes::SEARCH_SERVICE_CODE_COMMAND_CODE,
            service_index,
            0,
            0,
            0,
        ),
        FelicaStandardCommand::RequestSystemCode => out.put_code(
            codes::REQUEST_SYSTEM_CODE_COMMAND_CODE,
        ),
        FelicaStandardCommand::RequestBlockInformation { node_codes } => out.put_listed(
            codes::REQUEST_BLOCK_INFORMATION_COMMAND_CODE,
            0,
            node_codes,
        ),
        FelicaStandardCommand::Authentication1 { areas, services } => out.put_two_lists(
            codes::AUTHENTICATION1_COMMAND_CODE,
            areas,
            services,
        ),
        FelicaStandardCommand::Authentication2 => out.put_code(codes::AUTHENTICATION2_COMMAND_CODE),
        FelicaStandardCommand::Read { block_list } => out.put_blocks(
            codes::READ_COMMAND_CODE,
            NONE,
            block_list,
            NONE,
        ),
        FelicaStandardCommand::Write { block_list, data } => out.put_blocks(
            codes::WRITE_COMMAND_CODE,
            NONE,
            block_list,
            data,
        ),
        FelicaStandardCommand::ReadV2 { block_list } => out.put_blocks(
            codes::READ_V2_COMMAND_CODE,
            NONE,
            block_list,
            NONE,
        ),
        FelicaStandardCommand::WriteV2 { block_list, data } => out.put_blocks(
            codes::WRITE_V2_COMMAND_CODE,
            NONE,
            block_list,
            data,
        ),
        FelicaStandardCommand::RequestCodeList {
            parent_node_code,
            index,
        } => out.put_fixed(
            codes::REQUEST_CODE_LIST_COMMAND_CODE,
            parent_node_code.0,
            index,
            0,
            0,
        ),
        FelicaStandardCommand::RequestBlockInformationEx { node_codes } => out.put_listed(
            codes::REQUEST_BLOCK_INFORMATION_EX_COMMAND_CODE,
            0,
            node_codes,
        ),
        FelicaStandardCommand::SetParameter {
            encryption_type,
            packet_type,
        } => out.put_fixed(
            codes::SET_PARAMETER_COMMAND_CODE,
            0,
            0,
            encryption_type.to_byte(),
            packet_type.to_byte(),
        ),
        FelicaStandardCommand::GetContainerIssueInformation => out.put_code(
            codes::GET_CONTAINER_ISSUE_INFORMATION_COMMAND_CODE,
        ),
        FelicaStandardCommand::GetAreaInformation { node_code } => out.put_fixed(
            codes::GET_AREA_INFORMATION_COMMAND_CODE,
            node_code.0,
            0,
            0,
            0,
        ),
        FelicaStandardCommand::GetNodeProperty {
            node_property_type,
            node_codes,
        } => out.put_listed(
            codes::GET_NODE_PROPERTY_COMMAND_CODE,
            node_property_type.to_byte(),
            node_codes,
        ),
        FelicaStandardCommand::GetContainerProperty { property } => out.put_fixed(
            codes::GET_CONTAINER_PROPERTY_COMMAND_CODE,
            property.index(),
            0,
            0,
            0,
        ),
        FelicaStandardCommand::RequestServiceV2 { service_codes } => out.put_listed(
            codes::REQUEST_SERVICE_V2_COMMAND_CODE,
            0,
            service_codes,
        ),
        FelicaStandardCommand::GetSystemStatus => out.put_code(
            codes::GET_SYSTEM_STATUS_COMMAND_CODE,
        ),
        FelicaStandardCommand::RequestProductInformation => out.put_code(
            codes::REQUEST_PRODUCT_INFORMATION_COMMAND_CODE,
        ),
        FelicaStandardCommand::RequestSpecificationVersion => out.put_code(
            codes::REQUEST_SPECIFICATION_VERSION_COMMAND_CODE,
        ),
        FelicaStandardCommand::ResetMode => out.put_code(codes::RESET_MODE_COMMAND_CODE),
        FelicaStandardCommand::Authentication1V2 {
            operation_parameter,
            nodes,
        } => out.put_listed(
            codes::AUTHENTICATION1_V2_COMMAND_CODE,
            operation_parameter,
            nodes,
        ),
        FelicaStandardCommand::Authentication2V2 => out.put_code(
            codes::AUTHENTICATION2_V2_COMMAND_CODE,
        ),
        FelicaStandardCommand::GetContainerId => out.put_code(codes::GET_CONTAINER_ID_COMMAND_CODE),
        FelicaStandardCommand::RegisterIssueId { package } => out.put_packed(
            codes::REGISTER_ISSUE_ID_COMMAND_CODE,
            0,
            package,
        ),
        FelicaStandardCommand::RegisterArea { area_code, package } => out.put_packed(
            codes::REGISTER_AREA_COMMAND_CODE,
            area_code.0,
            package,
        ),
        FelicaStandardCommand::RegisterService {
            service_code,
            package,
        } => out.put_packed(
            codes::REGISTER_SERVICE_COMMAND_CODE,
            service_code.0,
            package,
        ),
        FelicaStandardCommand::ChangeSystemBlock => out.put_code(
            codes::CHANGE_SYSTEM_BLOCK_COMMAND_CODE,
        ),
    }
}

impl FieldsAndParts<'_> {
    // Nothing but the code.
    fn put_code(self, code: u8) -> u8
        ensures { put result self.exit.0.now self.exit.1.0.now ≡ put_fields (fixed code 0 0 0 0) }
    {
        self.put_fixed(code, 0, 0, 0, 0)
    }

    fn put_fixed(self, code: u8, number: u16, index: u16, option: u8, choice: u8) -> u8
        ensures { put result self.exit.0.now self.exit.1.0.now ≡ put_fields (fixed code number index option choice) }
    {
        *self.fields = [0, number, index, u16::from(option), u16::from(choice)];
        put_parts(self.parts, NONE, NONE, NONE, NONE, NONE);
        code
    }

    fn put_listed(self, code: u8, selector: u8, list: Part) -> u8
        ensures { put result self.exit.0.now self.exit.1.0.now ≡ put_fields (listed code selector list) }
    {
        *self.fields = [u16::from(selector), 0, 0, 0, 0];
        put_parts(self.parts, list, NONE, NONE, NONE, NONE);
        code
    }

    fn put_two_lists(self, code: u8, first: Part, second: Part) -> u8
        ensures { put result self.exit.0.now self.exit.1.0.now ≡ put_fields (row code 0 first second no_part no_part 0 0 0 0 no_part Property1) }
    {
        *self.fields = [0, 0, 0, 0, 0];
        put_parts(self.parts, first, second, NONE, NONE, NONE);
        code
    }

    fn put_blocks(self, code: u8, list: Part, block_list: Part, data: Part) -> u8
        ensures { put result self.exit.0.now self.exit.1.0.now ≡ put_fields (blocks code list block_list «data») }
    {
        *self.fields = [0, 0, 0, 0, 0];
        put_parts(self.parts, list, NONE, block_list, data, NONE);
        code
    }

    fn put_packed(self, code: u8, number: u16, package: Part) -> u8
        ensures { put result self.exit.0.now self.exit.1.0.now ≡ put_fields (packed code number «package») }
    {
        *self.fields = [0, number, 0, 0, 0];
        put_parts(self.parts, NONE, NONE, NONE, NONE, package);
        code
    }
}

fn put_parts(
    parts: &mut [usize; 10],
    first: Part,
    second: Part,
    block_list: Part,
    data: Part,
    package: Part,
)
    ensures { parts.new ≡ parts_of (places first second block_list «data» «package») }
{
    *parts = [
        first.start,
        first.count,
        second.start,
        second.count,
        block_list.start,
        block_list.count,
        data.start,
        data.count,
        package.start,
        package.count,
    ];
}
