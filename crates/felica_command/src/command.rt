// The commands of command/mod.rs, what a parse gives beside one, and what it gives instead.
ghost use Rattle.std.specs.Prelude.{◌≡◌};
ghost use Rattle.felica_command.specs.Meaning.{fields_of, refusal, bare};

use crate::types::{
    ContainerProperty, NodeCode, NodePropertyType, ServiceCode, SetParameterEncryptionType,
    SetParameterPacketType,
};
use felica_format::constants as codes;
use felica_format::error::Reason;

// A list, the data or the package, named as a part of the payload: the place of its first byte, counted from the payload's first, and
// how many entries it has (bytes, of data and package). Numbers and no slice: C gets them as such, and a slice has an address, which the readings could not name.
#[derive(Clone, Copy, Debug, Default, PartialEq, Eq)]
pub struct Part {
    pub start: usize,
    pub count: usize,
}

// The variants and fields of the Rust, in its order. IDm, challenges, issue id and issue parameter stand beside the command, in `Parsed`.
#[derive(Clone, Copy, Debug, PartialEq, Eq)]
pub enum FelicaStandardCommand {
    Polling {
        system_code: u16,
        request_code: u8,
        time_slots: u8,
    },
    RequestService {
        service_codes: Part,
    },
    RequestResponse,
    ReadWithoutEncryption {
        service_codes: Part,
        block_list: Part,
    },
    WriteWithoutEncryption {
        service_codes: Part,
        block_list: Part,
        data: Part,
    },
    SearchServiceCode {
        service_index: u16,
    },
    RequestSystemCode,
    RequestBlockInformation {
        node_codes: Part,
    },
    Authentication1 {
        areas: Part,
        services: Part,
    },
    Authentication2,
    Read {
        block_list: Part,
    },
    Write {
        block_list: Part,
        data: Part,
    },
    ReadV2 {
        block_list: Part,
    },
    WriteV2 {
        block_list: Part,
        data: Part,
    },
    RequestCodeList {
        parent_node_code: NodeCode,
        index: u16,
    },
    RequestBlockInformationEx {
        node_codes: Part,
    },
    SetParameter {
        encryption_type: SetParameterEncryptionType,
        packet_type: SetParameterPacketType,
    },
    GetContainerIssueInformation,
    GetAreaInformation {
        node_code: NodeCode,
    },
    GetNodeProperty {
        node_property_type: NodePropertyType,
        node_codes: Part,
    },
    GetContainerProperty {
        property: ContainerProperty,
    },
    RequestServiceV2 {
        service_codes: Part,
    },
    GetSystemStatus,
    RequestProductInformation,
    RequestSpecificationVersion,
    ResetMode,
    Authentication1V2 {
        operation_parameter: u8,
        nodes: Part,
    },
    Authentication2V2,
    GetContainerId,
    RegisterIssueId {
        package: Part,
    },
    RegisterArea {
        area_code: NodeCode,
        package: Part,
    },
    RegisterService {
        service_code: ServiceCode,
        package: Part,
    },
    ChangeSystemBlock,
}

impl FelicaStandardCommand {
    pub fn command_code(self) -> u8
        ensures { result ≡ (fields_of self).code }
    {
        match self {
            Self::Polling { .. } => codes::POLLING_COMMAND_CODE,
            Self::RequestService { .. } => codes::REQUEST_SERVICE_COMMAND_CODE,
            Self::RequestResponse => codes::REQUEST_RESPONSE_COMMAND_CODE,
            Self::ReadWithoutEncryption { .. } => codes::READ_WITHOUT_ENCRYPTION_COMMAND_CODE,
            Self::WriteWithoutEncryption { .. } => codes::WRITE_WITHOUT_ENCRYPTION_COMMAND_CODE,
            Self::SearchServiceCode { .. } => codes::SEARCH_SERVICE_CODE_COMMAND_CODE,
            Self::RequestSystemCode => codes::REQUEST_SYSTEM_CODE_COMMAND_CODE,
            Self::RequestBlockInformation { .. } => codes::REQUEST_BLOCK_INFORMATION_COMMAND_CODE,
            Self::Authentication1 { .. } => codes::AUTHENTICATION1_COMMAND_CODE,
            Self::Authentication2 => codes::AUTHENTICATION2_COMMAND_CODE,
            Self::Read { .. } => codes::READ_COMMAND_CODE,
            Self::Write { .. } => codes::WRITE_COMMAND_CODE,
            Self::ReadV2 { .. } => codes::READ_V2_COMMAND_CODE,
            Self::WriteV2 { .. } => codes::WRITE_V2_COMMAND_CODE,
            Self::RequestCodeList { .. } => codes::REQUEST_CODE_LIST_COMMAND_CODE,
            Self::RequestBlockInformationEx { .. } =>
                codes::REQUEST_BLOCK_INFORMATION_EX_COMMAND_CODE,
            Self::SetParameter { .. } => codes::SET_PARAMETER_COMMAND_CODE,
            Self::GetContainerIssueInformation =>
                codes::GET_CONTAINER_ISSUE_INFORMATION_COMMAND_CODE,
            Self::GetAreaInformation { .. } => codes::GET_AREA_INFORMATION_COMMAND_CODE,
            Self::GetNodeProperty { .. } => codes::GET_NODE_PROPERTY_COMMAND_CODE,
            Self::GetContainerProperty { .. } => codes::GET_CONTAINER_PROPERTY_COMMAND_CODE,
            Self::RequestServiceV2 { .. } => codes::REQUEST_SERVICE_V2_COMMAND_CODE,
            Self::GetSystemStatus => codes::GET_SYSTEM_STATUS_COMMAND_CODE,
            Self::RequestProductInformation => codes::REQUEST_PRODUCT_INFORMATION_COMMAND_CODE,
            Self::RequestSpecificationVersion => codes::REQUEST_SPECIFICATION_VERSION_COMMAND_CODE,
            Self::ResetMode => codes::RESET_MODE_COMMAND_CODE,
            Self::Authentication1V2 { .. } => codes::AUTHENTICATION1_V2_COMMAND_CODE,
            Self::Authentication2V2 => codes::AUTHENTICATION2_V2_COMMAND_CODE,
            Self::GetContainerId => codes::GET_CONTAINER_ID_COMMAND_CODE,
            Self::RegisterIssueId { .. } => codes::REGISTER_ISSUE_ID_COMMAND_CODE,
            Self::RegisterArea { .. } => codes::REGISTER_AREA_COMMAND_CODE,
            Self::RegisterService { .. } => codes::REGISTER_SERVICE_COMMAND_CODE,
            Self::ChangeSystemBlock => codes::CHANGE_SYSTEM_BLOCK_COMMAND_CODE,
        }
    }
}

// Why bytes are refused and, from 4 up, the command code.
#[derive(Clone, Copy, Debug, PartialEq, Eq)]
pub struct Refusal {
    pub reason: Reason,
    pub command_code: Option<u8>,
}

impl Refusal {
    pub fn of_command(reason: Reason, command_code: u8) -> Self
        ensures { result ≡ refusal reason (Some command_code) }
    {
        Self {
            reason,
            command_code: Some(command_code),
        }
    }

    // Before there is a command code: 1 to 3.
    pub fn without_code(reason: Reason) -> Self
        ensures { result ≡ refusal reason None }
    {
        Self {
            reason,
            command_code: None,
        }
    }
}

// A command with its arrays, zero where it lacks them, and how many of its elements were long. The functions for C store the arrays whole, zeros too, and the
// command's kind says whether it has them: an `Option` would say it a second time.
#[derive(Clone, Copy, Debug, PartialEq, Eq)]
pub struct Parsed {
    pub command: FelicaStandardCommand,
    pub idm: [u8; 8],
    // 40 and 42: the challenge. 10 and 12: their challenge of 8 bytes, then eight zeros. 80: the issue id, then the issue parameter.
    pub challenge: [u8; 16],
    pub long: u8,
}

impl Parsed {
    // Without IDm, challenge and long elements.
    pub fn bare(command: FelicaStandardCommand) -> Self
        ensures { result ≡ bare command }
    {
        Self {
            command,
            idm: [0; 8],
            challenge: [0; 16],
            long: 0,
        }
    }
}
