// The types of types.rs that the commands use, under its names.
ghost use Rattle.std.specs.Prelude.{◌≡◌};
ghost use Rattle.felica_command.specs.Types.{property_of, property_index, type_of, node_property_type_of, node_property_byte};
ghost use Rattle.felica_command.specs.Types.{encryption_type_of, encryption_byte, packet_type_of, packet_byte};

#[derive(Clone, Copy, Debug, PartialEq, Eq)]
pub struct ServiceCode(pub u16);

// The code of a system, an area or a service.
#[derive(Clone, Copy, Debug, PartialEq, Eq)]
pub struct NodeCode(pub u16);

#[derive(Clone, Copy, Debug, PartialEq, Eq)]
pub struct BlockNumber(pub u16);

#[derive(Clone, Copy, Debug, PartialEq, Eq)]
pub struct BlockListElement {
    pub block_number_or_key_version: BlockNumber,
    // The place in the command's service code list, counted from 0.
    pub service_code_list_index: u8,
    pub access_mode: u8,
}

#[derive(Clone, Copy, Debug, PartialEq, Eq)]
pub enum ContainerProperty {
    Property1,
    Property2,
    // Any other index: 0 and 1 never come out of parsing here.
    Unknown(u16),
}

// `index` and `from_index` are the Rust's names.
impl ContainerProperty {
    pub fn index(self) -> u16
        ensures { result ≡ property_index self }
    {
        match self {
            Self::Property1 => 0x0000,
            Self::Property2 => 0x0001,
            Self::Unknown(index) => index,
        }
    }

    pub fn from_index(index: u16) -> Self
        ensures { result ≡ property_of index }
    {
        match index {
            0x0000 => Self::Property1,
            0x0001 => Self::Property2,
            _ => Self::Unknown(index),
        }
    }
}

// What a type byte names: 00 the first of two types, 01 the second. `to_byte` and `from_byte` are the Rust's names, which the port keeps: a `TryFrom<u8>` beside
// them would say the same a second time.
fn type_named<T: Copy>(byte: u8, first: T, second: T) -> Option<T>
    ensures { result ≡ type_of first second byte }
{
    match byte {
        0x00 => Some(first),
        0x01 => Some(second),
        _ => None,
    }
}

#[derive(Clone, Copy, Debug, PartialEq, Eq)]
pub enum NodePropertyType {
    ValueLimitedPurseService = 0x00,
    MacCommunication = 0x01,
}

impl NodePropertyType {
    pub fn to_byte(self) -> u8
        ensures { result ≡ node_property_byte self }
    {
        self as u8
    }

    pub fn from_byte(value: u8) -> Option<Self>
        ensures { result ≡ node_property_type_of value }
    {
        type_named(
            value,
            Self::ValueLimitedPurseService,
            Self::MacCommunication,
        )
    }
}

#[derive(Clone, Copy, Debug, PartialEq, Eq)]
pub enum SetParameterEncryptionType {
    SrmType1 = 0x00,
    SrmType2 = 0x01,
}

impl SetParameterEncryptionType {
    pub fn to_byte(self) -> u8
        ensures { result ≡ encryption_byte self }
    {
        self as u8
    }

    pub fn from_byte(value: u8) -> Option<Self>
        ensures { result ≡ encryption_type_of value }
    {
        type_named(value, Self::SrmType1, Self::SrmType2)
    }
}

#[derive(Clone, Copy, Debug, PartialEq, Eq)]
pub enum SetParameterPacketType {
    NodeCodeSize2 = 0x00,
    NodeCodeSize4 = 0x01,
}

impl SetParameterPacketType {
    pub fn to_byte(self) -> u8
        ensures { result ≡ packet_byte self }
    {
        self as u8
    }

    pub fn from_byte(value: u8) -> Option<Self>
        ensures { result ≡ packet_type_of value }
    {
        type_named(value, Self::NodeCodeSize2, Self::NodeCodeSize4)
    }
}
