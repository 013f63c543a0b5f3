// The lists of a command, whichever command it is.
ghost use Rattle.std.specs.Prelude.{◌≡◌};
ghost use Rattle.felica_command.specs.Meaning.{fields_of};
ghost use Rattle.felica_command.specs.Lists.{lists_in};

use crate::command::{FelicaStandardCommand, Part};

// A list that the command lacks is the part of no entries at 0, for C too (include/felica.h). Those who read the lists (felica_lists, felica_line, felica_answers) go
// by their counts; an `Option<Part>` would be taken apart by each of them, with 0 for `None`.
#[derive(Clone, Copy, Debug, Default, PartialEq, Eq)]
pub struct Lists {
    // The code list; of Authentication1 the areas.
    pub first_codes: Part,
    // The services of Authentication1.
    pub second_codes: Part,
    pub block_list: Part,
}

impl FelicaStandardCommand {
    pub fn lists(self) -> Lists
        ensures { result ≡ lists_in (fields_of self) }
    {
        match self {
            Self::RequestService { service_codes } | Self::RequestServiceV2 { service_codes } =>
                Lists {
                    first_codes: service_codes,
                    ..Lists::default()
                },
            Self::ReadWithoutEncryption {
                service_codes,
                block_list,
            }
            | Self::WriteWithoutEncryption {
                service_codes,
                block_list,
                ..
            } => Lists {
                first_codes: service_codes,
                block_list,
                ..Lists::default()
            },
            Self::RequestBlockInformation { node_codes }
            | Self::RequestBlockInformationEx { node_codes }
            | Self::GetNodeProperty { node_codes, .. } => Lists {
                first_codes: node_codes,
                ..Lists::default()
            },
            Self::Authentication1 { areas, services } => Lists {
                first_codes: areas,
                second_codes: services,
                ..Lists::default()
            },
            Self::Read { block_list }
            | Self::Write { block_list, .. }
            | Self::ReadV2 { block_list }
            | Self::WriteV2 { block_list, .. } => Lists {
                block_list,
                ..Lists::default()
            },
            Self::Authentication1V2 { nodes, .. } => Lists {
                first_codes: nodes,
                ..Lists::default()
            },
            _ => Lists::default(),
        }
    }
}
