// Which fields the fixed fields of a command are read from, and whether a field is named that the command lacks.
ghost use Rattle.std.specs.Prelude.{◌≡◌};
ghost use Rattle.felica_named.specs.Handed.{sources_of, only_number, only_challenge, takes, strays, stray_of};
ghost use Rattle.felica_named.specs.Named.{noted_in};

use crate::names::Field;
use crate::notes::Named;
use crate::values::{all_zero, value_at};
use felica_format::constants;

// The field that each fixed field of a command is read from, if any. The challenge is read from two: of 80, the bytes of `parameter` stand behind those of `challenge`.
#[derive(Clone, Copy, Debug, Default, PartialEq, Eq)]
pub(crate) struct Sources {
    pub(crate) selector: Option<Field>,
    pub(crate) number: Option<Field>,
    pub(crate) index: Option<Field>,
    pub(crate) option: Option<Field>,
    pub(crate) choice: Option<Field>,
    pub(crate) challenge: Option<Field>,
    pub(crate) parameter: Option<Field>,
}

impl Sources {
    #[tactic(auto, unfolding(crate::specs::Handed::selector_from, crate::specs::Handed::number_from, crate::specs::Handed::index_from, crate::specs::Handed::option_from, crate::specs::Handed::choice_from, crate::specs::Handed::challenge_from, crate::specs::Handed::parameter_from))]
    pub(crate) fn of(code: u8) -> Sources
        ensures { result ≡ sources_of code }
    {
        match code {
            constants::POLLING_COMMAND_CODE => Sources {
                number: Some(Field::System),
                option: Some(Field::Request),
                choice: Some(Field::Slots),
                ..Sources::default()
            },
            constants::SEARCH_SERVICE_CODE_COMMAND_CODE => Sources::number(Field::Index),
            constants::AUTHENTICATION1_COMMAND_CODE | constants::AUTHENTICATION2_COMMAND_CODE => {
                Sources::challenge(Field::Challenge)
            }
            constants::REQUEST_CODE_LIST_COMMAND_CODE => Sources {
                index: Some(Field::Index),
                ..Sources::number(Field::Parent)
            },
            constants::SET_PARAMETER_COMMAND_CODE => Sources {
                option: Some(Field::Encryption),
                choice: Some(Field::Packet),
                ..Sources::default()
            },
            constants::GET_AREA_INFORMATION_COMMAND_CODE
            | constants::REGISTER_AREA_COMMAND_CODE
            | constants::REGISTER_SERVICE_COMMAND_CODE => Sources::number(Field::Node),
            constants::GET_NODE_PROPERTY_COMMAND_CODE => Sources {
                selector: Some(Field::PropertyType),
                ..Sources::default()
            },
            constants::GET_CONTAINER_PROPERTY_COMMAND_CODE => Sources::number(Field::Property),
            constants::AUTHENTICATION1_V2_COMMAND_CODE => Sources {
                selector: Some(Field::Operation),
                ..Sources::challenge(Field::LongChallenge)
            },
            constants::AUTHENTICATION2_V2_COMMAND_CODE => Sources::challenge(Field::LongChallenge),
            constants::REGISTER_ISSUE_ID_COMMAND_CODE => Sources {
                parameter: Some(Field::IssueParameter),
                ..Sources::challenge(Field::IssueId)
            },
            _ => Sources::default(),
        }
    }

    fn number(field: Field) -> Sources
        ensures { result ≡ only_number field }
    {
        Sources {
            number: Some(field),
            ..Sources::default()
        }
    }

    fn challenge(field: Field) -> Sources
        ensures { result ≡ only_challenge field }
    {
        Sources {
            challenge: Some(field),
            ..Sources::default()
        }
    }

    fn has(self, place: usize) -> bool
        ensures { result ≡ takes self place }
    {
        let fields = [
            self.selector,
            self.number,
            self.index,
            self.option,
            self.choice,
            self.challenge,
            self.parameter,
        ];
        fields
            .iter()
            .any(|field| field.is_some_and(|field| field.place() == place))
    }

    fn is_stray(self, place: usize, value: &[u8]) -> bool
        ensures { result ≡ strays self place value.now }
    {
        !all_zero(value) && !self.has(place)
    }
}

impl Named<'_> {
    // Whether a field that the command lacks has a value other than zero.
    pub(crate) fn has_stray(&self, sources: Sources) -> bool
        ensures { result ≡ stray_of sources (noted_in self.now) }
    {
        self.starts
            .iter()
            .enumerate()
            .skip(Field::System.place())
            .any(|(place, start)| sources.is_stray(place, value_at(self.text, *start)))
    }
}
