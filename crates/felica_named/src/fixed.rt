// The fixed fields that the writer takes, from the fields named.
ghost use Rattle.std.specs.Prelude.{◌≡◌};
ghost use Rattle.felica_format.specs.Basic.{zeros};
ghost use Rattle.felica_named.specs.Handed.{byte_handed, word_handed, challenge_handed, fixed_named};
ghost use Rattle.felica_named.specs.Values.{value_named, bytes_over};
ghost use Rattle.felica_named.specs.Named.{noted_in};

use crate::names::Field;
use crate::notes::Named;
use crate::stray::Sources;
use felica_command::fixed::Fixed;

impl Named<'_> {
    #[tactic(auto, unfolding(crate::specs::Handed::fixed_named))]
    pub fn fixed(&self, code: u8) -> Fixed
        ensures { result ≡ fixed_named code (noted_in self.now) }
    {
        let sources = Sources::of(code);
        let stray = self.has_stray(sources);
        Fixed {
            idm: self.filled(Field::Idm),
            selector: self.byte_handed(stray, sources.selector),
            number: self.word_handed(stray, sources.number),
            index: self.word_handed(stray, sources.index),
            option: self.byte_handed(stray, sources.option),
            choice: self.byte_handed(stray, sources.choice),
            challenge: self.challenge_handed(sources),
        }
    }

    // Where a field is named that the command lacks, each number that it lacks is handed as 1: the writer takes the numbers of all commands, and refuses one that the
    // command lacks unless it is 0.
    fn byte_handed(&self, stray: bool, field: Option<Field>) -> u8
        ensures { result ≡ byte_handed (noted_in self.now) stray field }
    {
        match field {
            Some(field) => self.filled::<1>(field)[0],
            None => u8::from(stray),
        }
    }

    // Not one generic function with `byte_handed`: it would carry a trait with the size and both conversions of each type, and their law, for two lines.
    fn word_handed(&self, stray: bool, field: Option<Field>) -> u16
        ensures { result ≡ word_handed (noted_in self.now) stray field }
    {
        match field {
            Some(field) => u16::from_be_bytes(self.filled(field)),
            None => u16::from(stray),
        }
    }

    // Of 80, the issue parameter stands behind the issue id.
    fn challenge_handed(&self, sources: Sources) -> [u8; 16]
        ensures { result ≡ challenge_handed sources (noted_in self.now) }
    {
        let mut challenge = [0; 16];
        if let Some(field) = sources.parameter {
            self.fill(field, &mut challenge[8..]);
        }
        if let Some(field) = sources.challenge {
            self.fill(field, &mut challenge);
        }
        challenge
    }

    // The bytes of a field, and zeros behind them.
    fn filled<const N: usize>(&self, field: Field) -> [u8; N]
        ensures { result ≡ bytes_over (zeros N) (value_named (noted_in self.now) field) }
    {
        let mut bytes = [0; N];
        self.fill(field, &mut bytes);
        bytes
    }
}
