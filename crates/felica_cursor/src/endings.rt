// The steps of the fixed bytes that end a layout. They are measured first, and only then are their values tested.
ghost use Rattle.std.specs.Prelude.{◌≡◌, ◌++◌, ◌+◌, ◌-◌, ◌<◌, ◌≤◌, length, take, drop, eqb};
ghost use Rattle.std.specs.List.{list_all};
ghost use Rattle.felica_format.specs.Basic.{zeros, word_at};
ghost use Rattle.felica_format.specs.Layout.{bare, bytes, word, words, reserved, polling, parameter, nothing, a_package};
ghost use Rattle.felica_format.specs.Read.{zero_at, read_values, read_ending};
ghost use Rattle.felica_command.specs.Meaning.{part};
ghost use Rattle.felica_cursor.specs.Taken.{rest, moved, Takes, To};
ghost use Rattle.felica_cursor.specs.Steps.{measured, Measured};
ghost use Rattle.felica_cursor.specs.Endings.{as_size, nothing_is, challenge_is, word_is, words_are, polling_is, types_are};

use crate::cursor::{Cursor, Taken, word_of};
use felica_command::command::Part;
use felica_command::types::{SetParameterEncryptionType, SetParameterPacketType};
use felica_format::constants::{is_polling_request_code, is_polling_time_slot};
use felica_format::error::Reason;

// What a Polling asks for.
#[derive(Clone, Copy, Debug, PartialEq, Eq)]
pub struct Polling {
    pub system_code: u16,
    pub request_code: u8,
    pub time_slots: u8,
}

// What a Set Parameter sets.
#[derive(Clone, Copy, Debug, PartialEq, Eq)]
pub struct Parameter {
    pub encryption_type: SetParameterEncryptionType,
    pub packet_type: SetParameterPacketType,
}

// The two-byte number at a place.
fn word_at(payload: &[u8], at: usize) -> u16
    requires { at + 2 ≤ length payload.now }
    ensures { result ≡ word_at payload.now at }
{
    word_of(payload[at], payload[at + 1])
}

fn are_zeros(bytes: &[u8]) -> bool
    ensures { result ≡ list_all (λ b. eqb b 0) bytes.now }
{
    bytes.iter().all(|byte| *byte == 0)
}

// The bytes at a place are all 00.
#[tactic(auto, using(crate::proofs::Laws::zero_all))]
fn all_zero(payload: &[u8], at: usize, count: usize) -> bool
    requires { at + count ≤ length payload.now }
    ensures { result ≡ zero_at count payload.now at }
{
    are_zeros(&payload[at..at + count])
}

impl<'a> Cursor<'a> {
    // The bytes that end a layout are measured: the position stays.
    #[tactic(auto, unfolding(crate::specs::Steps::measured, felica_format::specs::Basic::refuse_if))]
    pub fn measure(self, size: usize) -> Taken<'a, ()>
        ensures { Takes (as_size size) (measured size (rest self.entry)) (Measured self.entry size) result }
    {
        let left = self.left();
        if left < size {
            return Err(Reason::TooShort);
        }
        if size < left {
            return Err(Reason::TrailingBytes);
        }
        Ok(((), self))
    }

    // ensure_no_trailing_bytes
    pub fn take_end(self) -> Taken<'a, ()>
        ensures { Takes nothing_is (read_ending bare nothing (rest self.entry)) (To self.entry) result }
    {
        self.measure(0)
    }

    // Two reserved bytes.
    pub fn take_reserved(self) -> Taken<'a, ()>
        ensures { Takes nothing_is (read_ending reserved nothing (rest self.entry)) (To (moved self.entry 2)) result }
    {
        self.measure(2)?;
        if !all_zero(self.payload, self.at, 2) {
            return Err(Reason::ReservedNotZero);
        }
        let at = self.at + 2;
        Ok(((), Cursor { at, ..self }))
    }

    // The next bytes, with zeros behind them up to 16. A package may stand behind the bytes.
    fn take_challenge(self, size: usize) -> Taken<'a, [u8; 16]>
        requires { (0 < size) × (size ≤ 16) }
        ensures { Takes challenge_is (read_ending (bytes size) a_package (rest self.entry)) (To (moved self.entry size)) result }
    {
        if self.left() < size {
            return Err(Reason::TooShort);
        }
        let at = self.at + size;
        let mut challenge = [0; 16];
        challenge[..size].copy_from_slice(&self.payload[self.at..at]);
        Ok((challenge, Cursor { at, ..self }))
    }

    // The challenge of Authentication1 and 2: eight bytes, with eight zeros behind them. Each size has its step, since one for any size would ask callers that it is 16 at most.
    pub fn take_challenge_8(self) -> Taken<'a, [u8; 16]>
        ensures { Takes challenge_is (read_ending (bytes 8) nothing (rest self.entry)) (To (moved self.entry 8)) result }
    {
        self.measure(8)?;
        self.take_challenge(8)
    }

    // The challenge of Authentication1 v2 and 2 v2.
    pub fn take_challenge_16(self) -> Taken<'a, [u8; 16]>
        ensures { Takes challenge_is (read_ending (bytes 16) nothing (rest self.entry)) (To (moved self.entry 16)) result }
    {
        self.measure(16)?;
        self.take_issue()
    }

    // Issue id and issue parameter, with a package behind them.
    pub fn take_issue(self) -> Taken<'a, [u8; 16]>
        ensures { Takes challenge_is (read_ending (bytes 16) a_package (rest self.entry)) (To (moved self.entry 16)) result }
    {
        self.take_challenge(16)
    }

    // A two-byte number, with nothing behind it.
    pub fn take_word(self) -> Taken<'a, u16>
        ensures { Takes word_is (read_ending word nothing (rest self.entry)) (To (moved self.entry 2)) result }
    {
        self.measure(2)?;
        self.take_packaged_word()
    }

    // A two-byte number, with a package behind it.
    #[tactic(auto, using(crate::proofs::Laws::word_drop), unfolding(felica_format::specs::Read::read_ending, felica_format::specs::Read::read_values, felica_format::specs::Basic::refuse_if))]
    pub fn take_packaged_word(self) -> Taken<'a, u16>
        ensures { Takes word_is (read_ending word a_package (rest self.entry)) (To (moved self.entry 2)) result }
    {
        if self.left() < 2 {
            return Err(Reason::TooShort);
        }
        let at = self.at + 2;
        Ok((word_at(self.payload, self.at), Cursor { at, ..self }))
    }

    // Two two-byte numbers.
    pub fn take_words(self) -> Taken<'a, (u16, u16)>
        ensures { Takes words_are (read_ending words nothing (rest self.entry)) (To (moved self.entry 4)) result }
    {
        self.measure(4)?;
        let numbers = (
            word_at(self.payload, self.at),
            word_at(self.payload, self.at + 2),
        );
        let at = self.at + 4;
        Ok((numbers, Cursor { at, ..self }))
    }

    // System code, high byte first, request code and time slots.
    pub fn take_polling(self) -> Taken<'a, Polling>
        ensures { Takes polling_is (read_ending polling nothing (rest self.entry)) (To (moved self.entry 4)) result }
    {
        self.measure(4)?;
        let payload = self.payload;
        let at = self.at;
        let request_code = payload[at + 2];
        if !is_polling_request_code(request_code) {
            return Err(Reason::FirstTypeUndefined);
        }
        let time_slots = payload[at + 3];
        if !is_polling_time_slot(time_slots) {
            return Err(Reason::SecondTypeUndefined);
        }
        let polling = Polling {
            system_code: word_of(payload[at + 1], payload[at]),
            request_code,
            time_slots,
        };
        Ok((polling, Cursor { at: at + 4, ..self }))
    }

    // The two types between reserved bytes: D0 to D3 are tested, then D6 and D7, then the encryption type, then the packet type.
    pub fn take_parameter(self) -> Taken<'a, Parameter>
        ensures { Takes types_are (read_ending parameter nothing (rest self.entry)) (To (moved self.entry 8)) result }
    {
        self.measure(8)?;
        let payload = self.payload;
        let at = self.at;
        if !all_zero(payload, at, 4) || !all_zero(payload, at + 6, 2) {
            return Err(Reason::ReservedNotZero);
        }
        let Some(encryption_type) = SetParameterEncryptionType::from_byte(payload[at + 4]) else {
            return Err(Reason::FirstTypeUndefined);
        };
        let Some(packet_type) = SetParameterPacketType::from_byte(payload[at + 5]) else {
            return Err(Reason::SecondTypeUndefined);
        };
        let parameter = Parameter {
            encryption_type,
            packet_type,
        };
        Ok((parameter, Cursor { at: at + 8, ..self }))
    }

    // The package: all that is left. By a step as `take_data` it would carry a reason that never comes and a cursor that nobody uses.
    pub fn package(self) -> Part
        ensures { result ≡ part self.entry.at (length (rest self.entry)) }
    {
        Part {
            start: self.at,
            count: self.left(),
        }
    }
}
