// A position in a payload, and the steps in front of the fixed bytes that end a layout. Each takes its bytes and hands the position back moved on, or says why it refuses.
// A position may be any number: from the payload's end on, nothing is left.
ghost use Rattle.std.specs.Prelude.{◌≡◌, true, false, length, drop, get_or, ◌+◌, ◌-◌, ◌*◌, ◌≤◌, ◌<◌};
ghost use Rattle.felica_format.specs.Basic.{refuse, word_of};
ghost use Rattle.felica_format.specs.Layout.{◌to◌, type_byte, any_byte, bounds_of, bounds_at};
ghost use Rattle.felica_format.specs.Reasons.{number_of};
ghost use Rattle.felica_format.specs.Read.{element_of, read_idm, read_selector, read_words, read_element, read_each, read_data};
ghost use Rattle.felica_command.specs.Meaning.{codes_at, bytes_at};
ghost use Rattle.felica_command.specs.Places.{element_size, elements_size};
ghost use Rattle.felica_command.specs.Types.{element_is, node_property_byte};
ghost use Rattle.felica_cursor.specs.Taken.{rest, moved, itself, as_step, Takes, To};
ghost use Rattle.felica_cursor.specs.Steps.{read_count_for, read_codes_for, read_elements_for, formed_is, elements_in, CodesFrom, ElementsFrom, DataFrom, Passes};

use felica_command::command::Part;
use felica_command::types::{BlockListElement, BlockNumber, NodePropertyType};
use felica_format::constants;
use felica_format::constants::{Bounds, bounds_at};
use felica_format::error::Reason;

#[derive(Clone, Copy, Debug, PartialEq, Eq)]
pub struct Cursor<'a> {
    pub payload: &'a [u8],
    pub at: usize,
}

// What a step took, with the position behind it.
pub type Taken<'a, T> = Result<(T, Cursor<'a>), Reason>;

// An element, and whether its form was the long one.
#[derive(Clone, Copy, Debug, PartialEq, Eq)]
pub struct FormedElement {
    pub element: BlockListElement,
    pub long: bool,
}

// A block list, and how many of its elements were long.
#[derive(Clone, Copy, Debug, PartialEq, Eq)]
pub struct Blocks {
    pub list: Part,
    pub long: u8,
}

impl Blocks {
    // So many elements between two places. The bytes that they take tell how many are long: a short one has two, a long one three.
    fn between(start: usize, at: usize, count: u8) -> Self
        requires { (start + 2 * count ≤ at) × (at ≤ start + 3 * count) }
        ensures { result ≡ record { list = record { start = start; count = count }; long = at - start - 2 * count } }
    {
        let count = usize::from(count);
        Self {
            list: Part { start, count },
            long: (at - start - 2 * count) as u8,
        }
    }
}

// Why a count is refused.
#[derive(Clone, Copy, Debug, PartialEq, Eq)]
pub struct CountReasons {
    pub missing: Reason,
    pub out_of_range: Reason,
}

// First and second in field order: a secure block count is a first.
pub const FIRST_COUNT: CountReasons = CountReasons {
    missing: Reason::FirstCountMissing,
    out_of_range: Reason::FirstCountOutOfRange,
};

pub const SECOND_COUNT: CountReasons = CountReasons {
    missing: Reason::SecondCountMissing,
    out_of_range: Reason::SecondCountOutOfRange,
};

const BLOCK_COUNTS: Bounds = Bounds {
    least: constants::MIN_BLOCK_COUNT,
    greatest: constants::MAX_BLOCK_COUNT,
};

// A two-byte number, low byte first.
pub fn word_of(low: u8, high: u8) -> u16
    ensures { result ≡ word_of low high }
{
    u16::from_le_bytes([low, high])
}

fn element(header: u8, number: u16) -> BlockListElement
    ensures { element_is result ≡ element_of header number }
{
    BlockListElement {
        block_number_or_key_version: BlockNumber(number),
        service_code_list_index: header % 16,
        access_mode: header / 16 % 8,
    }
}

impl<'a> Cursor<'a> {
    // How many bytes are left.
    pub fn left(self) -> usize
        ensures { result ≡ length (rest self.entry) }
    {
        self.payload.len().saturating_sub(self.at)
    }

    // The bytes that are left.
    fn bytes(self) -> &'a [u8]
        ensures { result.now ≡ rest self.entry }
    {
        self.payload.get(self.at..).unwrap_or(&[])
    }

    // parse_idm
    pub fn take_idm(self) -> Taken<'a, [u8; 8]>
        ensures { Takes itself (read_idm true (rest self.entry)) (To (moved self.entry 8)) result }
    {
        if self.left() < constants::IDM_LEN {
            return Err(Reason::IdmMissing);
        }
        let end = self.at + constants::IDM_LEN;
        let mut idm = [0; constants::IDM_LEN];
        idm.copy_from_slice(&self.payload[self.at..end]);
        Ok((idm, Cursor { at: end, ..self }))
    }

    // The operation parameter of Authentication1 v2, any byte.
    #[tactic(auto, using(crate::proofs::Laws::front_at), unfolding(felica_format::specs::Read::read_selector))]
    pub fn take_operation_parameter(self) -> Taken<'a, u8>
        ensures { Takes itself (read_selector any_byte (rest self.entry)) (To (moved self.entry 1)) result }
    {
        if self.payload.len() <= self.at {
            return Err(Reason::TooShort);
        }
        let at = self.at + 1;
        Ok((self.payload[self.at], Cursor { at, ..self }))
    }

    // The type byte of Get Node Property.
    pub fn take_node_property_type(self) -> Taken<'a, NodePropertyType>
        ensures { Takes node_property_byte (read_selector type_byte (rest self.entry)) (To (moved self.entry 1)) result }
    {
        let (byte, behind) = self.take_operation_parameter()?;
        let Some(node_property_type) = NodePropertyType::from_byte(byte) else {
            return Err(Reason::FirstTypeUndefined);
        };
        Ok((node_property_type, behind))
    }

    // The byte is not that of `take_operation_parameter`, which has another reason for its lack: a step for both would be one more contract, for one comparison.
    #[tactic(auto, using(crate::proofs::Laws::front_at), unfolding(felica_format::specs::Read::read_count, felica_format::specs::Basic::refuse_if))]
    fn take_between(self, bounds: Bounds, reasons: CountReasons) -> Taken<'a, u8>
        ensures { Takes itself (read_count_for reasons bounds (rest self.entry)) (To (moved self.entry 1)) result }
    {
        if self.payload.len() <= self.at {
            return Err(reasons.missing);
        }
        let count = self.payload[self.at];
        if count < bounds.least || bounds.greatest < count {
            return Err(reasons.out_of_range);
        }
        let at = self.at + 1;
        Ok((count, Cursor { at, ..self }))
    }

    // The count of a list of codes, within the bounds that a plain code's row has.
    // The row is a number: the bounds stand in one table of 25 rows, and a type for the rows would ask more of callers, who may give any number.
    pub fn take_count(self, row: usize, reasons: CountReasons) -> Taken<'a, u8>
        ensures { Takes itself (read_count_for reasons (bounds_at row) (rest self.entry)) (To (moved self.entry 1)) result }
    {
        self.take_between(bounds_at(row), reasons)
    }

    pub fn take_block_count(self, reasons: CountReasons) -> Taken<'a, u8>
        ensures { Takes itself (read_count_for reasons (bounds_of (1 to 255)) (rest self.entry)) (To (moved self.entry 1)) result }
    {
        self.take_between(BLOCK_COUNTS, reasons)
    }

    // parse_u16_list_le: the codes behind their count.
    #[tactic(auto, unfolding(felica_format::specs::Read::read_words, felica_format::specs::Basic::refuse_if))]
    pub fn take_u16s(self, count: u8) -> Taken<'a, Part>
        ensures { Takes (codes_at self.entry.payload.now) (read_words count (rest self.entry)) (CodesFrom self.entry) result }
    {
        let start = self.at;
        let count = usize::from(count);
        if self.left() < 2 * count {
            return Err(Reason::CodeListTruncated);
        }
        let at = start + 2 * count;
        Ok((Part { start, count }, Cursor { at, ..self }))
    }

    // take_u16_list and take_service_code_list
    pub fn take_u16_list(self, row: usize, reasons: CountReasons) -> Taken<'a, Part>
        ensures { Takes (codes_at self.entry.payload.now) (read_codes_for reasons (bounds_at row) (rest self.entry)) (CodesFrom (moved self.entry 1)) result }
    {
        let (count, behind) = self.take_count(row, reasons)?;
        behind.take_u16s(count)
    }

    // Bit 7 set: one byte of block number follows. Bit 7 clear: two bytes. The answer tells which it was.
    #[tactic(auto, using(crate::proofs::Blocks::short_here, crate::proofs::Blocks::short_lacks, crate::proofs::Blocks::long_here, crate::proofs::Blocks::long_lacks), unfolding(felica_format::specs::Read::read_element))]
    pub fn take_element(self) -> Taken<'a, FormedElement>
        ensures { Takes formed_is (read_element (rest self.entry)) (To (moved self.entry (element_size (get_or self.entry.payload.now self.entry.at 0)))) result }
    {
        let payload = self.payload;
        let at = self.at;
        if payload.len() <= at {
            return Err(Reason::BlockListTruncated);
        }
        let left = payload.len() - at;
        let header = payload[at];
        let long = header < 0x80;
        if long {
            if left < 3 {
                return Err(Reason::LongBlockNumberMissing);
            }
            let element = element(header, word_of(payload[at + 1], payload[at + 2]));
            return Ok((
                FormedElement { element, long },
                Cursor { at: at + 3, ..self },
            ));
        }
        if left < 2 {
            return Err(Reason::ShortBlockNumberMissing);
        }
        let element = element(header, u16::from(payload[at + 1]));
        Ok((
            FormedElement { element, long },
            Cursor { at: at + 2, ..self },
        ))
    }

    // The elements behind their count. Inlined, as all steps over them are: else the answer of seven words is stored and loaded again, half as long as the walk over a short list,
    // and a call in the middle costs the commands that have no list too.
    #[inline(always)]
    pub fn take_elements(self, count: u8) -> Taken<'a, Blocks>
        ensures { Takes (elements_in self.entry.payload.now) (read_each count (rest self.entry)) (ElementsFrom self.entry) result }
    {
        let mut cursor = self;
        for _eight in 0..count / 8 {
            cursor = cursor.pass_eight()?;
        }
        let behind = cursor.pass_few(count % 8)?;
        Ok((Blocks::between(self.at, behind.at, count), behind))
    }

    // The same without the eights, for the fewer than eight that most lists have.
    #[inline(always)]
    fn take_few(self, count: u8) -> Taken<'a, Blocks>
        ensures { Takes (elements_in self.entry.payload.now) (read_each count (rest self.entry)) (ElementsFrom self.entry) result }
    {
        let behind = self.pass_few(count)?;
        Ok((Blocks::between(self.at, behind.at, count), behind))
    }

    // Most lists have one form throughout, and eight elements of one form are passed over at once.
    #[inline(always)]
    fn pass_eight(self) -> Result<Cursor<'a>, Reason>
        ensures { Passes 8 self.entry result }
    {
        let bytes = self.bytes();
        if eight_short(bytes) {
            let at = self.at + 16;
            return Ok(Cursor { at, ..self });
        }
        if eight_long(bytes) {
            let at = self.at + 24;
            return Ok(Cursor { at, ..self });
        }
        self.pass_few(8)
    }

    // So many elements by their first bytes alone, without a jump for the form of each: where the forms of a list change, that is guessed wrongly every other time.
    // An element has two bytes at least, so the walk goes on while two are left; a long one may then lack its third, and takes it one beyond the payload's end.
    #[inline(always)]
    fn pass_few(self, count: u8) -> Result<Cursor<'a>, Reason>
        ensures { Passes count self.entry result }
    {
        let payload = self.payload;
        // Two bytes are left at every place before this one.
        let limit = payload.len().saturating_sub(1);
        let mut at = self.at;
        for _element in 0..count {
            if limit <= at {
                return Err(self.cut_off(at));
            }
            at += element_size(payload[at]);
        }
        if self.is_past_end(at) {
            return Err(Reason::LongBlockNumberMissing);
        }
        Ok(Cursor { at, ..self })
    }

    // Whether a walk from here to that place has gone past the payload's end.
    fn is_past_end(self, at: usize) -> bool
        ensures past { result ≡ true → (self.entry.at ≤ length self.entry.payload.now) × (length self.entry.payload.now < at) }
        ensures inside { result ≡ false → self.entry.at ≤ length self.entry.payload.now → at ≤ length self.entry.payload.now }
    {
        self.payload.len() < at && self.at <= self.payload.len()
    }

    // Why no element is whole at a place with fewer than two bytes, to which a walk from here has come.
    fn cut_off(self, at: usize) -> Reason
        requires { length self.payload.now < at + 2 }
        ensures past { self.entry.at ≤ length self.entry.payload.now → length self.entry.payload.now < at → number_of result ≡ 16 }
        ensures inside { (self.entry.at ≤ length self.entry.payload.now → at ≤ length self.entry.payload.now) → read_element (drop at self.entry.payload.now) ≡ refuse (number_of result) }
    {
        if self.is_past_end(at) {
            return Reason::LongBlockNumberMissing;
        }
        match (Cursor { at, ..self }).take_element() {
            Err(reason) => reason,
            Ok(_) => unreachable!(),
        }
    }

    // take_block_list, with the count in front of it.
    #[inline(always)]
    pub fn take_block_list(self, reasons: CountReasons) -> Taken<'a, Blocks>
        ensures { Takes (elements_in self.entry.payload.now) (read_elements_for reasons (rest self.entry)) (ElementsFrom (moved self.entry 1)) result }
    {
        let (count, behind) = self.take_block_count(reasons)?;
        if count < 8 {
            return behind.take_few(count);
        }
        behind.take_elements(count)
    }

    // 16 bytes for each block.
    #[tactic(auto, unfolding(felica_format::specs::Read::read_data, felica_format::specs::Basic::refuse_if))]
    pub fn take_data(self, blocks: usize) -> Taken<'a, Part>
        ensures { Takes (bytes_at self.entry.payload.now) (read_data true blocks (rest self.entry)) (DataFrom self.entry blocks) result }
    {
        let start = self.at;
        if self.left() / constants::BLOCK_SIZE < blocks {
            return Err(Reason::DataTruncated);
        }
        let count = constants::BLOCK_SIZE * blocks;
        Ok((
            Part { start, count },
            Cursor {
                at: start + count,
                ..self
            },
        ))
    }
}

// The bytes of an element, by its first.
#[tactic(auto, using(crate::proofs::Blocks::size_by_bit))]
fn element_size(header: u8) -> usize
    ensures { result ≡ element_size header }
{
    3 - usize::from(header >> 7)
}

// Whether eight short elements stand first. Without an early exit, so that the compiler tests them at once.
fn eight_short(bytes: &[u8]) -> bool
    ensures { result ≡ true → (elements_size 8 bytes.now ≡ 16) × (16 ≤ length bytes.now) }
{
    let Some(eight) = bytes.as_chunks::<2>().0.first_chunk::<8>() else {
        return false;
    };
    eight
        .iter()
        .fold(true, |all, [header, _]| all & (0x80 <= *header))
}

// The same of long ones.
fn eight_long(bytes: &[u8]) -> bool
    ensures { result ≡ true → (elements_size 8 bytes.now ≡ 24) × (24 ≤ length bytes.now) }
{
    let Some(eight) = bytes.as_chunks::<3>().0.first_chunk::<8>() else {
        return false;
    };
    eight
        .iter()
        .fold(true, |all, [header, _, _]| all & (*header < 0x80))
}
