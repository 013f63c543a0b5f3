// What the writer takes.
use felica_command::fixed::Fixed;

// A command's code, with every fixed field and list that a command may have. A list that the command lacks is empty.
// Numbers, places and modes are three lists, as C lends them, and may differ in length, which the writer refuses. One list of elements made of them before would lose
// entries, or need memory of its own.
#[derive(Clone, Copy, Debug, PartialEq, Eq)]
pub struct Handed<'a> {
    pub code: u8,
    pub fixed: Fixed,
    // Service or node codes; of 10 the areas.
    pub first: &'a [u16],
    // 10: service codes.
    pub second: &'a [u16],
    // Of each block list element its block number, its place in the service list and its access mode.
    pub numbers: &'a [u16],
    pub places: &'a [u8],
    pub modes: &'a [u8],
    // 08, 16 and 46: 16 bytes for each element.
    pub data: &'a [u8],
    // 80, 82 and 84: the package.
    pub package: &'a [u8],
}
