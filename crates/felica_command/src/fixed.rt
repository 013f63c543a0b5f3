// The fixed fields of a command, as the writer takes them. Those that the command lacks are zero, and no `Option`s: C hands in numbers (include/felica.h), and the writer
// refuses any other number there.
#[derive(Clone, Copy, Debug, Default, PartialEq, Eq)]
pub struct Fixed {
    // Every plain command but 00, 2E and 70.
    pub idm: [u8; 8],
    // 28: node property type. 40: operation parameter.
    pub selector: u8,
    // 00: system code. 0A: service index. 1A: parent node code. 24: node code. 2E: container property. 82: area code. 84: service code.
    pub number: u16,
    // 1A: index.
    pub index: u16,
    // 00: request code. 20: encryption type.
    pub option: u8,
    // 00: time slots. 20: packet type.
    pub choice: u8,
    // 40 and 42: the challenge. 10 and 12: their challenge of 8 bytes, then eight zeros. 80: the issue id, then the issue parameter.
    pub challenge: [u8; 16],
}
