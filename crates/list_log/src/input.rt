// What is read of a log.
ghost use Rattle.std.specs.Prelude.{◌≤◌, length};

// The input: a lent buffer in which the longest record has room, and how many bytes at its front are held. felica has one too, which is of a fixed length and holds lines.
#[derive(Drop)]
pub(crate) struct Input<'a> {
    pub(crate) room: &'a mut [u8],
    pub(crate) held: usize,
    pub(crate) ghost record: { 256 ≤ length room.now },
    pub(crate) ghost inside: { held ≤ length room.now },
}
