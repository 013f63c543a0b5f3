// What is read of the calls.
ghost use Rattle.std.specs.Prelude.{◌≡◌, ◌≤◌, length};
ghost use Rattle.felica.specs.Room.{input_size};

// The input: a lent buffer, how many bytes at its front are held, and whether they stand behind others of the same line, which is too long then.
#[derive(Drop)]
pub(crate) struct Input<'a> {
    pub(crate) room: &'a mut [u8],
    pub(crate) held: usize,
    pub(crate) too_long: bool,
    pub(crate) ghost size: { length room.now ≡ input_size },
    pub(crate) ghost inside: { held ≤ length room.now },
}
