// Numbers put into a lent buffer, one behind the other; where it is full the rest is left out.
#![tactic(auto)]

ghost use Rattle.std.specs.Prelude.{◌≡◌, ◌+◌, ◌≤◌, length, [], ◌∷◌, take};
ghost use Rattle.felica_put.specs.Put.{buffer};
ghost use Rattle.felica_put.specs.Output.{Puts, held};

// A lent buffer, and how many of its places are filled, from the front on. No ghost field says that these are within the room: both fields are public, and it would ask
// that of whoever makes one.
#[derive(Drop)]
pub struct Output<'a, T> {
    pub room: &'a mut [T],
    pub len: usize,
}

impl<'a, T: Copy> Output<'a, T> {
    // Nothing is put into it yet.
    pub fn new(room: &'a mut [T]) -> Output<'a, T>
        ensures same_reference { result.room.ghost_name ≡ room.entry.ghost_name }
        ensures empty { held result ≡ buffer room.old 0 }
    {
        Output { room, len: 0 }
    }

    #[tactic(auto, unfolding(crate::specs::Put::put))]
    pub fn put(&mut self, item: T)
        ensures { Puts self.old self.new (item ∷ []) }
    {
        if self.len < self.room.len() {
            self.room[self.len] = item;
            self.len += 1;
        }
    }

    // All items, or those that find room. Two calls of `copy`, since of all items the compiler may know the number, and then stores them without a call of `memcpy`.
    pub fn put_all(&mut self, items: &[T])
        ensures { Puts self.old self.new items.now }
    {
        if self.room.len() <= self.len {
            return;
        }
        let left = self.room.len() - self.len;
        if items.len() <= left {
            self.copy(items);
        } else {
            self.copy(&items[..left]);
        }
    }

    // Items that find room.
    fn copy(&mut self, items: &[T])
        requires fitting { self.old.len + length items.now ≤ length self.old.room.now }
        ensures { Puts self.old self.new items.now }
    {
        let end = self.len + items.len();
        copy_over(&mut self.room[self.len..end], items);
        self.len = end;
    }

    // What has been put into it.
    pub fn filled(&self) -> &[T]
        ensures { result.now ≡ take self.now.len self.now.room.now }
    {
        &self.room[..self.len.min(self.room.len())]
    }
}

// By a loop, and not by `copy_from_slice`: here the compiler knows that the two slices do not overlap, and an archive for C needs `memcpy` alone, and no `memmove`.
#[tactic(auto, using(crate::proofs::Laws::copied_next))]
fn copy_over<T: Copy>(room: &mut [T], items: &[T])
    requires { length room.old ≡ length items.now }
    ensures { room.new ≡ items.now }
{
    for i in 0..items.len() {
        let item = items[i];
        room[i] = item;
    }
}
