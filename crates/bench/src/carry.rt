// The line that is not over, carried from one block of text to the next.
ghost use Rattle.std.specs.Prelude.{◌≡◌, take};
ghost use Rattle.bench.specs.Block.{empty_carry, keep_carry, keep_len};

// A line's first bytes, of which len are there. A full carry holds a line that is too long. No invariant for len: `feed` takes a carry with any length.
// len stands first: behind the bytes it would be stored and loaded again for each byte, with 3 ns an event more in `ringrun`.
#[derive(Clone, Copy)]
pub struct Carry {
    pub len: usize,
    pub bytes: [u8; 41],
}

impl Carry {
    // Before the first byte. No derive: tried, and what it says of each byte makes this list only by a law of its own.
    pub fn empty() -> Carry
        ensures { result ≡ empty_carry }
    {
        Carry {
            bytes: [0; 41],
            len: 0,
        }
    }

    // One more byte, if there is room.
    #[tactic(auto, unfolding(crate::specs::Block::keep_carry, crate::specs::Block::keep_len))]
    pub(crate) fn keep(&mut self, b: u8)
        ensures bytes { self.new.bytes ≡ keep_carry self.old.bytes self.old.len b }
        ensures len { self.new.len ≡ keep_len self.old.len }
    {
        if self.len < 41 {
            self.bytes[self.len] = b;
            self.len += 1;
        }
    }

    // The next line begins.
    pub(crate) fn clear(&mut self)
        ensures len { self.new.len ≡ 0 }
        ensures bytes { self.new.bytes ≡ self.old.bytes }
    {
        self.len = 0;
    }

    // The bytes that are there. A length over 41 counts as 41.
    pub(crate) fn line(&self) -> &[u8]
        ensures { result.now ≡ take self.now.len self.now.bytes }
    {
        &self.bytes[..self.len.min(41)]
    }
}
