// Bytes that a word was read as.
ghost use Rattle.std.specs.Prelude.{◌≡◌, ℕ, ◌≤◌, List, [], ◌∷◌, ◌++◌, take};

use std::marker::Model;

// The most bytes that a line can carry, and the largest buffer that it can lend.
pub const BYTES: usize = 2048;

// Clauses see the bytes that were put in.
#[derive(Drop)]
pub struct Bytes {
    buffer: [u8; BYTES],
    len: usize,
}

impl Model for Bytes {
    ghost Value = { List ℕ };

    ghost view = { λ b. take b.len b.buffer };

    ghost invariant = { λ b. b.len ≤ 2048 };
}

impl Bytes {
    pub fn new() -> Bytes
        ensures { result ≡ [] }
    {
        Bytes {
            buffer: [0; BYTES],
            len: 0,
        }
    }

    // One byte more, where there is room for it.
    pub fn push(&mut self, byte: u8)
        ensures { self.new ≡ take 2048 (self.old ++ byte ∷ []) }
    {
        if self.len < BYTES {
            self.buffer[self.len] = byte;
            self.len += 1;
        }
    }

    pub fn as_slice(&self) -> &[u8]
        ensures { result.now ≡ self.now }
    {
        &self.buffer[..self.len]
    }
}
