//! The room that one reply is written into.

ghost use Rattle.std.specs.Prelude.{◌≡◌, ◌+◌, ◌≤◌, [], ◌∷◌, ◌++◌, ◌==◌, length, IfOk};
ghost use Rattle.tardis_base.specs.Sizes.{longest_frame};

use crate::faults::NoMemory;
use crate::sizes::MAX_FRAME;
use std::alloc::Global;
use std::marker::Model;

/// The bytes of one reply, in room that was taken once.
#[derive(Drop)]
pub struct ReplyBuf {
    bytes: Vec<u8>,
}

impl Model for ReplyBuf {
    ghost use Rattle.std.specs.Prelude.{List, ℕ, ◌≤◌, length, vec_capacity};
    ghost use Rattle.tardis_base.specs.Sizes.{longest_frame};

    ghost Value = { List ℕ };

    ghost view = { λ b. b.bytes.items };

    ghost invariant = { λ b. (length b.bytes.items ≤ longest_frame) × (longest_frame ≤ vec_capacity b.bytes) };
}

impl ReplyBuf {
    /// An empty buffer. It takes all its room now, and none later.
    pub fn new(alloc: Global) -> Result<ReplyBuf, NoMemory>
        ensures { IfOk result (λ b. b ≡ []) }
    {
        match Vec::with_capacity(alloc, MAX_FRAME) {
            Ok(bytes) => Ok(ReplyBuf { bytes }),
            Err(_) => Err(NoMemory),
        }
    }

    /// Forgets the bytes, and keeps the room.
    pub fn clear(&mut self)
        ensures { self.new ≡ [] }
    {
        self.bytes.clear();
    }

    pub fn bytes(&self) -> &[u8]
        ensures same { result.now ≡ self.now }
        ensures room { length self.now ≤ longest_frame }
    {
        self.bytes.as_slice()
    }

    pub fn len(&self) -> usize
        ensures count { result ≡ length self.now }
        ensures room { length self.now ≤ longest_frame }
    {
        self.bytes.len()
    }

    pub fn is_empty(&self) -> bool
        ensures { result ≡ (length self.now == 0) }
    {
        self.bytes.is_empty()
    }

    /// Writes the bytes behind those that are there. It takes no memory.
    pub fn push(&mut self, bytes: &[u8])
        requires { length self.old + length bytes.now ≤ longest_frame }
        ensures { self.new ≡ self.old ++ bytes.now }
    {
        let _ = self.bytes.extend_from_slice(bytes);
    }

    /// Writes one byte behind those that are there. It takes no memory.
    pub fn push_byte(&mut self, byte: u8)
        requires { length self.old + 1 ≤ longest_frame }
        ensures { self.new ≡ self.old ++ byte ∷ [] }
    {
        let _ = self.bytes.push(byte);
    }
}
