//! The room that one line is written into.

ghost use Rattle.std.specs.Prelude.{◌≡◌, ◌+◌, ◌≤◌, [], ◌++◌, length, nat_le, if◌then◌else◌, IfOk};
ghost use Rattle.text_words.specs.Puts.{longest_line};

use std::alloc::Global;
use std::marker::Model;
use tardis_base::{MAX_FRAME, NoMemory};

/// The most bytes of a line: four for each byte of the longest spelling, and 64 more.
pub const MAX_LINE: usize = 4 * MAX_FRAME + 64;

/// The bytes of one line, in room that was taken once.
#[derive(Drop)]
pub struct LineBuf {
    bytes: Vec<u8>,
}

impl Model for LineBuf {
    ghost use Rattle.std.specs.Prelude.{List, ℕ, ◌≤◌, length, vec_capacity};
    ghost use Rattle.text_words.specs.Puts.{longest_line};

    ghost Value = { List ℕ };

    ghost view = { λ b. b.bytes.items };

    ghost invariant = { λ b. (length b.bytes.items ≤ longest_line) × (longest_line ≤ vec_capacity b.bytes) };
}

impl LineBuf {
    /// An empty buffer. It takes all its room now, and none later.
    pub fn new(alloc: Global) -> Result<LineBuf, NoMemory>
        ensures { IfOk result (λ b. b ≡ []) }
    {
        match Vec::with_capacity(alloc, MAX_LINE) {
            Ok(bytes) => Ok(LineBuf { bytes }),
            Err(_) => Err(NoMemory),
        }
    }

    /// The line, without a line feed.
    pub fn bytes(&self) -> &[u8]
        ensures same { result.now ≡ self.now }
        ensures room { length self.now ≤ longest_line }
    {
        self.bytes.as_slice()
    }

    /// Forgets the line, and keeps the room.
    pub fn clear(&mut self)
        ensures { self.new ≡ [] }
    {
        self.bytes.clear();
    }

    /// Writes the text behind the line, where there is room for it. It takes no memory.
    pub fn push(&mut self, text: &[u8]) -> bool
        ensures fits { result ≡ nat_le (length self.old + length text.now) longest_line }
        ensures line { self.new ≡ (if result then self.old ++ text.now else self.old) }
    {
        if text.len() > MAX_LINE - self.bytes.len() {
            return false;
        }
        let _ = self.bytes.extend_from_slice(text);
        true
    }
}
