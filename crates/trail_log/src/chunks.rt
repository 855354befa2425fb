//! A part of a trail's bytes.

ghost use Rattle.std.specs.Prelude.{◌≡◌, ◌+◌, ◌≤◌, [], ◌++◌, length, IfOk};
ghost use Rattle.tardis_base.specs.Sizes.{longest_framed};
ghost use Rattle.frame_cut.specs.Frames.{frame};
ghost use Rattle.trail_log.specs.Frames.{body_of};

use std::alloc::Global;
use std::marker::Model;
use tardis_base::{MAX_FRAMED, NoMemory};

/// How many bytes a chunk may have: the frame of the longest entry fits one.
pub(crate) const CHUNK: usize = MAX_FRAMED;

/// Bytes in room that was taken once.
#[derive(Drop)]
pub(crate) struct Chunk {
    bytes: Vec<u8>,
}

impl Model for Chunk {
    ghost use Rattle.std.specs.Prelude.{List, ℕ, ◌≤◌, length, vec_capacity};
    ghost use Rattle.tardis_base.specs.Sizes.{longest_framed};

    ghost Value = { List ℕ };

    ghost view = { λ c. c.bytes.items };

    ghost invariant = { λ c. (length c.bytes.items ≤ longest_framed) × (longest_framed ≤ vec_capacity c.bytes) };
}

impl Chunk {
    /// An empty chunk. It takes all its room now, and none later.
    pub(crate) fn new(alloc: Global) -> Result<Chunk, NoMemory>
        ensures { IfOk result (λ c. c ≡ []) }
    {
        match Vec::with_capacity(alloc, CHUNK) {
            Ok(bytes) => Ok(Chunk { bytes }),
            Err(_) => Err(NoMemory),
        }
    }

    pub(crate) fn bytes(&self) -> &[u8]
        ensures { result.now ≡ self.now }
    {
        self.bytes.as_slice()
    }

    /// Writes the frame of an entry behind the bytes that are there. It takes no memory.
    pub(crate) fn push_entry(&mut self, actor: u16, request: &[u8])
        requires { length self.old + (length request.now + 6) ≤ longest_framed }
        ensures { self.new ≡ self.old ++ frame (body_of (actor, request.now)) }
    {
        let head = ((request.len() + 2) as u32).to_be_bytes();
        self.push(&head);
        self.push(&actor.to_be_bytes());
        self.push(request);
    }

    /// Writes bytes behind those that are there. It takes no memory.
    fn push(&mut self, bytes: &[u8])
        requires { length self.old + length bytes.now ≤ longest_framed }
        ensures { self.new ≡ self.old ++ bytes.now }
    {
        let _ = self.bytes.extend_from_slice(bytes);
    }
}
