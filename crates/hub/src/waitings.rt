//! Bytes that wait to be written to a connection.

ghost use Rattle.std.specs.Prelude.{◌≡◌, ◌≤◌, ◌++◌, [], length, drop, IfOk};
ghost use Rattle.tardis_base.specs.Sizes.{longest_frame, piece};
ghost use Rattle.frame_cut.specs.Frames.{frame};

use frame_cut::{keep_rest, put_frame};
use std::alloc::Global;
use std::marker::Model;
use tardis_base::{MAX_FRAMED, NoMemory, PIECE};

/// A longest frame behind as much as may wait where one more is answered.
const ROOM: usize = PIECE + MAX_FRAMED;

/// The bytes of replies that weren't written yet, in room that was reserved once. It is seen as these bytes.
#[derive(Drop)]
pub struct Waiting {
    bytes: Vec<u8>,
}

impl Model for Waiting {
    ghost use Rattle.std.specs.Prelude.{List, ℕ, ◌≤◌, ◌+◌, length, vec_capacity};
    ghost use Rattle.tardis_base.specs.Sizes.{piece, longest_framed};

    ghost Value = { List ℕ };

    ghost view = { λ w. w.bytes.items };

    ghost invariant = { λ w. (length w.bytes.items ≤ piece + longest_framed) × (piece + longest_framed ≤ vec_capacity w.bytes) };
}

impl Waiting {
    /// No bytes. It reserves all its room now.
    pub(crate) fn new(alloc: Global) -> Result<Waiting, NoMemory>
        ensures { IfOk result (λ w. w ≡ []) }
    {
        match Vec::with_capacity(alloc, ROOM) {
            Ok(bytes) => Ok(Waiting { bytes }),
            Err(_) => Err(NoMemory),
        }
    }

    pub fn bytes(&self) -> &[u8]
        ensures { result.now ≡ self.now }
    {
        self.bytes.as_slice()
    }

    pub fn len(&self) -> usize
        ensures { result ≡ length self.now }
    {
        self.bytes.len()
    }

    /// Puts the frame of a reply behind the bytes that wait.
    pub(crate) fn put(&mut self, reply: &[u8])
        requires few { length self.old ≤ piece }
        requires reply { length reply.now ≤ longest_frame }
        ensures { self.new ≡ self.old ++ frame reply.now }
    {
        let mut head = [0; 4];
        put_frame(reply, &mut head);
        let _ = self.bytes.extend_from_slice(&head);
        let _ = self.bytes.extend_from_slice(reply);
    }

    /// Forgets the first bytes, which were written.
    pub(crate) fn pass(&mut self, count: usize)
        requires { count ≤ length self.old }
        ensures { self.new ≡ drop count self.old }
    {
        keep_rest(&mut self.bytes, count);
    }
}
