//! The text of entries that are to be appended.

ghost use Rattle.std.specs.Prelude.{◌≡◌, ◌+◌, ◌≤◌, ◌++◌, ◌==◌, [], ◌∷◌, length, true, IfOk};
ghost use Rattle.tardis_base.specs.Sizes.{longest_request};
ghost use Rattle.frame_cut.specs.Frames.{frame};
ghost use Rattle.site_journal.specs.Sizes.{most_staged};
ghost use Rattle.site_journal.specs.Texts.{entry_of};

use crate::sizes::ROOM;
use std::alloc::Global;
use std::marker::Model;
use tardis_base::NoMemory;

/// Bytes in room that was taken once.
#[derive(Drop)]
pub struct EntryText {
    bytes: Vec<u8>,
}

impl Model for EntryText {
    ghost use Rattle.std.specs.Prelude.{List, ℕ, ◌≤◌, length, vec_capacity};
    ghost use Rattle.site_journal.specs.Sizes.{most_staged};

    ghost Value = { List ℕ };

    ghost view = { λ t. t.bytes.items };

    ghost invariant = { λ t. (length t.bytes.items ≤ most_staged) × (most_staged ≤ vec_capacity t.bytes) };
}

impl EntryText {
    /// No bytes. It takes all its room now, and none later.
    pub(crate) fn new(alloc: Global) -> Result<EntryText, NoMemory>
        ensures { IfOk result (λ t. t ≡ []) }
    {
        match Vec::with_capacity(alloc, ROOM) {
            Ok(bytes) => Ok(EntryText { bytes }),
            Err(_) => Err(NoMemory),
        }
    }

    pub(crate) fn bytes(&self) -> &[u8]
        ensures { result.now ≡ self.now }
    {
        self.bytes.as_slice()
    }

    pub(crate) fn len(&self) -> usize
        ensures count { result ≡ length self.now }
        ensures room { result ≤ most_staged }
    {
        self.bytes.len()
    }

    /// Forgets the bytes, and keeps the room.
    pub(crate) fn clear(&mut self)
        ensures { self.new ≡ [] }
    {
        self.bytes.clear();
    }

    /// Writes a byte 1 and the frame of an entry. It takes no memory.
    pub(crate) fn push_entry(&mut self, actor: u16, request: &[u8])
        requires room { length self.old + (length request.now + 7) ≤ most_staged }
        requires fits { length request.now ≤ longest_request }
        ensures { self.new ≡ self.old ++ 1 ∷ frame (entry_of (actor, request.now)) }
    {
        let head = ((request.len() + 2) as u32).to_be_bytes();
        self.push(&[1]);
        self.push(&head);
        self.push(&actor.to_be_bytes());
        self.push(request);
    }

    /// Writes the byte 0 that ends a journal. It takes no memory.
    pub(crate) fn push_end(&mut self)
        requires { length self.old + 1 ≤ most_staged }
        ensures { self.new ≡ self.old ++ 0 ∷ [] }
    {
        self.push(&[0]);
    }

    fn push(&mut self, bytes: &[u8])
        requires { length self.old + length bytes.now ≤ most_staged }
        ensures { self.new ≡ self.old ++ bytes.now }
    {
        let _ = self.bytes.extend_from_slice(bytes);
    }
}
