//! The entries of a trail, kept as the frames that they are written as.

ghost use Rattle.std.specs.Prelude.{◌≡◌, ◌+◌, ◌-◌, ◌≤◌, [], ◌∷◌, ◌++◌, length, OnOk};
ghost use Rattle.tardis_base.specs.Sizes.{longest_framed, longest_request};
ghost use Rattle.tardis_io.specs.Told.{WhileTold, GivesAll};
ghost use Rattle.tardis_io.specs.Faults.{HasCause};
ghost use Rattle.std.specs.List.{AllByRecursion};
ghost use Rattle.trail_log.specs.Frames.{trail_frames, IsEntry};

use crate::chunks::{CHUNK, Chunk};
use std::alloc::Global;
use std::marker::Model;
use tardis_base::NoMemory;
use tardis_io::{Sink, WriteFault, write_all};

/// The frames of entries, in chunks that never move. It is seen as the entries, and the room for more.
#[derive(Drop)]
pub(crate) struct EntryLog {
    chunks: Vec<Chunk>,
    spare: usize,
}

impl Model for EntryLog {
    ghost use Rattle.std.specs.Prelude.{◌≤◌};
    ghost use Rattle.std.specs.List.{concat};
    ghost use Rattle.trail_log.specs.Trail.{Logged};

    ghost Value = { Logged };

    ghost use Rattle.trail_log.specs.Frames.{entries_of, IsTrail, room_behind};

    ghost view = { λ l. record { trail = entries_of (concat l.chunks.items); room = l.spare } };

    ghost invariant = { λ l. IsTrail (concat l.chunks.items) × (l.spare ≤ room_behind l.chunks.items) };
}

impl EntryLog {
    /// No entries. It takes no memory.
    pub(crate) fn new(alloc: Global) -> EntryLog
        ensures { result.trail ≡ [] }
    {
        EntryLog {
            chunks: Vec::new(alloc),
            spare: 0,
        }
    }

    /// Makes room for the frame of an entry that has so many bytes. Where there is room nothing changes; else a chunk is
    /// taken. With no memory the entries and the room stay.
    pub(crate) fn reserve(&mut self, count: usize) -> Result<(), NoMemory>
        requires { count ≤ longest_framed }
        ensures same { self.new.trail ≡ self.old.trail }
        ensures kept { count ≤ self.old.room → self.new ≡ self.old }
        ensures room { OnOk result (count ≤ self.new.room) }
    {
        if count <= self.spare {
            return Ok(());
        }
        let chunk = Chunk::new(*self.chunks.allocator())?;
        match self.chunks.push(chunk) {
            Ok(()) => {
                self.spare = CHUNK;
                Ok(())
            }
            Err(_) => Err(NoMemory),
        }
    }

    /// Puts an entry behind the others, by one copy. It takes no memory.
    pub(crate) fn push(&mut self, actor: u16, request: &[u8])
        requires room { length request.now + 6 ≤ self.old.room }
        requires fits { length request.now ≤ longest_request }
        ensures { self.new.trail ≡ self.old.trail ++ (actor, request.now) ∷ [] }
    {
        let last = self.chunks.len() - 1;
        self.chunks[last].push_entry(actor, request);
        self.spare -= request.len() + 6;
    }

    /// Each entry fits a frame. This call does nothing.
    pub(crate) fn entries_fit(&self)
        ensures { AllByRecursion IsEntry self.now.trail }
    {
        let _ = &self.chunks; // for the proof alone
    }

    /// Gives the frames of the entries, in order. After a fault a front of them was given.
    pub(crate) fn write_to<O: Sink>(&self, output: &mut O) -> Result<(), WriteFault>
        ensures bytes { WhileTold (O.given output.old) (O.given output.new) (λ before after. GivesAll before after result (trail_frames self.now.trail)) }
        ensures cause { HasCause (O.faults output.old) (O.faults output.new) result }
        ensures each { AllByRecursion IsEntry self.now.trail }
    {
        for chunk in self.chunks.iter() {
            match write_all(output, chunk.bytes()) {
                Ok(()) => {}
                Err(WriteFault) => return Err(WriteFault),
            }
        }
        Ok(())
    }
}
