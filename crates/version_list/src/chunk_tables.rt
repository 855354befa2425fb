//! A table of chunks of keys by slot.
//!
//! States get the slots from 1 on one after another, so their chunks stand in a row. What comes in another order is looked up by
//! hash.

ghost use Rattle.std.specs.Prelude.{◌≡◌, ℕ, ◌+◌, ◌<◌, ◌≤◌, [], cond, length, slice_set, Some, IsTrue, OnOk};
ghost use Rattle.std.specs.Map.{lookup, set_value};
ghost use Rattle.std.specs.Option.{option_copied};
ghost use Rattle.tardis_base.specs.declared.ids.Slot.{Slot};
ghost use Rattle.version_list.specs.Notes.{same_slot, chunks_in, are_full, are_all_full, entries_in, is_in_row};

use crate::notes::KeyChunks;
use indexmap::IndexMap;
use std::alloc::Global;
use std::marker::Model;
use std::mem;
use tardis_base::{NoMemory, Slot};

/// Chunks of keys by slot.
#[derive(Drop)]
pub(crate) struct ChunkTable {
    /// Those of the slots from 1 on.
    row: Vec<KeyChunks>,
    /// Those of slots that came before all below them were there. Where the row has the slot too, the row holds.
    others: IndexMap<Slot, KeyChunks>,
}

impl Model for ChunkTable {
    ghost use Rattle.std.specs.Prelude.{◌-◌, length, min, vec_len};
    ghost use Rattle.std.specs.Vec.{vec_capacity};
    ghost use Rattle.indexmap.specs.IndexMap.{spare};
    ghost use Rattle.version_list.specs.Notes.{Table};

    ghost Value = { Table };

    ghost view = { λ s. record { row = s.row.items; others = s.others.entries; room = min (spare s.others) (vec_capacity s.row - vec_len s.row) } };
}

impl ChunkTable {
    /// No chunks of any slot. It takes no memory.
    pub(crate) fn new(alloc: Global) -> ChunkTable
        ensures { entries_in result ≡ [] }
    {
        ChunkTable {
            row: Vec::new(alloc),
            others: IndexMap::new(alloc),
        }
    }

    /// Makes room for one more slot.
    pub(crate) fn make_room(&mut self) -> Result<(), NoMemory>
        ensures same { entries_in self.new ≡ entries_in self.old }
        ensures room { OnOk result (0 < self.new.room) }
    {
        self.row.reserve(1)?;
        self.others.reserve(1)?;
        Ok(())
    }

    /// The chunks at the slot, if something was put there, in constant time.
    pub(crate) fn get(&self, slot: Slot) -> Option<&KeyChunks>
        ensures { option_copied result ≡ lookup (same_slot slot) (entries_in self.now) }
    {
        if self.is_in_row(slot) {
            Some(&self.row[slot.0 as usize - 1])
        } else {
            self.others.get(&slot)
        }
    }

    /// Puts the chunks there. It takes no memory.
    pub(crate) fn put(&mut self, slot: Slot, chunks: KeyChunks)
        requires { 0 < self.old.room }
        ensures found { (q : Slot) → lookup (same_slot q) (entries_in self.new)
            ≡ cond (same_slot slot q) (Some chunks) (lookup (same_slot q) (entries_in self.old)) }
        ensures count { chunks_in (entries_in self.new) ≤ chunks_in (entries_in self.old) + length chunks }
        ensures full { IsTrue (are_full chunks) → IsTrue (are_all_full (entries_in self.old)) → IsTrue (are_all_full (entries_in self.new)) }
    {
        if self.is_in_row(slot) {
            drop(self.replace_in_row(slot, chunks));
        } else if slot.0 as usize == self.row.len() + 1 {
            self.row.push_reserved(chunks);
        } else {
            self.put_aside(slot, chunks);
        }
    }

    /// Puts the chunks there behind the row, to be found by hash. It takes no memory.
    fn put_aside(&mut self, slot: Slot, chunks: KeyChunks)
        requires { 0 < self.old.room }
        ensures row { self.new.row ≡ self.old.row }
        ensures found { (q : Slot) → lookup (same_slot q) self.new.others ≡ cond (same_slot slot q) (Some chunks) (lookup (same_slot q) self.old.others) }
        ensures count { chunks_in self.new.others ≤ chunks_in self.old.others + length chunks }
        ensures full { IsTrue (are_full chunks) → IsTrue (are_all_full self.old.others) → IsTrue (are_all_full self.new.others) }
    {
        match self.others.insert(slot, chunks) {
            Ok(old) => drop(old),
            Err(_) => unreachable!(),
        }
    }

    /// Puts the chunks in the place of those at the slot, which are answered, if something was put there. It takes no memory, and
    /// constant time.
    pub(crate) fn replace(&mut self, slot: Slot, chunks: KeyChunks) -> Option<KeyChunks>
        ensures old { result ≡ lookup (same_slot slot) (entries_in self.old) }
        ensures new { entries_in self.new ≡ set_value (same_slot slot) (entries_in self.old) chunks }
    {
        if self.is_in_row(slot) {
            Some(self.replace_in_row(slot, chunks))
        } else {
            match self.others.get_mut(&slot) {
                Some(own) => Some(mem::replace(own, chunks)),
                None => None,
            }
        }
    }

    /// Does so with a slot that stands in the row.
    fn replace_in_row(&mut self, slot: Slot, chunks: KeyChunks) -> KeyChunks
        requires { IsTrue (is_in_row slot self.old.row) }
        ensures old { Some result ≡ lookup (same_slot slot) (entries_in self.old) }
        ensures new { entries_in self.new ≡ set_value (same_slot slot) (entries_in self.old) chunks }
    {
        mem::replace(&mut self.row[slot.0 as usize - 1], chunks)
    }

    /// Whether the slot stands in the row.
    fn is_in_row(&self, slot: Slot) -> bool
        ensures { result ≡ is_in_row slot self.now.row }
    {
        0 < slot.0 && slot.0 as usize <= self.row.len()
    }

    /// How many slots have chunks: at least so many.
    pub(crate) fn len(&self) -> usize {
        self.row.len() + self.others.len()
    }
}
