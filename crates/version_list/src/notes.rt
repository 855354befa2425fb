//! The keys with a version at each state, in chunks that are handed on as they are.

ghost use Rattle.std.specs.Prelude.{◌≡◌, ◌==◌, ℕ, List, ◌+◌, ◌^◌, ◌<◌, ◌≤◌, ◌||◌, ◌&&◌, not, [], ◌∷◌, ◌++◌, cond, length, nat_lt, take, drop, Some, IsTrue, OnOk};
ghost use Rattle.std.specs.List.{list_any};
ghost use Rattle.std.specs.Map.{lookup};
ghost use Rattle.tardis_base.specs.declared.ids.Slot.{Slot};
ghost use Rattle.version_list.specs.Notes.{same_slot, is_key_in, chunks_for, chunks_in, is_noted_in, are_full, chunks_of};

use crate::chunk_tables::ChunkTable;
use std::alloc::Global;
use std::collections::LinkedList;
use std::marker::Model;
use std::mem;
use tardis_base::{Key, KeyList, NoMemory, Slot};

/// Keys, as each state brought its own. A key stands in one chunk, and no chunk is without keys.
pub type KeyChunks = LinkedList<KeyList>;

/// The most chunks that are made, so that no two numbers of them have a sum that doesn't fit.
const MOST: u64 = 0x4000_0000_0000_0000;

/// The most slots of noted states that are counted.
const MOST_SLOTS: usize = 0xffff_fff0;

/// The keys noted for each state.
#[derive(Drop)]
pub(crate) struct Notes {
    /// By slot. Where a state has gone no keys are left, and the next one there takes the place.
    chunks: ChunkTable,
    /// What is lent of a state for which nothing was noted.
    none: KeyChunks,
    /// The chunk of the next state, without its keys, once it was made.
    next: KeyChunks,
    /// How many chunks were made.
    made: u64,
}

impl Model for Notes {
    ghost use Rattle.std.specs.Prelude.{◌≡◌, ◌+◌, ◌≤◌, ◌^◌, length, [], IsTrue};
    ghost use Rattle.version_list.specs.Notes.{Noted, chunks_in, are_all_full, entries_in};

    ghost Value = { Noted };

    ghost view = { λ s. record { by_slot = entries_in s.chunks; states = s.chunks.room; chunks = length s.next; made = s.made } };

    ghost invariant = { λ s. (s.none ≡ []) × (length s.next ≤ 1) × (chunks_in (entries_in s.chunks) + length s.next ≤ s.made) × (s.made ≤ 4611686018427387904) × IsTrue (are_all_full (entries_in s.chunks)) };
}

impl Notes {
    /// Nothing is noted. It takes no memory.
    pub(crate) fn new(alloc: Global) -> Notes
        ensures { result.by_slot ≡ [] }
    {
        Notes {
            chunks: ChunkTable::new(alloc),
            none: LinkedList::new(alloc),
            next: LinkedList::new(alloc),
            made: 0,
        }
    }

    /// Makes room for the keys of one more state.
    pub(crate) fn make_room(&mut self) -> Result<(), NoMemory>
        ensures same { self.new.by_slot ≡ self.old.by_slot }
        ensures states { OnOk result (0 < self.new.states) }
        ensures chunk { OnOk result (0 < self.new.chunks) }
    {
        self.chunks.make_room()?;
        if self.next.is_empty() {
            if self.made >= MOST {
                return Err(NoMemory);
            }
            let alloc = *self.next.allocator();
            self.next.push_back(KeyList::new(alloc))?;
            self.made += 1;
        }
        Ok(())
    }

    /// Notes these keys for the state of this slot, and no others: in one chunk, or in none where there is no key. It takes no
    /// memory.
    pub(crate) fn put(&mut self, slot: Slot, keys: KeyList)
        requires states { 0 < self.old.states }
        requires chunk { 0 < self.old.chunks }
        ensures { (q : Slot) → lookup (same_slot q) self.new.by_slot ≡ cond (same_slot slot q) (Some (chunks_of keys)) (lookup (same_slot q) self.old.by_slot) }
    {
        let alloc = *self.next.allocator();
        let chunk = mem::replace(&mut self.next, LinkedList::new(alloc));
        self.chunks.put(slot, filled(chunk, keys));
    }

    /// The chunks of the keys noted for the state, in constant time.
    pub(crate) fn at(&self, slot: Slot) -> &KeyChunks
        ensures { result.now ≡ chunks_for slot self.now.by_slot }
    {
        match self.chunks.get(slot) {
            Some(chunks) => chunks,
            None => &self.none,
        }
    }

    /// How many slots name the noted states, the root, at which none is written, and one state more: at least so many.
    pub(crate) fn slots(&self) -> u32 {
        self.chunks.len().min(MOST_SLOTS) as u32 + 2
    }

    /// Whether more chunks are noted for the one state than for the other, in constant time.
    pub(crate) fn has_more(&self, one: Slot, other: Slot) -> bool
        ensures { result ≡ nat_lt (length (chunks_for other self.now.by_slot)) (length (chunks_for one self.now.by_slot)) }
    {
        self.at(other).len() < self.at(one).len()
    }

    /// Takes the chunks of the state out. None are left there. It takes no memory, and constant time.
    pub(crate) fn take(&mut self, slot: Slot) -> KeyChunks
        ensures taken { result ≡ chunks_for slot self.old.by_slot }
        ensures left { chunks_for slot self.new.by_slot ≡ [] }
        ensures others { (q : Slot) → (q ≡ slot → ⊥) → chunks_for q self.new.by_slot ≡ chunks_for q self.old.by_slot }
        ensures noted { (q : Slot) → is_noted_in q self.new.by_slot ≡ is_noted_in q self.old.by_slot }
        ensures count { chunks_in self.new.by_slot + length result + self.new.chunks ≤ self.new.made }
        ensures same { chunks_in self.new.by_slot + length result ≡ chunks_in self.old.by_slot }
        ensures room { self.new.chunks ≡ self.old.chunks }
        ensures made { self.new.made ≡ self.old.made }
        ensures most { self.new.made ≤ 4611686018427387904 }
        ensures full { IsTrue (are_full result) }
    {
        let alloc = *self.none.allocator();
        match self.chunks.replace(slot, LinkedList::new(alloc)) {
            Some(chunks) => chunks,
            None => LinkedList::new(alloc),
        }
    }

    /// Puts these chunks behind those of the state. It takes no memory, and constant time.
    pub(crate) fn give(&mut self, slot: Slot, mut chunks: KeyChunks)
        requires noted { IsTrue (is_noted_in slot self.old.by_slot) }
        requires count { chunks_in self.old.by_slot + length chunks + self.old.chunks ≤ self.old.made }
        requires full { IsTrue (are_full chunks) }
        ensures given { chunks_for slot self.new.by_slot ≡ chunks_for slot self.old.by_slot ++ chunks }
        ensures others { (q : Slot) → (q ≡ slot → ⊥) → chunks_for q self.new.by_slot ≡ chunks_for q self.old.by_slot }
        ensures noted { (q : Slot) → is_noted_in q self.new.by_slot ≡ is_noted_in q self.old.by_slot }
    {
        let mut own = self.take(slot);
        match own.append(&mut chunks) {
            Ok(()) => {},
            Err(_) => unreachable!(),
        }
        drop(self.chunks.replace(slot, own));
    }
}

/// The chunk with these keys, or no chunk where there is no key. It takes no memory.
fn filled(mut chunk: KeyChunks, keys: KeyList) -> KeyChunks
    requires one { length chunk ≡ 1 }
    ensures { result ≡ chunks_of keys }
{
    if keys.is_empty() {
        return LinkedList::new(*chunk.allocator());
    }
    set_first(&mut chunk, keys);
    chunk
}

/// Puts these keys into the first of the chunks.
fn set_first(chunks: &mut KeyChunks, keys: KeyList)
    requires one { length chunks.old ≡ 1 }
    ensures { chunks.new ≡ keys ∷ [] }
{
    match chunks.front_mut() {
        Some(chunk) => *chunk = keys,
        None => unreachable!(),
    }
}

/// Takes the first of the chunks off. It takes no memory, and constant time.
pub(crate) fn take_first(chunks: &mut KeyChunks) -> KeyChunks
    requires { 0 < length chunks.old }
    ensures first { result ≡ take 1 chunks.old }
    ensures rest { chunks.new ≡ drop 1 chunks.old }
{
    match chunks.split_off(1) {
        Ok(rest) => mem::replace(chunks, rest),
        Err(_) => unreachable!(),
    }
}

/// Puts the chunk behind the others, unless it has no keys. It takes no memory, and constant time.
pub(crate) fn keep(chunks: &mut KeyChunks, mut first: KeyChunks)
    requires fits { length chunks.old + length first < 2 ^ 63 }
    requires one { length first ≤ 1 }
    ensures full { IsTrue (are_full chunks.old) → IsTrue (are_full chunks.new) }
    ensures keys { (k : List ℕ) → is_key_in k chunks.new ≡ (is_key_in k chunks.old || is_key_in k first) }
    ensures count { length chunks.new ≤ length chunks.old + length first }
{
    if have_keys(&first) {
        match chunks.append(&mut first) {
            Ok(()) => {},
            Err(_) => unreachable!(),
        }
    }
}

/// Whether there is a key in the chunks.
fn have_keys(chunks: &KeyChunks) -> bool
    ensures { result ≡ list_any (λ c. not (length c == 0)) chunks.now }
{
    chunks.iter().any(|chunk| !chunk.is_empty())
}
