//! The versions of all keys.

ghost use Rattle.std.specs.Prelude.{◌≡◌, ◌<◌, ◌≤◌, ◌||◌, ◌++◌, [], ℕ, List, false, length, take, drop, slice_get, bytes_eq, option_map, IsTrue, OnOk, OnErr};
ghost use Rattle.std.specs.List.{IsDistinct};
ghost use Rattle.std.specs.Option.{option_copied};
ghost use Rattle.tardis_base.specs.declared.ids.Slot.{Slot};
ghost use Rattle.tardis_base.specs.Keys.{is_key_among, write_of};
ghost use Rattle.version_list.specs.Lists.{keys_in, versions_in, AllInOrder};
ghost use Rattle.version_list.specs.Notes.{is_noted_in};
ghost use Rattle.version_list.specs.Versions.{listed_keys, new_keys, versions_of, has_room, has_room_for, version_by, has_version_at, is_noted, is_key_in};
ghost use Rattle.version_list.specs.Versions.{same_slot, IsInOrder, IsBefore, AreNoted};
ghost use Rattle.version_list.specs.Promoted.{promoted};
ghost use Rattle.version_list.specs.Seats.{slot_of};
ghost use Rattle.version_list.specs.Joined.{joined, IsNextIfNewer};
ghost use Rattle.version_list.specs.Reads.{latest_version, written, found};

use crate::histories::{self, KeyLists, Version};
use crate::notes::{KeyChunks, Notes};
use crate::seats::{Seated, Seats};
use std::alloc::Global;
use std::hash::RandomState;
use std::marker::Model;
use std::mem;
use tardis_base::{Above, Found, Key, KeyList, NoMemory, Slot, StateId, Write, WriteSet};

/// The versions of each key, with their states named by slots of one table.
///
/// Keys are found by hashing with a seed that `new` is given, so that whoever chooses keys can't tell which of them collide.
#[derive(Drop)]
pub struct VersionList {
    /// By the seats of the states, and so are the notes.
    lists: KeyLists,
    /// The keys with a version at each state.
    notes: Notes,
    /// Room for the keys of the next state.
    next: Vec<Key>,
    /// The seats of the states.
    seats: Seats,
}

impl Model for VersionList {
    ghost use Rattle.std.specs.Prelude.{◌≡◌, []};
    ghost use Rattle.std.specs.Vec.{vec_capacity};
    ghost use Rattle.version_list.specs.Versions.{Versions, AreNoted};
    ghost use Rattle.version_list.specs.Seats.{IsPaired, seen_lists, seen_notes};

    ghost Value = { Versions };

    ghost view = { λ s. record { lists = seen_lists s.seats s.lists; notes = seen_notes s.seats s.notes; keys = vec_capacity s.next } };

    ghost invariant = { λ s. (s.next.items ≡ []) × AreNoted s.lists s.notes.by_slot × IsPaired s.seats };
}

impl VersionList {
    /// No versions, with keys to be found by hashing with this seed. It takes no memory.
    pub fn new(alloc: Global, keys: RandomState) -> VersionList
        ensures empty { (k : List ℕ) → versions_of result k ≡ [] }
        ensures keys { listed_keys result ≡ [] }
    {
        VersionList {
            lists: KeyLists::new(alloc, keys),
            notes: Notes::new(alloc),
            next: Vec::new(alloc),
            seats: Seats::new(alloc),
        }
    }

    /// Makes room for the versions of one more state with these writes. Keys that aren't listed yet are listed behind the others.
    ///
    /// With no memory the listed keys are as before, and room may have been made. The cost grows with a look-up of each key but
    /// the one that was given room last, and the lengths of those that are new; a list without room is moved to where it has some.
    pub fn make_room(&mut self, writes: &WriteSet) -> Result<(), NoMemory>
        ensures room { OnOk result (IsTrue (has_room_for self.new writes.now)) }
        ensures listed { OnOk result (listed_keys self.new ≡ listed_keys self.old ++ new_keys (listed_keys self.old) writes.now) }
        ensures unused { OnOk result ((k : List ℕ) → IsTrue (is_key_among k (drop (length (listed_keys self.old)) (listed_keys self.new)))
            → versions_of self.new k ≡ []) }
        ensures not_listed { OnErr result (listed_keys self.new ≡ listed_keys self.old) }
        ensures same { (k : List ℕ) → versions_of self.new k ≡ versions_of self.old k }
        ensures kept { (k : List ℕ) → IsTrue (has_room self.old k) → IsTrue (has_room self.new k) }
        ensures noted { (s : Slot) → is_noted self.new s ≡ is_noted self.old s }
    {
        self.notes.make_room()?;
        self.next.reserve_exact(writes.len())?;
        self.seats.cover(self.notes.slots());
        self.lists.make_room(writes)
    }

    /// Takes the keys from this place on, which have no versions, off the list: those that `make_room` listed for a state
    /// that isn't added. It takes no memory.
    ///
    /// The cost grows with the number of these keys.
    pub fn withdraw(&mut self, place: usize)
        requires { (k : List ℕ) → IsTrue (is_key_among k (drop place (listed_keys self.old))) → versions_of self.old k ≡ [] }
        ensures listed { listed_keys self.new ≡ take place (listed_keys self.old) }
        ensures same { (k : List ℕ) → versions_of self.new k ≡ versions_of self.old k }
        ensures kept { (k : List ℕ) → IsTrue (is_key_among k (take place (listed_keys self.old))) → has_room self.new k ≡ has_room self.old k }
        ensures noted { (s : Slot) → is_noted self.new s ≡ is_noted self.old s }
    {
        self.lists.withdraw(place);
    }

    /// Adds what the state of this slot wrote, which is read from there on. It takes no memory, and uses up the room for these keys.
    ///
    /// The cost grows with the number of the writes, and for each with a comparison of its key and the one where `make_room` last
    /// found it, or with a look-up where these differ.
    pub fn add<A: Above>(&mut self, dag: &A, slot: Slot, writer: StateId, writes: WriteSet)
        requires order { IsInOrder (A.is_kept dag.now) (A.arrival_of dag.now) self.old }
        requires room { IsTrue (has_room_for self.old writes) }
        requires kept { IsTrue (A.is_kept dag.now slot) }
        requires newest { IsBefore (A.arrival_of dag.now) slot self.old }
        ensures added { (k : List ℕ) → versions_of self.new k ≡ versions_of self.old k ++ version_by slot writer (write_of k writes) }
        ensures keys { listed_keys self.new ≡ listed_keys self.old }
        ensures order { IsInOrder (A.is_kept dag.now) (A.arrival_of dag.now) self.new }
        ensures noted { (s : Slot) → is_noted self.new s ≡ (same_slot slot s || is_noted self.old s) }
    {
        let seat = self.seats.seat(slot);
        let table = Seated {
            dag,
            seats: &self.seats,
        };
        self.lists.add(&table, seat, writer, writes, &mut self.next);
        let alloc = *self.next.allocator();
        let keys = mem::replace(&mut self.next, Vec::new(alloc));
        self.notes.put(seat, KeyList::from_vec(keys));
    }

    /// What is read of the key at the state: the version of greatest arrival among those at or above it.
    ///
    /// The cost is that of a look-up of the key and of a binary search among its versions, and grows with the number of those
    /// that had arrived when the state did and are newer than the one found.
    pub fn latest<A: Above>(&self, dag: &A, key: &Key, at: Slot) -> Found<'_>
        requires order { IsInOrder (A.is_kept dag.now) (A.arrival_of dag.now) self.now }
        requires kept { IsTrue (A.is_kept dag.now at) }
        ensures { found result ≡ option_map written (latest_version (A.is_above dag.now) (A.arrival_of dag.now) (versions_of self.now key.now) at) }
    {
        let table = Seated {
            dag,
            seats: &self.seats,
        };
        read(histories::latest(&table, self.lists.versions(key), self.seats.seat(at)))
    }

    /// The state whose version `latest` finds, at that cost; None exactly where it finds none.
    pub fn holder<A: Above>(&self, dag: &A, key: &Key, at: Slot) -> Option<Slot>
        requires order { IsInOrder (A.is_kept dag.now) (A.arrival_of dag.now) self.now }
        requires kept { IsTrue (A.is_kept dag.now at) }
        ensures { result ≡ option_map (λ v. v.slot) (latest_version (A.is_above dag.now) (A.arrival_of dag.now) (versions_of self.now key.now) at) }
    {
        let table = Seated {
            dag,
            seats: &self.seats,
        };
        let version = histories::latest(&table, self.lists.versions(key), self.seats.seat(at));
        found_at(&self.seats, version)
    }

    /// How many keys are listed.
    pub fn keys(&self) -> usize
        ensures count { result ≡ length (listed_keys self.now) }
        ensures distinct { IsDistinct bytes_eq (listed_keys self.now) }
        ensures listed { (k : List ℕ) → is_key_among k (listed_keys self.now) ≡ false → versions_of self.now k ≡ [] }
    {
        self.lists.keys()
    }

    /// The listed key at this place, counted from 0.
    pub fn key_at(&self, place: usize) -> &Key
        requires { place < length (listed_keys self.now) }
        ensures { slice_get (listed_keys self.now) place ≡ Some result.now }
    {
        self.lists.key_at(place)
    }

    /// Moves each version at `from` to `to`, or takes it away where `to` has a version of that key. It takes no memory.
    ///
    /// `next` says that no kept state arrived between the two. Where it holds and fewer chunks of keys are noted for `to` than for
    /// `from`, the cost grows with the number of the keys at `to`, else with that of the keys at `from`; a chunk is what is left of
    /// the keys that one state wrote. For each of these keys it is that of a look-up, of binary searches among its versions, and of
    /// the moves of those between `from` and `to`, or, where one goes, of those before it or behind it, whichever are fewer.
    pub fn promote<A: Above>(&mut self, dag: &A, from: Slot, to: Slot, next: bool)
        requires order { IsInOrder (A.is_kept dag.now) (A.arrival_of dag.now) self.old }
        requires from { IsTrue (A.is_kept dag.now from) }
        requires to { IsTrue (A.is_kept dag.now to) }
        requires before { A.arrival_of dag.now from < A.arrival_of dag.now to }
        requires noted { IsTrue (is_noted self.old to) }
        requires next { IsTrue next → (s : Slot) → IsTrue (A.is_kept dag.now s) → A.arrival_of dag.now from < A.arrival_of dag.now s
            → A.arrival_of dag.now to ≤ A.arrival_of dag.now s }
        ensures promoted { (k : List ℕ) → versions_of self.new k ≡ promoted (A.arrival_of dag.now) from to (versions_of self.old k) }
        ensures left { (k : List ℕ) → has_version_at from (versions_of self.new k) ≡ false }
        ensures keys { listed_keys self.new ≡ listed_keys self.old }
        ensures order { IsInOrder (A.is_kept dag.now) (A.arrival_of dag.now) self.new }
        ensures noted { (s : Slot) → is_noted self.new s ≡ is_noted self.old s }
    {
        let (first, second) = (self.seats.seat(from), self.seats.seat(to));
        let table = Seated {
            dag,
            seats: &self.seats,
        };
        if next && self.notes.has_more(first, second) && self.seats.can_exchange(from, to) {
            join(&table, &mut self.lists, &mut self.notes, second, first);
            self.seats.exchange(from, to);
        } else {
            join(&table, &mut self.lists, &mut self.notes, first, second);
        }
    }

    /// The keys with a version at this state, in chunks. The cost is that of a look-up of the slot.
    pub fn keys_at(&self, slot: Slot) -> &KeyChunks
        ensures { (k : List ℕ) → is_key_in k result.now ≡ has_version_at slot (versions_of self.now k) }
    {
        self.notes.at(self.seats.seat(slot))
    }
}

/// What is read where this version was found.
fn read(version: Option<&Version>) -> Found<'_>
    ensures { found result ≡ option_map written (option_copied version.entry) }
{
    match version {
        Some(version) => match &version.write {
            Write::Put(value) => Found::Value {
                writer: version.writer,
                value,
            },
            Write::Delete => Found::Deleted {
                writer: version.writer,
            },
        },
        None => Found::Absent,
    }
}

/// At which slot this version was found.
fn found_at(seats: &Seats, version: Option<&Version>) -> Option<Slot>
    ensures { result ≡ option_map (λ v. slot_of seats.now v.slot) (option_copied version.entry) }
{
    match version {
        Some(version) => Some(seats.slot(version.slot)),
        None => None,
    }
}

/// Moves each version at `from` to `to`, and so what is noted. Where both have one of a key the newer is left. It takes no
/// memory.
fn join<A: Above>(dag: &A, lists: &mut KeyLists, notes: &mut Notes, from: Slot, to: Slot)
    requires order { AllInOrder (A.is_kept dag.now) (A.arrival_of dag.now) lists.old }
    requires from { IsTrue (A.is_kept dag.now from) }
    requires to { IsTrue (A.is_kept dag.now to) }
    requires apart { A.arrival_of dag.now from ≡ A.arrival_of dag.now to → ⊥ }
    requires next { IsNextIfNewer (A.is_kept dag.now) (A.arrival_of dag.now) from to }
    requires there { IsTrue (is_noted_in to notes.old.by_slot) }
    requires noted { AreNoted lists.old notes.old.by_slot }
    ensures joined { (k : List ℕ) → versions_in lists.new k ≡ joined (A.arrival_of dag.now) from to (versions_in lists.old k) }
    ensures keys { keys_in lists.new ≡ keys_in lists.old }
    ensures noted { AreNoted lists.new notes.new.by_slot }
    ensures there { (s : Slot) → is_noted_in s notes.new.by_slot ≡ is_noted_in s notes.old.by_slot }
{
    let chunks = notes.take(from);
    let moved = lists.join_chunks(dag, chunks, from, to);
    notes.give(to, moved);
}
