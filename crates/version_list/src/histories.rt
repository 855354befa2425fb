//! The versions of each key: one history a key.

ghost use Rattle.std.specs.Prelude.{◌≡◌, ◌↔◌, ◌≤◌, ◌<◌, ◌+◌, ◌&&◌, ◌||◌, [], ◌∷◌, ◌++◌, ℕ, List, false, length, take, drop, slice_get, bytes_eq, vec_len};
ghost use Rattle.std.specs.Prelude.{IsTrue, IfOk, IfSome, OnOk, OnErr, None, is_some, nat_le, get_or, slice_set};
ghost use Rattle.std.specs.List.{list_any, list_all, insert, remove, IsDistinct};
ghost use Rattle.std.specs.Option.{option_copied};
ghost use Rattle.std.specs.Vec.{vec_capacity};
ghost use Rattle.tardis_base.specs.Keys.{is_key_among, has_key, write_of};
ghost use Rattle.version_list.specs.Lists.{no_lists, keys_in, listed_in, versions_in, has_room_in, have_room_in, with_listed, new_keys, version_by};
ghost use Rattle.version_list.specs.Lists.{are_in_order, AllInOrder, AllBefore};
ghost use Rattle.version_list.specs.Reads.{latest_version};
ghost use Rattle.version_list.specs.Versions.{has_version_at};
ghost use Rattle.version_list.specs.Notes.{is_key_in, are_full};
ghost use Rattle.version_list.specs.declared.histories.Version.{Version};
ghost use Rattle.version_list.specs.Promoted.{at_state, promoted, moves};
ghost use Rattle.version_list.specs.Joined.{taken_over, joined, joined_if, IsNextIfNewer};

use crate::notes::{KeyChunks, keep, take_first};
use indexmap::IndexMap;
use shift_list::ShiftList;
use std::alloc::Global;
use std::collections::LinkedList;
use std::hash::RandomState;
use std::marker::Model;
use std::mem;
use tardis_base::{Above, Key, KeyList, NoMemory, Slot, StateId, Write, WriteSet};

/// What a state wrote to a key.
#[derive(Drop)]
pub struct Version {
    /// The kept state that stands for the writer: in memory its seat.
    pub slot: Slot,
    pub writer: StateId,
    pub write: Write,
}

impl Default for Version {
    /// A version that says nothing, and takes no memory.
    fn default() -> Version {
        Version {
            slot: Slot(0),
            writer: StateId::ROOT,
            write: Write::Delete,
        }
    }
}

/// The versions of one key in the order of their arrival.
#[derive(Drop)]
struct History {
    versions: ShiftList<Version>,
}

impl Model for History {
    ghost use Rattle.version_list.specs.Lists.{Listed};

    ghost Value = { Listed };

    ghost view = { λ h. record { versions = h.versions.items; room = h.versions.room } };
}

impl History {
    /// No versions, with room for one.
    fn new(alloc: Global) -> Result<History, NoMemory>
        ensures empty { IfOk result (λ history. history.versions ≡ []) }
        ensures room { IfOk result (λ history. 0 < history.room) }
    {
        Ok(History {
            versions: ShiftList::with_capacity(alloc, 1)?,
        })
    }

    /// Makes room for one more version.
    fn reserve(&mut self) -> Result<(), NoMemory>
        ensures same { self.new.versions ≡ self.old.versions }
        ensures room { OnOk result (0 < self.new.room) }
        ensures kept { self.old.room ≤ self.new.room }
    {
        self.versions.reserve()?;
        Ok(())
    }

    /// Puts the version at the end. It takes no memory.
    fn add(&mut self, version: Version)
        requires { 0 < self.old.room }
        ensures { self.new.versions ≡ self.old.versions ++ version ∷ [] }
    {
        self.versions.push_reserved(version);
    }

    fn as_slice(&self) -> &[Version]
        ensures { result.now ≡ self.now.versions }
    {
        self.versions.as_slice()
    }

    /// Moves the version at `from`, if there is one, to `to`, or takes it away where that has one, and answers whether one
    /// moved. It takes no memory.
    fn promote<A: Above>(&mut self, dag: &A, from: Slot, to: Slot) -> bool
        requires order { IsTrue (are_in_order (A.is_kept dag.now) (A.arrival_of dag.now) self.old.versions) }
        requires from { IsTrue (A.is_kept dag.now from) }
        requires to { IsTrue (A.is_kept dag.now to) }
        requires before { A.arrival_of dag.now from < A.arrival_of dag.now to }
        ensures promoted { self.new.versions ≡ promoted (A.arrival_of dag.now) from to self.old.versions }
        ensures moved { result ≡ moves from to self.old.versions }
        ensures room { self.old.room ≤ self.new.room }
    {
        if let Some(place) = place_of(dag, self.versions.as_slice(), from) {
            if has_version(dag, self.versions.as_slice(), to) {
                drop(self.versions.remove(place));
                false
            } else {
                let end = arrived_by(dag, self.versions.as_slice(), to);
                self.carry(place, end - 1, to);
                true
            }
        } else {
            false
        }
    }

    /// Moves the version at the one place to the other, at it or behind, and to this state. It takes no memory.
    fn carry(&mut self, from: usize, end: usize, to: Slot)
        requires order { from ≤ end }
        requires within { end < length self.old.versions }
        ensures versions { (d : Version) → self.new.versions ≡ insert (remove self.old.versions from) end (at_state to (get_or self.old.versions from d)) }
        ensures room { self.old.room ≤ self.new.room }
    {
        self.set_state(from, to);
        self.versions.carry(from, end);
    }

    /// Moves the version at the place to this state. It takes no memory, and constant time.
    fn set_state(&mut self, place: usize, to: Slot)
        requires { place < length self.old.versions }
        ensures versions { (d : Version) → self.new.versions ≡ slice_set self.old.versions place (at_state to (get_or self.old.versions place d)) }
        ensures room { self.old.room ≤ self.new.room }
    {
        let moved = Version {
            slot: to,
            ..self.versions.replace(place, Version::default())
        };
        drop(self.versions.replace(place, moved));
    }

    /// Puts the version at `from`, if there is one, in the place of that at `to`, which arrived before it, and answers whether
    /// there was one at `from` alone. It takes no memory.
    fn take_over<A: Above>(&mut self, dag: &A, from: Slot, to: Slot) -> bool
        requires order { IsTrue (are_in_order (A.is_kept dag.now) (A.arrival_of dag.now) self.old.versions) }
        requires from { IsTrue (A.is_kept dag.now from) }
        requires to { IsTrue (A.is_kept dag.now to) }
        requires after { A.arrival_of dag.now to < A.arrival_of dag.now from }
        ensures taken { self.new.versions ≡ taken_over from to self.old.versions }
        ensures moved { result ≡ moves from to self.old.versions }
        ensures room { self.old.room ≤ self.new.room }
    {
        let older = place_of(dag, self.versions.as_slice(), to);
        match place_of(dag, self.versions.as_slice(), from) {
            Some(place) => {
                self.set_state(place, to);
                match older {
                    Some(older) => {
                        drop(self.versions.remove(older));
                        false
                    },
                    None => true,
                }
            },
            None => false,
        }
    }

    /// Moves the version at `from`, if there is one, to `to`. Where both have one the newer is left. It answers whether one
    /// moved that was there alone, and takes no memory.
    fn join<A: Above>(&mut self, dag: &A, from: Slot, to: Slot) -> bool
        requires order { IsTrue (are_in_order (A.is_kept dag.now) (A.arrival_of dag.now) self.old.versions) }
        requires from { IsTrue (A.is_kept dag.now from) }
        requires to { IsTrue (A.is_kept dag.now to) }
        requires apart { A.arrival_of dag.now from ≡ A.arrival_of dag.now to → ⊥ }
        ensures joined { self.new.versions ≡ joined (A.arrival_of dag.now) from to self.old.versions }
        ensures moved { result ≡ moves from to self.old.versions }
        ensures room { self.old.room ≤ self.new.room }
    {
        if dag.arrival(to) < dag.arrival(from) {
            self.take_over(dag, from, to)
        } else {
            self.promote(dag, from, to)
        }
    }
}

/// The list of versions of each listed key.
#[derive(Drop)]
pub(crate) struct KeyLists {
    lists: IndexMap<Key, History, RandomState>,
    /// Where the keys stand that were last given room, the last of them at the end, as far as there was memory to note it. A key
    /// that doesn't stand there is looked up.
    places: Vec<usize>,
    /// Where the key stood that was given room last. The next one is looked for there first, since it is often the same.
    last: usize,
}

impl Model for KeyLists {
    ghost use Rattle.version_list.specs.Lists.{Lists};

    ghost Value = { Lists };

    ghost view = { λ s. record { lists = s.lists.entries } };
}

impl KeyLists {
    /// No versions. It takes no memory.
    pub(crate) fn new(alloc: Global, keys: RandomState) -> KeyLists
        ensures { result ≡ no_lists }
    {
        KeyLists {
            lists: IndexMap::with_hasher(alloc, keys),
            places: Vec::new(alloc),
            last: 0,
        }
    }

    /// The versions of the key in the order of their arrival.
    pub(crate) fn versions(&self, key: &Key) -> &[Version]
        ensures { result.now ≡ versions_in self.now key.now }
    {
        match self.history(key) {
            Some(history) => history.as_slice(),
            None => &[],
        }
    }

    /// What is listed for the key, if it is. It is looked for first where the key stands that was given room last.
    fn history(&self, key: &Key) -> Option<&History>
        ensures { option_copied result ≡ listed_in self.now key.now }
    {
        match self.lists.get_index(self.last) {
            Some((there, history)) if there == key => Some(history),
            _ => self.lists.get(key),
        }
    }

    /// Makes room for one more version of each of these keys. Those that aren't listed yet are listed behind the others.
    ///
    /// With no memory the listed keys are as before, and room may have been made.
    pub(crate) fn make_room(&mut self, writes: &WriteSet) -> Result<(), NoMemory>
        ensures room { OnOk result (IsTrue (have_room_in self.new writes.now)) }
        ensures listed { OnOk result (keys_in self.new ≡ keys_in self.old ++ new_keys (keys_in self.old) writes.now) }
        ensures unused { OnOk result ((k : List ℕ) → IsTrue (is_key_among k (drop (length (keys_in self.old)) (keys_in self.new)))
            → versions_in self.new k ≡ []) }
        ensures not_listed { OnErr result (keys_in self.new ≡ keys_in self.old) }
        ensures same { (k : List ℕ) → versions_in self.new k ≡ versions_in self.old k }
        ensures kept { (k : List ℕ) → IsTrue (has_room_in self.old k) → IsTrue (has_room_in self.new k) }
    {
        let keys = self.lists.len();
        self.places.clear();
        for (key, _) in writes.as_slice() {
            match self.make_room_for(key) {
                Ok(()) => {},
                Err(NoMemory) => {
                    self.withdraw(keys);
                    return Err(NoMemory);
                },
            }
        }
        Ok(())
    }

    /// Makes room for one more version of the key, which is listed then.
    pub(crate) fn make_room_for(&mut self, key: &Key) -> Result<(), NoMemory>
        ensures room { OnOk result (IsTrue (has_room_in self.new key.now)) }
        ensures listed { OnOk result (keys_in self.new ≡ with_listed key.now (keys_in self.old)) }
        ensures not_listed { OnErr result (keys_in self.new ≡ keys_in self.old) }
        ensures same { (k : List ℕ) → versions_in self.new k ≡ versions_in self.old k }
        ensures kept { (k : List ℕ) → IsTrue (has_room_in self.old k) → IsTrue (has_room_in self.new k) }
    {
        if let Some(place) = self.listed_at(key) {
            self.last = place;
            note(&mut self.places, place);
            return self.reserve_at(key, place);
        }
        self.last = self.lists.len();
        note(&mut self.places, self.last);
        let history = History::new(*self.lists.allocator())?;
        self.lists.insert(key.copy()?, history)?;
        Ok(())
    }

    /// Where the key stands, if it is listed: where the last one stood that was given room, or else where a look-up finds it.
    fn listed_at(&self, key: &Key) -> Option<usize>
        ensures there { IfSome result (λ place. slice_get (keys_in self.now) place ≡ Some key.now) }
        ensures listed { is_some result ≡ is_some (listed_in self.now key.now) }
    {
        if self.stands_at(key, self.last) {
            Some(self.last)
        } else {
            self.lists.get_index_of(key)
        }
    }

    /// Makes room for one more version of the key, which stands at the place.
    fn reserve_at(&mut self, key: &Key, place: usize) -> Result<(), NoMemory>
        requires { slice_get (keys_in self.old) place ≡ Some key.now }
        ensures room { OnOk result (IsTrue (has_room_in self.new key.now)) }
        ensures keys { keys_in self.new ≡ keys_in self.old }
        ensures same { (k : List ℕ) → versions_in self.new k ≡ versions_in self.old k }
        ensures kept { (k : List ℕ) → IsTrue (has_room_in self.old k) → IsTrue (has_room_in self.new k) }
    {
        let (_, history) = self.lists.pair_mut(place);
        history.reserve()
    }

    /// Takes the keys from this place on, which have no versions, off the list. It takes no memory.
    pub(crate) fn withdraw(&mut self, place: usize)
        requires { (k : List ℕ) → IsTrue (is_key_among k (drop place (keys_in self.old))) → versions_in self.old k ≡ [] }
        ensures listed { keys_in self.new ≡ take place (keys_in self.old) }
        ensures same { (k : List ℕ) → versions_in self.new k ≡ versions_in self.old k }
        ensures kept { (k : List ℕ) → IsTrue (is_key_among k (take place (keys_in self.old))) → listed_in self.new k ≡ listed_in self.old k }
    {
        self.lists.truncate(place);
    }

    /// Puts the version at the end of the key's list.
    pub(crate) fn add_version(&mut self, key: &Key, version: Version)
        requires { IsTrue (has_room_in self.old key.now) }
        ensures added { versions_in self.new key.now ≡ versions_in self.old key.now ++ version ∷ [] }
        ensures others { (k : List ℕ) → bytes_eq key.now k ≡ false → listed_in self.new k ≡ listed_in self.old k }
        ensures keys { keys_in self.new ≡ keys_in self.old }
    {
        let noted = self.places.pop();
        let place = self.place_of_key(key, noted);
        self.add_at(key, place, version);
    }

    /// Puts the version at the end of the list of the key, which stands at the place.
    fn add_at(&mut self, key: &Key, place: usize, version: Version)
        requires place { slice_get (keys_in self.old) place ≡ Some key.now }
        requires room { IsTrue (has_room_in self.old key.now) }
        ensures added { versions_in self.new key.now ≡ versions_in self.old key.now ++ version ∷ [] }
        ensures others { (k : List ℕ) → bytes_eq key.now k ≡ false → listed_in self.new k ≡ listed_in self.old k }
        ensures keys { keys_in self.new ≡ keys_in self.old }
    {
        let (_, history) = self.lists.pair_mut(place);
        history.add(version);
    }

    /// Where the listed key stands: at the place that was noted, or else where a look-up finds it.
    fn place_of_key(&self, key: &Key, noted: Option<usize>) -> usize
        requires { IsTrue (is_key_among key.now (keys_in self.now)) }
        ensures { slice_get (keys_in self.now) result ≡ Some key.now }
    {
        match noted {
            Some(place) if self.stands_at(key, place) => place,
            _ => self.found_at(key),
        }
    }

    /// Whether this key stands at the place.
    fn stands_at(&self, key: &Key, place: usize) -> bool
        ensures { IsTrue result ↔ (slice_get (keys_in self.now) place ≡ Some key.now) }
    {
        match self.lists.get_index(place) {
            Some((there, _)) => there == key,
            None => false,
        }
    }

    /// Where a look-up finds the listed key.
    fn found_at(&self, key: &Key) -> usize
        requires { IsTrue (is_key_among key.now (keys_in self.now)) }
        ensures { slice_get (keys_in self.now) result ≡ Some key.now }
    {
        match self.lists.get_index_of(key) {
            Some(place) => place,
            None => unreachable!(),
        }
    }

    /// Moves the key's version at `from`, if there is one, to `to`. Where both have one the newer is left. It answers whether
    /// one moved that was there alone, and takes no memory.
    ///
    /// The cost is that of a look-up of the key and of three binary searches among its versions, and of moving those between
    /// `from` and `to`, or, where one goes, those before it or behind it, whichever are fewer.
    fn join<A: Above>(&mut self, dag: &A, key: &Key, from: Slot, to: Slot) -> bool
        requires order { AllInOrder (A.is_kept dag.now) (A.arrival_of dag.now) self.old }
        requires from { IsTrue (A.is_kept dag.now from) }
        requires to { IsTrue (A.is_kept dag.now to) }
        requires apart { A.arrival_of dag.now from ≡ A.arrival_of dag.now to → ⊥ }
        requires next { IsNextIfNewer (A.is_kept dag.now) (A.arrival_of dag.now) from to }
        ensures joined { versions_in self.new key.now ≡ joined (A.arrival_of dag.now) from to (versions_in self.old key.now) }
        ensures moved { result ≡ moves from to (versions_in self.old key.now) }
        ensures others { (k : List ℕ) → bytes_eq key.now k ≡ false → listed_in self.new k ≡ listed_in self.old k }
        ensures keys { keys_in self.new ≡ keys_in self.old }
        ensures order { AllInOrder (A.is_kept dag.now) (A.arrival_of dag.now) self.new }
    {
        self.hand_on(dag, key, from, to)
    }

    /// Does so with each of these keys, and keeps those whose version moved.
    fn join_keys<A: Above>(&mut self, dag: &A, keys: &mut Vec<Key>, from: Slot, to: Slot)
        requires order { AllInOrder (A.is_kept dag.now) (A.arrival_of dag.now) self.old }
        requires from { IsTrue (A.is_kept dag.now from) }
        requires to { IsTrue (A.is_kept dag.now to) }
        requires apart { A.arrival_of dag.now from ≡ A.arrival_of dag.now to → ⊥ }
        requires next { IsNextIfNewer (A.is_kept dag.now) (A.arrival_of dag.now) from to }
        ensures joined { (k : List ℕ) → versions_in self.new k
            ≡ joined_if (is_key_among k keys.old.items) (A.arrival_of dag.now) from to (versions_in self.old k) }
        ensures kept { (k : List ℕ) → is_key_among k keys.new.items ≡ (is_key_among k keys.old.items && moves from to (versions_in self.old k)) }
        ensures keys { keys_in self.new ≡ keys_in self.old }
        ensures order { AllInOrder (A.is_kept dag.now) (A.arrival_of dag.now) self.new }
    {
        let mut place = 0;
        while place < keys.len() {
            if self.join(dag, &keys[place], from, to) {
                place += 1;
            } else {
                keys.swap_remove(place);
            }
        }
    }

    /// Does so with each key of the chunk, and keeps those whose version moved.
    fn join_chunk<A: Above>(&mut self, dag: &A, chunk: &mut KeyList, from: Slot, to: Slot)
        requires order { AllInOrder (A.is_kept dag.now) (A.arrival_of dag.now) self.old }
        requires from { IsTrue (A.is_kept dag.now from) }
        requires to { IsTrue (A.is_kept dag.now to) }
        requires apart { A.arrival_of dag.now from ≡ A.arrival_of dag.now to → ⊥ }
        requires next { IsNextIfNewer (A.is_kept dag.now) (A.arrival_of dag.now) from to }
        ensures joined { (k : List ℕ) → versions_in self.new k
            ≡ joined_if (is_key_among k chunk.old) (A.arrival_of dag.now) from to (versions_in self.old k) }
        ensures kept { (k : List ℕ) → is_key_among k chunk.new ≡ (is_key_among k chunk.old && moves from to (versions_in self.old k)) }
        ensures keys { keys_in self.new ≡ keys_in self.old }
        ensures order { AllInOrder (A.is_kept dag.now) (A.arrival_of dag.now) self.new }
    {
        let alloc = *self.lists.allocator();
        let mut keys = mem::replace(chunk, KeyList::new(alloc)).into_vec();
        self.join_keys(dag, &mut keys, from, to);
        *chunk = KeyList::from_vec(keys);
    }

    /// Does so with each key of this one chunk, and keeps those whose version moved.
    fn join_first<A: Above>(&mut self, dag: &A, chunks: &mut KeyChunks, from: Slot, to: Slot)
        requires one { length chunks.old ≡ 1 }
        requires order { AllInOrder (A.is_kept dag.now) (A.arrival_of dag.now) self.old }
        requires from { IsTrue (A.is_kept dag.now from) }
        requires to { IsTrue (A.is_kept dag.now to) }
        requires apart { A.arrival_of dag.now from ≡ A.arrival_of dag.now to → ⊥ }
        requires next { IsNextIfNewer (A.is_kept dag.now) (A.arrival_of dag.now) from to }
        ensures joined { (k : List ℕ) → versions_in self.new k
            ≡ joined_if (is_key_in k chunks.old) (A.arrival_of dag.now) from to (versions_in self.old k) }
        ensures kept { (k : List ℕ) → is_key_in k chunks.new ≡ (is_key_in k chunks.old && moves from to (versions_in self.old k)) }
        ensures one { length chunks.new ≡ 1 }
        ensures keys { keys_in self.new ≡ keys_in self.old }
        ensures order { AllInOrder (A.is_kept dag.now) (A.arrival_of dag.now) self.new }
    {
        match chunks.front_mut() {
            Some(chunk) => self.join_chunk(dag, chunk, from, to),
            None => unreachable!(),
        }
    }

    /// Does so with each key of these chunks, and answers those whose version moved. It takes no memory.
    pub(crate) fn join_chunks<A: Above>(
        &mut self,
        dag: &A,
        chunks: KeyChunks,
        from: Slot,
        to: Slot,
    ) -> KeyChunks
        requires order { AllInOrder (A.is_kept dag.now) (A.arrival_of dag.now) self.old }
        requires from { IsTrue (A.is_kept dag.now from) }
        requires to { IsTrue (A.is_kept dag.now to) }
        requires apart { A.arrival_of dag.now from ≡ A.arrival_of dag.now to → ⊥ }
        requires next { IsNextIfNewer (A.is_kept dag.now) (A.arrival_of dag.now) from to }
        ensures joined { (k : List ℕ) → versions_in self.new k
            ≡ joined_if (is_key_in k chunks) (A.arrival_of dag.now) from to (versions_in self.old k) }
        ensures kept { (k : List ℕ) → is_key_in k result ≡ (is_key_in k chunks && moves from to (versions_in self.old k)) }
        ensures count { length result ≤ length chunks }
        ensures full { IsTrue (are_full result) }
        ensures keys { keys_in self.new ≡ keys_in self.old }
        ensures order { AllInOrder (A.is_kept dag.now) (A.arrival_of dag.now) self.new }
    {
        let mut rest = chunks;
        let mut moved = LinkedList::new(*rest.allocator());
        for _ in 0..rest.len() {
            let mut first = take_first(&mut rest);
            self.join_first(dag, &mut first, from, to);
            keep(&mut moved, first);
        }
        moved
    }

    fn hand_on<A: Above>(&mut self, dag: &A, key: &Key, from: Slot, to: Slot) -> bool
        requires order { IsTrue (are_in_order (A.is_kept dag.now) (A.arrival_of dag.now) (versions_in self.old key.now)) }
        requires from { IsTrue (A.is_kept dag.now from) }
        requires to { IsTrue (A.is_kept dag.now to) }
        requires apart { A.arrival_of dag.now from ≡ A.arrival_of dag.now to → ⊥ }
        ensures joined { versions_in self.new key.now ≡ joined (A.arrival_of dag.now) from to (versions_in self.old key.now) }
        ensures moved { result ≡ moves from to (versions_in self.old key.now) }
        ensures others { (k : List ℕ) → bytes_eq key.now k ≡ false → listed_in self.new k ≡ listed_in self.old k }
        ensures keys { keys_in self.new ≡ keys_in self.old }
    {
        match self.lists.get_mut(key) {
            Some(history) => history.join(dag, from, to),
            None => false,
        }
    }

    /// Adds what the state of this slot wrote, and puts the keys that it wrote behind these. It takes no memory.
    pub(crate) fn add<A: Above>(
        &mut self,
        dag: &A,
        slot: Slot,
        writer: StateId,
        writes: WriteSet,
        keys: &mut Vec<Key>,
    )
        requires order { AllInOrder (A.is_kept dag.now) (A.arrival_of dag.now) self.old }
        requires room { IsTrue (have_room_in self.old writes) }
        requires kept { IsTrue (A.is_kept dag.now slot) }
        requires space { vec_len keys.old + length writes ≤ vec_capacity keys.old }
        requires newest { AllBefore (A.arrival_of dag.now) slot self.old }
        ensures added { (k : List ℕ) → versions_in self.new k ≡ versions_in self.old k ++ version_by slot writer (write_of k writes) }
        ensures keys { keys_in self.new ≡ keys_in self.old }
        ensures written { (k : List ℕ) → is_key_among k keys.new.items ≡ (is_key_among k keys.old.items || has_key k writes) }
        ensures order { AllInOrder (A.is_kept dag.now) (A.arrival_of dag.now) self.new }
    {
        let mut rest = writes.into_vec();
        while let Some((key, write)) = rest.pop() {
            let version = Version {
                slot,
                writer,
                write,
            };
            self.add_version(&key, version);
            match keys.push(key) {
                Ok(()) => {},
                Err(_) => unreachable!(),
            }
        }
    }

    /// How many keys are listed.
    pub(crate) fn keys(&self) -> usize
        ensures count { result ≡ length (keys_in self.now) }
        ensures distinct { IsDistinct bytes_eq (keys_in self.now) }
        ensures listed { (k : List ℕ) → is_key_among k (keys_in self.now) ≡ false → versions_in self.now k ≡ [] }
    {
        self.lists.len()
    }

    /// The listed key at this place, counted from 0.
    pub(crate) fn key_at(&self, place: usize) -> &Key
        requires { place < length (keys_in self.now) }
        ensures { slice_get (keys_in self.now) place ≡ Some result.now }
    {
        match self.lists.get_index(place) {
            Some((key, _)) => key,
            None => unreachable!(),
        }
    }
}

/// Notes the place, if there is memory.
fn note(places: &mut Vec<usize>, place: usize) {
    match places.push(place) {
        Ok(()) => {},
        Err(_) => {},
    }
}

/// The version that is read at the state, found from the newest of those on that had arrived by then.
pub(crate) fn latest<'a, A: Above>(
    dag: &A,
    versions: &'a [Version],
    at: Slot,
) -> Option<&'a Version>
    requires order { IsTrue (are_in_order (A.is_kept dag.now) (A.arrival_of dag.now) versions.now) }
    requires kept { IsTrue (A.is_kept dag.now at) }
    ensures { option_copied result ≡ latest_version (A.is_above dag.now) (A.arrival_of dag.now) versions.now at }
{
    for place in (0..arrived_by(dag, versions, at)).rev() {
        let version = &versions[place];
        if dag.above(version.slot, at) {
            return Some(version);
        }
    }
    None
}

/// The place of the version at the state, if there is one.
fn place_of<A: Above>(dag: &A, versions: &[Version], at: Slot) -> Option<usize>
    requires order { IsTrue (are_in_order (A.is_kept dag.now) (A.arrival_of dag.now) versions.now) }
    requires kept { IsTrue (A.is_kept dag.now at) }
    ensures there { IfSome result (λ place. (place < length versions.now) × ((v : Version) → (get_or versions.now place v).slot ≡ at)) }
    ensures none { result ≡ None → has_version_at at versions.now ≡ false }
{
    let end = arrived_by(dag, versions, at);
    if end > 0 && versions[end - 1].slot == at {
        Some(end - 1)
    } else {
        None
    }
}

/// Whether there is a version at the state.
fn has_version<A: Above>(dag: &A, versions: &[Version], at: Slot) -> bool
    requires order { IsTrue (are_in_order (A.is_kept dag.now) (A.arrival_of dag.now) versions.now) }
    requires kept { IsTrue (A.is_kept dag.now at) }
    ensures { result ≡ has_version_at at versions.now }
{
    match place_of(dag, versions, at) {
        Some(_) => true,
        None => false,
    }
}

/// How many of the versions had arrived when the state did: all, or as a binary search finds. None behind them is at or
/// above it.
fn arrived_by<A: Above>(dag: &A, versions: &[Version], at: Slot) -> usize
    requires order { IsTrue (are_in_order (A.is_kept dag.now) (A.arrival_of dag.now) versions.now) }
    requires kept { IsTrue (A.is_kept dag.now at) }
    ensures bound { result ≤ length versions.now }
    ensures behind { list_any (λ v. A.is_above dag.now v.slot at) (drop result versions.now) ≡ false }
    ensures early { IsTrue (list_all (λ v. nat_le (A.arrival_of dag.now v.slot) (A.arrival_of dag.now at)) (take result versions.now)) }
    ensures late { list_any (λ v. nat_le (A.arrival_of dag.now v.slot) (A.arrival_of dag.now at)) (drop result versions.now) ≡ false }
{
    let arrival = dag.arrival(at);
    let count = versions.len();
    if count > 0 && dag.arrival(versions[count - 1].slot) <= arrival {
        return count;
    }
    let mut low = 0;
    let mut high = count;
    while low < high {
        let middle = low + (high - low) / 2;
        if dag.arrival(versions[middle].slot) > arrival {
            high = middle;
        } else {
            low = middle + 1;
        }
    }
    high
}
