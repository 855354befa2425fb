//! The store of one site: the table of its states, and the versions of the keys at them.
//!
//! What a read, a write and a new state mean is stated in `docs/MODEL.md`.
#![tactic(auto)]

ghost use Rattle.std.specs.Prelude.{◌≡◌, true, ◌+◌, ◌-◌, ◌<◌, ◌≤◌, ◌||◌, ℕ, Bool, List, [], ◌∷◌, length, map, take, Option, Some, None, slice_get, unwrap_or};
ghost use Rattle.std.specs.Prelude.{IsTrue, IsFalse, IsSome, IfOk, IfSome, OnOk, OnErr};
ghost use Rattle.std.specs.List.{list_all};
ghost use Rattle.std.specs.Option.{option_map, option_and_then};
ghost use Rattle.tardis_base.specs.declared.ids.StateId.{StateId};
ghost use Rattle.tardis_base.specs.declared.ids.Slot.{Slot};
ghost use Rattle.tardis_base.specs.declared.records.Record.{Record};
ghost use Rattle.tardis_base.specs.Keys.{are_ascending_keys, is_key_among, keys_of};
ghost use Rattle.tardis_base.specs.Valid.{are_limits};
ghost use Rattle.tardis_base.specs.Ids.{is_among};
ghost use Rattle.plain_dag.specs.States.{root_record, record_at, parents_of, children};
ghost use Rattle.plain_dag.specs.Writers.{read, latest_writer};
ghost use Rattle.plain_dag.specs.Landing.{is_news};
ghost use Rattle.plain_dag.specs.Collection.{stand_in};
ghost use Rattle.state_dag.specs.Shared.{shared_stand_in};
ghost use Rattle.state_dag.specs.Detached.{shared_slot, without_slot};
ghost use Rattle.state_dag.specs.Table.{is_slot_above};
ghost use Rattle.state_dag.specs.Table.{id_at, is_slot, is_listed, is_kept_at, arrival_at, child_slots_at};
ghost use Rattle.state_dag.specs.Answers.{MayBeAdded, IsNewSlot, KeepsSlots};
ghost use Rattle.version_list.specs.Versions.{IsInOrder, is_key_in};
ghost use Rattle.version_list.specs.Reads.{found};
ghost use Rattle.record_store.specs.Stands.{StoreStands, holds_key};
ghost use Rattle.record_store.specs.Answers.{AddedIn, IsSameStore, MayArrive, StandsAlone, HasReads, read_write, write_found};

mod child_notes;
mod rows;

use child_notes::{ChildNotes, forget_child, note_children};
pub use state_dag::RowFault;
use state_dag::StateDag;
use std::alloc::Global;
use std::hash::RandomState;
use std::marker::Model;
use std::mem;
use tardis_base::{
    AddFault, Found, Key, Limits, NoMemory, Record, Slot, StateId, StateList, Write, WriteSet,
};
pub use version_list::KeyChunks;
use version_list::VersionList;

/// The kept states of one site, and the versions of the keys at them.
#[derive(Drop)]
pub struct RecordStore {
    alloc: Global,
    dag: StateDag,
    versions: VersionList,
    notes: ChildNotes,
}

/// How many parents a record may have.
const PARENTS: usize = 8;

impl Model for RecordStore {
    ghost use Rattle.record_store.specs.Store.{Store};

    ghost Value = { Store };

    ghost use Rattle.record_store.specs.Held.{seen, IsHeld};

    ghost view = { seen };

    ghost invariant = { IsHeld };
}

impl RecordStore {
    /// The root alone, with nothing written, and keys to be found by hashing with this seed.
    pub fn new(alloc: Global, keys: RandomState, limits: &Limits) -> Result<RecordStore, NoMemory>
        requires { IsTrue (are_limits limits.now) }
        ensures stands { IfOk result (λ store. StoreStands store (root_record ∷ []) []) }
        ensures limits { IfOk result (λ store. store.table.limits ≡ limits.now) }
    {
        Ok(RecordStore {
            alloc,
            dag: StateDag::new(alloc, limits)?,
            versions: VersionList::new(alloc, keys),
            notes: ChildNotes::new(alloc),
        })
    }

    /// The table of the kept states.
    pub fn dag(&self) -> &StateDag
        ensures { result.now ≡ self.now.table }
    {
        &self.dag
    }

    /// The versions of the keys.
    pub fn versions(&self) -> &VersionList
        ensures is { result.now ≡ self.now.versions }
        ensures order { IsInOrder (is_kept_at self.now.table) (arrival_at self.now.table) self.now.versions }
    {
        &self.versions
    }

    /// Adds the next state of a site, below the states at these slots, with a copy of what it writes.
    ///
    /// It answers as `commit` does, at that cost and that of the copy.
    pub fn add_state(
        &mut self,
        id: StateId,
        parents: &[Slot],
        writes: &WriteSet,
    ) -> Result<Slot, AddFault>
        requires slots { IsTrue (list_all (is_slot self.old.table) parents.now) }
        requires first { 1 ≤ id.site }
        requires last { id.site ≤ self.old.table.limits.sites }
        requires next { id.sequence ≡ unwrap_or (slice_get self.old.table.counts (id.site - 1)) 0 + 1 }
        ensures added { (rs : List Record) (ks : List StateId) (r : Record) → StoreStands self.old rs ks → r.id ≡ id → r.writes ≡ writes.now
            → MayBeAdded self.old.table rs ks r parents.now → AddedIn self.old self.new rs ks r result }
        ensures slot { IfOk result (λ slot. IsNewSlot self.old.table self.new.table id slot) }
        ensures keeps { KeepsSlots self.old.table self.new.table }
        ensures limits { self.new.table.limits ≡ self.old.table.limits }
        ensures same { OnErr result (IsSameStore self.old self.new) }
    {
        let mut copy = writes.copy()?;
        self.commit(id, parents, &mut copy)
    }

    /// Adds the next state of a site, below the states at these slots, with what it writes, which is moved here.
    ///
    /// Where it is refused, or there is no memory, the writes stay where they were, and only room for more may have grown. The
    /// cost grows with the lengths of the parents' fork paths, and for each write with a look-up of its key; a key that was
    /// never written before is copied, and nothing else. Where a parent gets its second child it grows with the number of the
    /// states that are kept from its first child on, and with their fork paths too; a third child and later ones cost as the
    /// first did.
    pub fn commit(
        &mut self,
        id: StateId,
        parents: &[Slot],
        writes: &mut WriteSet,
    ) -> Result<Slot, AddFault>
        requires slots { IsTrue (list_all (is_slot self.old.table) parents.now) }
        requires first { 1 ≤ id.site }
        requires last { id.site ≤ self.old.table.limits.sites }
        requires next { id.sequence ≡ unwrap_or (slice_get self.old.table.counts (id.site - 1)) 0 + 1 }
        ensures added { (rs : List Record) (ks : List StateId) (r : Record) → StoreStands self.old rs ks → r.id ≡ id → r.writes ≡ writes.old
            → MayBeAdded self.old.table rs ks r parents.now → AddedIn self.old self.new rs ks r result }
        ensures slot { IfOk result (λ slot. IsNewSlot self.old.table self.new.table id slot) }
        ensures keeps { KeepsSlots self.old.table self.new.table }
        ensures limits { self.new.table.limits ≡ self.old.table.limits }
        ensures same { OnErr result (IsSameStore self.old self.new) }
        ensures moved { OnOk result (writes.new ≡ []) }
        ensures left { OnErr result (writes.new ≡ writes.old) }
    {
        let listed = self.versions.keys();
        self.versions.make_room(writes)?;
        match self.dag.add(id, parents) {
            Ok(slot) => {
                let moved = mem::replace(writes, WriteSet::new(self.alloc));
                self.versions.add(&self.dag, slot, id, moved);
                note_children(&mut self.notes, &self.dag, &self.versions, parents);
                Ok(slot)
            },
            Err(fault) => {
                self.versions.withdraw(listed);
                Err(fault)
            },
        }
    }

    /// Adds the record, whose parents are kept, as the next state of a site.
    ///
    /// It answers as `add_state` does, at that cost and that of looking up the parents. Its own work takes no memory.
    pub fn add_record(&mut self, rec: &Record) -> Result<Slot, AddFault>
        requires first { 1 ≤ rec.now.id.site }
        requires last { rec.now.id.site ≤ self.old.table.limits.sites }
        requires next { rec.now.id.sequence ≡ unwrap_or (slice_get self.old.table.counts (rec.now.id.site - 1)) 0 + 1 }
        requires few { length rec.now.parents ≤ 8 }
        requires parents { IsTrue (list_all (is_listed self.old.table) rec.now.parents) }
        ensures added { (rs : List Record) (ks : List StateId) → StoreStands self.old rs ks → MayArrive self.old.table.limits.sites rs ks rec.now
            → AddedIn self.old self.new rs ks rec.now result }
        ensures slot { IfOk result (λ slot. IsNewSlot self.old.table self.new.table rec.now.id slot) }
        ensures keeps { KeepsSlots self.old.table self.new.table }
        ensures limits { self.new.table.limits ≡ self.old.table.limits }
        ensures same { OnErr result (IsSameStore self.old self.new) }
    {
        let slots = self.slots_of(rec.parents.as_slice());
        self.add_state(rec.id, &slots[..rec.parents.len()], &rec.writes)
    }

    /// Lets the state at the slot join the collected ones, and answers the slot of its stand-in, which is the one that all
    /// its children share.
    ///
    /// What is read at the kept states stays: each key that the state held is held by its stand-in from then on, with the
    /// version that was read there before. The slot names no state any more; a state that is added may get it.
    ///
    /// It takes no memory. The cost is that of `detach`, and of `promote` (`version_list`): it grows with the number of the keys
    /// that the state held, or, where no kept state arrived between it and its stand-in, of those that the stand-in held, if
    /// these are fewer; for each with a look-up and with moves among its versions.
    pub fn collect(&mut self, slot: Slot) -> Slot
        requires { IsSome (shared_slot self.old.table slot) }
        ensures stand_in { shared_slot self.old.table slot ≡ Some result }
        ensures collected { (rs : List Record) (ks : List StateId) → StoreStands self.old rs ks → (x : StateId) → id_at self.old.table slot ≡ Some x
            → StoreStands self.new rs (x ∷ ks) }
        ensures shared { (rs : List Record) (ks : List StateId) → StoreStands self.old rs ks → (x : StateId) → id_at self.old.table slot ≡ Some x
            → id_at self.old.table result ≡ shared_stand_in rs ks x }
        ensures above { (rs : List Record) (ks : List StateId) → StoreStands self.old rs ks → (x : StateId) → id_at self.old.table slot ≡ Some x
            → (s t : Slot) → (s ≡ slot → ⊥) → (t ≡ slot → ⊥) → IsTrue (is_slot self.old.table s) → IsTrue (is_slot self.old.table t)
            → is_slot_above self.new.table s t ≡ is_slot_above self.old.table s t }
        ensures gone { id_at self.new.table slot ≡ None }
        ensures names { (s : Slot) → (s ≡ slot → ⊥) → id_at self.new.table s ≡ id_at self.old.table s }
        ensures others { (s : Slot) → (s ≡ slot → ⊥) → is_slot self.new.table s ≡ is_slot self.old.table s }
        ensures kept { (s : Slot) → (s ≡ slot → ⊥) → is_kept_at self.new.table s ≡ is_kept_at self.old.table s }
        ensures arrivals { (s : Slot) → (s ≡ slot → ⊥) → arrival_at self.new.table s ≡ arrival_at self.old.table s }
        ensures stays { IsTrue (is_kept_at self.new.table result) }
        ensures slots { map (λ e. e.slot) self.new.table.entries ≡ without_slot slot (map (λ e. e.slot) self.old.table.entries) }
        ensures limits { self.new.table.limits ≡ self.old.table.limits }
        ensures counts { self.new.table.counts ≡ self.old.table.counts }
        ensures known { self.new.table.known ≡ self.old.table.known }
    {
        match self.dag.shared_stand_in(slot) {
            Some(heir) => {
                let next = is_next(&self.dag, slot, heir);
                forget_child(&mut self.notes, &self.dag, slot);
                self.versions.promote(&self.dag, slot, heir, next);
                self.dag.detach(slot)
            },
            None => unreachable!(),
        }
    }

    /// The record of the state at this slot, where no other state stands in there.
    ///
    /// The cost grows with the parents and with the writes, for each as a read of its key does.
    pub fn record_of(&self, slot: Slot) -> Result<Record, NoMemory>
        requires { IsTrue (is_slot self.now.table slot) }
        ensures { (rs : List Record) (ks : List StateId) → StoreStands self.now rs ks → (x : StateId) → id_at self.now.table slot ≡ Some x
            → StandsAlone rs ks x → IfOk result (λ rec. record_at rs x ≡ Some rec) }
    {
        let parents = Vec::from_slice(self.alloc, self.dag.parents(slot))?;
        let id = self.dag.id_of(slot);
        let writes = self.writes_at(slot)?;
        Ok(Record {
            id,
            parents: StateList::from_vec(parents),
            writes,
        })
    }

    /// What is read of the key at the state of this slot.
    ///
    /// The cost is that of a look-up of the key and of a binary search among its versions, and grows with the number of those
    /// that had arrived when the state did and are newer than the one found.
    pub fn read_at(&self, slot: Slot, key: &Key) -> Found<'_>
        requires { IsTrue (is_slot self.now.table slot) }
        ensures { (rs : List Record) (ks : List StateId) → StoreStands self.now rs ks → (x : StateId) → id_at self.now.table slot ≡ Some x
            → found result ≡ read rs key.now x }
    {
        self.versions.latest(&self.dag, key, slot)
    }

    /// Whether the key is news of the child to the state at `from`: whether a state at or above the child, and not at or
    /// above `from`, writes it.
    ///
    /// Of a child with no other parent only its own writes are news, so the cost is that of looking its keys up. Of any other
    /// only the latest writer at the child is asked, since all others there are at or above it: the cost is that of `read_at`
    /// at the child, and of one question of ancestry.
    pub fn is_news(&self, from: Slot, child: Slot, key: &Key) -> bool
        requires from { IsTrue (is_slot self.now.table from) }
        requires child { IsTrue (is_slot self.now.table child) }
        ensures { (rs : List Record) (ks : List StateId) → StoreStands self.now rs ks → (x c : StateId) → id_at self.now.table from ≡ Some x
            → id_at self.now.table child ≡ Some c → result ≡ is_news rs x c key.now }
    {
        if self.is_only_parent(from, child) {
            is_in(key, self.keys_at(child))
        } else {
            self.is_latest_news(from, child, key)
        }
    }

    /// How many of the first children of the state at `from` are known to bring news of the key, none of which need be tried. It
    /// takes constant time, and a comparison of keys.
    ///
    /// It is noted for one key at most of a state with many children, as they are added, as long as none of them is collected. So
    /// 0 says nothing.
    pub fn tried_children(&self, from: Slot, key: &Key) -> usize
        requires { IsTrue (is_slot self.now.table from) }
        ensures within { result ≤ length (child_slots_at self.now.table from) }
        ensures news { (rs : List Record) (ks : List StateId) → StoreStands self.now rs ks → (x : StateId) → id_at self.now.table from ≡ Some x
            → ((c : StateId) → IsTrue (is_among c (children rs x)) → IsFalse (is_among c ks))
            → IsTrue (list_all (λ c. is_news rs x c key.now) (take result (children rs x))) }
    {
        match self.notes.at(from) {
            Some(note) if &note.key == key => note.count,
            _ => 0,
        }
    }

    /// Whether the state at `from` is the child's parent, and the only one.
    fn is_only_parent(&self, from: Slot, child: Slot) -> bool
        requires from { IsTrue (is_slot self.now.table from) }
        requires child { IsTrue (is_slot self.now.table child) }
        ensures { result ≡ true → (rs : List Record) (ks : List StateId) → StoreStands self.now rs ks → (x c : StateId)
            → id_at self.now.table from ≡ Some x → id_at self.now.table child ≡ Some c → parents_of rs c ≡ x ∷ [] }
    {
        is_lone(self.dag.id_of(from), self.dag.parents(child))
    }

    /// Whether the latest writer of the key at the child isn't at or above `from`.
    fn is_latest_news(&self, from: Slot, child: Slot, key: &Key) -> bool
        requires from { IsTrue (is_slot self.now.table from) }
        requires child { IsTrue (is_slot self.now.table child) }
        ensures { (rs : List Record) (ks : List StateId) → StoreStands self.now rs ks → (x c : StateId) → id_at self.now.table from ≡ Some x
            → id_at self.now.table child ≡ Some c → result ≡ is_news rs x c key.now }
    {
        match self.holder_at(child, key) {
            Some(holder) => !self.dag.is_ancestor(holder, from),
            None => false,
        }
    }

    /// The slot of the state that stands in for the latest writer of the key at the state of this slot; None exactly where
    /// the key is written at no state at or above that one.
    ///
    /// The cost is that of `read_at`.
    pub fn holder_at(&self, slot: Slot, key: &Key) -> Option<Slot>
        requires { IsTrue (is_slot self.now.table slot) }
        ensures slot { IfSome result (λ h. IsTrue (is_slot self.now.table h)) }
        ensures holder { (rs : List Record) (ks : List StateId) → StoreStands self.now rs ks → (x : StateId) → id_at self.now.table slot ≡ Some x
            → option_and_then (id_at self.now.table) result ≡ option_map (stand_in rs ks) (latest_writer rs key.now x) }
    {
        self.versions.holder(&self.dag, key, slot)
    }

    /// The keys that the state of this slot holds: those that are written by a state that it stands in for.
    /// They stand in chunks, as each of these states brought its own.
    pub fn keys_at(&self, slot: Slot) -> &KeyChunks
        requires { IsTrue (is_slot self.now.table slot) }
        ensures { (rs : List Record) (ks : List StateId) → StoreStands self.now rs ks → (x : StateId) → id_at self.now.table slot ≡ Some x
            → (k : List ℕ) → is_key_in k result.now ≡ holds_key rs ks k x }
    {
        self.versions.keys_at(slot)
    }

    /// What is read, at the state of this slot, of the keys with a version there.
    fn writes_at(&self, slot: Slot) -> Result<WriteSet, NoMemory>
        requires { IsTrue (is_slot self.now.table slot) }
        ensures { (rs : List Record) (ks : List StateId) → StoreStands self.now rs ks → (x : StateId) → id_at self.now.table slot ≡ Some x
            → StandsAlone rs ks x → (r : Record) → record_at rs x ≡ Some r → IfOk result (λ writes. writes ≡ r.writes) }
    {
        let mut writes = WriteSet::new(self.alloc);
        for chunk in self.versions.keys_at(slot) {
            self.add_reads(slot, chunk.as_slice(), &mut writes)?;
        }
        Ok(writes)
    }

    /// Adds what is read of these keys at the state of this slot, where anything is.
    fn add_reads(&self, slot: Slot, keys: &[Key], writes: &mut WriteSet) -> Result<(), NoMemory>
        requires { IsTrue (is_slot self.now.table slot) }
        ensures ascending { IsTrue (are_ascending_keys (keys_of writes.old)) → OnOk result (IsTrue (are_ascending_keys (keys_of writes.new))) }
        ensures reads { (rs : List Record) (ks : List StateId) → StoreStands self.now rs ks → (x : StateId) → id_at self.now.table slot ≡ Some x
            → (met : List ℕ → Bool) → HasReads (read_write rs x) met writes.old
            → OnOk result (HasReads (read_write rs x) (λ k. met k || is_key_among k keys.now) writes.new) }
    {
        for key in keys {
            let own = key.copy()?;
            if let Some(write) = written(self.read_at(slot, key))? {
                writes.insert(own, write)?;
            }
        }
        Ok(())
    }

    /// The slots of these kept states, in their order and in front. It takes no memory.
    ///
    /// The cost grows for each of them with the logarithm of the number of kept states.
    pub fn slots_of(&self, states: &[StateId]) -> [Slot; PARENTS]
        requires few { length states.now ≤ 8 }
        requires listed { IsTrue (list_all (is_listed self.now.table) states.now) }
        ensures { map (id_at self.now.table) (take (length states.now) result) ≡ map (λ x. Some x) states.now }
    {
        let mut slots = [Slot(0); PARENTS];
        for (place, id) in states.iter().enumerate() {
            match self.dag.slot_of(*id) {
                Some(slot) => slots[place] = slot,
                None => unreachable!(),
            }
        }
        slots
    }
}

/// Whether no kept state arrived between those at the two slots, the one after the other. The cost grows with the logarithm of
/// the number of kept states.
fn is_next(dag: &StateDag, slot: Slot, other: Slot) -> bool
    requires { IsTrue (is_slot dag.now slot) }
    ensures { result ≡ true → (s : Slot) → IsTrue (is_kept_at dag.now s) → arrival_at dag.now slot < arrival_at dag.now s
        → arrival_at dag.now other ≤ arrival_at dag.now s }
{
    match dag.kept_after(Some(slot)) {
        Some(next) => next == other,
        None => false,
    }
}

/// Whether the state stands alone among these.
fn is_lone(state: StateId, states: &[StateId]) -> bool
    ensures { result ≡ true → states.now ≡ state ∷ [] }
{
    states.len() == 1 && states[0] == state
}

/// Whether the key is in one of the chunks.
fn is_in(key: &Key, chunks: &KeyChunks) -> bool
    ensures { result ≡ is_key_in key.now chunks.now }
{
    chunks.iter().any(|chunk| is_one_of(key, chunk.as_slice()))
}

/// Whether the key is one of these.
fn is_one_of(key: &Key, keys: &[Key]) -> bool
    ensures { result ≡ is_key_among key.now keys.now }
{
    keys.iter().any(|own| key == own)
}

/// What was written where this was found.
fn written(read: Found<'_>) -> Result<Option<Write>, NoMemory>
    ensures { IfOk result (λ write. write ≡ write_found (found read.entry)) }
{
    match read {
        Found::Value { value, .. } => Ok(Some(Write::Put(value.copy()?))),
        Found::Deleted { .. } => Ok(Some(Write::Delete)),
        Found::Absent => Ok(None),
    }
}
