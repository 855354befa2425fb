//! The record of a state, and its neighbours.

ghost use Rattle.std.specs.Prelude.{◌≡◌, ◌&&◌, ◌||◌, ℕ, List, Some, IsTrue, IfOk, OnOk};
ghost use Rattle.tardis_base.specs.declared.ids.StateId.{StateId};
ghost use Rattle.tardis_base.specs.declared.records.Record.{Record};
ghost use Rattle.tardis_base.specs.Keys.{is_key_among};
ghost use Rattle.state_dag.specs.Table.{id_at, is_slot};
ghost use Rattle.state_dag.specs.Stands.{Stands};
ghost use Rattle.version_list.specs.Reads.{found};
ghost use Rattle.record_store.specs.Stands.{StoreStands};
ghost use Rattle.plain_site.specs.Site.{Site};
ghost use Rattle.plain_questions.specs.declared.questions.Question.{Question};
ghost use Rattle.plain_questions.specs.Answer.{answer, record_told, kept_among, keys_written};
ghost use Rattle.site_questions.specs.Own.{is_own, reads_own};

use crate::denials::{is_in_table, kept_slot};
use plain_questions::Answered;
use record_store::RecordStore;
use state_dag::StateDag;
use std::alloc::Global;
use tardis_base::{Found, Key, KeyList, KeySet, NoMemory, Slot, StateId, StateList};

/// When the state arrived, its parents, those of them and of its children that are kept, and the keys that it wrote.
pub fn tell_record(alloc: Global, store: &RecordStore, state: StateId) -> Result<Answered, NoMemory>
    ensures { (site : Site) → StoreStands store.now site.dag site.collected → IfOk result (λ told. told ≡ answer site (Question.Record state)) }
{
    match kept_slot(store.dag(), state) {
        Ok(slot) => record_at(alloc, store, slot),
        Err(why) => Ok(Answered::Refused { why }),
    }
}

/// The same of the state at this slot.
fn record_at(alloc: Global, store: &RecordStore, slot: Slot) -> Result<Answered, NoMemory>
    requires { IsTrue (is_slot store.now.table slot) }
    ensures { (site : Site) → StoreStands store.now site.dag site.collected → (x : StateId) → id_at store.now.table slot ≡ Some x
        → IfOk result (λ told. told ≡ record_told site x) }
{
    let dag = store.dag();
    let parents = Vec::from_slice(alloc, dag.parents(slot))?;
    Ok(Answered::Record {
        arrival: dag.arrival(slot),
        parents: StateList::from_vec(parents),
        kept_parents: kept_of(alloc, dag, dag.parents(slot))?,
        kept_children: kept_of(alloc, dag, dag.children(slot))?,
        keys: own_keys(alloc, store, slot)?,
    })
}

/// Those of these states that are kept.
fn kept_of(alloc: Global, dag: &StateDag, states: &[StateId]) -> Result<StateList, NoMemory>
    ensures { (site : Site) → Stands dag.now site.dag site.collected → IfOk result (λ kept. kept ≡ kept_among site states.now) }
{
    let mut kept = StateList::new(alloc);
    for state in states {
        if is_in_table(dag, *state) {
            kept.push(*state)?;
        }
    }
    Ok(kept)
}

/// The keys that the state of this slot itself wrote, ascending: of those that it holds the ones that are read there as it
/// wrote them.
fn own_keys(alloc: Global, store: &RecordStore, slot: Slot) -> Result<KeyList, NoMemory>
    requires { IsTrue (is_slot store.now.table slot) }
    ensures { (rs : List Record) (ks : List StateId) → StoreStands store.now rs ks → (x : StateId) → id_at store.now.table slot ≡ Some x
        → IfOk result (λ keys. keys ≡ keys_written rs x) }
{
    let mut own = KeySet::new(alloc);
    for chunk in store.keys_at(slot) {
        add_own(store, slot, chunk.as_slice(), &mut own)?;
    }
    copies(alloc, own.as_slice())
}

/// Adds copies of those of these keys that are read at the state of this slot as that state wrote them.
fn add_own(store: &RecordStore, slot: Slot, keys: &[Key], own: &mut KeySet) -> Result<(), NoMemory>
    requires { IsTrue (is_slot store.now.table slot) }
    ensures { (rs : List Record) (ks : List StateId) → StoreStands store.now rs ks → (x : StateId) → id_at store.now.table slot ≡ Some x
        → OnOk result ((k : List ℕ) → is_key_among k own.new ≡ (is_key_among k own.old || is_key_among k keys.now && is_own rs x k)) }
{
    let state = store.dag().id_of(slot);
    for key in keys {
        if is_by(store.read_at(slot, key), state) {
            own.insert(key.copy()?)?;
        }
    }
    Ok(())
}

/// Whether the state wrote what was read.
fn is_by(read: Found<'_>, state: StateId) -> bool
    ensures { result ≡ reads_own state (found read.entry) }
{
    match read {
        Found::Value { writer, .. } | Found::Deleted { writer } => state == writer,
        Found::Absent => false,
    }
}

/// Copies of these keys.
fn copies(alloc: Global, keys: &[Key]) -> Result<KeyList, NoMemory>
    ensures { IfOk result (λ copies. copies ≡ keys.now) }
{
    let mut copies = KeyList::new(alloc);
    for key in keys {
        copies.push(key.copy()?)?;
    }
    Ok(copies)
}
