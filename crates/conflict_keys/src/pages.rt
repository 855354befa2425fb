//! The conflict keys of several states, a page at a time.

ghost use Rattle.std.specs.Prelude.{◌≡◌, ◌||◌, ℕ, Bool, Some, List, map, filter, take, IsTrue, IfOk, OnOk};
ghost use Rattle.std.specs.List.{list_all};
ghost use Rattle.tardis_base.specs.declared.ids.StateId.{StateId};
ghost use Rattle.tardis_base.specs.declared.records.Record.{Record};
ghost use Rattle.tardis_base.specs.Sizes.{most_named};
ghost use Rattle.tardis_base.specs.Keys.{is_key_before, is_key_among};
ghost use Rattle.plain_dag.specs.Conflicts.{conflict_keys};
ghost use Rattle.state_dag.specs.Table.{id_at, is_slot};
ghost use Rattle.version_list.specs.Versions.{is_key_in};
ghost use Rattle.record_store.specs.Stands.{StoreStands};
ghost use Rattle.conflict_keys.specs.Pages.{IsPageOf, AreNoted, is_conflict_behind};

use crate::values::is_conflict;
use branch_region::region;
use record_store::{KeyChunks, RecordStore};
use std::alloc::Global;
use std::collections::BTreeSet;
use tardis_base::{Key, KeyList, MAX_NAMED, NoMemory, Slot};

/// How many keys there are, or 4,294,967,295 where there are more, and the least 256 of them in ascending order.
#[derive(Drop)]
pub struct KeyPage {
    pub total: u32,
    pub first: KeyList,
}

/// The keys behind these bytes in which the states conflict.
///
/// The cost is that of the region of the states, and grows with the keys held by the states apart; each of these keys costs
/// at most two reads at each of the states, and a search among the keys that were found.
pub fn conflicts(
    alloc: Global,
    store: &RecordStore,
    states: &[Slot],
    after: &[u8],
) -> Result<KeyPage, NoMemory>
    requires { IsTrue (list_all (is_slot store.now.table) states.now) }
    ensures { (rs : List Record) (ks : List StateId) → StoreStands store.now rs ks → (xs : List StateId)
        → map (id_at store.now.table) states.now ≡ map (λ x. Some x) xs
        → IfOk result (IsPageOf (filter (is_key_before after.now) (conflict_keys rs xs))) }
{
    let mut noted = BTreeSet::new(alloc);
    let above = region(alloc, store.dag(), states)?;
    for slot in above.apart.as_slice() {
        note_held(store, states, after, store.keys_at(*slot), &mut noted)?;
    }
    page_of(alloc, &noted)
}

/// Notes each key in these chunks that is behind the bytes and that the states conflict in.
fn note_held(
    store: &RecordStore,
    states: &[Slot],
    after: &[u8],
    chunks: &KeyChunks,
    noted: &mut BTreeSet<Key>,
) -> Result<(), NoMemory>
    requires { IsTrue (list_all (is_slot store.now.table) states.now) }
    ensures { (rs : List Record) (ks : List StateId) → StoreStands store.now rs ks → (xs : List StateId)
        → map (id_at store.now.table) states.now ≡ map (λ x. Some x) xs → (met : List ℕ → Bool)
        → AreNoted (is_conflict_behind rs xs after.now) met noted.old.keys
        → OnOk result (AreNoted (is_conflict_behind rs xs after.now) (λ k. met k || is_key_in k chunks.now) noted.new.keys) }
{
    for chunk in chunks {
        note_conflicts(store, states, after, chunk.as_slice(), noted)?;
    }
    Ok(())
}

/// Notes each of these keys that is behind the bytes and that the states conflict in.
fn note_conflicts(
    store: &RecordStore,
    states: &[Slot],
    after: &[u8],
    keys: &[Key],
    noted: &mut BTreeSet<Key>,
) -> Result<(), NoMemory>
    requires { IsTrue (list_all (is_slot store.now.table) states.now) }
    ensures { (rs : List Record) (ks : List StateId) → StoreStands store.now rs ks → (xs : List StateId)
        → map (id_at store.now.table) states.now ≡ map (λ x. Some x) xs → (met : List ℕ → Bool)
        → AreNoted (is_conflict_behind rs xs after.now) met noted.old.keys
        → OnOk result (AreNoted (is_conflict_behind rs xs after.now) (λ k. met k || is_key_among k keys.now) noted.new.keys) }
{
    for key in keys {
        if !noted.contains(key) && is_behind(store, states, after, key) {
            noted.insert(key.copy()?)?;
        }
    }
    Ok(())
}

/// Whether the key is behind the bytes, and the states conflict in it.
fn is_behind(store: &RecordStore, states: &[Slot], after: &[u8], key: &Key) -> bool
    requires { IsTrue (list_all (is_slot store.now.table) states.now) }
    ensures { (rs : List Record) (ks : List StateId) → StoreStands store.now rs ks → (xs : List StateId)
        → map (id_at store.now.table) states.now ≡ map (λ x. Some x) xs → result ≡ is_conflict_behind rs xs after.now key.now }
{
    is_after(key, after) && is_conflict(store, states, key)
}

/// Whether the bytes are before the key.
fn is_after(key: &Key, after: &[u8]) -> bool
    ensures { result ≡ is_key_before after.now key.now }
{
    after.cmp(key.as_slice()).is_lt()
}

fn page_of(alloc: Global, keys: &BTreeSet<Key>) -> Result<KeyPage, NoMemory>
    ensures { IfOk result (IsPageOf keys.now.keys) }
{
    Ok(KeyPage {
        total: keys.len().min(u32::MAX as usize) as u32,
        first: first_of(alloc, keys)?,
    })
}

/// Copies of the keys that a page shows.
fn first_of(alloc: Global, keys: &BTreeSet<Key>) -> Result<KeyList, NoMemory>
    ensures { IfOk result (λ first. first ≡ take most_named keys.now.keys) }
{
    let mut first = KeyList::new(alloc);
    for key in keys.iter() {
        if first.len() == MAX_NAMED {
            return Ok(first);
        }
        first.push(key.copy()?)?;
    }
    Ok(first)
}
