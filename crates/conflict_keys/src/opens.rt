//! The least conflict key that isn't written.

ghost use Rattle.std.specs.Prelude.{◌≡◌, ◌||◌, ℕ, Bool, Some, List, map, IsTrue, IfOk};
ghost use Rattle.std.specs.List.{list_all};
ghost use Rattle.std.specs.Option.{option_copied};
ghost use Rattle.tardis_base.specs.declared.ids.StateId.{StateId};
ghost use Rattle.tardis_base.specs.declared.records.Record.{Record};
ghost use Rattle.tardis_base.specs.Keys.{is_key_among};
ghost use Rattle.plain_dag.specs.Conflicts.{open_conflict};
ghost use Rattle.state_dag.specs.Table.{id_at, is_slot};
ghost use Rattle.version_list.specs.Versions.{is_key_in};
ghost use Rattle.record_store.specs.Stands.{StoreStands};
ghost use Rattle.conflict_keys.specs.Opens.{IsLeast, is_open_conflict, is_less};

use crate::values::is_conflict;
use branch_region::{is_above_part, region};
use record_store::{KeyChunks, RecordStore};
use std::alloc::Global;
use tardis_base::{Key, NoMemory, Slot, WriteSet};

/// The least key in which these states conflict and that isn't written; None exactly where there is none. It takes no
/// memory.
///
/// The cost grows with the number of kept states, and with the keys held by those of them that are at or above one of the
/// states and not at or above all of them; each of these keys costs a search of the writes, and at most two reads at each
/// of the states.
pub fn first_open<'a>(store: &'a RecordStore, states: &[Slot], writes: &WriteSet) -> Option<&'a Key>
    requires { IsTrue (list_all (is_slot store.now.table) states.now) }
    ensures { (rs : List Record) (ks : List StateId) → StoreStands store.now rs ks → (xs : List StateId)
        → map (id_at store.now.table) states.now ≡ map (λ x. Some x) xs → option_copied result ≡ open_conflict rs xs writes.now }
{
    let mut least = None;
    for slot in store.dag().kept_slots() {
        if is_above_part(store.dag(), *slot, states) {
            least = least_held(store, states, writes, store.keys_at(*slot), least);
        }
    }
    least
}

/// The least key in which these states conflict and that isn't written, as `first_open` finds it. It takes memory.
///
/// The cost is that of the region of the states, and grows with the keys held by the states apart; each of these keys costs
/// a search of the writes, and at most two reads at each of the states.
pub fn open_conflict<'a>(
    alloc: Global,
    store: &'a RecordStore,
    states: &[Slot],
    writes: &WriteSet,
) -> Result<Option<&'a Key>, NoMemory>
    requires { IsTrue (list_all (is_slot store.now.table) states.now) }
    ensures { (rs : List Record) (ks : List StateId) → StoreStands store.now rs ks → (xs : List StateId)
        → map (id_at store.now.table) states.now ≡ map (λ x. Some x) xs
        → IfOk result (λ least. option_copied least ≡ open_conflict rs xs writes.now) }
{
    let above = region(alloc, store.dag(), states)?;
    let mut least = None;
    for slot in above.apart.as_slice() {
        least = least_held(store, states, writes, store.keys_at(*slot), least);
    }
    Ok(least)
}

/// The least of the one found before and of the keys in these chunks that the states conflict in and that aren't written.
fn least_held<'a>(
    store: &RecordStore,
    states: &[Slot],
    writes: &WriteSet,
    chunks: &'a KeyChunks,
    found: Option<&'a Key>,
) -> Option<&'a Key>
    requires { IsTrue (list_all (is_slot store.now.table) states.now) }
    ensures { (rs : List Record) (ks : List StateId) → StoreStands store.now rs ks → (xs : List StateId)
        → map (id_at store.now.table) states.now ≡ map (λ x. Some x) xs → (met : List ℕ → Bool)
        → IsLeast (is_open_conflict rs xs writes.now) met (option_copied found.entry)
        → IsLeast (is_open_conflict rs xs writes.now) (λ k. met k || is_key_in k chunks.now) (option_copied result) }
{
    let mut least = found;
    for chunk in chunks {
        least = least_open(store, states, writes, chunk.as_slice(), least);
    }
    least
}

/// The least of the one found before and of these keys that the states conflict in and that aren't written.
fn least_open<'a>(
    store: &RecordStore,
    states: &[Slot],
    writes: &WriteSet,
    keys: &'a [Key],
    found: Option<&'a Key>,
) -> Option<&'a Key>
    requires { IsTrue (list_all (is_slot store.now.table) states.now) }
    ensures { (rs : List Record) (ks : List StateId) → StoreStands store.now rs ks → (xs : List StateId)
        → map (id_at store.now.table) states.now ≡ map (λ x. Some x) xs → (met : List ℕ → Bool)
        → IsLeast (is_open_conflict rs xs writes.now) met (option_copied found.entry)
        → IsLeast (is_open_conflict rs xs writes.now) (λ k. met k || is_key_among k keys.now) (option_copied result) }
{
    let mut least = found;
    for key in keys {
        if is_less(key, least) && is_open(store, states, writes, key) {
            least = Some(key);
        }
    }
    least
}

/// Whether the key is before this one, if there is one.
fn is_less(key: &Key, least: Option<&Key>) -> bool
    ensures { result ≡ is_less key.now (option_copied least.entry) }
{
    match least {
        Some(least) => key < least,
        None => true,
    }
}

/// Whether the states conflict in the key, and it isn't written.
fn is_open(store: &RecordStore, states: &[Slot], writes: &WriteSet, key: &Key) -> bool
    requires { IsTrue (list_all (is_slot store.now.table) states.now) }
    ensures { (rs : List Record) (ks : List StateId) → StoreStands store.now rs ks → (xs : List StateId)
        → map (id_at store.now.table) states.now ≡ map (λ x. Some x) xs → result ≡ is_open_conflict rs xs writes.now key.now }
{
    !writes.contains(key) && is_conflict(store, states, key)
}
