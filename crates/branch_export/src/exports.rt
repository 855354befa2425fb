//! The keys that an export of a state has.

ghost use Rattle.std.specs.Prelude.{◌≡◌, List, [], ℕ, false, map, filter, Some, IsTrue, IfOk, bytes_eq, is_some};
ghost use Rattle.std.specs.List.{IsDistinct};
ghost use Rattle.tardis_base.specs.declared.ids.StateId.{StateId};
ghost use Rattle.tardis_base.specs.declared.records.Record.{Record};
ghost use Rattle.tardis_base.specs.Keys.{is_key_among};
ghost use Rattle.state_dag.specs.Table.{id_at, is_slot};
ghost use Rattle.version_list.specs.Versions.{listed_keys, versions_of};
ghost use Rattle.version_list.specs.Reads.{found};
ghost use Rattle.record_store.specs.Stands.{StoreStands};
ghost use Rattle.branch_export.specs.Exports.{value_read};
ghost use Rattle.branch_export.specs.Live.{is_live, live_keys};

use record_store::RecordStore;
use std::alloc::Global;
use tardis_base::{Found, Key, NoMemory, Slot};

/// The keys whose read at the state of this slot is a value, in ascending order.
///
/// It takes room for a reference to each of them, and copies none. The cost grows with the number of all keys of the store, for
/// each with a read of it, and with n log n for the n keys that it answers.
pub fn live_keys<'a>(
    alloc: Global,
    store: &'a RecordStore,
    slot: Slot,
) -> Result<Vec<&'a Key>, NoMemory>
    requires { IsTrue (is_slot store.now.table slot) }
    ensures { (rs : List Record) (ks : List StateId) → StoreStands store.now rs ks → (x : StateId) → id_at store.now.table slot ≡ Some x
        → IfOk result (λ keys. map (λ k. k.now) keys.items ≡ live_keys rs x) }
{
    let mut keys = found_keys(alloc, store, slot)?;
    keys.sort_unstable();
    Ok(keys)
}

/// The keys whose read at the state of this slot is a value, in the order of the store's list.
fn found_keys<'a>(
    alloc: Global,
    store: &'a RecordStore,
    slot: Slot,
) -> Result<Vec<&'a Key>, NoMemory>
    requires { IsTrue (is_slot store.now.table slot) }
    ensures found { (rs : List Record) (ks : List StateId) → StoreStands store.now rs ks → (x : StateId) → id_at store.now.table slot ≡ Some x
        → IfOk result (λ keys. map (λ k. k.now) keys.items ≡ filter (is_live rs x) (listed_keys store.now.versions)) }
    ensures distinct { IsDistinct bytes_eq (listed_keys store.now.versions) }
    ensures unlisted { (k : List ℕ) → is_key_among k (listed_keys store.now.versions) ≡ false → versions_of store.now.versions k ≡ [] }
{
    let versions = store.versions();
    let mut keys = Vec::new(alloc);
    for place in 0..versions.keys() {
        let key = versions.key_at(place);
        if is_value(store.read_at(slot, key)) {
            keys.push(key)?;
        }
    }
    Ok(keys)
}

/// Whether what was read is a value.
fn is_value(read: Found<'_>) -> bool
    ensures { result ≡ is_some (value_read (found read.entry)) }
{
    match read {
        Found::Value { .. } => true,
        Found::Deleted { .. } | Found::Absent => false,
    }
}
