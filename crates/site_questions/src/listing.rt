//! The keys that have a value at a state.

ghost use Rattle.std.specs.Prelude.{◌≡◌, ◌&&◌, ℕ, List, [], false, map, filter, Some, IsTrue, IfOk, bytes_eq, is_some};
ghost use Rattle.std.specs.List.{IsDistinct};
ghost use Rattle.std.specs.Option.{option_and_then};
ghost use Rattle.tardis_base.specs.Bytes.{value_of};
ghost use Rattle.tardis_base.specs.declared.ids.StateId.{StateId};
ghost use Rattle.tardis_base.specs.declared.records.Record.{Record};
ghost use Rattle.tardis_base.specs.Keys.{is_key_among};
ghost use Rattle.state_dag.specs.Table.{id_at, is_slot};
ghost use Rattle.version_list.specs.Versions.{listed_keys, versions_of};
ghost use Rattle.version_list.specs.Reads.{found};
ghost use Rattle.record_store.specs.Stands.{StoreStands};
ghost use Rattle.plain_questions.specs.Contents.{is_asked, keys_behind};
ghost use Rattle.site_questions.specs.Listed.{is_told, has_value_read};

use record_store::RecordStore;
use std::alloc::Global;
use tardis_base::{Found, Key, NoMemory, Slot};

/// The keys that have a value at the state of this slot, begin with the prefix and stand behind these bytes; ascending.
///
/// It takes room for a reference to each of them, and copies none. The cost grows with the number of all keys of the store, for
/// each that begins so and stands there with a read of it, and with n log n for the n keys that it answers.
pub fn keys_of<'a>(
    alloc: Global,
    store: &'a RecordStore,
    slot: Slot,
    prefix: &[u8],
    after: &[u8],
) -> Result<Vec<&'a Key>, NoMemory>
    requires { IsTrue (is_slot store.now.table slot) }
    ensures { (rs : List Record) (ks : List StateId) → StoreStands store.now rs ks → (x : StateId) → id_at store.now.table slot ≡ Some x
        → IfOk result (λ keys. map (λ k. k.now) keys.items ≡ keys_behind rs x prefix.now after.now) }
{
    let mut keys = found_keys(alloc, store, slot, prefix, after)?;
    keys.sort_unstable();
    Ok(keys)
}

/// The same keys, in the order of the store's list.
fn found_keys<'a>(
    alloc: Global,
    store: &'a RecordStore,
    slot: Slot,
    prefix: &[u8],
    after: &[u8],
) -> Result<Vec<&'a Key>, NoMemory>
    requires { IsTrue (is_slot store.now.table slot) }
    ensures found { (rs : List Record) (ks : List StateId) → StoreStands store.now rs ks → (x : StateId) → id_at store.now.table slot ≡ Some x
        → IfOk result (λ keys. map (λ k. k.now) keys.items ≡ filter (is_told rs x prefix.now after.now) (listed_keys store.now.versions)) }
    ensures distinct { IsDistinct bytes_eq (listed_keys store.now.versions) }
    ensures unlisted { (k : List ℕ) → is_key_among k (listed_keys store.now.versions) ≡ false → versions_of store.now.versions k ≡ [] }
{
    let versions = store.versions();
    let mut keys = Vec::new(alloc);
    for place in 0..versions.keys() {
        let key = versions.key_at(place);
        if is_wanted(store, slot, key, prefix, after) {
            keys.push(key)?;
        }
    }
    Ok(keys)
}

/// Whether the key begins with the prefix, stands behind these bytes, and has a value at the state of this slot.
fn is_wanted(store: &RecordStore, slot: Slot, key: &Key, prefix: &[u8], after: &[u8]) -> bool
    requires { IsTrue (is_slot store.now.table slot) }
    ensures { (rs : List Record) (ks : List StateId) → StoreStands store.now rs ks → (x : StateId) → id_at store.now.table slot ≡ Some x
        → result ≡ is_told rs x prefix.now after.now key.now }
{
    is_among(key.as_slice(), prefix, after) && is_value(store.read_at(slot, key))
}

/// Whether the key begins with the prefix and stands behind these bytes.
fn is_among(key: &[u8], prefix: &[u8], after: &[u8]) -> bool
    ensures { result ≡ is_asked prefix.now after.now key.now }
{
    key.starts_with(prefix) && after.cmp(key).is_lt()
}

/// Whether what was read is a value.
fn is_value(read: Found<'_>) -> bool
    ensures { result ≡ has_value_read (found read.entry) }
{
    match read {
        Found::Value { .. } => true,
        Found::Deleted { .. } | Found::Absent => false,
    }
}
