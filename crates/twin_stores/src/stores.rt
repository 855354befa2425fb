//! Whether nobody can tell two stores apart.

ghost use Rattle.std.specs.Prelude.{◌≡◌, ◌↔◌, ℕ, List, Some, IsTrue};
ghost use Rattle.tardis_base.specs.declared.ids.StateId.{StateId};
ghost use Rattle.tardis_base.specs.declared.records.Record.{Record};
ghost use Rattle.tardis_base.specs.Keys.{is_key_among};
ghost use Rattle.plain_dag.specs.Collection.{kept_states};
ghost use Rattle.state_dag.specs.Table.{id_at, is_slot};
ghost use Rattle.version_list.specs.Versions.{is_key_in};
ghost use Rattle.version_list.specs.Reads.{found};
ghost use Rattle.record_store.specs.Stands.{StoreStands, holds_key};
ghost use Rattle.twin_stores.specs.Stores.{AreTwinStores};
ghost use Rattle.twin_stores.specs.Reads.{IsReadAlike, AreReadAlike, IsHeldAlike, HoldTheSame};

use crate::tables::are_twin_tables;
use record_store::{KeyChunks, RecordStore};
use tardis_base::{Found, Key, Slot};

/// Whether nobody can tell the two stores apart: their tables are twins, and each key has the same versions in the same order.
///
/// It takes no memory. The cost is that of `are_twin_tables`, and grows with the keys that the kept states hold, for each with
/// a look-up in both stores and with two reads.
pub fn are_twins(one: &RecordStore, other: &RecordStore) -> bool
    ensures { (rs rs' : List Record) (ks ks' : List StateId) → StoreStands one.now rs ks → StoreStands other.now rs' ks'
        → IsTrue result ↔ AreTwinStores one.now other.now }
{
    if !are_twin_tables(one.dag(), other.dag()) {
        return false;
    }
    hold_the_same(one, other)
}

/// Whether each kept state holds the same keys in both stores, with the same versions, where the same states are kept.
fn hold_the_same(one: &RecordStore, other: &RecordStore) -> bool
    ensures { (rs rs' : List Record) (ks ks' : List StateId) → StoreStands one.now rs ks → StoreStands other.now rs' ks'
        → kept_states rs ks ≡ kept_states rs' ks' → IsTrue result ↔ HoldTheSame rs ks rs' ks' }
{
    let slots = one.dag().kept_slots();
    let others = other.dag().kept_slots();
    if slots.len() != others.len() {
        return false;
    }
    for place in 0..slots.len() {
        if !is_held_alike(one, slots[place], other, others[place]) {
            return false;
        }
        if !is_held_alike(other, others[place], one, slots[place]) {
            return false;
        }
    }
    true
}

/// Whether the state at these slots holds in the other store each key that it holds in the one, with the same version.
fn is_held_alike(one: &RecordStore, slot: Slot, other: &RecordStore, at: Slot) -> bool
    requires slot { IsTrue (is_slot one.now.table slot) }
    requires at { IsTrue (is_slot other.now.table at) }
    ensures { (rs rs' : List Record) (ks ks' : List StateId) → StoreStands one.now rs ks → StoreStands other.now rs' ks' → (x : StateId)
        → id_at one.now.table slot ≡ Some x → id_at other.now.table at ≡ Some x → IsTrue result ↔ IsHeldAlike rs ks rs' ks' x }
{
    are_held_alike(one, slot, other, at, one.keys_at(slot))
}

/// Whether the state at these slots holds the keys of these chunks in the other store, with the versions that it reads in the
/// one.
fn are_held_alike(
    one: &RecordStore,
    slot: Slot,
    other: &RecordStore,
    at: Slot,
    chunks: &KeyChunks,
) -> bool
    requires slot { IsTrue (is_slot one.now.table slot) }
    requires at { IsTrue (is_slot other.now.table at) }
    ensures { (rs rs' : List Record) (ks ks' : List StateId) → StoreStands one.now rs ks → StoreStands other.now rs' ks' → (x : StateId)
        → id_at one.now.table slot ≡ Some x → id_at other.now.table at ≡ Some x
        → IsTrue result ↔ AreReadAlike rs rs' ks' x (λ k. is_key_in k chunks.now) }
{
    for chunk in chunks {
        if !are_read_alike(one, slot, other, at, chunk.as_slice()) {
            return false;
        }
    }
    true
}

/// Whether the state at these slots holds these keys in the other store, with the versions that it reads in the one.
fn are_read_alike(
    one: &RecordStore,
    slot: Slot,
    other: &RecordStore,
    at: Slot,
    keys: &[Key],
) -> bool
    requires slot { IsTrue (is_slot one.now.table slot) }
    requires at { IsTrue (is_slot other.now.table at) }
    ensures { (rs rs' : List Record) (ks ks' : List StateId) → StoreStands one.now rs ks → StoreStands other.now rs' ks' → (x : StateId)
        → id_at one.now.table slot ≡ Some x → id_at other.now.table at ≡ Some x
        → IsTrue result ↔ AreReadAlike rs rs' ks' x (λ k. is_key_among k keys.now) }
{
    for key in keys {
        if !is_read_alike(one, slot, other, at, key) {
            return false;
        }
    }
    true
}

/// Whether the state at these slots holds the key in the other store, with the version that it reads in the one.
fn is_read_alike(one: &RecordStore, slot: Slot, other: &RecordStore, at: Slot, key: &Key) -> bool
    requires slot { IsTrue (is_slot one.now.table slot) }
    requires at { IsTrue (is_slot other.now.table at) }
    ensures { (rs rs' : List Record) (ks ks' : List StateId) → StoreStands one.now rs ks → StoreStands other.now rs' ks' → (x : StateId)
        → id_at one.now.table slot ≡ Some x → id_at other.now.table at ≡ Some x → IsTrue result ↔ IsReadAlike rs rs' ks' x key.now }
{
    if !holds(other, at, key) {
        return false;
    }
    is_same_found(one.read_at(slot, key), other.read_at(at, key))
}

/// Whether the state at the slot holds the key.
fn holds(store: &RecordStore, slot: Slot, key: &Key) -> bool
    requires { IsTrue (is_slot store.now.table slot) }
    ensures { (rs : List Record) (ks : List StateId) → StoreStands store.now rs ks → (x : StateId) → id_at store.now.table slot ≡ Some x
        → result ≡ holds_key rs ks key.now x }
{
    match store.holder_at(slot, key) {
        Some(holder) => holder == slot,
        None => false,
    }
}

/// Whether the same was found: nothing, or what the same state wrote.
fn is_same_found(one: Found<'_>, other: Found<'_>) -> bool
    ensures { IsTrue result ↔ (found one.entry ≡ found other.entry) }
{
    match (one, other) {
        (
            Found::Value { writer, value },
            Found::Value {
                writer: other_writer,
                value: other_value,
            },
        ) => writer == other_writer && value == other_value,
        (
            Found::Deleted { writer },
            Found::Deleted {
                writer: other_writer,
            },
        ) => writer == other_writer,
        (Found::Absent, Found::Absent) => true,
        _ => false,
    }
}
