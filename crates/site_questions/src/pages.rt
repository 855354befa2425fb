//! Pages of keys and of entries.

ghost use Rattle.std.specs.Prelude.{◌≡◌, ◌+◌, ◌≤◌, ℕ, List, map, filter_map, take, length, Some, min, IsTrue, IfOk};
ghost use Rattle.tardis_base.specs.declared.ids.StateId.{StateId};
ghost use Rattle.tardis_base.specs.declared.records.Record.{Record};
ghost use Rattle.std.specs.Option.{option_copied, option_and_then};
ghost use Rattle.tardis_base.specs.Bytes.{value_of};
ghost use Rattle.tardis_base.specs.Sizes.{most_named};
ghost use Rattle.version_list.specs.Reads.{found};
ghost use Rattle.state_dag.specs.Table.{id_at, is_slot};
ghost use Rattle.record_store.specs.Stands.{StoreStands};
ghost use Rattle.plain_site.specs.Site.{Site};
ghost use Rattle.plain_questions.specs.declared.questions.Question.{Question};
ghost use Rattle.plain_questions.specs.Answer.{answer, first_entries, page_of_keys, page_of_entries};
ghost use Rattle.plain_questions.specs.Contents.{entry_at, keys_behind, entries_behind};
ghost use Rattle.site_questions.specs.Room.{has_no_room};

use crate::denials::kept_slot;
use crate::listing::keys_of;
use plain_questions::{Answered, Entry, EntryList};
use record_store::RecordStore;
use std::alloc::Global;
use tardis_base::{Found, Key, KeyList, MAX_NAMED, NoMemory, PIECE, Slot, StateId, Value};

/// How many keys have a value at the state, begin with the prefix and stand behind these bytes, and the first 256 of them.
pub fn tell_keys(
    alloc: Global,
    store: &RecordStore,
    state: StateId,
    prefix: &[u8],
    after: &[u8],
) -> Result<Answered, NoMemory>
    ensures { (site : Site) → StoreStands store.now site.dag site.collected
        → IfOk result (λ told. told ≡ answer site (Question.Keys state prefix.now after.now)) }
{
    match kept_slot(store.dag(), state) {
        Ok(slot) => keys_at(alloc, store, slot, prefix, after),
        Err(why) => Ok(Answered::Refused { why }),
    }
}

/// The same of the state at this slot.
fn keys_at(
    alloc: Global,
    store: &RecordStore,
    slot: Slot,
    prefix: &[u8],
    after: &[u8],
) -> Result<Answered, NoMemory>
    requires { IsTrue (is_slot store.now.table slot) }
    ensures { (rs : List Record) (ks : List StateId) → StoreStands store.now rs ks → (x : StateId) → id_at store.now.table slot ≡ Some x
        → IfOk result (λ told. told ≡ page_of_keys (keys_behind rs x prefix.now after.now)) }
{
    let keys = keys_of(alloc, store, slot, prefix, after)?;
    Ok(Answered::Keys {
        total: number_of(keys.len()),
        first: first_keys(alloc, keys.as_slice())?,
    })
}

/// How many such keys there are, and the first of them with their values: as many as have 65,536 bytes.
pub fn tell_entries(
    alloc: Global,
    store: &RecordStore,
    state: StateId,
    prefix: &[u8],
    after: &[u8],
) -> Result<Answered, NoMemory>
    ensures { (site : Site) → StoreStands store.now site.dag site.collected
        → IfOk result (λ told. told ≡ answer site (Question.Scan state prefix.now after.now)) }
{
    match kept_slot(store.dag(), state) {
        Ok(slot) => entries_at(alloc, store, slot, prefix, after),
        Err(why) => Ok(Answered::Refused { why }),
    }
}

/// The same of the state at this slot.
fn entries_at(
    alloc: Global,
    store: &RecordStore,
    slot: Slot,
    prefix: &[u8],
    after: &[u8],
) -> Result<Answered, NoMemory>
    requires { IsTrue (is_slot store.now.table slot) }
    ensures { (rs : List Record) (ks : List StateId) → StoreStands store.now rs ks → (x : StateId) → id_at store.now.table slot ≡ Some x
        → IfOk result (λ told. told ≡ page_of_entries (entries_behind rs x prefix.now after.now)) }
{
    let keys = keys_of(alloc, store, slot, prefix, after)?;
    Ok(Answered::Entries {
        total: number_of(keys.len()),
        first: entries_of(alloc, store, slot, keys.as_slice())?,
    })
}

/// The number, as far as 32 bits tell.
pub fn number_of(count: usize) -> u32
    ensures { result ≡ min count 4294967295 }
{
    count.min(u32::MAX as usize) as u32
}

/// Copies of the first 256 of these keys.
fn first_keys(alloc: Global, keys: &[&Key]) -> Result<KeyList, NoMemory>
    ensures { IfOk result (λ first. first ≡ take most_named (map (λ k. k.now) keys.now)) }
{
    let mut first = KeyList::new(alloc);
    for key in keys {
        if first.len() == MAX_NAMED {
            return Ok(first);
        }
        first.push(key.copy()?)?;
    }
    Ok(first)
}

/// Copies of the first of these keys with their values at the state of this slot: as many as have 65,536 bytes, and at least one.
fn entries_of(
    alloc: Global,
    store: &RecordStore,
    slot: Slot,
    keys: &[&Key],
) -> Result<EntryList, NoMemory>
    requires { IsTrue (is_slot store.now.table slot) }
    ensures { (rs : List Record) (ks : List StateId) → StoreStands store.now rs ks → (x : StateId) → id_at store.now.table slot ≡ Some x
        → IfOk result (λ first. first ≡ first_entries (filter_map (entry_at rs x) (map (λ k. k.now) keys.now))) }
{
    let mut first = EntryList::new(alloc);
    let mut room = PIECE;
    for key in keys {
        if let Some(value) = value_found(store.read_at(slot, key)) {
            let length = entry_length(key, value);
            if is_full(&first, room, length) {
                return Ok(first);
            }
            room = room.saturating_sub(length);
            first.push(Entry {
                key: key.copy()?,
                value: value.copy()?,
            })?;
        }
    }
    Ok(first)
}

/// The value that was read, if one was.
fn value_found(read: Found<'_>) -> Option<&Value>
    ensures { option_copied result ≡ option_and_then (λ w. value_of w.1) (found read.entry) }
{
    match read {
        Found::Value { value, .. } => Some(value),
        Found::Deleted { .. } | Found::Absent => None,
    }
}

/// Whether an entry of so many bytes finds no place behind these, where there is so much room. The first one does.
fn is_full(first: &EntryList, room: usize, length: usize) -> bool
    ensures { result ≡ has_no_room first.now room length }
{
    !first.is_empty() && length > room
}

/// The bytes of a key and a value with their lengths.
fn entry_length(key: &Key, value: &Value) -> usize
    ensures { result ≡ (1 + length key.now) + (2 + length value.now) }
{
    3 + key.as_slice().len() + value.as_slice().len()
}
