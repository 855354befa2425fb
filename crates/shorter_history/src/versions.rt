//! The versions that are read at the kept states, by the states that wrote them.

ghost use Rattle.std.specs.Prelude.{◌≡◌, ◌<◌, length, IsTrue};
ghost use Rattle.state_dag.specs.Table.{is_slot};

use record_store::RecordStore;
use state_dag::StateDag;
use std::alloc::Global;
use std::cmp::Ordering;
use tardis_base::{Found, Key, NoMemory, Slot, StateId};

/// A version that a kept state holds, and where it is read.
#[derive(Drop)]
pub(crate) struct VersionPlace {
    pub(crate) writer: StateId,
    pub(crate) slot: Slot,
    pub(crate) key: Key,
}

/// The versions that the kept states hold, by their writers and then by their keys.
///
/// Keys are copied. The cost grows with their number, times its logarithm.
pub(crate) fn gather_versions(
    alloc: Global,
    store: &RecordStore,
) -> Result<Vec<VersionPlace>, NoMemory> {
    let mut versions = Vec::new(alloc);
    for place in 0..count_kept(store.dag()) {
        gather_at(store, slot_at(store.dag(), place), &mut versions)?;
    }
    versions.sort_unstable_by(order_of);
    Ok(versions)
}

/// How many states are kept.
pub(crate) fn count_kept(dag: &StateDag) -> usize
    ensures { result ≡ length dag.now.entries }
{
    dag.kept_slots().len()
}

/// The slot of the kept state at the place.
fn slot_at(dag: &StateDag, place: usize) -> Slot
    requires { place < length dag.now.entries }
    ensures { IsTrue (is_slot dag.now result) }
{
    dag.kept_slots()[place]
}

/// The order of versions: by their writers, and of one writer by their keys.
fn order_of(one: &VersionPlace, other: &VersionPlace) -> Ordering {
    match one.writer.cmp(&other.writer) {
        Ordering::Equal => one.key.cmp(&other.key),
        different => different,
    }
}

/// Puts the versions that the state at the slot holds behind the others.
fn gather_at(
    store: &RecordStore,
    slot: Slot,
    versions: &mut Vec<VersionPlace>,
) -> Result<(), NoMemory>
    requires { IsTrue (is_slot store.now.table slot) }
{
    for chunk in store.keys_at(slot) {
        gather_keys(store, slot, chunk.as_slice(), versions)?;
    }
    Ok(())
}

/// Puts the versions of these keys behind the others.
fn gather_keys(
    store: &RecordStore,
    slot: Slot,
    keys: &[Key],
    versions: &mut Vec<VersionPlace>,
) -> Result<(), NoMemory>
    requires { IsTrue (is_slot store.now.table slot) }
{
    for key in keys {
        if let Some(writer) = writer_of(&store.read_at(slot, key)) {
            let key = key.copy()?;
            versions.push(VersionPlace { writer, slot, key })?;
        }
    }
    Ok(())
}

/// Who wrote what was found.
fn writer_of(found: &Found<'_>) -> Option<StateId> {
    match found {
        Found::Value { writer, .. } => Some(*writer),
        Found::Deleted { writer } => Some(*writer),
        Found::Absent => None,
    }
}

/// The place of the first version of this writer, or of a later one.
pub(crate) fn first_of(versions: &[VersionPlace], writer: StateId) -> usize {
    versions.partition_point(|version| version.writer < writer)
}

/// Whether a version of this key by this writer is read.
pub(crate) fn is_read(versions: &[VersionPlace], writer: StateId, key: &[u8]) -> bool {
    let number = versions.partition_point(|version| is_before(version, writer, key));
    match versions.get(number) {
        Some(version) => version.writer == writer && version.key.as_slice() == key,
        None => false,
    }
}

/// Whether the version stands before that of this writer and key.
fn is_before(version: &VersionPlace, writer: StateId, key: &[u8]) -> bool {
    version.writer < writer || (version.writer == writer && version.key.as_slice() < key)
}
