//! The value of a key over several states.

ghost use Rattle.std.specs.Prelude.{◌≡◌, Some, List, map, IsTrue};
ghost use Rattle.std.specs.List.{list_all};
ghost use Rattle.tardis_base.specs.declared.ids.StateId.{StateId};
ghost use Rattle.tardis_base.specs.declared.records.Record.{Record};
ghost use Rattle.plain_dag.specs.Conflicts.{is_conflict_key};
ghost use Rattle.state_dag.specs.Table.{id_at, is_slot};
ghost use Rattle.record_store.specs.Stands.{StoreStands};
ghost use Rattle.conflict_keys.specs.Values.{OverAs};

use crate::joins::{Joined, join};
use record_store::RecordStore;
use tardis_base::{Found, Key, Over, Slot};

/// The value of the key over these states: what the lowest of its latest writers at them writes, or Conflict where none of
/// these has all the others at or above it.
///
/// The cost is that of two reads at each of the states, and of one at the end.
pub fn value_over<'a>(store: &'a RecordStore, states: &[Slot], key: &Key) -> Over<'a>
    requires { IsTrue (list_all (is_slot store.now.table) states.now) }
    ensures { (rs : List Record) (ks : List StateId) → StoreStands store.now rs ks → (xs : List StateId)
        → map (id_at store.now.table) states.now ≡ map (λ x. Some x) xs → OverAs rs xs key.now result }
{
    match join(store, states, key) {
        Joined::Absent => Over::Found(Found::Absent),
        Joined::At(slot) => Over::Found(store.read_at(slot, key)),
        Joined::Split => Over::Conflict,
    }
}

/// Whether these states conflict in the key.
///
/// The cost is that of two reads at each of the states.
pub fn is_conflict(store: &RecordStore, states: &[Slot], key: &Key) -> bool
    requires { IsTrue (list_all (is_slot store.now.table) states.now) }
    ensures { (rs : List Record) (ks : List StateId) → StoreStands store.now rs ks → (xs : List StateId)
        → map (id_at store.now.table) states.now ≡ map (λ x. Some x) xs → result ≡ is_conflict_key rs xs key.now }
{
    match join(store, states, key) {
        Joined::Absent => false,
        Joined::At(_) => false,
        Joined::Split => true,
    }
}
