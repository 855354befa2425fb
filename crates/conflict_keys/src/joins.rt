//! Which of the versions of one key, read at several states, is below the others.

ghost use Rattle.std.specs.Prelude.{◌≡◌, ℕ, Some, List, map, IsTrue, IfSome};
ghost use Rattle.std.specs.List.{list_all};
ghost use Rattle.tardis_base.specs.declared.ids.StateId.{StateId};
ghost use Rattle.tardis_base.specs.declared.ids.Slot.{Slot};
ghost use Rattle.tardis_base.specs.declared.records.Record.{Record};
ghost use Rattle.tardis_base.specs.Ids.{is_among};
ghost use Rattle.plain_dag.specs.Writers.{are_above};
ghost use Rattle.plain_dag.specs.Conflicts.{latest_writers};
ghost use Rattle.plain_dag.specs.Collection.{stand_in};
ghost use Rattle.state_dag.specs.Table.{id_at, is_slot};
ghost use Rattle.record_store.specs.Stands.{StoreStands};
ghost use Rattle.conflict_keys.specs.declared.joins.Joined.TheVariants.{At};
ghost use Rattle.conflict_keys.specs.Joins.{IsChosen, JoinedAs, lower_slot, is_above_or_none};

use record_store::RecordStore;
use state_dag::StateDag;
use tardis_base::{Key, Slot};

/// What the versions of a key that are read at several states come to.
#[derive(Clone, Copy)]
pub(crate) enum Joined {
    /// The key is absent at each of them.
    Absent,
    /// All versions are at or above the one at this slot.
    At(Slot),
    /// No version has all the others at or above it.
    Split,
}

/// Joins the versions of the key that are read at these states. It asks twice for the version of each.
pub(crate) fn join(store: &RecordStore, states: &[Slot], key: &Key) -> Joined
    requires { IsTrue (list_all (is_slot store.now.table) states.now) }
    ensures slot { (s : Slot) → result ≡ At s → IsTrue (is_slot store.now.table s) }
    ensures joined { (rs : List Record) (ks : List StateId) → StoreStands store.now rs ks → (xs : List StateId)
        → map (id_at store.now.table) states.now ≡ map (λ x. Some x) xs → JoinedAs store.now.table rs ks xs key.now result }
{
    match candidate(store, states, key) {
        None => Joined::Absent,
        Some(slot) => {
            if is_below_all(store, states, key, slot) {
                Joined::At(slot)
            } else {
                Joined::Split
            }
        },
    }
}

/// The slot of the only version that may have all the others at or above it.
fn candidate(store: &RecordStore, states: &[Slot], key: &Key) -> Option<Slot>
    requires { IsTrue (list_all (is_slot store.now.table) states.now) }
    ensures slot { IfSome result (λ s. IsTrue (is_slot store.now.table s)) }
    ensures chosen { (rs : List Record) (ks : List StateId) → StoreStands store.now rs ks → (xs : List StateId)
        → map (id_at store.now.table) states.now ≡ map (λ x. Some x) xs → IsChosen store.now.table rs ks (latest_writers rs key.now xs) result }
{
    let mut lowest = None;
    for state in states {
        lowest = lower(store.dag(), lowest, store.holder_at(*state, key));
    }
    lowest
}

/// The second of these slots where the first is at or above it, and else the first.
fn lower(dag: &StateDag, first: Option<Slot>, second: Option<Slot>) -> Option<Slot>
    requires first { IfSome first (λ s. IsTrue (is_slot dag.now s)) }
    requires second { IfSome second (λ s. IsTrue (is_slot dag.now s)) }
    ensures slot { IfSome result (λ s. IsTrue (is_slot dag.now s)) }
    ensures is { result ≡ lower_slot dag.now first second }
{
    let Some(a) = first else {
        return second;
    };
    let Some(b) = second else {
        return first;
    };
    if dag.is_ancestor(a, b) { second } else { first }
}

/// Whether all versions are at or above the one at this slot.
fn is_below_all(store: &RecordStore, states: &[Slot], key: &Key, lowest: Slot) -> bool
    requires states { IsTrue (list_all (is_slot store.now.table) states.now) }
    requires lowest { IsTrue (is_slot store.now.table lowest) }
    ensures { (rs : List Record) (ks : List StateId) → StoreStands store.now rs ks → (xs : List StateId)
        → map (id_at store.now.table) states.now ≡ map (λ x. Some x) xs → (w : StateId) → IsTrue (is_among w (latest_writers rs key.now xs))
        → id_at store.now.table lowest ≡ Some (stand_in rs ks w) → result ≡ are_above rs (latest_writers rs key.now xs) w }
{
    for state in states {
        if !is_above_or_none(store.dag(), store.holder_at(*state, key), lowest) {
            return false;
        }
    }
    true
}

/// Whether this slot, if there is one, is at or above the other.
fn is_above_or_none(dag: &StateDag, slot: Option<Slot>, other: Slot) -> bool
    requires slot { IfSome slot (λ s. IsTrue (is_slot dag.now s)) }
    requires other { IsTrue (is_slot dag.now other) }
    ensures { result ≡ is_above_or_none dag.now slot other }
{
    match slot {
        Some(slot) => dag.is_ancestor(slot, other),
        None => true,
    }
}
