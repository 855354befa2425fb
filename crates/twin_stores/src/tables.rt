//! Whether nobody can tell two tables apart.

ghost use Rattle.std.specs.Prelude.{◌≡◌, ◌<◌, ◌↔◌, List, length, map, slice_get, IsTrue};
ghost use Rattle.std.specs.List.{list_all};
ghost use Rattle.tardis_base.specs.declared.ids.StateId.{StateId};
ghost use Rattle.tardis_base.specs.declared.records.Record.{Record};
ghost use Rattle.state_dag.specs.Table.{id_at, is_slot};
ghost use Rattle.state_dag.specs.Stands.{Stands};
ghost use Rattle.state_dag.specs.Images.{IsTable};
ghost use Rattle.twin_stores.specs.Tables.{AreTwinTables, outline};

use state_dag::StateDag;
use tardis_base::Slot;

/// Whether nobody can tell the two tables apart: they have the same limits and counts, and say the same of the same states in
/// the same order.
///
/// Paths aren't compared: where each of two tables stands for a history, and they say the same of parents, children and the
/// states that stand in for these, their paths are the same. It takes no memory. The cost grows with the number of kept states,
/// and with those of their parents and children.
pub fn are_twin_tables(one: &StateDag, other: &StateDag) -> bool
    ensures { (rs rs' : List Record) (ks ks' : List StateId) → Stands one.now rs ks → Stands other.now rs' ks'
        → IsTrue result ↔ AreTwinTables one.now other.now }
{
    if one.limits() != other.limits() {
        return false;
    }
    if one.counts() != other.counts() {
        return false;
    }
    say_the_same(one, other)
}

/// Whether the entries of the two tables say the same in the same order.
fn say_the_same(one: &StateDag, other: &StateDag) -> bool
    requires one { IsTable one.now }
    requires other { IsTable other.now }
    ensures { IsTrue result ↔ (map (outline one.now) one.now.entries ≡ map (outline other.now) other.now.entries) }
{
    let kept = one.kept_slots().len();
    if other.kept_slots().len() != kept {
        return false;
    }
    for place in 0..kept {
        if !is_same_outline(one, other, place) {
            return false;
        }
    }
    true
}

/// Whether the entries in this place say the same.
fn is_same_outline(one: &StateDag, other: &StateDag, place: usize) -> bool
    requires one { IsTable one.now }
    requires other { IsTable other.now }
    requires within { place < length one.now.entries }
    requires within_other { place < length other.now.entries }
    ensures { IsTrue result
        ↔ (slice_get (map (outline one.now) one.now.entries) place ≡ slice_get (map (outline other.now) other.now.entries) place) }
{
    let first = one.entry(place);
    let second = other.entry(place);
    if first.id != second.id || first.arrival != second.arrival {
        return false;
    }
    if first.parents != second.parents {
        return false;
    }
    if first.children != second.children {
        return false;
    }
    name_the_same(one, first.stand_ins, other, second.stand_ins)
}

/// Whether the same states are kept at these slots of the one table and at those of the other.
fn name_the_same(one: &StateDag, slots: &[Slot], other: &StateDag, others: &[Slot]) -> bool
    requires slots { IsTrue (list_all (is_slot one.now) slots.now) }
    requires others { IsTrue (list_all (is_slot other.now) others.now) }
    ensures { IsTrue result ↔ (map (id_at one.now) slots.now ≡ map (id_at other.now) others.now) }
{
    if slots.len() != others.len() {
        return false;
    }
    for place in 0..slots.len() {
        if one.id_of(slots[place]) != other.id_of(others[place]) {
            return false;
        }
    }
    true
}
