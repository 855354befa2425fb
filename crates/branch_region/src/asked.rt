//! What is asked of one state of a table and several others.

ghost use Rattle.std.specs.Prelude.{◌≡◌, ◌==◌, IsTrue};
ghost use Rattle.std.specs.List.{list_all, list_any};
ghost use Rattle.state_dag.specs.Table.{is_slot};
ghost use Rattle.branch_region.specs.Slots.{is_slot_above_all, is_slot_above_part};

use state_dag::StateDag;
use tardis_base::Slot;

/// Whether the state of this slot is at or above all of these.
pub(crate) fn is_above_all(dag: &StateDag, slot: Slot, states: &[Slot]) -> bool
    requires slot { IsTrue (is_slot dag.now slot) }
    requires states { IsTrue (list_all (is_slot dag.now) states.now) }
    ensures { result ≡ is_slot_above_all dag.now slot states.now }
{
    for state in states {
        if !dag.is_ancestor(slot, *state) {
            return false;
        }
    }
    true
}

/// Whether the state of this slot is at or above one of these, and not at or above all of them.
pub(crate) fn is_above_part(dag: &StateDag, slot: Slot, states: &[Slot]) -> bool
    requires slot { IsTrue (is_slot dag.now slot) }
    requires states { IsTrue (list_all (is_slot dag.now) states.now) }
    ensures { result ≡ is_slot_above_part dag.now slot states.now }
{
    let mut is_above_one = false;
    let mut is_above_all = true;
    for state in states {
        if dag.is_ancestor(slot, *state) {
            is_above_one = true;
        } else {
            is_above_all = false;
        }
    }
    is_above_one && !is_above_all
}

/// Whether the slot is one of these.
pub(crate) fn is_one_of(slot: Slot, slots: &[Slot]) -> bool
    ensures { result ≡ list_any (λ s. s.0 == slot.0) slots.now }
{
    slots.contains(&slot)
}
