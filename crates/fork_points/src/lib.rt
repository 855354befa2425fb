//! Where the ways to several states part, and which states have no child. The rule is stated in `docs/MODEL.md`.
#![tactic(auto)]

ghost use Rattle.std.specs.Prelude.{◌≡◌, ◌≤◌, Some, List, length, map, take, IsTrue, IfOk};
ghost use Rattle.std.specs.List.{list_all, list_any};
ghost use Rattle.tardis_base.specs.declared.ids.StateId.{StateId};
ghost use Rattle.tardis_base.specs.declared.ids.Slot.{Slot};
ghost use Rattle.tardis_base.specs.declared.records.Record.{Record};
ghost use Rattle.tardis_base.specs.Sizes.{most_kept, most_named};
ghost use Rattle.plain_dag.specs.Forks.{leaves, fork_points};
ghost use Rattle.state_dag.specs.Table.{id_at, is_slot, is_slot_above};
ghost use Rattle.state_dag.specs.Stands.{Stands};
ghost use Rattle.fork_points.specs.Pages.{IsPageOf};

use branch_region::region;
use state_dag::StateDag;
use std::alloc::Global;
use tardis_base::{MAX_NAMED, NoMemory, Slot, StateList};

/// How many states there are, and the first 256 of them in arrival order.
#[derive(Drop)]
pub struct StatePage {
    pub total: u32,
    pub first: StateList,
}

/// The states at or above all of these that have no child at or above all of them: how many there are, and the first 256.
///
/// Of no states at all they are the leaves. The cost is that of the region of the states, and grows with the number of the
/// children of those that they share last; of each child an ancestry is asked for each of the states.
pub fn fork_points(alloc: Global, dag: &StateDag, states: &[Slot]) -> Result<StatePage, NoMemory>
    requires { IsTrue (list_all (is_slot dag.now) states.now) }
    ensures { (rs : List Record) (ks : List StateId) → Stands dag.now rs ks → (xs : List StateId)
        → map (id_at dag.now) states.now ≡ map (λ x. Some x) xs → IfOk result (IsPageOf (fork_points rs xs)) }
{
    if states.is_empty() {
        return leaf_page(alloc, dag);
    }
    let above = region(alloc, dag, states)?;
    let mut forks = Vec::new(alloc);
    for slot in above.shared.as_slice() {
        if !is_one_above_all(dag, dag.child_slots(*slot), states) {
            forks.push(*slot)?;
        }
    }
    page_of(alloc, dag, forks.as_slice())
}

/// The states that have no child: how many there are, and the first 256.
///
/// The cost is that of what it shows.
pub fn leaf_page(alloc: Global, dag: &StateDag) -> Result<StatePage, NoMemory>
    ensures { (rs : List Record) (ks : List StateId) → Stands dag.now rs ks → IfOk result (IsPageOf (leaves rs)) }
{
    page_of(alloc, dag, dag.leaf_slots())
}

/// The page of the states at these slots.
fn page_of(alloc: Global, dag: &StateDag, slots: &[Slot]) -> Result<StatePage, NoMemory>
    requires { IsTrue (list_all (is_slot dag.now) slots.now) }
    ensures { (xs : List StateId) → map (id_at dag.now) slots.now ≡ map (λ x. Some x) xs → length xs ≤ most_kept → IfOk result (IsPageOf xs) }
{
    Ok(StatePage {
        total: slots.len().min(u32::MAX as usize) as u32,
        first: first_of(alloc, dag, slots)?,
    })
}

/// The states at the slots that a page shows.
fn first_of(alloc: Global, dag: &StateDag, slots: &[Slot]) -> Result<StateList, NoMemory>
    requires { IsTrue (list_all (is_slot dag.now) slots.now) }
    ensures { (xs : List StateId) → map (id_at dag.now) slots.now ≡ map (λ x. Some x) xs → IfOk result (λ first. first ≡ take most_named xs) }
{
    let mut first = StateList::new(alloc);
    for slot in slots {
        if first.len() == MAX_NAMED {
            return Ok(first);
        }
        first.push(dag.id_of(*slot))?;
    }
    Ok(first)
}

/// Whether the state of this slot is at or above all of these.
fn is_above_all(dag: &StateDag, slot: Slot, states: &[Slot]) -> bool
    requires slot { IsTrue (is_slot dag.now slot) }
    requires states { IsTrue (list_all (is_slot dag.now) states.now) }
    ensures { result ≡ list_all (is_slot_above dag.now slot) states.now }
{
    for state in states {
        if !dag.is_ancestor(slot, *state) {
            return false;
        }
    }
    true
}

/// Whether the state of one of these slots is at or above all of the states.
fn is_one_above_all(dag: &StateDag, slots: &[Slot], states: &[Slot]) -> bool
    requires slots { IsTrue (list_all (is_slot dag.now) slots.now) }
    requires states { IsTrue (list_all (is_slot dag.now) states.now) }
    ensures { result ≡ list_any (λ c. list_all (is_slot_above dag.now c) states.now) slots.now }
{
    for slot in slots {
        if is_above_all(dag, *slot, states) {
            return true;
        }
    }
    false
}
