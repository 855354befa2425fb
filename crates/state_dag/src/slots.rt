//! Which slot each kept state has.

ghost use Rattle.std.specs.Prelude.{◌≡◌, ◌==◌, ◌-◌, ◌≤◌, ◌<◌, not, filter, length, slice_get, slice_index_or, vec_len, vec_capacity};
ghost use Rattle.state_dag.specs.Shared.{common};
ghost use Rattle.state_dag.specs.Table.{arrival_at};
ghost use Rattle.state_dag.specs.Grown.{is_slot_among};
ghost use Rattle.state_dag.specs.Nodes.{table_of, slot_after_all, Rise};

use crate::nodes::{Node, arrival_in, first_from};
use crate::slot_order::SlotOrder;
use tardis_base::Slot;

/// The slot that one more gets where so many are in use: the first of the others, or else the next number.
pub fn next_slot(order: &SlotOrder, used: u32) -> Slot
    requires { order.now.used ≡ used }
    ensures { result ≡ slot_after_all order.now.items used }
{
    match order.first_free() {
        Some(slot) => slot,
        None => Slot(used),
    }
}

/// The slot at the place, if there is one.
pub fn slot_at(slots: &[Slot], place: usize) -> Option<Slot>
    ensures { result ≡ slice_get slots.now place }
{
    slots.get(place).copied()
}

/// Takes these out of the slots, each by a binary search. The slots stand in arrival order.
pub fn drop_slots(nodes: &[Node], slots: &mut Vec<Slot>, gone: &[Slot])
    requires { Rise (arrival_at (table_of nodes.now)) slots.old.items }
    ensures items { slots.new.items ≡ filter (λ s. not (is_slot_among s gone.now)) slots.old.items }
    ensures len { vec_len slots.new ≤ vec_len slots.old }
    ensures capacity { vec_capacity slots.new ≡ vec_capacity slots.old }
{
    for slot in gone {
        drop_slot(nodes, slots, *slot);
    }
}

/// Takes this one out, if it is among them.
pub fn drop_slot(nodes: &[Node], slots: &mut Vec<Slot>, gone: Slot)
    requires { Rise (arrival_at (table_of nodes.now)) slots.old.items }
    ensures items { slots.new.items ≡ filter (λ s. not (gone.0 == s.0)) slots.old.items }
    ensures len { vec_len slots.new ≤ vec_len slots.old }
    ensures capacity { vec_capacity slots.new ≡ vec_capacity slots.old }
{
    let place = first_from(nodes, slots, arrival_in(nodes, gone));
    if place < slots.len() && slots[place] == gone {
        let _ = slots.remove(place);
    }
}

/// The first of these slots.
pub fn first_slot(slots: &[Slot]) -> Slot
    requires { 0 < length slots.now }
    ensures { result ≡ slice_index_or slots.now 0 result }
{
    slots[0]
}

/// The last of these slots.
pub fn last_slot(slots: &[Slot]) -> Slot
    requires { 0 < length slots.now }
    ensures { result ≡ slice_index_or slots.now (length slots.now - 1) result }
{
    slots[slots.len() - 1]
}

/// The slot that all of these are, if they are one.
pub fn common_slot(slots: &[Slot]) -> Option<Slot>
    ensures { result ≡ common (λ a b. a.0 == b.0) slots.now }
{
    let first = slots.first()?;
    if slots.iter().all(|slot| slot == first) {
        Some(*first)
    } else {
        None
    }
}
