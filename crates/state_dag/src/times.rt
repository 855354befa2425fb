//! Since when children of kept states stand in each slot: the arrival of the first such state, or less.

ghost use Rattle.std.specs.Prelude.{◌≡◌, ℕ, ◌<◌, ◌≤◌, length, slice_index_or, vec_len, vec_capacity};
ghost use Rattle.tardis_base.specs.declared.ids.Slot.{Slot};
ghost use Rattle.state_dag.specs.Table.{arrival_at};
ghost use Rattle.state_dag.specs.Nodes.{table_of};

use crate::nodes::{Node, arrival_in};
use tardis_base::Slot;

/// How many states had arrived before the first of these, or less.
pub fn first_arrival(nodes: &[Node], slots: &[Slot]) -> u64
    ensures { (k : ℕ) (d : Slot) → k < length slots.now → result ≤ arrival_at (table_of nodes.now) (slice_index_or slots.now k d) }
{
    let mut first = u64::MAX;
    for slot in slots {
        first = first.min(arrival_in(nodes, *slot));
    }
    first
}

/// Puts the time of the slot in its place, or behind all, where there is room.
pub fn put_time(since: &mut Vec<u64>, slot: Slot, time: u64)
    requires slot { slot.0 ≤ length since.old.items }
    requires room { vec_len since.old < vec_capacity since.old }
    ensures own { slice_index_or since.new.items slot.0 0 ≡ time }
    ensures others { (k : ℕ) → (k ≡ slot.0 → ⊥) → slice_index_or since.new.items k 0 ≡ slice_index_or since.old.items k 0 }
    ensures longer { length since.old.items ≤ length since.new.items }
    ensures there { slot.0 < length since.new.items }
{
    if (slot.0 as usize) < since.len() {
        since[slot.0 as usize] = time;
    } else {
        since.push_reserved(time);
    }
}

/// Makes the time of the slot this one, where that is less.
pub fn lower_time(since: &mut Vec<u64>, slot: Slot, time: u64)
    requires { slot.0 < length since.old.items }
    ensures count { length since.new.items ≡ length since.old.items }
    ensures own { slice_index_or since.new.items slot.0 0 ≤ time }
    ensures lower { (k : ℕ) → slice_index_or since.new.items k 0 ≤ slice_index_or since.old.items k 0 }
{
    if time < since[slot.0 as usize] {
        since[slot.0 as usize] = time;
    }
}
