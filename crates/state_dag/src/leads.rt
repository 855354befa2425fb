//! Which first branches lead where, in a table that is to grow below some parents.

ghost use Rattle.std.specs.Prelude.{◌≡◌, ℕ, ◌<◌, ◌≤◌, ◌+◌, ◌++◌, false, nat_le, [], length, find, filter, slice_index_or, None, IsTrue, IfOk, OnOk, MatchResult};
ghost use Rattle.std.specs.List.{list_all};
ghost use Rattle.std.specs.List.Sorted.{IsNonDecreasingBy};
ghost use Rattle.std.specs.Option.{option_copied, option_map, option_map_or};
ghost use Rattle.tardis_base.specs.declared.ids.Slot.{Slot};
ghost use Rattle.state_dag.specs.Table.{arrival_at, is_slot_above};
ghost use Rattle.state_dag.specs.Grown.{path_at, leads_first};
ghost use Rattle.state_dag.specs.Nodes.{table_of, are_places, is_child_above, gains_at, all_gains, is_long, TellsLong, TellsOwn};

use crate::nodes::{Node, first_from, is_node_above, node_at};
use crate::sums::sum_in_u32;
use std::alloc::Global;
use tardis_base::{AddFault, Limits, NoMemory, Slot};

/// A first branch that leads to a kept state, and isn't in its path yet.
#[derive(Clone, Copy)]
pub struct Gain {
    pub at: Slot,
    pub fork: Slot,
}

/// Where the child of the state at the slot stands, if it has exactly one.
fn only_child_slot(nodes: &[Node], slot: Slot) -> Option<Slot>
    ensures { (at : Slot) → leads_first (table_of nodes.now) at slot ≡ option_map_or (λ c. is_slot_above (table_of nodes.now) c at) result false }
{
    let node = node_at(nodes, slot)?;
    if node.children.len() != 1 {
        return None;
    }
    node.stand_ins.as_slice().first().copied()
}

/// The child of the state at the slot, if it has exactly one.
fn only_child(nodes: &[Node], slot: Slot) -> Option<&Node>
    ensures { (at : Slot) → leads_first (table_of nodes.now) at slot ≡ is_child_above (table_of nodes.now) at (option_copied result) }
{
    let child = only_child_slot(nodes, slot)?;
    node_at(nodes, child)
}

/// Whether the parent has exactly one child, which is the state at the slot or one of its ancestors.
pub fn leads_first(nodes: &[Node], slot: Slot, parent: Slot) -> bool
    requires { slot.0 < length nodes.now }
    ensures { result ≡ leads_first (table_of nodes.now) slot parent }
{
    match only_child(nodes, parent) {
        Some(child) => is_node_above(child, &nodes[slot.0 as usize]),
        None => false,
    }
}

/// The first of the slots to which a first branch of the parents may lead, where they stand in arrival order: that of the
/// first of their only children, or the end.
fn first_led(nodes: &[Node], slots: &[Slot], parents: &[Slot]) -> usize
    requires { IsNonDecreasingBy (arrival_at (table_of nodes.now)) slots.now }
    ensures within { result ≤ length slots.now }
    ensures before { (k : ℕ) (d : Slot) → k < result → filter (leads_first (table_of nodes.now) (slice_index_or slots.now k d)) parents.now ≡ [] }
{
    let mut first = slots.len();
    for parent in parents {
        if let Some(child) = only_child(nodes, *parent) {
            first = first.min(first_from(nodes, slots, child.arrival));
        }
    }
    first
}

/// Adds the first branches of the parents that lead to the state at the slot.
fn add_gains(
    gains: &mut Vec<Gain>,
    nodes: &[Node],
    parents: &[Slot],
    slot: Slot,
) -> Result<(), NoMemory>
    requires { slot.0 < length nodes.now }
    ensures { OnOk result (gains.new.items ≡ gains.old.items ++ gains_at (table_of nodes.now) parents.now slot) }
{
    for parent in parents {
        if leads_first(nodes, slot, *parent) {
            gains.push(Gain {
                at: slot,
                fork: *parent,
            })?;
        }
    }
    Ok(())
}

/// Tells the state whose path has more pairs than a path may have, with so many that it gains. The path of a state that gains
/// none is short, and isn't counted.
fn check_gained(node: &Node, gained: usize, limits: &Limits) -> Result<(), AddFault>
    requires { length node.now.path.pairs ≤ limits.now.max_path }
    ensures { TellsOwn node.now.id (length node.now.path.pairs + gained) limits.now.max_path result }
{
    if gained == 0 {
        return Ok(());
    }
    let pairs = sum_in_u32(node.path.len(), gained)?;
    if pairs > limits.max_path {
        return Err(AddFault::PathFull {
            state: node.id,
            pairs,
        });
    }
    Ok(())
}

/// All first branches of the parents, with each of the states at the slots that they lead to, in this order. Tells the
/// first of these states whose path would have more pairs than a path may have. The slots stand in arrival order.
pub fn gains(
    alloc: Global,
    nodes: &[Node],
    slots: &[Slot],
    parents: &[Slot],
    limits: &Limits,
) -> Result<Vec<Gain>, AddFault>
    requires places { IsTrue (are_places nodes.now slots.now) }
    requires in_order { IsNonDecreasingBy (arrival_at (table_of nodes.now)) slots.now }
    requires short { IsTrue (list_all (λ s. nat_le (length (path_at (table_of nodes.now) s)) limits.now.max_path) slots.now) }
    ensures gains { IfOk result (λ gains. gains.items ≡ all_gains (table_of nodes.now) parents.now slots.now) }
    ensures long { MatchResult result (λ gains. find (is_long (table_of nodes.now) limits.now.max_path parents.now) slots.now
        ≡ None) (λ fault. TellsLong (table_of nodes.now) parents.now (find (is_long (table_of nodes.now) limits.now.max_path parents.now) slots.now) fault) }
{
    let mut gains = Vec::new(alloc);
    for place in first_led(nodes, slots, parents)..slots.len() {
        let slot = slots[place];
        let before = gains.len();
        add_gains(&mut gains, nodes, parents, slot)?;
        check_gained(&nodes[slot.0 as usize], gains.len() - before, limits)?;
    }
    Ok(gains)
}
