//! The kept states of a table, each in its place.

ghost use Rattle.std.specs.Prelude.{◌≡◌, ℕ, ◌<◌, ◌≤◌, [], length, slice_index_or};
ghost use Rattle.std.specs.List.Sorted.{IsNonDecreasingBy};
ghost use Rattle.tardis_base.specs.declared.ids.Slot.{Slot};
ghost use Rattle.tardis_base.specs.Ids.{root};
ghost use Rattle.std.specs.Option.{option_copied, option_map};
ghost use Rattle.state_dag.specs.Nodes.{table_of};
ghost use Rattle.state_dag.specs.Table.{entry_at, arrival_at, is_entry_above, only_of};
ghost use Rattle.state_dag.specs.Views.{entry_of};

use fork_path::ForkPath;
use short_list::ShortList;
use std::alloc::Global;
use tardis_base::{Slot, StateId};

/// A kept state.
#[derive(Drop)]
pub struct Node {
    pub id: StateId,
    pub arrival: u64,
    pub parents: ShortList<StateId>,
    pub children: ShortList<StateId>,
    pub stand_ins: ShortList<Slot>,
    pub path: ForkPath,
}

/// The root, before it has a child.
pub fn root_node(alloc: Global) -> Node
    ensures id { result.id ≡ root }
    ensures arrival { result.arrival ≡ 0 }
    ensures parents { result.parents.items ≡ [] }
    ensures children { result.children.items ≡ [] }
    ensures stand_ins { result.stand_ins.items ≡ [] }
    ensures path { result.path.pairs ≡ [] }
{
    Node {
        id: StateId::ROOT,
        arrival: 0,
        parents: ShortList::new(alloc),
        children: ShortList::new(alloc),
        stand_ins: ShortList::new(alloc),
        path: ForkPath::new(alloc),
    }
}

/// The node in the place of the slot.
pub fn node_at(nodes: &[Node], slot: Slot) -> Option<&Node>
    ensures { option_map (entry_of slot.0) (option_copied result) ≡ entry_at (table_of nodes.now) slot }
{
    nodes.get(slot.0 as usize)
}

/// The only parent of the node's state.
pub fn only_parent(node: &Node) -> Option<StateId>
    ensures { result ≡ only_of node.now.parents.items }
{
    match node.parents.as_slice() {
        [only] => Some(*only),
        _ => None,
    }
}

/// How many states had arrived before that of the node in the place of the slot. 0 where there is no node.
pub fn arrival_in(nodes: &[Node], slot: Slot) -> u64
    ensures { result ≡ arrival_at (table_of nodes.now) slot }
{
    match node_at(nodes, slot) {
        Some(node) => node.arrival,
        None => 0,
    }
}

/// The place of the first of the slots whose state arrived no sooner than so many others, or the end. The slots stand in
/// arrival order, and it is a binary search.
pub fn first_from(nodes: &[Node], slots: &[Slot], arrival: u64) -> usize
    requires { IsNonDecreasingBy (arrival_at (table_of nodes.now)) slots.now }
    ensures within { result ≤ length slots.now }
    ensures before { (k : ℕ) (d : Slot) → k < result → arrival_at (table_of nodes.now) (slice_index_or slots.now k d) < arrival }
    ensures from { (k : ℕ) (d : Slot) → result ≤ k → k < length slots.now → arrival ≤ arrival_at (table_of nodes.now) (slice_index_or slots.now k d) }
{
    slots.partition_point(|slot| arrival_in(nodes, *slot) < arrival)
}

/// Whether the state of `a` is that of `b` or one of its ancestors.
pub fn is_node_above(a: &Node, b: &Node) -> bool
    ensures { (p q : ℕ) → result ≡ is_entry_above (entry_of p a.now) (entry_of q b.now) }
{
    a.arrival <= b.arrival && b.path.includes(&a.path)
}
