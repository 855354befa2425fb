//! The node of a new state, and whether the limits admit it.

ghost use Rattle.std.specs.Prelude.{◌≡◌, ℕ, Some, length, map, IsTrue, IfOk};
ghost use Rattle.state_dag.specs.Table.{id_at};
ghost use Rattle.state_dag.specs.Views.{entry_of};
ghost use Rattle.state_dag.specs.Grown.{IsNewEntry};
ghost use Rattle.state_dag.specs.Nodes.{table_of, table_after, are_places, TellsOwn};

use crate::new_paths::new_path;
use crate::nodes::Node;
use crate::sums::in_u32;
use short_list::ShortList;
use std::alloc::Global;
use tardis_base::{AddFault, Limits, NoMemory, Slot, StateId};

/// The node of a new state below these parents, where so many states arrived before.
pub fn new_node(
    alloc: Global,
    nodes: &[Node],
    parents: &[Slot],
    id: StateId,
    arrival: u64,
) -> Result<Node, NoMemory>
    requires { IsTrue (are_places nodes.now parents.now) }
    ensures { IfOk result (λ node. (place : ℕ) → IsNewEntry (table_after arrival nodes.now) parents.now id (record { 0 = place }) (entry_of place node)) }
{
    let path = new_path(alloc, nodes, parents)?;
    let parents = ids_at(alloc, nodes, parents)?;
    Ok(Node {
        id,
        arrival,
        parents,
        children: ShortList::new(alloc),
        stand_ins: ShortList::new(alloc),
        path,
    })
}

/// The ids of the states at the slots.
fn ids_at(alloc: Global, nodes: &[Node], slots: &[Slot]) -> Result<ShortList<StateId>, NoMemory>
    requires { IsTrue (are_places nodes.now slots.now) }
    ensures { IfOk result (λ ids. map (λ x. Some x) ids.items ≡ map (id_at (table_of nodes.now)) slots.now) }
{
    let mut ids = ShortList::new(alloc);
    for slot in slots {
        ids.push(nodes[slot.0 as usize].id)?;
    }
    Ok(ids)
}

/// Tells the new state where its path has more pairs than a path may have.
pub fn check_path(node: &Node, limits: &Limits) -> Result<(), AddFault>
    ensures { TellsOwn node.now.id (length node.now.path.pairs) limits.now.max_path result }
{
    let pairs = in_u32(node.path.len())?;
    if pairs > limits.max_path {
        return Err(AddFault::PathFull {
            state: node.id,
            pairs,
        });
    }
    Ok(())
}
