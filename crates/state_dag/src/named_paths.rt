//! Fork paths by the ids of their forks.

ghost use Rattle.std.specs.Prelude.{◌≡◌, ◌++◌, IsTrue, IfOk, OnOk};
ghost use Rattle.std.specs.List.{flat_map};
ghost use Rattle.state_dag.specs.Nodes.{are_places};
ghost use Rattle.state_dag.specs.Views.{entry_of, entries_in, named_branches};

use crate::nodes::Node;
use crate::sums::in_u32;
use fork_path::ForkPath;
use std::alloc::Global;
use tardis_base::{NoMemory, PathList, Slot, StateId};

/// The pairs of the path that are branches of the nodes in these slots, in the order of the slots and then by number, each
/// with its node's id.
///
/// The cost grows with the number of slots, and for each child of their nodes with the logarithm of the number of pairs.
pub fn named_path(
    alloc: Global,
    nodes: &[Node],
    slots: &[Slot],
    path: &ForkPath,
) -> Result<PathList, NoMemory>
    requires { IsTrue (are_places nodes.now slots.now) }
    ensures { IfOk result (λ list. list ≡ flat_map (named_branches path.now.pairs) (entries_in nodes.now slots.now)) }
{
    let mut named = Vec::new(alloc);
    for slot in slots {
        add_branches(&mut named, &nodes[slot.0 as usize], *slot, path)?;
    }
    Ok(PathList::from_vec(named))
}

/// Adds the branches of the node that are pairs of the path, each with the node's id.
fn add_branches(
    named: &mut Vec<(StateId, u32)>,
    node: &Node,
    slot: Slot,
    path: &ForkPath,
) -> Result<(), NoMemory>
    ensures { OnOk result (named.new.items ≡ named.old.items ++ named_branches path.now.pairs (entry_of slot.0 node.now)) }
{
    let children = in_u32(node.children.len())?;
    for branch in 0..children {
        if path.contains(slot.0, branch) {
            named.push((node.id, branch))?;
        }
    }
    Ok(())
}
