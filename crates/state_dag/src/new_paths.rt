//! The path of a state that is to be added.

ghost use Rattle.std.specs.Prelude.{◌≡◌, ℕ, ◌<◌, ◌||◌, ◌&&◌, length, IsTrue, IfOk, OnOk};
ghost use Rattle.std.specs.List.{list_any};
ghost use Rattle.fork_path.specs.Pairs.{are_ascending_pairs, is_same_pair, has_pair};
ghost use Rattle.state_dag.specs.Grown.{path_at, is_last_branch, IsNewPath};
ghost use Rattle.state_dag.specs.Nodes.{table_of, are_places, leads_to_some};

use crate::leads::leads_first;
use crate::nodes::Node;
use crate::sums::in_u32;
use fork_path::ForkPath;
use std::alloc::Global;
use tardis_base::{NoMemory, Slot};

/// The branches that lead to a new state below these parents.
pub fn new_path(alloc: Global, nodes: &[Node], parents: &[Slot]) -> Result<ForkPath, NoMemory>
    requires { IsTrue (are_places nodes.now parents.now) }
    ensures { IfOk result (λ path. IsNewPath (table_of nodes.now) parents.now path.pairs) }
{
    let mut path = ForkPath::new(alloc);
    unite_paths(&mut path, nodes, parents)?;
    add_first_branches(&mut path, nodes, parents)?;
    add_last_branches(&mut path, nodes, parents)?;
    Ok(path)
}

/// Adds the branches that lead to a parent.
fn unite_paths(path: &mut ForkPath, nodes: &[Node], parents: &[Slot]) -> Result<(), NoMemory>
    requires { IsTrue (are_places nodes.now parents.now) }
    ensures pairs { OnOk result ((pair : ℕ × ℕ)
        → has_pair pair path.new.pairs ≡ (list_any (λ p. has_pair pair (path_at (table_of nodes.now) p)) parents.now || has_pair pair path.old.pairs)) }
    ensures ascending { IsTrue (are_ascending_pairs path.old.pairs) → IsTrue (are_ascending_pairs path.new.pairs) }
{
    for parent in parents {
        path.unite(&nodes[parent.0 as usize].path)?;
    }
    Ok(())
}

/// Adds the first branches of parents that lead to a parent.
fn add_first_branches(path: &mut ForkPath, nodes: &[Node], parents: &[Slot]) -> Result<(), NoMemory>
    requires { IsTrue (are_places nodes.now parents.now) }
    ensures pairs { OnOk result ((pair : ℕ × ℕ)
        → has_pair pair path.new.pairs ≡ (list_any (λ p. is_same_pair pair (p.0, 0) && leads_to_some (table_of nodes.now) parents.now p) parents.now
        || has_pair pair path.old.pairs)) }
    ensures ascending { IsTrue (are_ascending_pairs path.old.pairs) → IsTrue (are_ascending_pairs path.new.pairs) }
{
    for parent in parents {
        if leads_to_some(nodes, parents, *parent) {
            path.reserve(1)?;
            path.with_pair(parent.0, 0);
        }
    }
    Ok(())
}

/// Whether the fork's only child is one of the parents or an ancestor of one.
fn leads_to_some(nodes: &[Node], parents: &[Slot], fork: Slot) -> bool
    requires { IsTrue (are_places nodes.now parents.now) }
    ensures { result ≡ leads_to_some (table_of nodes.now) parents.now fork }
{
    for parent in parents {
        if leads_first(nodes, *parent, fork) {
            return true;
        }
    }
    false
}

/// Adds the branch of each parent that has children already to the new state.
fn add_last_branches(path: &mut ForkPath, nodes: &[Node], parents: &[Slot]) -> Result<(), NoMemory>
    requires { IsTrue (are_places nodes.now parents.now) }
    ensures pairs { OnOk result ((pair : ℕ × ℕ)
        → has_pair pair path.new.pairs ≡ (is_last_branch (table_of nodes.now) parents.now pair || has_pair pair path.old.pairs)) }
    ensures ascending { IsTrue (are_ascending_pairs path.old.pairs) → IsTrue (are_ascending_pairs path.new.pairs) }
{
    for parent in parents {
        let branch = in_u32(nodes[parent.0 as usize].children.len())?;
        if branch > 0 {
            path.reserve(1)?;
            path.with_pair(parent.0, branch);
        }
    }
    Ok(())
}
