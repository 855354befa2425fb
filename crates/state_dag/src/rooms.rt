//! Memory for what nodes get, taken before anything changes.

ghost use Rattle.std.specs.Prelude.{◌≡◌, ℕ, ◌≤◌, ◌<◌, length, IsTrue, OnOk, vec_len, vec_capacity, slice_index_or};
ghost use Rattle.state_dag.specs.declared.nodes.Node.{Node};
ghost use Rattle.state_dag.specs.Views.{entries_from};
ghost use Rattle.state_dag.specs.Nodes.{are_places, have_places, is_gaining, gains_of, HasPathRoom, HasChildRoom, TakesChild};

use crate::leads::Gain;
use crate::nodes::Node;
use crate::slot_order::SlotOrder;
use crate::sums::in_u32;
use tardis_base::{NoMemory, Slot};

/// Makes room for one more state below these parents: for its node, its time and what others get, and for its slot among all
/// and among the leaves.
pub fn make_state_room(
    nodes: &mut Vec<Node>,
    order: &mut SlotOrder,
    leaves: &mut Vec<Slot>,
    since: &mut Vec<u64>,
    parents: &[Slot],
    gains: &[Gain],
) -> Result<(), NoMemory>
    requires places { IsTrue (are_places nodes.old.items parents.now) }
    requires gains { IsTrue (have_places nodes.old.items gains.now) }
    requires few { (k : ℕ) → gains_of k gains.now ≤ length parents.now }
    ensures same { entries_from 0 nodes.new.items ≡ entries_from 0 nodes.old.items }
    ensures order { order.new.items ≡ order.old.items }
    ensures used { order.new.used ≡ order.old.used }
    ensures leaves { leaves.new.items ≡ leaves.old.items }
    ensures since { since.new.items ≡ since.old.items }
    ensures paths { OnOk result (HasPathRoom nodes.new.items gains.now) }
    ensures children { OnOk result (HasChildRoom nodes.new.items parents.now) }
    ensures node { OnOk result (vec_len nodes.new < vec_capacity nodes.new) }
    ensures slot { OnOk result (0 < order.new.room) }
    ensures leaf { OnOk result (vec_len leaves.new < vec_capacity leaves.new) }
    ensures time { OnOk result (vec_len since.new < vec_capacity since.new) }
{
    make_room(nodes, parents, gains)?;
    order.reserve()?;
    since.reserve(1)?;
    leaves.reserve(1)?;
    Ok(())
}

/// Makes room for a new node and for what its parents and the gaining paths get.
fn make_room(nodes: &mut Vec<Node>, parents: &[Slot], gains: &[Gain]) -> Result<(), NoMemory>
    requires places { IsTrue (are_places nodes.old.items parents.now) }
    requires gains { IsTrue (have_places nodes.old.items gains.now) }
    requires few { (k : ℕ) → gains_of k gains.now ≤ length parents.now }
    ensures same { entries_from 0 nodes.new.items ≡ entries_from 0 nodes.old.items }
    ensures paths { OnOk result (HasPathRoom nodes.new.items gains.now) }
    ensures children { OnOk result (HasChildRoom nodes.new.items parents.now) }
    ensures node { OnOk result (vec_len nodes.new < vec_capacity nodes.new) }
{
    make_path_room(nodes, gains, parents.len())?;
    make_child_room(nodes, parents)?;
    nodes.reserve(1)?;
    Ok(())
}

/// Makes room for so many more pairs in each path that gains any.
fn make_path_room(nodes: &mut Vec<Node>, gains: &[Gain], pairs: usize) -> Result<(), NoMemory>
    requires { IsTrue (have_places nodes.old.items gains.now) }
    ensures same { entries_from 0 nodes.new.items ≡ entries_from 0 nodes.old.items }
    ensures room { OnOk result ((k : ℕ) (d : Node) → k < length nodes.new.items → IsTrue (is_gaining k gains.now)
        → pairs ≤ (slice_index_or nodes.new.items k d).path.room) }
{
    let room = in_u32(pairs)?;
    for gain in gains {
        nodes[gain.at.0 as usize].path.reserve(room)?;
    }
    Ok(())
}

/// Makes room for a child of each parent.
fn make_child_room(nodes: &mut Vec<Node>, parents: &[Slot]) -> Result<(), NoMemory>
    requires { IsTrue (are_places nodes.old.items parents.now) }
    ensures same { entries_from 0 nodes.new.items ≡ entries_from 0 nodes.old.items }
    ensures paths { (k : ℕ) (d : Node) → (slice_index_or nodes.new.items k d).path ≡ (slice_index_or nodes.old.items k d).path }
    ensures room { OnOk result (HasChildRoom nodes.new.items parents.now) }
{
    for parent in parents {
        make_room_at(&mut nodes[parent.0 as usize])?;
    }
    Ok(())
}

/// Makes room for a child.
fn make_room_at(node: &mut Node) -> Result<(), NoMemory>
    ensures rest { node.new ≡ record node.old { children = node.new.children; stand_ins = node.new.stand_ins } }
    ensures children { node.new.children.items ≡ node.old.children.items }
    ensures stand_ins { node.new.stand_ins.items ≡ node.old.stand_ins.items }
    ensures room { OnOk result (TakesChild node.new) }
    ensures kept { TakesChild node.old → TakesChild node.new }
{
    node.children.reserve()?;
    node.stand_ins.reserve()?;
    Ok(())
}
