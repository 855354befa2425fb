//! How nodes change as their table grows. No call here can fail.

ghost use Rattle.std.specs.Prelude.{◌≡◌, ℕ, ◌+◌, ◌-◌, ◌^◌, ◌<◌, ◌≤◌, ◌++◌, [], ◌∷◌, Bool, false, length, IsTrue, vec_len, vec_capacity};
ghost use Rattle.std.specs.Prelude.{slice_index_or, slice_set};
ghost use Rattle.std.specs.List.{list_all};
ghost use Rattle.tardis_base.specs.declared.ids.Slot.{Slot};
ghost use Rattle.state_dag.specs.declared.nodes.Node.{Node};
ghost use Rattle.state_dag.specs.Grown.{is_slot_among, KeepsPlaces};
ghost use Rattle.state_dag.specs.Nodes.{are_places, have_places, with_node, AreDistinct, HasPathRoom, HasChildRoom, HasGained, HasChild, HasGrown};

use crate::leads::Gain;
use crate::nodes::Node;
use tardis_base::{Slot, StateId};

/// Gives the parents a child and the gaining paths their pairs.
pub fn grow(nodes: &mut Vec<Node>, parents: &[Slot], gains: &[Gain], id: StateId, slot: Slot)
    requires places { IsTrue (are_places nodes.old.items parents.now) }
    requires gains { IsTrue (have_places nodes.old.items gains.now) }
    requires paths { HasPathRoom nodes.old.items gains.now }
    requires children { HasChildRoom nodes.old.items parents.now }
    ensures count { length nodes.new.items ≡ length nodes.old.items }
    ensures room { vec_len nodes.new ≡ vec_len nodes.old }
    ensures capacity { vec_capacity nodes.new ≡ vec_capacity nodes.old }
    ensures each { (k : ℕ) (d : Node) → k < length nodes.old.items
        → HasGrown gains.now parents.now id slot k (slice_index_or nodes.old.items k d) (slice_index_or nodes.new.items k d) }
{
    grow_paths(nodes, gains);
    add_children(nodes, parents, id, slot);
}

/// Puts each first branch into the path of the state that it leads to.
fn grow_paths(nodes: &mut Vec<Node>, gains: &[Gain])
    requires places { IsTrue (have_places nodes.old.items gains.now) }
    requires room { HasPathRoom nodes.old.items gains.now }
    ensures count { length nodes.new.items ≡ length nodes.old.items }
    ensures room { vec_len nodes.new ≡ vec_len nodes.old }
    ensures capacity { vec_capacity nodes.new ≡ vec_capacity nodes.old }
    ensures each { (k : ℕ) (d : Node) → k < length nodes.old.items
        → HasGained gains.now k (slice_index_or nodes.old.items k d) (slice_index_or nodes.new.items k d) }
{
    for gain in gains {
        nodes[gain.at.0 as usize].path.with_pair(gain.fork.0, 0);
    }
}

/// Gives each parent the new child.
fn add_children(nodes: &mut Vec<Node>, parents: &[Slot], id: StateId, slot: Slot)
    requires places { IsTrue (are_places nodes.old.items parents.now) }
    requires room { HasChildRoom nodes.old.items parents.now }
    ensures count { length nodes.new.items ≡ length nodes.old.items }
    ensures room { vec_len nodes.new ≡ vec_len nodes.old }
    ensures capacity { vec_capacity nodes.new ≡ vec_capacity nodes.old }
    ensures rest { (k : ℕ) (d : Node) → (slice_index_or nodes.new.items k d)
        ≡ record (slice_index_or nodes.old.items k d) {
          children = (slice_index_or nodes.new.items k d).children;
          stand_ins = (slice_index_or nodes.new.items k d).stand_ins;
        } }
    ensures each { AreDistinct parents.now → (k : ℕ) (d : Node) → k < length nodes.old.items
        → HasChild id slot parents.now k (slice_index_or nodes.old.items k d) (slice_index_or nodes.new.items k d) }
    ensures parent { (k : ℕ) (d : Node) → k < length nodes.old.items → IsTrue (is_slot_among (record { 0 = k }) parents.now)
        → 1 ≤ length (slice_index_or nodes.new.items k d).children.items }
    ensures other { (k : ℕ) (d : Node) → is_slot_among (record { 0 = k }) parents.now ≡ false
        → (slice_index_or nodes.new.items k d) ≡ (slice_index_or nodes.old.items k d) }
    ensures slots { (test : Slot → Bool) (k : ℕ) (d : Node) → k < length nodes.old.items
        → IsTrue (list_all test (slice_index_or nodes.old.items k d).stand_ins.items) → IsTrue (test slot)
        → IsTrue (list_all test (slice_index_or nodes.new.items k d).stand_ins.items) }
    ensures places { (k : ℕ) (d : Node) → k < length nodes.old.items
        → KeepsPlaces (slice_index_or nodes.old.items k d).stand_ins.items (slice_index_or nodes.new.items k d).stand_ins.items }
{
    for parent in parents {
        add_child(&mut nodes[parent.0 as usize], id, slot);
    }
}

/// Gives the node a child, where there is room.
fn add_child(node: &mut Node, id: StateId, slot: Slot)
    ensures rest { node.new ≡ record node.old { children = node.new.children; stand_ins = node.new.stand_ins } }
    ensures children { 0 < node.old.children.room → node.new.children.items ≡ node.old.children.items ++ id ∷ [] }
    ensures stand_ins { 0 < node.old.stand_ins.room → node.new.stand_ins.items ≡ node.old.stand_ins.items ++ slot ∷ [] }
    ensures longer { length node.old.children.items ≤ length node.new.children.items }
    ensures slots { (test : Slot → Bool) → IsTrue (list_all test node.old.stand_ins.items) → IsTrue (test slot)
        → IsTrue (list_all test node.new.stand_ins.items) }
    ensures places { KeepsPlaces node.old.stand_ins.items node.new.stand_ins.items }
{
    let _ = node.children.push(id);
    let _ = node.stand_ins.push(slot);
}

/// Makes it so many states of the site.
pub fn set_count(counts: &mut Vec<u32>, site: u16, count: u32)
    requires first { 1 ≤ site }
    requires last { site ≤ length counts.old.items }
    ensures set { counts.new.items ≡ slice_set counts.old.items (site - 1) count }
    ensures fits { count < 2 ^ 32 }
{
    counts[site as usize - 1] = count;
}

/// Puts the node into the slot: in place of a node that says nothing, or behind all, where there is room.
pub fn put_node(nodes: &mut Vec<Node>, slot: Slot, node: Node)
    requires slot { slot.0 ≤ length nodes.old.items }
    requires room { vec_len nodes.old < vec_capacity nodes.old }
    ensures { nodes.new.items ≡ with_node nodes.old.items slot.0 node }
{
    if (slot.0 as usize) < nodes.len() {
        nodes[slot.0 as usize] = node;
    } else {
        nodes.push_reserved(node);
    }
}
