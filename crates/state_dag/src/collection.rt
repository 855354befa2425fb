//! What becomes of the nodes and slots as a kept state leaves the table. No call here can fail, and none takes memory.

ghost use Rattle.std.specs.List.Sorted.{IsNonDecreasingBy};
ghost use Rattle.state_dag.specs.Table.{arrival_at};
ghost use Rattle.state_dag.specs.Grown.{is_slot_among};
ghost use Rattle.std.specs.Prelude.{◌≡◌, ℕ, ◌+◌, ◌<◌, ◌≤◌, ◌++◌, true, [], ◌∷◌, length, map, take, drop, IsTrue, slice_index_or};
ghost use Rattle.tardis_base.specs.declared.ids.Slot.{Slot};
ghost use Rattle.fork_path.specs.Pairs.{are_ascending_pairs};
ghost use Rattle.state_dag.specs.declared.nodes.Node.{Node};
ghost use Rattle.state_dag.specs.Views.{entry_of};
ghost use Rattle.state_dag.specs.Nodes.{table_of, are_places};
ghost use Rattle.state_dag.specs.Detached.{passed_on, passing_on, forgetting, changed_at};

use crate::nodes::{Node, first_from};
use short_list::ShortList;
use tardis_base::Slot;

/// The place of the first of the states before this place that arrived no sooner than so many others, or this place. The
/// slots stand in arrival order, and it is a binary search.
pub fn first_holder(nodes: &[Node], kept: &[Slot], place: usize, since: u64) -> usize
    requires { IsNonDecreasingBy (arrival_at (table_of nodes.now)) kept.now }
    ensures within { result ≤ place }
    ensures before { (k : ℕ) (d : Slot) → k < result → arrival_at (table_of nodes.now) (slice_index_or kept.now k d) < since }
{
    first_from(nodes, kept, since).min(place)
}

/// Leaves to the heir, in the slots of the kept states in arrival order, what the one at this place had: its children stand
/// where the heir does, and no path has its branches any more. None of its children is one of a state before the first place.
pub fn hand_over(
    nodes: &mut Vec<Node>,
    kept: &[Slot],
    first: usize,
    place: usize,
    gone: Slot,
    heir: Slot,
    is_fork: bool,
)
    requires places { IsTrue (are_places nodes.old.items kept.now) }
    requires place { place < length kept.now }
    requires first { first ≤ place }
    requires none { (k : ℕ) (d : Node) → IsTrue (is_slot_among (record { 0 = k }) (take first (take place kept.now)))
        → passing_on gone heir (entry_of k (slice_index_or nodes.old.items k d)) ≡ entry_of k (slice_index_or nodes.old.items k d) }
    ensures count { length nodes.new.items ≡ length nodes.old.items }
    ensures each { (k : ℕ) (d : Node) → k < length nodes.old.items
        → entry_of k (slice_index_or nodes.new.items k d) ≡ changed_at (forgetting gone is_fork) (drop (place + 1) kept.now)
        (changed_at (passing_on gone heir) (take place kept.now) (entry_of k (slice_index_or nodes.old.items k d))) }
    ensures ascending { (k : ℕ) (d : Node) → k < length nodes.old.items → IsTrue (are_ascending_pairs (slice_index_or nodes.old.items k d).path.pairs)
        → IsTrue (are_ascending_pairs (slice_index_or nodes.new.items k d).path.pairs) }
{
    let before = &kept[..place];
    pass_on(nodes, &before[first..], gone, heir);
    forget(nodes, &kept[place + 1..], gone, is_fork);
}

/// Leaves to the heir each child of these states that stands in the slot that goes.
fn pass_on(nodes: &mut Vec<Node>, slots: &[Slot], gone: Slot, heir: Slot)
    requires { IsTrue (are_places nodes.old.items slots.now) }
    ensures count { length nodes.new.items ≡ length nodes.old.items }
    ensures each { (k : ℕ) (d : Node) → k < length nodes.old.items
        → entry_of k (slice_index_or nodes.new.items k d) ≡ changed_at (passing_on gone heir) slots.now (entry_of k (slice_index_or nodes.old.items k d)) }
    ensures paths { (k : ℕ) (d : Node) → (slice_index_or nodes.new.items k d).path ≡ (slice_index_or nodes.old.items k d).path }
{
    for slot in slots {
        pass_children(&mut nodes[slot.0 as usize], gone, heir);
    }
}

/// Leaves to the heir each child that stands in the slot that goes.
fn pass_children(node: &mut Node, gone: Slot, heir: Slot)
    ensures entry { (k : ℕ) → entry_of k node.new ≡ passing_on gone heir (entry_of k node.old) }
    ensures path { node.new.path ≡ node.old.path }
{
    pass_slots(&mut node.stand_ins, gone, heir);
}

/// Puts the heir in place of the slot that goes.
fn pass_slots(slots: &mut ShortList<Slot>, gone: Slot, heir: Slot)
    ensures { slots.new.items ≡ map (passed_on gone heir) slots.old.items }
{
    for place in 0..slots.len() {
        let slot = passed_on(slots.as_slice()[place], gone, heir);
        slots.set(place, slot);
    }
}

/// The heir for the slot that goes, and each other slot for itself.
fn passed_on(slot: Slot, gone: Slot, heir: Slot) -> Slot
    ensures { result ≡ passed_on gone heir slot }
{
    if slot == gone { heir } else { slot }
}

/// Takes the branches of the slot that goes out of the paths of these states, where it has any.
fn forget(nodes: &mut Vec<Node>, slots: &[Slot], gone: Slot, is_fork: bool)
    requires { IsTrue (are_places nodes.old.items slots.now) }
    ensures count { length nodes.new.items ≡ length nodes.old.items }
    ensures each { (k : ℕ) (d : Node) → k < length nodes.old.items
        → entry_of k (slice_index_or nodes.new.items k d) ≡ changed_at (forgetting gone is_fork) slots.now (entry_of k (slice_index_or nodes.old.items k d)) }
    ensures ascending { (k : ℕ) (d : Node) → k < length nodes.old.items → IsTrue (are_ascending_pairs (slice_index_or nodes.old.items k d).path.pairs)
        → IsTrue (are_ascending_pairs (slice_index_or nodes.new.items k d).path.pairs) }
{
    if is_fork {
        forget_branches(nodes, slots, gone);
    }
}

/// Takes the branches of the slot that goes out of the paths of these states.
fn forget_branches(nodes: &mut Vec<Node>, slots: &[Slot], gone: Slot)
    requires { IsTrue (are_places nodes.old.items slots.now) }
    ensures count { length nodes.new.items ≡ length nodes.old.items }
    ensures each { (k : ℕ) (d : Node) → k < length nodes.old.items
        → entry_of k (slice_index_or nodes.new.items k d) ≡ changed_at (forgetting gone true) slots.now (entry_of k (slice_index_or nodes.old.items k d)) }
    ensures ascending { (k : ℕ) (d : Node) → k < length nodes.old.items → IsTrue (are_ascending_pairs (slice_index_or nodes.old.items k d).path.pairs)
        → IsTrue (are_ascending_pairs (slice_index_or nodes.new.items k d).path.pairs) }
{
    for slot in slots {
        nodes[slot.0 as usize].path.without_fork(gone.0);
    }
}
