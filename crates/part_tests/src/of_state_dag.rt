//! That ancestry takes no walk along edges and is that of the edges, that the slots of collected states are used again, and
//! that a row of states arrives in one step.

ghost use Rattle.std.specs.Prelude.{◌≤◌, ◌<◌, length, IsTrue};
ghost use Rattle.std.specs.List.{list_all};
ghost use Rattle.state_dag.specs.Table.{is_slot};

use rand_core::utils::NextWord;
use rand_pcg::Lcg64Xsh32;
use state_dag::{RowFault, StateDag};
use std::process::Abort;
use tardis_base::{Limits, Slot, StateId};

const LIMITS: Limits = Limits {
    sites: 1,
    max_kept: 16_384,
    max_path: 1,
    max_sessions: 1,
    max_trail: 0,
};

/// Adds the next state of site 1 below the one that arrived last.
fn lengthen(rt: &impl Abort, dag: &mut StateDag) {
    assert!(rt; 1 <= dag.limits().sites);
    let sequence = dag.count(1).checked_add(1).expect(rt, "a number");
    let parent = dag.last();
    let id = StateId { site: 1, sequence };
    dag.add(id, &[parent]).expect(rt, "room");
}

/// Whether the state at this place is an ancestor of exactly those of the last 4,096 that don't stand before it.
fn agrees(dag: &StateDag, slots: &[Slot], place: usize) -> bool
    requires slots { IsTrue (list_all (is_slot dag.now) slots.now) }
    requires within { place < length slots.now }
{
    let state = slots[place];
    for later in 12_288..slots.len() {
        if dag.is_ancestor(state, slots[later]) != (place <= later) {
            return false;
        }
    }
    true
}

/// Whether that is so of each of the first 4,096 states.
fn all_agree(dag: &StateDag, slots: &[Slot]) -> bool
    requires { IsTrue (list_all (is_slot dag.now) slots.now) }
{
    for place in 0..slots.len().min(4_096) {
        if !agrees(dag, slots, place) {
            return false;
        }
    }
    true
}

/// 17 million questions. Walks along edges would take 200 thousand million steps for them, and a test has a minute.
#[test]
fn ancestry_in_a_chain_of_16384_takes_no_walk(rt: HostRuntime) {
    let mut dag = StateDag::new(rt.alloc(), &LIMITS).expect(&rt, "room");
    for _ in 0..16_383u32 {
        lengthen(&rt, &mut dag);
    }
    assert_eq!(rt; dag.kept_slots().len(), 16_384);
    assert!(rt; all_agree(&dag, dag.kept_slots()));
    drop(dag);
}

/// Collects the kept state that arrived first, if all its children stand in one.
fn collect_first(dag: &mut StateDag) {
    let Some(slot) = dag.kept_after(None) else {
        return;
    };
    match dag.shared_stand_in(slot) {
        Some(_) => {
            dag.detach(slot);
        }
        None => {}
    }
}

/// The greatest number of a slot that has a state.
fn greatest(dag: &StateDag) -> u32 {
    let mut most = 0;
    for slot in dag.kept_slots() {
        most = most.max(slot.0);
    }
    most
}

/// Adds so many states below one another, and collects all but the last.
fn grow_and_collect(rt: &impl Abort, dag: &mut StateDag, states: u32) {
    for _ in 0..states {
        lengthen(rt, dag);
    }
    for _ in 0..states {
        collect_first(dag);
    }
}

/// A chain of five states below the root, of which the last alone is kept: one slot is in use. The next five get the slots of
/// those that went.
#[test]
fn slots_of_collected_states_are_used_again(rt: HostRuntime) {
    let mut dag = StateDag::new(rt.alloc(), &LIMITS).expect(&rt, "room");
    for _ in 0..3u32 {
        grow_and_collect(&rt, &mut dag, 5);
        assert_eq!(rt; dag.kept_slots().len(), 1);
        assert!(rt; greatest(&dag) <= 5);
    }
    assert_eq!(rt; dag.known(), 16);
    drop(dag);
}

/// How many states a random history has. Each has a number: how many arrived before it.
const STATES: u8 = 200;

const WIDE: Limits = Limits {
    max_path: 4_096,
    ..LIMITS
};

/// The state of this number.
fn named(number: u8) -> StateId {
    if number == 0 {
        StateId::ROOT
    } else {
        StateId {
            site: 1,
            sequence: u32::from(number),
        }
    }
}

/// Where the table of edges tells whether the one state is above the other.
fn cell(above: u8, below: u8) -> usize {
    usize::from(below) * 256 + usize::from(above)
}

fn is_marked(cells: &[bool], above: u8, below: u8) -> bool {
    match cells.get(cell(above, below)) {
        Some(marked) => *marked,
        None => false,
    }
}

fn mark(cells: &mut [bool], above: u8, below: u8) {
    if let Some(marked) = cells.get_mut(cell(above, below)) {
        *marked = true;
    }
}

/// What is above the parent is above the child.
fn mark_below(cells: &mut [bool], parent: u8, child: u8) {
    for above in 0..STATES {
        if is_marked(cells, above, parent) {
            mark(cells, above, child);
        }
    }
}

/// The number of one of the last `within` of so many states.
fn drawn(words: &mut Lcg64Xsh32, states: u8, within: u8) -> u8
    requires some { 1 ≤ states }
    requires width { 1 ≤ within }
{
    let back = words.next_word() % u32::from(states.min(within));
    states - 1 - back as u8
}

fn slot_of(rt: &impl Abort, dag: &StateDag, number: u8) -> Slot
    ensures { IsTrue (is_slot dag.now result) }
{
    dag.slot_of(named(number)).expect(rt, "a state")
}

/// Adds the next state of site 1 below these two, or this one.
fn join(rt: &impl Abort, dag: &mut StateDag, first: u8, second: u8) {
    assert!(rt; 1 <= dag.limits().sites);
    let sequence = dag.count(1).checked_add(1).expect(rt, "a number");
    let id = StateId { site: 1, sequence };
    let a = slot_of(rt, dag, first);
    let b = slot_of(rt, dag, second);
    if first == second {
        dag.add(id, &[a]).expect(rt, "room");
    } else {
        dag.add(id, &[a, b]).expect(rt, "room");
    }
}

/// Whether exactly the states that the table of edges says are above the one of this number.
fn is_above_as_marked(rt: &impl Abort, dag: &StateDag, cells: &[bool], below: u8) -> bool {
    for above in 0..STATES {
        let is_above = dag.is_ancestor(slot_of(rt, dag, above), slot_of(rt, dag, below));
        if is_above != is_marked(cells, above, below) {
            return false;
        }
    }
    true
}

/// A history of 200 states, each below one or two of the last `within`; ancestry is asked of each two.
fn ask_a_random_history(rt: &impl Abort, dag: &mut StateDag, cells: &mut [bool], within: u8)
    requires { 1 ≤ within }
{
    let mut words = Lcg64Xsh32::new(u64::from(within), 1);
    mark(cells, 0, 0);
    for number in 1..STATES {
        let a = drawn(&mut words, number, within);
        let b = drawn(&mut words, number, within);
        join(rt, dag, a.min(b), a.max(b));
        mark(cells, number, number);
        mark_below(cells, a, number);
        mark_below(cells, b, number);
    }
    for below in 0..STATES {
        assert!(rt; is_above_as_marked(rt, dag, cells, below));
    }
}

#[test]
fn ancestry_in_random_histories_is_that_of_their_edges(rt: HostRuntime) {
    for within in [3, 12, 200u8] {
        assert!(rt; 1 <= within);
        let mut dag = StateDag::new(rt.alloc(), &WIDE).expect(&rt, "room");
        let mut cells = vec![in rt.alloc(); false; 65_536].expect(&rt, "room");
        ask_a_random_history(&rt, &mut dag, &mut cells, within);
        drop(dag);
    }
}

const TWO_SITES: Limits = Limits { sites: 2, ..LIMITS };

/// The kept state that arrived last, and the first of its parents.
fn last_edge(dag: &StateDag) -> (StateId, StateId) {
    let slot = dag.last();
    let parent = match dag.parents(slot).first() {
        Some(parent) => *parent,
        None => StateId::ROOT,
    };
    (dag.id_of(slot), parent)
}

/// Whether the kept state that arrived last is this one, below that one.
fn ends_in(dag: &StateDag, state: StateId, parent: StateId) -> bool {
    let (last, above) = last_edge(dag);
    last == state && above == parent
}

/// 1.1 to 1.3 in a row below the root, 2.1 below the last of them, and 1.4 below that as any state comes.
#[test]
fn a_row_of_states_arrives_in_one_step(rt: HostRuntime) {
    let second = StateId {
        site: 2,
        sequence: 1,
    };
    let mut dag = StateDag::new(rt.alloc(), &TWO_SITES).expect(&rt, "room");
    dag.advance(1, 3).expect(&rt, "room");
    assert!(rt; ends_in(&dag, named(3), named(2)));
    dag.advance(2, 1).expect(&rt, "room");
    assert!(rt; ends_in(&dag, second, named(3)));
    assert_eq!(rt; dag.kept(), 1);
    lengthen(&rt, &mut dag);
    assert!(rt; ends_in(&dag, named(4), second));
    assert!(rt; matches!(dag.advance(3, 1), Err(RowFault::BadSite)));
    assert!(rt; matches!(dag.advance(1, 0), Err(RowFault::Empty)));
    assert!(rt; matches!(dag.advance(1, u32::MAX), Err(RowFault::SeqEnd)));
    assert_eq!(rt; dag.known(), 6);
    assert_eq!(rt; dag.kept(), 2);
    drop(dag);
}
