//! The first two leaves that rules settle, of those that it is the site's turn to join, or others'.

ghost use Rattle.std.specs.Prelude.{◌≡◌, ◌-◌, ◌&&◌, drop, length, Some, IsTrue};
ghost use Rattle.std.specs.List.{list_all};
ghost use Rattle.tardis_base.specs.declared.ids.StateId.{StateId};
ghost use Rattle.tardis_base.specs.Ids.{is_before};
ghost use Rattle.tardis_base.specs.Valid.{is_key, is_write};
ghost use Rattle.state_dag.specs.Table.{id_at, is_slot};
ghost use Rattle.join_rules.specs.Searches.{is_looked_at, FindsFirst, FindsForOthers, FindsAmong, FindsWith, JoinsTwo, JoinsLookedAt, JoinsInOrder};

use crate::ranks::Turn;
use crate::settling::{Settled, settle};
use record_store::RecordStore;
use rule_list::RuleList;
use state_dag::StateDag;
use std::alloc::Global;
use tardis_base::{NoMemory, Slot, StateId, WriteSet};

/// How many of the leaves that arrived last are looked at.
pub const MOST_LEAVES: usize = 16;

/// Two leaves, the lesser id first, and what is written where they are joined.
#[derive(Drop)]
pub struct Joint {
    pub first: StateId,
    pub second: StateId,
    pub writes: WriteSet,
}

/// The first two leaves that a site with this number and this patience joins: of which its rank is at most the patience, and of which
/// rules settle each conflict key, among the 16 that arrived last: the first with each behind it, then the second, and so on.
///
/// The cost is that of `settle` for each two of such a rank that it looks at. There are 120 pairs at most.
pub fn first_joint(
    alloc: Global,
    store: &RecordStore,
    rules: &RuleList,
    own: u16,
    patience: u8,
) -> Result<Option<Joint>, NoMemory>
    ensures { FindsFirst store.now rules.now own patience result }
{
    let turn = Turn {
        own,
        patience,
        is_own: true,
    };
    first_settled(alloc, store, rules, turn)
}

/// Whether rules settle two of these leaves for which the site's rank is beyond its patience, so that it leaves them to others.
///
/// The cost is that of `settle` for each two of such a rank that it looks at.
pub fn is_for_others(
    alloc: Global,
    store: &RecordStore,
    rules: &RuleList,
    own: u16,
    patience: u8,
) -> Result<bool, NoMemory>
    ensures { FindsForOthers store.now rules.now own patience result }
{
    let turn = Turn {
        own,
        patience,
        is_own: false,
    };
    match first_settled(alloc, store, rules, turn) {
        Ok(found) => Ok(found.is_some()),
        Err(NoMemory) => Err(NoMemory),
    }
}

/// The first two leaves that rules settle, among the last, of those that are looked at.
fn first_settled(
    alloc: Global,
    store: &RecordStore,
    rules: &RuleList,
    turn: Turn,
) -> Result<Option<Joint>, NoMemory>
    ensures { FindsAmong store.now rules.now turn result }
{
    let leaves = last_ones(store.dag().leaf_slots());
    for place in 0..leaves.len() {
        let found = joint_with(
            alloc,
            store,
            rules,
            turn,
            leaves[place],
            &leaves[place + 1..],
        )?;
        if found.is_some() {
            return Ok(found);
        }
    }
    Ok(None)
}

/// The leaves that are looked at.
pub(crate) fn last_ones(leaves: &[Slot]) -> &[Slot]
    ensures { result.now ≡ drop (length leaves.now - MOST_LEAVES) leaves.now }
{
    &leaves[leaves.len().saturating_sub(MOST_LEAVES)..]
}

/// The first of these leaves that is looked at with this one, and that rules settle with it.
fn joint_with(
    alloc: Global,
    store: &RecordStore,
    rules: &RuleList,
    turn: Turn,
    leaf: Slot,
    others: &[Slot],
) -> Result<Option<Joint>, NoMemory>
    requires leaf { IsTrue (is_slot store.now.table leaf) }
    requires others { IsTrue (list_all (is_slot store.now.table) others.now) }
    ensures { FindsWith store.now rules.now turn leaf others.now result }
{
    for place in 0..others.len() {
        let joint = joint_of(alloc, store, rules, turn, leaf, others[place])?;
        if joint.is_some() {
            return Ok(joint);
        }
    }
    Ok(None)
}

/// What joins these two leaves, where they are looked at and the rules settle them.
fn joint_of(
    alloc: Global,
    store: &RecordStore,
    rules: &RuleList,
    turn: Turn,
    a: Slot,
    b: Slot,
) -> Result<Option<Joint>, NoMemory>
    requires a { IsTrue (is_slot store.now.table a) }
    requires b { IsTrue (is_slot store.now.table b) }
    ensures { JoinsTwo store.now rules.now turn a b result }
{
    if comes_first(store.dag(), a, b) {
        joint_looked_at(alloc, store, rules, turn, a, b)
    } else {
        joint_looked_at(alloc, store, rules, turn, b, a)
    }
}

/// Whether the state of the first slot has the lesser id.
pub(crate) fn comes_first(dag: &StateDag, a: Slot, b: Slot) -> bool
    requires a { IsTrue (is_slot dag.now a) }
    requires b { IsTrue (is_slot dag.now b) }
    ensures { (x y : StateId) → id_at dag.now a ≡ Some x → id_at dag.now b ≡ Some y → result ≡ is_before x y }
{
    dag.id_of(a) < dag.id_of(b)
}

/// What joins these two leaves, of which the first has the lesser id, where they are looked at and the rules settle them.
fn joint_looked_at(
    alloc: Global,
    store: &RecordStore,
    rules: &RuleList,
    turn: Turn,
    a: Slot,
    b: Slot,
) -> Result<Option<Joint>, NoMemory>
    requires a { IsTrue (is_slot store.now.table a) }
    requires b { IsTrue (is_slot store.now.table b) }
    ensures { JoinsLookedAt store.now rules.now turn a b result }
{
    if are_looked_at(store.dag(), turn, a, b) {
        joint_in_order(alloc, store, rules, a, b)
    } else {
        Ok(None)
    }
}

/// Whether the states of these slots are looked at.
fn are_looked_at(dag: &StateDag, turn: Turn, a: Slot, b: Slot) -> bool
    requires a { IsTrue (is_slot dag.now a) }
    requires b { IsTrue (is_slot dag.now b) }
    ensures { (x y : StateId) → id_at dag.now a ≡ Some x → id_at dag.now b ≡ Some y → result ≡ is_looked_at turn (x, y) }
{
    turn.looks_at(dag.id_of(a), dag.id_of(b))
}

/// What joins these two leaves, of which the first has the lesser id, where the rules settle them.
fn joint_in_order(
    alloc: Global,
    store: &RecordStore,
    rules: &RuleList,
    a: Slot,
    b: Slot,
) -> Result<Option<Joint>, NoMemory>
    requires a { IsTrue (is_slot store.now.table a) }
    requires b { IsTrue (is_slot store.now.table b) }
    ensures { JoinsInOrder store.now rules.now a b result }
{
    match settle(alloc, store, rules, a, b)? {
        Settled::Values(writes) => Ok(Some(joint_at(store.dag(), a, b, writes))),
        Settled::Wide(_) => Ok(None),
        Settled::Unmerged(_) => Ok(None),
    }
}

/// The states of these slots, with what is written where they are joined.
fn joint_at(dag: &StateDag, a: Slot, b: Slot, writes: WriteSet) -> Joint
    requires a { IsTrue (is_slot dag.now a) }
    requires b { IsTrue (is_slot dag.now b) }
    ensures first { id_at dag.now a ≡ Some result.first }
    ensures second { id_at dag.now b ≡ Some result.second }
    ensures writes { result.writes ≡ writes }
    ensures valid { IsTrue (list_all (λ w. is_key w.0 && is_write w.1) result.writes) }
{
    let _ = writes.as_slice(); // for the proof alone
    Joint {
        first: dag.id_of(a),
        second: dag.id_of(b),
        writes,
    }
}
