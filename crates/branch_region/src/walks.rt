//! The walk up from several states along parents, newest first.

ghost use Rattle.std.specs.Prelude.{◌≡◌, ◌==◌, ℕ, Some, List, map, reverse, IsTrue, IfOk, OnOk, OnErr, if◌then◌else◌};
ghost use Rattle.std.specs.List.{list_all};
ghost use Rattle.std.specs.BTreeMap.{BTreeMap};
ghost use Rattle.tardis_base.specs.declared.ids.StateId.{StateId};
ghost use Rattle.tardis_base.specs.declared.ids.Slot.{Slot};
ghost use Rattle.tardis_base.specs.declared.records.Record.{Record};
ghost use Rattle.plain_dag.specs.States.{parents_of};
ghost use Rattle.state_dag.specs.Table.{id_at, is_slot, arrival_at};
ghost use Rattle.state_dag.specs.Stands.{Stands};
ghost use Rattle.branch_region.specs.Walks.{waits_at, AreSlots, HasSlots, IsWalkAt, StepsTo, HasThese, AreWaiting};

use crate::asked::is_above_all;
use crate::parts::Region;
use state_dag::StateDag;
use std::alloc::Global;
use std::collections::BTreeMap;
use tardis_base::{NoMemory, Slot};

/// The states that wait, by arrival, and those that were reached, newest first.
#[derive(Drop)]
pub(crate) struct Walk {
    waiting: BTreeMap<u64, Slot>,
    apart: Vec<Slot>,
    shared: Vec<Slot>,
}

/// How a walk goes on.
#[derive(Clone, Copy)]
pub(crate) enum Step {
    /// One more state is noted.
    Noted,
    /// No state waits.
    Over,
    /// A state is noted that arrived then and has a collected parent.
    Behind(u64),
}

impl Walk {
    /// All of these wait.
    pub(crate) fn new(alloc: Global, dag: &StateDag, states: &[Slot]) -> Result<Walk, NoMemory>
        requires { IsTrue (list_all (is_slot dag.now) states.now) }
        ensures slots { IfOk result (HasSlots dag.now) }
        ensures walk { (rs : List Record) (ks : List StateId) → Stands dag.now rs ks → (xs : List StateId)
            → map (id_at dag.now) states.now ≡ map (λ x. Some x) xs → IfOk result (λ walk. (b : ℕ) × IsWalkAt dag.now rs ks xs 0 b walk) }
    {
        Ok(Walk {
            waiting: all_waiting(alloc, dag, states)?,
            apart: Vec::new(alloc),
            shared: Vec::new(alloc),
        })
    }

    /// Takes the newest of those that wait and notes it. Where it isn't at or above all of these states, its parents wait.
    pub(crate) fn step(&mut self, dag: &StateDag, states: &[Slot]) -> Result<Step, NoMemory>
        requires states { IsTrue (list_all (is_slot dag.now) states.now) }
        requires slots { HasSlots dag.now self.old }
        ensures slots { OnOk result (HasSlots dag.now self.new) }
        ensures walk { (rs : List Record) (ks : List StateId) → Stands dag.now rs ks → (xs : List StateId)
            → map (id_at dag.now) states.now ≡ map (λ x. Some x) xs → (n b : ℕ) → IsWalkAt dag.now rs ks xs n b self.old
            → IfOk result (StepsTo dag.now rs ks xs n self.new) }
    {
        let Some((arrival, slot)) = self.waiting.pop_last() else {
            return Ok(Step::Over);
        };
        if is_above_all(dag, slot, states) {
            self.shared.push(slot)?;
            return Ok(Step::Noted);
        }
        self.apart.push(slot)?;
        if put_parents(dag, slot, &mut self.waiting)? {
            Ok(Step::Noted)
        } else {
            Ok(Step::Behind(arrival))
        }
    }

    /// What was noted, in arrival order.
    pub(crate) fn noted(self) -> Region
        ensures apart { result.apart.items ≡ reverse self.apart.items }
        ensures shared { result.shared.items ≡ reverse self.shared.items }
    {
        let mut apart = self.apart;
        let mut shared = self.shared;
        apart.reverse();
        shared.reverse();
        Region { apart, shared }
    }
}

/// These states, by arrival.
fn all_waiting(
    alloc: Global,
    dag: &StateDag,
    states: &[Slot],
) -> Result<BTreeMap<u64, Slot>, NoMemory>
    requires { IsTrue (list_all (is_slot dag.now) states.now) }
    ensures slots { IfOk result (λ waiting. AreSlots dag.now (waits_at waiting)) }
    ensures waiting { (rs : List Record) (ks : List StateId) → Stands dag.now rs ks → (xs : List StateId)
        → map (id_at dag.now) states.now ≡ map (λ x. Some x) xs → IfOk result (λ waiting. AreWaiting dag.now rs xs (waits_at waiting)) }
{
    let mut waiting = BTreeMap::new(alloc);
    for state in states {
        put(dag, *state, &mut waiting)?;
    }
    Ok(waiting)
}

/// Puts the parents of the state of this slot to those that wait. False says that one of them is collected.
fn put_parents(
    dag: &StateDag,
    slot: Slot,
    waiting: &mut BTreeMap<u64, Slot>,
) -> Result<bool, NoMemory>
    requires slot { IsTrue (is_slot dag.now slot) }
    requires slots { AreSlots dag.now (waits_at waiting.old) }
    ensures slots { OnOk result (AreSlots dag.now (waits_at waiting.new)) }
    ensures parents { (rs : List Record) (ks : List StateId) → Stands dag.now rs ks → (x : StateId) → id_at dag.now slot ≡ Some x
        → IfOk result (λ all. IsTrue all → HasThese dag.now rs ks (parents_of rs x) (waits_at waiting.old) (waits_at waiting.new)) }
{
    for parent in dag.parents(slot) {
        match dag.slot_of(*parent) {
            Some(above) => put(dag, above, waiting)?,
            None => return Ok(false),
        }
    }
    Ok(true)
}

/// Puts the state of this slot to those that wait.
fn put(dag: &StateDag, slot: Slot, waiting: &mut BTreeMap<u64, Slot>) -> Result<(), NoMemory>
    requires { IsTrue (is_slot dag.now slot) }
    ensures put { OnOk result ((k : ℕ) → waits_at waiting.new k ≡ (if k == arrival_at dag.now slot then Some slot else waits_at waiting.old k)) }
    ensures slots { AreSlots dag.now (waits_at waiting.old) → OnOk result (AreSlots dag.now (waits_at waiting.new)) }
    ensures stay { OnErr result ((k : ℕ) → waits_at waiting.new k ≡ waits_at waiting.old k) }
{
    waiting.insert(dag.arrival(slot), slot)?;
    Ok(())
}
