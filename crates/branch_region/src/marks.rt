//! Which of the kept states are at or above several states, marked by slot number in one pass for each of these.

ghost use Rattle.std.specs.Prelude.{◌≡◌, ℕ, ◌<◌, ◌&&◌, ◌||◌, Some, List, length, map, IsTrue, IfOk};
ghost use Rattle.std.specs.List.{list_all, list_any};
ghost use Rattle.tardis_base.specs.declared.ids.StateId.{StateId};
ghost use Rattle.tardis_base.specs.declared.ids.Slot.{Slot};
ghost use Rattle.tardis_base.specs.declared.records.Record.{Record};
ghost use Rattle.state_dag.specs.Table.{id_at, is_slot};
ghost use Rattle.state_dag.specs.Stands.{Stands};
ghost use Rattle.branch_region.specs.Regions.{is_last_shared};
ghost use Rattle.branch_region.specs.Marks.{is_marked, is_part_marked, HasNumbersBelow, AreAbove, AreMarks};

use crate::asked::is_one_of;
use state_dag::StateDag;
use std::alloc::Global;
use tardis_base::{NoMemory, Slot};

/// By slot number: which states are at or above one of several states, and which are at or above all of them.
#[derive(Drop)]
pub(crate) struct Marks {
    one: Vec<bool>,
    all: Vec<bool>,
}

impl Marks {
    /// The marks of these states.
    pub(crate) fn of(alloc: Global, dag: &StateDag, states: &[Slot]) -> Result<Marks, NoMemory>
        requires { IsTrue (list_all (is_slot dag.now) states.now) }
        ensures { (rs : List Record) (ks : List StateId) → Stands dag.now rs ks → IfOk result (AreMarks dag.now states.now) }
    {
        let count = number_end(dag);
        let mut one = vec![in alloc; false; count]?;
        let mut all = vec![in alloc; true; count]?;
        for state in states {
            let above = above(alloc, dag, count, *state)?;
            widen(&mut one, above.as_slice());
            narrow(&mut all, above.as_slice());
        }
        Ok(Marks { one, all })
    }

    /// Whether the state of this slot is at or above one of the states, and not at or above all of them.
    pub(crate) fn is_above_part(&self, slot: Slot) -> bool
        ensures { result ≡ is_part_marked self.now slot }
    {
        is_marked(self.one.as_slice(), slot) && !is_marked(self.all.as_slice(), slot)
    }

    /// Whether the state of this slot is at or above all of the states, and is one of them or has a child at or above some
    /// of them and not all.
    pub(crate) fn is_last_shared(&self, dag: &StateDag, slot: Slot, states: &[Slot]) -> bool
        requires { IsTrue (is_slot dag.now slot) }
        ensures { (rs : List Record) (ks : List StateId) → Stands dag.now rs ks → AreMarks dag.now states.now self.now → (x : StateId)
            → id_at dag.now slot ≡ Some x → (xs : List StateId) → map (id_at dag.now) states.now ≡ map (λ y. Some y) xs
            → result ≡ is_last_shared rs xs x }
    {
        is_marked(self.all.as_slice(), slot)
            && (is_one_of(slot, states) || self.is_one_above_part(dag.child_slots(slot)))
    }

    /// Whether the state of one of these slots is at or above some of the states and not all.
    fn is_one_above_part(&self, slots: &[Slot]) -> bool
        ensures { result ≡ list_any (is_part_marked self.now) slots.now }
    {
        for slot in slots {
            if self.is_above_part(*slot) {
                return true;
            }
        }
        false
    }
}

/// One more than the greatest number of a kept state's slot.
fn number_end(dag: &StateDag) -> usize
    ensures { HasNumbersBelow dag.now result }
{
    let mut end = 0;
    for slot in dag.kept_slots() {
        end = end.max(slot.0 as usize + 1);
    }
    end
}

/// So many marks, by slot number: those of the states at or above that of this slot.
///
/// A kept state is at or above it where it is the one, or a child of it or the stand-in of a child is at or above it. These
/// arrived later, so the states are gone over from the newest to the oldest.
fn above(alloc: Global, dag: &StateDag, count: usize, state: Slot) -> Result<Vec<bool>, NoMemory>
    requires count { HasNumbersBelow dag.now count }
    requires state { IsTrue (is_slot dag.now state) }
    ensures count { IfOk result (λ marks. length marks.items ≡ count) }
    ensures above { (rs : List Record) (ks : List StateId) → Stands dag.now rs ks → IfOk result (λ marks. AreAbove dag.now state marks.items) }
{
    let mut marks = vec![in alloc; false; count]?;
    let slots = dag.kept_slots();
    for place in (0..slots.len()).rev() {
        let slot = slots[place];
        let is_above = slot == state || is_one_marked(marks.as_slice(), dag.child_slots(slot));
        marks[slot.0 as usize] = is_above;
    }
    Ok(marks)
}

/// Marks what is marked among these.
fn widen(marks: &mut Vec<bool>, others: &[bool])
    requires { length others.now ≡ length marks.old.items }
    ensures count { length marks.new.items ≡ length marks.old.items }
    ensures marks { (s : Slot) → s.0 < length marks.old.items → is_marked marks.new.items s ≡ (is_marked marks.old.items s || is_marked others.now s) }
{
    for place in 0..others.len() {
        if others[place] {
            marks[place] = true;
        }
    }
}

/// Leaves what is marked among these.
fn narrow(marks: &mut Vec<bool>, others: &[bool])
    requires { length others.now ≡ length marks.old.items }
    ensures count { length marks.new.items ≡ length marks.old.items }
    ensures marks { (s : Slot) → s.0 < length marks.old.items → is_marked marks.new.items s ≡ (is_marked marks.old.items s && is_marked others.now s) }
{
    for place in 0..others.len() {
        if !others[place] {
            marks[place] = false;
        }
    }
}

/// Whether one of these slots is marked.
fn is_one_marked(marks: &[bool], slots: &[Slot]) -> bool
    ensures { result ≡ list_any (is_marked marks.now) slots.now }
{
    for slot in slots {
        if is_marked(marks, *slot) {
            return true;
        }
    }
    false
}

/// Whether the slot is marked. One without a mark isn't.
fn is_marked(marks: &[bool], slot: Slot) -> bool
    ensures { result ≡ is_marked marks.now slot }
{
    match marks.get(slot.0 as usize) {
        Some(mark) => *mark,
        None => false,
    }
}
