//! Why nothing is told of states: one isn't known, or one was collected.

ghost use Rattle.std.specs.Prelude.{◌≡◌, false, List, Some, map, find, IsTrue, IfOk};
ghost use Rattle.std.specs.List.{list_all};
ghost use Rattle.tardis_base.specs.declared.ids.StateId.{StateId};
ghost use Rattle.tardis_base.specs.declared.records.Record.{Record};
ghost use Rattle.tardis_base.specs.Ids.{is_among};
ghost use Rattle.plain_dag.specs.Begin.{first_unknown};
ghost use Rattle.plain_dag.specs.Collection.{is_kept};
ghost use Rattle.state_dag.specs.Table.{id_at, is_slot};
ghost use Rattle.state_dag.specs.Stands.{Stands};
ghost use Rattle.plain_site.specs.Site.{Site};
ghost use Rattle.plain_questions.specs.Answer.{denial};
ghost use Rattle.site_questions.specs.Kept.{FindsKept, IsDenied};

use plain_questions::Denial;
use state_dag::StateDag;
use std::alloc::Global;
use tardis_base::{NoMemory, Slot, StateId};

/// The slot of the state, or why nothing is told of it.
pub fn kept_slot(dag: &StateDag, state: StateId) -> Result<Slot, Denial>
    ensures slot { IfOk result (λ slot. IsTrue (is_slot dag.now slot)) }
    ensures found { (site : Site) → Stands dag.now site.dag site.collected → FindsKept dag.now site state result }
{
    match dag.slot_of(state) {
        Some(slot) => Ok(slot),
        None => Err(missing(dag, state)),
    }
}

/// Why nothing is told of this state, which isn't kept.
fn missing(dag: &StateDag, state: StateId) -> Denial
    ensures { (site : Site) → Stands dag.now site.dag site.collected → is_kept site.dag site.collected state ≡ false → IsDenied site state result }
{
    if dag.knows(state) {
        Denial::Collected { state }
    } else {
        Denial::Unknown { state }
    }
}

/// Why nothing is told of these states: the first that isn't known, or else the first that was collected.
pub fn denial_of(dag: &StateDag, states: &[StateId]) -> Option<Denial>
    ensures { (site : Site) → Stands dag.now site.dag site.collected → result ≡ denial site states.now }
{
    match unknown_of(dag, states) {
        Some(state) => Some(Denial::Unknown { state }),
        None => match collected_of(dag, states) {
            Some(state) => Some(Denial::Collected { state }),
            None => None,
        },
    }
}

/// The first of these states that isn't known.
fn unknown_of(dag: &StateDag, states: &[StateId]) -> Option<StateId>
    ensures { (rs : List Record) (ks : List StateId) → Stands dag.now rs ks → result ≡ first_unknown rs states.now }
{
    for state in states {
        if !dag.knows(*state) {
            return Some(*state);
        }
    }
    None
}

/// The first of these states that was collected.
fn collected_of(dag: &StateDag, states: &[StateId]) -> Option<StateId>
    ensures { (rs : List Record) (ks : List StateId) → Stands dag.now rs ks → result ≡ find (λ x. is_among x ks) states.now }
{
    for state in states {
        if is_collected(dag, *state) {
            return Some(*state);
        }
    }
    None
}

/// Whether the state was collected.
fn is_collected(dag: &StateDag, state: StateId) -> bool
    ensures { (rs : List Record) (ks : List StateId) → Stands dag.now rs ks → result ≡ is_among state ks }
{
    dag.knows(state) && !is_in_table(dag, state)
}

/// Whether the state is kept.
pub fn is_in_table(dag: &StateDag, state: StateId) -> bool
    ensures { (rs : List Record) (ks : List StateId) → Stands dag.now rs ks → result ≡ is_kept rs ks state }
{
    match dag.slot_of(state) {
        Some(_) => true,
        None => false,
    }
}

/// The slots of those of these states that are kept, in their order.
pub fn kept_slots(alloc: Global, dag: &StateDag, states: &[StateId]) -> Result<Vec<Slot>, NoMemory>
    ensures slots { IfOk result (λ slots. IsTrue (list_all (is_slot dag.now) slots.items)) }
    ensures named { (rs : List Record) (ks : List StateId) → Stands dag.now rs ks → IsTrue (list_all (is_kept rs ks) states.now)
        → IfOk result (λ slots. map (id_at dag.now) slots.items ≡ map (λ x. Some x) states.now) }
{
    let mut slots = Vec::new(alloc);
    for state in states {
        if let Some(slot) = dag.slot_of(*state) {
            slots.push(slot)?;
        }
    }
    Ok(slots)
}
