//! At which states a merge may begin. The rule is stated in `docs/MODEL.md`.

ghost use Rattle.std.specs.Prelude.{◌≡◌, Some, None, List, map, find, IsTrue, IfOk, OnOk, IfSome};
ghost use Rattle.std.specs.List.{list_all};
ghost use Rattle.std.specs.Option.{option_and_then};
ghost use Rattle.tardis_base.specs.declared.ids.StateId.{StateId};
ghost use Rattle.tardis_base.specs.declared.records.Record.{Record};
ghost use Rattle.tardis_base.specs.Ids.{is_among};
ghost use Rattle.plain_dag.specs.Above.{is_proper_ancestor, are_comparable, comparable_pair};
ghost use Rattle.state_dag.specs.Table.{id_at, is_slot, is_listed};
ghost use Rattle.state_dag.specs.Stands.{Stands};
ghost use Rattle.plain_dag.specs.Begin.{first_unknown};
ghost use Rattle.begin_rule.specs.Choices.{ChosenAllAs, AdmittedAllAs};

use crate::{BeginFault, admitted};
use state_dag::StateDag;
use std::alloc::Global;
use std::error::Error;
use std::fmt;
use tardis_base::{ListOf, NoMemory, Slot, StateId};

/// Why a merge may not begin at the states that were named.
#[derive(Clone, Copy, Debug)]
pub enum MergeFault {
    /// There is no such state here.
    Unknown { state: StateId },
    /// The state is a proper ancestor of the session's ceiling.
    Below { state: StateId, ceiling: StateId },
    /// One of these is at or above the other.
    Comparable { a: StateId, b: StateId },
    NoMemory,
}

impl fmt::Display for MergeFault {
    fn fmt<W: fmt::Write>(&self, f: &mut fmt::Formatter<W>) -> fmt::Result {
        match *self {
            MergeFault::Unknown { state } => write!(f, "{}", BeginFault::Unknown { state }),
            MergeFault::Below { state, ceiling } => {
                write!(f, "{}", BeginFault::Below { state, ceiling })
            },
            MergeFault::Comparable { a, b } => write!(
                f,
                "of the states {a} and {b} one is at or above the other: merge without one of them"
            ),
            MergeFault::NoMemory => f.write_str("out of memory"),
        }
    }
}

impl Error for MergeFault {}

impl From<BeginFault> for MergeFault {
    ghost use Rattle.std.specs.Prelude.{◌≡◌};
    ghost use Rattle.begin_rule.specs.Faults.{merge_fault};

    ghost from_gives = { λ fault told. told ≡ merge_fault fault };

    fn from(fault: BeginFault) -> MergeFault {
        match fault {
            BeginFault::Unknown { state } => MergeFault::Unknown { state },
            BeginFault::Below { state, ceiling } => MergeFault::Below { state, ceiling },
        }
    }
}

impl From<NoMemory> for MergeFault {
    ghost use Rattle.std.specs.Prelude.{◌≡◌};
    ghost use Rattle.begin_rule.specs.declared.merges.MergeFault.TheVariants.{NoMemory as OutOfMemory};

    ghost from_gives = { λ _ fault. fault ≡ OutOfMemory };

    fn from(_: NoMemory) -> MergeFault {
        MergeFault::NoMemory
    }
}

/// The slots of these states, if a merge may begin there: all are known, admitted under the ceiling, and none is at or above
/// another. Each of these is asked of all states, in their order, before the next. Memory is taken once all are admitted.
///
/// The cost grows with the square of the number of these states, and for each of them with the logarithm of the number of
/// kept states; each ancestry that is asked costs what `StateDag::is_ancestor` does.
pub fn choose_all(
    alloc: Global,
    dag: &StateDag,
    states: &[StateId],
    ceiling: Slot,
) -> Result<ListOf<Slot>, MergeFault>
    requires { IsTrue (is_slot dag.now ceiling) }
    ensures slots { IfOk result (λ slots. IsTrue (list_all (is_slot dag.now) slots)) }
    ensures chosen { (rs : List Record) (ks : List StateId) → Stands dag.now rs ks → (c : StateId) → id_at dag.now ceiling ≡ Some c
        → ((x : StateId) → IsTrue (is_among x ks) → IsTrue (is_proper_ancestor rs x c)) → ChosenAllAs dag.now rs c states.now result }
{
    if let Some(state) = first_unknown(dag, states) {
        return Err(MergeFault::Unknown { state });
    }
    admit_all(dag, states, ceiling)?;
    let slots = slots_of(alloc, dag, states)?;
    match comparable_pair(dag, slots.as_slice()) {
        Some((a, b)) => Err(MergeFault::Comparable { a, b }),
        None => Ok(slots),
    }
}

/// The first of these states that isn't known.
fn first_unknown(dag: &StateDag, states: &[StateId]) -> Option<StateId>
    ensures { (rs : List Record) (ks : List StateId) → Stands dag.now rs ks → result ≡ first_unknown rs states.now }
{
    for state in states {
        if !dag.knows(*state) {
            return Some(*state);
        }
    }
    None
}

/// Whether the ceiling admits these known states; else the fault of the first that it doesn't. It takes no memory.
fn admit_all(dag: &StateDag, states: &[StateId], ceiling: Slot) -> Result<(), BeginFault>
    requires { IsTrue (is_slot dag.now ceiling) }
    ensures kept { OnOk result (IsTrue (list_all (is_listed dag.now) states.now)) }
    ensures admitted { (rs : List Record) (ks : List StateId) → Stands dag.now rs ks → (c : StateId) → id_at dag.now ceiling ≡ Some c
        → ((x : StateId) → IsTrue (is_among x ks) → IsTrue (is_proper_ancestor rs x c)) → first_unknown rs states.now ≡ None
        → AdmittedAllAs rs c states.now result }
{
    for state in states {
        admitted(dag, *state, ceiling)?;
    }
    Ok(())
}

/// The slots of these kept states, in their order.
fn slots_of(alloc: Global, dag: &StateDag, states: &[StateId]) -> Result<ListOf<Slot>, NoMemory>
    requires { IsTrue (list_all (is_listed dag.now) states.now) }
    ensures slots { IfOk result (λ slots. IsTrue (list_all (is_slot dag.now) slots)) }
    ensures named { IfOk result (λ slots. map (id_at dag.now) slots ≡ map (λ x. Some x) states.now) }
{
    let mut slots = ListOf::new(alloc);
    for state in states {
        match dag.slot_of(*state) {
            Some(slot) => slots.push(slot)?,
            None => unreachable!(),
        }
    }
    Ok(slots)
}

/// The first two of these states that are comparable, by the place of the one and then of the other. It takes no memory.
///
/// Of each two an ancestry is asked in both directions.
pub fn comparable_pair(dag: &StateDag, slots: &[Slot]) -> Option<(StateId, StateId)>
    requires { IsTrue (list_all (is_slot dag.now) slots.now) }
    ensures { (rs : List Record) (ks : List StateId) → Stands dag.now rs ks → (xs : List StateId)
        → map (id_at dag.now) slots.now ≡ map (λ x. Some x) xs → result ≡ comparable_pair rs xs }
{
    for place in 0..slots.len() {
        if let Some(other) = first_comparable(dag, slots[place], &slots[place + 1..]) {
            return Some((dag.id_of(slots[place]), dag.id_of(other)));
        }
    }
    None
}

/// The first of these that is at or above the state of this slot, or that this is at or above.
fn first_comparable(dag: &StateDag, slot: Slot, others: &[Slot]) -> Option<Slot>
    requires slot { IsTrue (is_slot dag.now slot) }
    requires others { IsTrue (list_all (is_slot dag.now) others.now) }
    ensures slot { IfSome result (λ other. IsTrue (is_slot dag.now other)) }
    ensures first { (rs : List Record) (ks : List StateId) → Stands dag.now rs ks → (x : StateId) (ys : List StateId) → id_at dag.now slot ≡ Some x
        → map (id_at dag.now) others.now ≡ map (λ y. Some y) ys → option_and_then (id_at dag.now) result ≡ find (are_comparable rs x) ys }
{
    for other in others {
        if are_comparable(dag, slot, *other) {
            return Some(*other);
        }
    }
    None
}

/// Whether the state of one of these slots is at or above that of the other.
fn are_comparable(dag: &StateDag, a: Slot, b: Slot) -> bool
    requires first { IsTrue (is_slot dag.now a) }
    requires second { IsTrue (is_slot dag.now b) }
    ensures { (rs : List Record) (ks : List StateId) → Stands dag.now rs ks → (x y : StateId) → id_at dag.now a ≡ Some x → id_at dag.now b ≡ Some y
        → result ≡ are_comparable rs x y }
{
    dag.is_ancestor(a, b) || dag.is_ancestor(b, a)
}
