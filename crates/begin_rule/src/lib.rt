//! Where a transaction begins. The rule is stated in `docs/MODEL.md`.
#![tactic(auto)]

ghost use Rattle.std.specs.Prelude.{◌≡◌, Some, List, IsTrue, IfOk};
ghost use Rattle.tardis_base.specs.declared.ids.StateId.{StateId};
ghost use Rattle.tardis_base.specs.declared.records.Record.{Record};
ghost use Rattle.tardis_base.specs.Ids.{same_id, is_among};
ghost use Rattle.plain_dag.specs.States.{is_known};
ghost use Rattle.plain_dag.specs.Above.{is_proper_ancestor};
ghost use Rattle.plain_dag.specs.Begin.{begin_state, last_below};
ghost use Rattle.plain_dag.specs.Collection.{stand_in};
ghost use Rattle.state_dag.specs.Table.{id_at, is_slot};
ghost use Rattle.state_dag.specs.Stands.{Stands};
ghost use Rattle.begin_rule.specs.Choices.{ChosenAs};

mod merges;

pub use merges::{MergeFault, choose_all, comparable_pair};
use state_dag::StateDag;
use std::error::Error;
use std::fmt;
use tardis_base::{Begin, Slot, StateId};

/// Why a transaction may not begin where it was to begin.
#[derive(Clone, Copy, Debug)]
pub enum BeginFault {
    /// There is no such state here.
    Unknown { state: StateId },
    /// The state is a proper ancestor of the session's ceiling.
    Below { state: StateId, ceiling: StateId },
}

impl fmt::Display for BeginFault {
    fn fmt<W: fmt::Write>(&self, f: &mut fmt::Formatter<W>) -> fmt::Result {
        match *self {
            BeginFault::Unknown { state } => write!(f, "the state {state} has not arrived here"),
            BeginFault::Below { state, ceiling } => write!(
                f,
                "the state {state} is above the session's ceiling {ceiling}: begin at the ceiling, or at a state that is not above it"
            ),
        }
    }
}

impl Error for BeginFault {}

/// The slot of the state that a transaction of this session reads.
///
/// `last` is the session's last commit, and `last_slot` the slot of the state that stands in for it. The cost of Ancestor
/// grows with the number of leaves that arrived after the answer, that of the others with the logarithm of the number of
/// kept states; each ancestry that is asked costs what `StateDag::is_ancestor` does.
pub fn choose(
    dag: &StateDag,
    begin: &Begin,
    last: StateId,
    last_slot: Slot,
    ceiling: Slot,
) -> Result<Slot, BeginFault>
    requires last { IsTrue (is_slot dag.now last_slot) }
    requires ceiling { IsTrue (is_slot dag.now ceiling) }
    ensures slot { IfOk result (λ slot. IsTrue (is_slot dag.now slot)) }
    ensures chosen { (rs : List Record) (ks : List StateId) → Stands dag.now rs ks → (c : StateId) → id_at dag.now ceiling ≡ Some c
        → IsTrue (is_known rs last) → id_at dag.now last_slot ≡ Some (stand_in rs ks last)
        → ((x : StateId) → IsTrue (is_among x ks) → IsTrue (is_proper_ancestor rs x c))
        → ChosenAs dag.now rs c (begin_state rs last begin.now) result }
{
    match *begin {
        Begin::Any => Ok(dag.last()),
        Begin::Ancestor => Ok(newest_below(dag, last_slot)),
        Begin::Parent => admitted(dag, last, ceiling),
        Begin::At(state) => {
            if dag.knows(state) {
                admitted(dag, state, ceiling)
            } else {
                Err(BeginFault::Unknown { state })
            }
        },
    }
}

/// The slot of the state that arrived last of those at or below the state of this slot. It is a leaf.
fn newest_below(dag: &StateDag, slot: Slot) -> Slot
    requires { IsTrue (is_slot dag.now slot) }
    ensures slot { IsTrue (is_slot dag.now result) }
    ensures newest { (rs : List Record) (ks : List StateId) → Stands dag.now rs ks → (last : StateId) → IsTrue (is_known rs last)
        → id_at dag.now slot ≡ Some (stand_in rs ks last) → id_at dag.now result ≡ Some (last_below rs last) }
{
    let leaves = dag.leaf_slots();
    for place in (0..leaves.len()).rev() {
        if dag.is_ancestor(slot, leaves[place]) {
            return leaves[place];
        }
    }
    slot
}

/// The slot of this known state, if the ceiling admits it.
pub(crate) fn admitted(dag: &StateDag, state: StateId, ceiling: Slot) -> Result<Slot, BeginFault>
    requires { IsTrue (is_slot dag.now ceiling) }
    ensures slot { IfOk result (λ slot. IsTrue (is_slot dag.now slot)) }
    ensures named { IfOk result (λ slot. id_at dag.now slot ≡ Some state) }
    ensures chosen { (rs : List Record) (ks : List StateId) → Stands dag.now rs ks → (c : StateId) → id_at dag.now ceiling ≡ Some c
        → IsTrue (is_known rs state) → ((x : StateId) → IsTrue (is_among x ks) → IsTrue (is_proper_ancestor rs x c))
        → ChosenAs dag.now rs c state result }
{
    let limit = dag.id_of(ceiling);
    let below = BeginFault::Below {
        state,
        ceiling: limit,
    };
    match dag.slot_of(state) {
        Some(slot) => {
            if dag.is_ancestor(slot, ceiling) && !is_same(state, limit) {
                Err(below)
            } else {
                Ok(slot)
            }
        },
        None => Err(below),
    }
}

fn is_same(a: StateId, b: StateId) -> bool
    ensures { result ≡ same_id a b }
{
    a == b
}
