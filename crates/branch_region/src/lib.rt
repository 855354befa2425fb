//! The region of several states: what lies between them and the states that all of them share. The rule is stated in
//! `docs/MODEL.md`.
#![tactic(auto)]

ghost use Rattle.std.specs.Prelude.{◌≡◌, Some, List, map, IsTrue, IfOk};
ghost use Rattle.std.specs.List.{list_all};
ghost use Rattle.tardis_base.specs.declared.ids.StateId.{StateId};
ghost use Rattle.tardis_base.specs.declared.records.Record.{Record};
ghost use Rattle.state_dag.specs.Table.{id_at, is_slot};
ghost use Rattle.state_dag.specs.Stands.{Stands};
ghost use Rattle.branch_region.specs.Regions.{is_above_part, apart_states, shared_states};

mod asked;
mod marks;
mod older;
mod parts;
mod walks;

use older::older;
pub use parts::Region;
use parts::joined;
use state_dag::StateDag;
use std::alloc::Global;
use tardis_base::{NoMemory, Slot};
use walks::{Step, Walk};

/// The region of these states.
///
/// It is found by going up from the states along parents, so the cost grows with the number of states that are answered and
/// their parents and the logarithm of the number of kept states; for each of them an ancestry is asked for each of the
/// states, at the cost of `StateDag::is_ancestor`. Where a state apart has a collected parent, all kept states and their
/// children are gone over besides, once for each of the states and with no ancestry; that takes three bytes for each slot.
pub fn region(alloc: Global, dag: &StateDag, states: &[Slot]) -> Result<Region, NoMemory>
    requires { IsTrue (list_all (is_slot dag.now) states.now) }
    ensures slots { IfOk result (λ region. IsTrue (list_all (is_slot dag.now) region.apart.items) × IsTrue (list_all (is_slot dag.now) region.shared.items)) }
    ensures apart { (rs : List Record) (ks : List StateId) → Stands dag.now rs ks → (xs : List StateId)
        → map (id_at dag.now) states.now ≡ map (λ x. Some x) xs
        → IfOk result (λ region. map (id_at dag.now) region.apart.items ≡ map (λ x. Some x) (apart_states rs ks xs)) }
    ensures shared { (rs : List Record) (ks : List StateId) → Stands dag.now rs ks → (xs : List StateId)
        → map (id_at dag.now) states.now ≡ map (λ x. Some x) xs
        → IfOk result (λ region. map (id_at dag.now) region.shared.items ≡ map (λ x. Some x) (shared_states rs ks xs)) }
{
    let mut walk = Walk::new(alloc, dag, states)?;
    for _place in 0..dag.kept() {
        match walk.step(dag, states)? {
            Step::Noted => {},
            Step::Over => return Ok(walk.noted()),
            Step::Behind(arrival) => {
                return joined(older(alloc, dag, states, arrival)?, walk.noted());
            },
        }
    }
    Ok(walk.noted())
}

/// Whether the state of this slot is at or above some of these states, and not at or above all of them. It takes no memory,
/// and asks an ancestry for each of the states.
pub fn is_above_part(dag: &StateDag, slot: Slot, states: &[Slot]) -> bool
    requires slot { IsTrue (is_slot dag.now slot) }
    requires states { IsTrue (list_all (is_slot dag.now) states.now) }
    ensures { (rs : List Record) (ks : List StateId) → Stands dag.now rs ks → (x : StateId) → id_at dag.now slot ≡ Some x → (xs : List StateId)
        → map (id_at dag.now) states.now ≡ map (λ y. Some y) xs → result ≡ is_above_part rs x xs }
{
    asked::is_above_part(dag, slot, states)
}
