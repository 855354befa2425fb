//! What several states share and don't share among the older states.

ghost use Rattle.std.specs.Prelude.{◌≡◌, Some, List, map, filter, IsTrue, IfOk};
ghost use Rattle.std.specs.List.{list_all};
ghost use Rattle.tardis_base.specs.declared.ids.StateId.{StateId};
ghost use Rattle.tardis_base.specs.declared.records.Record.{Record};
ghost use Rattle.plain_dag.specs.Collection.{kept_states};
ghost use Rattle.state_dag.specs.Table.{id_at, is_slot};
ghost use Rattle.state_dag.specs.Stands.{Stands};
ghost use Rattle.branch_region.specs.Regions.{is_above_part, is_last_shared};
ghost use Rattle.branch_region.specs.Walks.{is_until};

use crate::marks::Marks;
use crate::parts::Region;
use state_dag::StateDag;
use std::alloc::Global;
use tardis_base::{NoMemory, Slot};

/// What of the region of these states arrived before the one of this number. Each kept state is tried, by its
/// marks.
pub(crate) fn older(
    alloc: Global,
    dag: &StateDag,
    states: &[Slot],
    bound: u64,
) -> Result<Region, NoMemory>
    requires { IsTrue (list_all (is_slot dag.now) states.now) }
    ensures slots { IfOk result (λ region. IsTrue (list_all (is_slot dag.now) region.apart.items) × IsTrue (list_all (is_slot dag.now) region.shared.items)) }
    ensures apart { (rs : List Record) (ks : List StateId) → Stands dag.now rs ks → (xs : List StateId)
        → map (id_at dag.now) states.now ≡ map (λ x. Some x) xs
        → IfOk result (λ region. map (id_at dag.now) region.apart.items
        ≡ map (λ x. Some x) (filter (is_until rs bound (λ x. is_above_part rs x xs)) (kept_states rs ks))) }
    ensures shared { (rs : List Record) (ks : List StateId) → Stands dag.now rs ks → (xs : List StateId)
        → map (id_at dag.now) states.now ≡ map (λ x. Some x) xs
        → IfOk result (λ region. map (id_at dag.now) region.shared.items
        ≡ map (λ x. Some x) (filter (is_until rs bound (is_last_shared rs xs)) (kept_states rs ks))) }
{
    let marks = Marks::of(alloc, dag, states)?;
    let mut apart = Vec::new(alloc);
    let mut shared = Vec::new(alloc);
    for slot in dag.kept_slots() {
        if bound <= dag.arrival(*slot) {
            return Ok(Region { apart, shared });
        }
        if marks.is_above_part(*slot) {
            apart.push(*slot)?;
        } else if marks.is_last_shared(dag, *slot, states) {
            shared.push(*slot)?;
        }
    }
    Ok(Region { apart, shared })
}
