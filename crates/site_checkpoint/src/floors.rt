//! Which floors may stand at the end of a checkpoint. The rule is stated in `docs/MODEL.md`, 'Checkpoints'.

ghost use Rattle.std.specs.Prelude.{◌≡◌, ◌||◌, not, List, Some, map, IsTrue};
ghost use Rattle.std.specs.List.{list_all};
ghost use Rattle.tardis_base.specs.declared.ids.StateId.{StateId};
ghost use Rattle.tardis_base.specs.declared.records.Record.{Record};
ghost use Rattle.plain_dag.specs.States.{parents_of};
ghost use Rattle.plain_dag.specs.Above.{is_above_all};
ghost use Rattle.plain_dag.specs.Collection.{is_kept};
ghost use Rattle.plain_dag.specs.Floors.{Floor, is_closed};
ghost use Rattle.state_dag.specs.Table.{id_at, is_slot};
ghost use Rattle.state_dag.specs.Stands.{Stands};
ghost use Rattle.plain_checkpoint.specs.Checkpoints.{Told};
ghost use Rattle.site_checkpoint.specs.Stands.{LoadedStands};
ghost use Rattle.site_checkpoint.specs.Floors.{is_alone_or_above};

use crate::Checkpoint;
use crate::arrivals::are_kept;
use state_dag::StateDag;
use tardis_base::Slot;

impl Checkpoint {
    /// Whether each collected state is closed under floors at these slots: a proper ancestor of each.
    ///
    /// A kept state that stands in for no other has kept parents alone; of each other one an ancestry is asked for each floor. So
    /// the cost grows with the number of kept states, for each parent of them with its logarithm, and with those ancestries.
    pub fn has_closed(&self, floors: &[Slot]) -> bool
        requires { IsTrue (list_all (is_slot self.now.store.table) floors.now) }
        ensures { (t : Told) → LoadedStands self.now t → (fs : List Floor) → map (id_at self.now.store.table) floors.now ≡ map (λ f. Some f.state) fs
            → result ≡ list_all (is_closed t.dag fs) t.collected }
    {
        let dag = self.store.dag();
        for slot in dag.kept_slots() {
            if !is_alone_or_above(dag, *slot, floors) {
                return false;
            }
        }
        true
    }
}

/// Whether the state at the slot has kept parents alone, or is at or above each of those at the others.
fn is_alone_or_above(dag: &StateDag, slot: Slot, others: &[Slot]) -> bool
    requires slot { IsTrue (is_slot dag.now slot) }
    requires others { IsTrue (list_all (is_slot dag.now) others.now) }
    ensures { (rs : List Record) (ks : List StateId) → Stands dag.now rs ks → (x : StateId) → id_at dag.now slot ≡ Some x
        → (ys : List StateId) → map (id_at dag.now) others.now ≡ map (λ y. Some y) ys → result ≡ is_alone_or_above rs ks ys x }
{
    are_kept(dag, dag.parents(slot)) || is_above_all(dag, slot, others)
}

/// Whether the state at the slot is at or above each of those at the others.
fn is_above_all(dag: &StateDag, slot: Slot, others: &[Slot]) -> bool
    requires slot { IsTrue (is_slot dag.now slot) }
    requires others { IsTrue (list_all (is_slot dag.now) others.now) }
    ensures { (rs : List Record) (ks : List StateId) → Stands dag.now rs ks → (x : StateId) → id_at dag.now slot ≡ Some x
        → (ys : List StateId) → map (id_at dag.now) others.now ≡ map (λ y. Some y) ys → result ≡ is_above_all rs x ys }
{
    for other in others {
        if !dag.is_ancestor(slot, *other) {
            return false;
        }
    }
    true
}
