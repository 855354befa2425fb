//! Rows of states that write nothing.

ghost use Rattle.std.specs.Prelude.{◌≡◌, ℕ, [], List, Some, IsTrue, IfOk, OnOk, OnErr, replicate};
ghost use Rattle.tardis_base.specs.declared.ids.StateId.{StateId};
ghost use Rattle.tardis_base.specs.declared.ids.Slot.{Slot};
ghost use Rattle.tardis_base.specs.declared.records.Record.{Record};
ghost use Rattle.plain_dag.specs.States.{is_known};
ghost use Rattle.plain_dag.specs.Writers.{read};
ghost use Rattle.plain_dag.specs.Begin.{last_arrived};
ghost use Rattle.plain_dag.specs.Collection.{stand_in};
ghost use Rattle.plain_dag.specs.Rows.{lengthened, row_left};
ghost use Rattle.state_dag.specs.Table.{id_at, is_slot};
ghost use Rattle.state_dag.specs.Rows.{further, AdvancedBy};
ghost use Rattle.record_store.specs.Stands.{StoreStands};

use crate::RecordStore;
use state_dag::RowFault;
use tardis_base::Slot;

impl RecordStore {
    /// So many further states of the site, which write nothing, arrive in a row: the first below the state that arrived last and
    /// each other below the one before it, and each of these joins the collected ones as soon as the next has arrived. It answers
    /// the slot of the last, which is that of the state that had arrived last before.
    ///
    /// What is read at the kept states stays, and is read at the last of the row as it was at the state above the row. After a
    /// fault the store is as before.
    ///
    /// It takes constant time, whichever the number of states, but for the look-up of an id, whose cost grows with the logarithm
    /// of the number of kept states; for that alone it may take memory. No version moves. What a row means is stated in
    /// `docs/MODEL.md`.
    pub fn advance(&mut self, site: u16, count: u32) -> Result<Slot, RowFault>
        ensures advanced { AdvancedBy self.old.table self.new.table site count result }
        ensures versions { self.new.versions ≡ self.old.versions }
        ensures stands { OnOk result ((rs : List Record) (ks : List StateId) → StoreStands self.old rs ks
            → StoreStands self.new (lengthened rs site (replicate count [])) (row_left rs ks site (replicate count []))) }
        ensures last { IfOk result (λ slot. (rs : List Record) (ks : List StateId) → StoreStands self.old rs ks
            → id_at self.old.table slot ≡ Some (last_arrived rs)) }
        ensures slot { IfOk result (λ slot. id_at self.new.table slot ≡ Some (further self.old.table site count)) }
        ensures names { IfOk result (λ slot. (s : Slot) → (s ≡ slot → ⊥) → id_at self.new.table s ≡ id_at self.old.table s) }
        ensures kept { (s : Slot) → is_slot self.new.table s ≡ is_slot self.old.table s }
        ensures stand_ins { OnOk result ((rs : List Record) (ks : List StateId) → StoreStands self.old rs ks → (z : StateId) (s : Slot)
            → IsTrue (is_known rs z) → id_at self.old.table s ≡ Some (stand_in rs ks z)
            → id_at self.new.table s
            ≡ Some (stand_in (lengthened rs site (replicate count [])) (row_left rs ks site (replicate count [])) z)) }
        ensures reads { OnOk result ((rs : List Record) (ks : List StateId) → StoreStands self.old rs ks → (z : StateId) (k : List ℕ)
            → IsTrue (is_known rs z)
            → read (lengthened rs site (replicate count [])) k
            (stand_in (lengthened rs site (replicate count [])) (row_left rs ks site (replicate count [])) z)
            ≡ read rs k (stand_in rs ks z)) }
        ensures limits { self.new.table.limits ≡ self.old.table.limits }
        ensures same { OnErr result (self.new ≡ self.old) }
    {
        self.notes.clear();
        self.dag.advance(site, count)
    }
}
