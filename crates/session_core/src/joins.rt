//! What a layer above asks of a site beside requests: whether a session may begin, and a merge in one step.

ghost use Rattle.std.specs.Prelude.{◌≡◌, None, List, Some, map, IsTrue, IfOk};
ghost use Rattle.std.specs.List.{list_all};
ghost use Rattle.tardis_base.specs.declared.ids.StateId.{StateId};
ghost use Rattle.plain_dag.specs.Entries.{entry_of};
ghost use Rattle.state_dag.specs.Table.{id_at, is_slot};
ghost use Rattle.ceiling_book.specs.Book.{is_open};
ghost use Rattle.plain_site.specs.Site.{Site};
ghost use Rattle.session_core.specs.Gives.{Gives};
ghost use Rattle.session_core.specs.Joins.{begin_refusal, merge_in_one, IsMergeEnd, MayBeMerged, WritesBelow, MergesBelow};
ghost use Rattle.session_core.specs.Machine.{SiteStands, opened_with};

use crate::{Parts, SiteCore};
use site_answers::{Stop, states_of, told};
use tardis_base::{NoMemory, Refusal, Reply, Slot, StateId, WriteSet};

impl Parts {
    /// Commits a merge of the states of these slots with these writes, in one step.
    fn commit_merge(&mut self, actor: u16, below: &[Slot], writes: WriteSet) -> Result<Reply, Stop>
        requires { IsTrue (list_all (is_slot self.old.store.table) below.now) }
        ensures { MergesBelow self.old self.new actor below.now writes result }
    {
        self.no_txn(actor)?;
        self.commit_written(actor, below, writes)
    }

    /// Adds the next state of the site below the states of these slots, as the session's commit.
    fn commit_written(
        &mut self,
        actor: u16,
        below: &[Slot],
        writes: WriteSet,
    ) -> Result<Reply, Stop>
        requires open { IsTrue (is_open self.old.book actor) }
        requires none { entry_of actor self.old.txns ≡ None }
        requires slots { IsTrue (list_all (is_slot self.old.store.table) below.now) }
        ensures { WritesBelow self.old self.new actor below.now writes result }
    {
        let own = self.book.own_site();
        let count = self.store.dag().count(own);
        if count == u32::MAX {
            return Err(Stop::Refused(Refusal::SeqEnd));
        }
        let id = StateId {
            site: own,
            sequence: count + 1,
        };
        let parents = states_of(self.alloc, self.store.dag(), below)?;
        let mut moved = writes;
        match self.store.commit(id, below, &mut moved) {
            Ok(slot) => {
                self.book.committed(self.store.dag(), actor, slot);
                Ok(Reply::Committed { id, parents })
            },
            Err(fault) => Err(Stop::from(fault)),
        }
    }
}

impl SiteCore {
    /// Why the actor may begin no transaction: no session of it is open (NotOpen), or it has one (TxnOpen).
    pub fn begin_refusal(&self, actor: u16) -> Option<Refusal>
        ensures { (site : Site) → SiteStands self.now site → result ≡ begin_refusal site actor }
    {
        match self.parts.no_txn(actor) {
            Ok(()) => None,
            Err(refusal) => Some(refusal),
        }
    }

    /// Commits a merge of the states of these slots with these writes, in one step. What is refused is as `begin_refusal`
    /// says, and then as for the commit of a merge: SeqEnd, Full and PathFull. With no memory the site is as before.
    ///
    /// The cost is that of `RecordStore::commit`.
    pub fn commit_merge(
        &mut self,
        actor: u16,
        below: &[Slot],
        writes: WriteSet,
    ) -> Result<Reply, NoMemory>
        requires slots { IsTrue (list_all (is_slot self.old.store.table) below.now) }
        requires merges { (site : Site) → SiteStands self.old site → (xs : List StateId)
            → map (id_at self.old.store.table) below.now ≡ map (λ x. Some x) xs → MayBeMerged site xs writes }
        ensures given { (site : Site) → SiteStands self.old site → (xs : List StateId)
            → map (id_at self.old.store.table) below.now ≡ map (λ x. Some x) xs
            → Gives (SiteStands self.new) (merge_in_one site actor xs writes) site result }
        ensures end { IfOk result (λ reply. IsMergeEnd reply) }
        ensures opening { opened_with self.new ≡ opened_with self.old }
    {
        told(self.parts.commit_merge(actor, below, writes))
    }
}
