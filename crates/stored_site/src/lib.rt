//! A site whose store is lent: what commands ask of one that look into the history, or merge its leaves in one step.
#![tactic(auto)]

ghost use Rattle.std.specs.Prelude.{◌≡◌, List, Some, map, is_some, IsTrue, IsOk, IfOk};
ghost use Rattle.std.specs.List.{list_all};
ghost use Rattle.tardis_base.specs.declared.ids.StateId.{StateId};
ghost use Rattle.wire_talk.specs.Valid.{is_request};
ghost use Rattle.plain_dag.specs.Entries.{entry_of};
ghost use Rattle.state_dag.specs.Table.{id_at, is_slot};
ghost use Rattle.record_store.specs.Store.{Store};
ghost use Rattle.record_store.specs.Stands.{StoreStands};
ghost use Rattle.plain_site.specs.Site.{Site};
ghost use Rattle.plain_site.specs.Step.{step, is_sure};
ghost use Rattle.stored_site.specs.Gives.{Gives, IsTold};
ghost use Rattle.stored_site.specs.Joins.{begin_refusal, merge_in_one, IsMergeEnd, MayBeMerged};

use any_site::AnySite;
use record_store::RecordStore;
use tardis_base::{NoMemory, Refusal, Reply, Request, Slot, WriteSet};

/// A site that lends its store, and that is asked in things and not in bytes.
pub trait StoredSite: AnySite {
    // its store
    ghost kept: { Self → Store };

    /// Answers a request of an actor.
    ///
    /// With no memory the site is as before.
    fn step(&mut self, actor: u16, request: &Request) -> Result<Reply, NoMemory>
        requires { IsTrue (is_request request.now) }
        ensures given { (site : Site) → Self.stands self.old site → Gives (Self.stands self.new) (step site actor request.now) site result }
        ensures told { IfOk result (λ reply. IsTold reply) }
        ensures sure { IsTrue (is_sure request.now) → IsOk result }
        ensures opened { Self.opened self.new ≡ Self.opened self.old };

    /// The store of its history, to be read.
    fn store(&self) -> &RecordStore
        ensures is { result.now ≡ kept self.now }
        ensures stands { (site : Site) → Self.stands self.now site → StoreStands result.now site.dag site.collected };

    /// Whether the session has an open transaction.
    fn has_txn(&self, session: u16) -> bool
        ensures { (site : Site) → Self.stands self.now site → result ≡ is_some (entry_of session site.txns) };

    /// Why the actor may begin no transaction: no session of it is open (NotOpen), or it has one (TxnOpen).
    fn begin_refusal(&self, actor: u16) -> Option<Refusal>
        ensures { (site : Site) → Self.stands self.now site → result ≡ begin_refusal site actor };

    /// Commits a merge of the states of these slots with these writes, in one step. What is refused is as `begin_refusal`
    /// says, and then as for the commit of a merge: SeqEnd, Full and PathFull. With no memory the site is as before.
    ///
    /// The cost is that of `RecordStore::commit`.
    fn commit_merge(
        &mut self,
        actor: u16,
        below: &[Slot],
        writes: WriteSet,
    ) -> Result<Reply, NoMemory>
        requires slots { IsTrue (list_all (is_slot (kept self.old).table) below.now) }
        requires merges { (site : Site) → Self.stands self.old site → (xs : List StateId)
            → map (id_at (kept self.old).table) below.now ≡ map (λ x. Some x) xs → MayBeMerged site xs writes }
        ensures given { (site : Site) → Self.stands self.old site → (xs : List StateId)
            → map (id_at (kept self.old).table) below.now ≡ map (λ x. Some x) xs
            → Gives (Self.stands self.new) (merge_in_one site actor xs writes) site result }
        ensures end { IfOk result (λ reply. IsMergeEnd reply) }
        ensures opened { Self.opened self.new ≡ Self.opened self.old };

    // its store stands for the history
    ghost keeps: { (m : Self) (site : Site) → Self.stands m site → StoreStands (kept m) site.dag site.collected };
}
