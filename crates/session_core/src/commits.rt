//! Transactions end: they commit, or are given up.

ghost use Rattle.std.specs.Prelude.{◌≡◌, Some, IsTrue, IfOk};
ghost use Rattle.std.specs.List.{list_all};
ghost use Rattle.tardis_base.specs.declared.ids.StateId.{StateId};
ghost use Rattle.state_dag.specs.Table.{is_slot};
ghost use Rattle.ceiling_book.specs.Book.{is_open};
ghost use Rattle.plain_site.specs.Site.{Site};
ghost use Rattle.plain_site.specs.Answers.{with_txn};
ghost use Rattle.plain_site.specs.Commits.{commit as commit_txn, abort, without_txn_of};
ghost use Rattle.tardis_base.specs.declared.replies.Reply.{Reply};
ghost use Rattle.session_core.specs.Stands.{CoreStands, StandsForSite};
ghost use Rattle.session_core.specs.Gives.{Answers, Does, IsGiven, NeedsNoMemory};
ghost use Rattle.session_core.specs.Merges.{MayMerge};
ghost use Rattle.site_answers.specs.Told.{commit_reply};
ghost use Rattle.session_core.specs.Commits.{IsLandingOf, CommitsAt, CommitsBelow};
ghost use Rattle.session_core.specs.Txns.{IsNamed};

use crate::Parts;
use crate::transactions::commit_open;
use conflict_keys::open_conflict;
use merge_txn::{MergeTxn, SingleTxn, Txn};
use site_answers::{CommitEnd, Stop, states_in};
use tardis_base::{EndFlags, ListOf, Refusal, Reply, Slot, StateId, StateList};

impl Parts {
    /// Commits the actor's transaction: a merge below all its read states, a single one below its landing. A single one
    /// that wrote nothing ends, and makes no state.
    ///
    /// Refused where no session is open (NotOpen), it has no transaction (NoTxn), a merge is given end constraints
    /// (WrongMode) or leaves a conflict key unwritten (OpenConflict, with the least), the landing has too many children
    /// (Branches), the site has given out its last number (SeqEnd), or there is no room (Full, PathFull). After a refusal,
    /// and with no memory, the transaction is still open.
    ///
    /// The cost is that of `RecordStore::commit`, and before it that of `ripple_commit::landing`, or for a merge that of
    /// `conflict_keys::open_conflict`. Where a single one wrote nothing, it is that of looking the transaction up.
    ///
    /// The parents that it tells stand in the memory that `told` took before, and has no more then.
    pub(crate) fn commit(
        &mut self,
        actor: u16,
        flags: EndFlags,
        k: u16,
        told: &mut StateList,
    ) -> Result<CommitEnd, Stop>
        requires { StandsForSite self.old }
        ensures { Does commit_reply self.old self.new result (λ site. with_txn site actor (λ s t. commit_txn site actor t flags k)) }
    {
        match self.open_txn(actor)? {
            Txn::Merge(merge) => {
                let below = self.joined_slots(merge, flags)?;
                self.commit_below(actor, below.as_slice(), told)
            },
            Txn::Single(single) => {
                if single.writes.is_empty() {
                    let state = single.state;
                    return Ok(self.end_reading(actor, state));
                }
                let landing = self.landing(single, flags);
                self.commit_at(actor, landing, flags, k, told)
            },
        }
    }

    /// The slots of the states below which the merge commits. Refused where it is given end constraints (WrongMode), and
    /// where it leaves a conflict key unwritten (OpenConflict).
    fn joined_slots(&self, merge: &MergeTxn, flags: EndFlags) -> Result<ListOf<Slot>, Stop>
        requires { IsTrue (list_all (is_slot self.now.store.table) merge.now.slots) }
        ensures slots { IfOk result (λ slots. slots ≡ merge.now.slots) }
        ensures may { (site : Site) → CoreStands self.now site → IsNamed self.now.store.table (Txn.Merge merge.now)
            → MayMerge site merge.now.states merge.now.writes flags result }
    {
        if flags.0 != 0 {
            return Err(Stop::Refused(Refusal::WrongMode));
        }
        match open_conflict(
            self.alloc,
            &self.store,
            merge.slots.as_slice(),
            &merge.writes,
        )? {
            Some(key) => Err(Stop::Refused(Refusal::OpenConflict { key: key.copy()? })),
            None => Ok(merge.slots.copy()?),
        }
    }

    /// Ends the transaction, which wrote nothing and reads the state.
    fn end_reading(&mut self, actor: u16, state: StateId) -> CommitEnd
        ensures { (site : Site) → CoreStands self.old site
            → IsGiven (CoreStands self.new) (without_txn_of actor site, Reply.Ended state) (commit_reply result) }
    {
        self.txns.end(actor);
        CommitEnd::Ended { state }
    }

    /// The slot of the state below which the single transaction commits.
    fn landing(&self, single: &SingleTxn, flags: EndFlags) -> Slot
        requires { IsTrue (is_slot self.now.store.table single.now.slot) }
        ensures slot { IsTrue (is_slot self.now.store.table result) }
        ensures landing { IsLandingOf self.now single.now flags result }
    {
        ripple_commit::landing(
            &self.store,
            single.slot,
            flags,
            &single.reads,
            &single.writes,
        )
    }

    /// Commits the transaction, a single one that has written, below the state of this slot, unless its end constraints
    /// are broken there.
    fn commit_at(
        &mut self,
        actor: u16,
        landing: Slot,
        flags: EndFlags,
        k: u16,
        told: &mut StateList,
    ) -> Result<CommitEnd, Stop>
        requires open { IsTrue (is_open self.old.book actor) }
        requires slot { IsTrue (is_slot self.old.store.table landing) }
        ensures { CommitsAt self.old self.new actor landing flags k result }
    {
        end_rule::check(self.store.dag(), landing, flags, k)?;
        self.commit_below(actor, &[landing], told)
    }

    /// Commits the transaction below the states of these slots, as the next state of the site. What it has written is moved
    /// into the store; where the state isn't added, it stays.
    fn commit_below(
        &mut self,
        actor: u16,
        below: &[Slot],
        told: &mut StateList,
    ) -> Result<CommitEnd, Stop>
        requires open { IsTrue (is_open self.old.book actor) }
        requires slots { IsTrue (list_all (is_slot self.old.store.table) below.now) }
        ensures { CommitsBelow self.old self.new actor below.now result }
    {
        let own = self.book.own_site();
        let count = self.store.dag().count(own);
        if count == u32::MAX {
            return Err(Stop::Refused(Refusal::SeqEnd));
        }
        let id = StateId {
            site: own,
            sequence: count + 1,
        };
        let parents = states_in(self.alloc, told, self.store.dag(), below)?;
        let Some(done) = commit_open(&mut self.txns, &mut self.store, actor, id, below) else {
            return Err(Stop::Refused(Refusal::NoTxn));
        };
        match done {
            Ok(slot) => {
                self.book.committed(self.store.dag(), actor, slot);
                Ok(CommitEnd::Committed { id, parents })
            },
            Err(fault) => Err(Stop::from(fault)),
        }
    }

    /// Gives the actor's transaction up. It takes no memory.
    ///
    /// Refused where no session is open (NotOpen) or it has no transaction (NoTxn).
    pub(crate) fn abort(&mut self, actor: u16) -> Result<Reply, Stop>
        ensures given { Answers self.old self.new result (λ site. with_txn site actor (λ s t. abort site actor)) }
        ensures sure { NeedsNoMemory result }
    {
        self.open_txn(actor)?;
        self.txns.end(actor);
        Ok(Reply::Done)
    }
}
