//! Sessions open and close, and transactions begin in them.

ghost use Rattle.std.specs.Prelude.{IsTrue, IfOk};
ghost use Rattle.state_dag.specs.Table.{is_slot};
ghost use Rattle.ceiling_book.specs.Book.{is_open};
ghost use Rattle.plain_site.specs.Answers.{with_session, without_txn};
ghost use Rattle.plain_site.specs.Sessions.{open_session, close_session, begin as begin_txn};
ghost use Rattle.tardis_base.specs.declared.replies.Reply.{Reply};
ghost use Rattle.session_core.specs.Gives.{Answers, Does, NeedsNoMemory};
ghost use Rattle.session_core.specs.Begins.{ChoosesFor, BeginsAt};

use crate::Parts;
use begin_rule::BeginFault;
use merge_txn::Txn;
use site_answers::Stop;
use tardis_base::{Begin, Reply, Slot, StateId};

impl Parts {
    /// Opens the actor's session under the own floor. A ceiling that follows goes down with the session's commits.
    ///
    /// Refused where it is open (AlreadyOpen), and where as many are open as may be (SessionsFull).
    pub(crate) fn open(&mut self, actor: u16, follow: bool) -> Result<Reply, Stop>
        ensures { Answers self.old self.new result (λ site. open_session site actor follow) }
    {
        let ceiling = self.book.open_session(actor, follow)?;
        Ok(Reply::Opened {
            ceiling: self.store.dag().id_of(ceiling),
        })
    }

    /// Closes the actor's session, and gives its transaction up. It takes no memory.
    ///
    /// Refused where no session is open (NotOpen).
    pub(crate) fn close(&mut self, actor: u16) -> Result<Reply, Stop>
        ensures given { Answers self.old self.new result (λ site. with_session site actor (λ s. close_session site actor)) }
        ensures sure { NeedsNoMemory result }
    {
        self.session(actor)?;
        self.book.close_session(actor);
        self.txns.close(actor);
        Ok(Reply::Closed)
    }

    /// Begins a transaction of the actor's session at the state that is asked for, and tells at which.
    ///
    /// Refused where no session is open (NotOpen), where it has a transaction (TxnOpen), where there is no such state
    /// (Unknown), and where the state is a proper ancestor of the session's ceiling (Below). The cost is that of
    /// `begin_rule::choose`, and of looking the session up.
    pub(crate) fn begin(&mut self, actor: u16, begin: &Begin) -> Result<StateId, Stop>
        ensures { Does Reply.Begun self.old self.new result (λ site. without_txn site actor (λ s. begin_txn site actor s begin.now)) }
    {
        self.no_txn(actor)?;
        let slot = self.choose(actor, begin)?;
        self.begin_at(actor, slot)
    }

    /// The slot of the state at which the session is to begin. For `Any` that is the state that arrived last, whatever the
    /// session, which then isn't looked up.
    fn choose(&self, actor: u16, begin: &Begin) -> Result<Slot, BeginFault>
        requires { IsTrue (is_open self.now.book actor) }
        ensures slot { IfOk result (λ slot. IsTrue (is_slot self.now.store.table slot)) }
        ensures chosen { ChoosesFor self.now actor begin.now result }
    {
        match *begin {
            Begin::Any => Ok(self.store.dag().last()),
            _ => self.choose_for(actor, begin),
        }
    }

    /// The slot of the state at which the session is to begin, by its last commit and its ceiling.
    fn choose_for(&self, actor: u16, begin: &Begin) -> Result<Slot, BeginFault>
        requires { IsTrue (is_open self.now.book actor) }
        ensures slot { IfOk result (λ slot. IsTrue (is_slot self.now.store.table slot)) }
        ensures chosen { ChoosesFor self.now actor begin.now result }
    {
        let (last, last_slot) = self.book.last(actor);
        let ceiling = self.book.ceiling(actor);
        begin_rule::choose(self.store.dag(), begin, last, last_slot, ceiling)
    }

    /// Begins the transaction at the state of this slot.
    fn begin_at(&mut self, actor: u16, slot: Slot) -> Result<StateId, Stop>
        requires { IsTrue (is_slot self.old.store.table slot) }
        ensures { BeginsAt self.old self.new actor slot result }
    {
        let state = self.store.dag().id_of(slot);
        self.txns
            .begin(actor, Txn::single(self.alloc, state, slot))?;
        Ok(state)
    }
}
