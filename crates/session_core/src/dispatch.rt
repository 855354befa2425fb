//! The step of a site: a request, and the reply to it.

ghost use Rattle.std.specs.Prelude.{◌≡◌, IsTrue, IsOk, IfOk};
ghost use Rattle.tardis_base.specs.declared.requests.Request.{Request};
ghost use Rattle.wire_item.specs.Valid.{is_item};
ghost use Rattle.wire_talk.specs.Valid.{is_request};
ghost use Rattle.plain_site.specs.Site.{Site};
ghost use Rattle.plain_site.specs.Step.{step, is_sure};
ghost use Rattle.plain_site.specs.Exchange.{deliver};
ghost use Rattle.session_core.specs.Gives.{Answers, Gives, NeedsNoMemory};
ghost use Rattle.session_core.specs.Stands.{StandsForSite};
ghost use Rattle.site_answers.specs.Told.{commit_reply};
ghost use Rattle.session_core.specs.Machine.{SiteStands, IsTold, opened_with};

use crate::{Parts, SiteCore};
use site_answers::{Stop, commit_reply, told};
use tardis_base::{Begin, EndFlags, Item, Key, NoMemory, Reply, Request, StateList, Value, Write};

impl Parts {
    /// Answers the actor's request by its own method.
    fn serve(&mut self, actor: u16, request: &Request) -> Result<Reply, Stop>
        requires request { IsTrue (is_request request.now) }
        requires stands { StandsForSite self.old }
        ensures given { Answers self.old self.new result (λ site. step site actor request.now) }
        ensures sure { IsTrue (is_sure request.now) → NeedsNoMemory result }
    {
        match request {
            Request::Open { follow } => self.open(actor, *follow),
            Request::Begin { begin } => self.begin_told(actor, begin),
            Request::Get { key } => self.get(actor, key),
            Request::Put { key, value } => self.put_copy(actor, key, value),
            Request::Delete { key } => self.delete(actor, key),
            Request::Commit { flags, k } => self.commit_told(actor, *flags, *k),
            Request::Abort => self.abort(actor),
            Request::BeginMerge { of } => self.begin_merge(actor, of),
            Request::ForkPoints => self.fork_points(actor),
            Request::Conflicts { after } => self.conflicts(actor, after),
            Request::GetFor { key, state } => self.get_for(actor, key, *state),
            Request::Ceiling { state } => self.set_ceiling(actor, *state),
            Request::Raise { state } => self.raise(*state),
            Request::RaiseAuto => self.raise_auto(),
            Request::Stat => Ok(self.stat()),
            Request::Show { state } => self.show(*state),
            Request::Leaves => self.leaves(),
            Request::Pull { counts } => self.pull(counts.as_slice()),
            Request::Deliver { item } => self.deliver_copy(item),
            Request::Settle => self.settle(),
            Request::Close => self.close(actor),
            Request::Tidy { n } => Ok(self.tidy(*n)),
        }
    }

    /// Begins a transaction, and tells at which state.
    fn begin_told(&mut self, actor: u16, begin: &Begin) -> Result<Reply, Stop>
        ensures { Answers self.old self.new result (λ site. step site actor (Request.Begin begin.now)) }
    {
        let state = self.begin(actor, begin)?;
        Ok(Reply::Begun { state })
    }

    /// Takes a copy of the value into the actor's transaction.
    fn put_copy(&mut self, actor: u16, key: &Key, value: &Value) -> Result<Reply, Stop>
        ensures { Answers self.old self.new result (λ site. step site actor (Request.Put key.now value.now)) }
    {
        self.put(actor, key.copy()?, Write::Put(value.copy()?))?;
        Ok(Reply::Done)
    }

    /// Deletes the key in the actor's transaction.
    fn delete(&mut self, actor: u16, key: &Key) -> Result<Reply, Stop>
        ensures { Answers self.old self.new result (λ site. step site actor (Request.Delete key.now)) }
    {
        self.put(actor, key.copy()?, Write::Delete)?;
        Ok(Reply::Done)
    }

    /// Commits the actor's transaction, and tells how it ended.
    fn commit_told(&mut self, actor: u16, flags: EndFlags, k: u16) -> Result<Reply, Stop>
        requires { StandsForSite self.old }
        ensures { Answers self.old self.new result (λ site. step site actor (Request.Commit flags k)) }
    {
        let mut told = StateList::new(self.alloc);
        let end = self.commit(actor, flags, k, &mut told)?;
        Ok(commit_reply(end))
    }

    /// Takes a copy of what another site made.
    fn deliver_copy(&mut self, item: &Item) -> Result<Reply, Stop>
        requires { IsTrue (is_item item.now) }
        ensures { Answers self.old self.new result (λ site. deliver site item.now) }
    {
        self.deliver(item.copy()?)
    }
}

impl SiteCore {
    /// The reply to the delivery of the item, which is done. A record is moved in.
    pub(crate) fn deliver(&mut self, item: Item) -> Result<Reply, NoMemory>
        requires { IsTrue (is_item item) }
        ensures given { (site : Site) → SiteStands self.old site → Gives (SiteStands self.new) (deliver site item) site result }
        ensures told { IfOk result (λ reply. IsTold reply) }
        ensures opening { opened_with self.new ≡ opened_with self.old }
    {
        told(self.parts.deliver(item))
    }

    /// Does the actor's request, and replies to it.
    ///
    /// With no memory the site is as before. Abort, Close, Ceiling, Raise, RaiseAuto, Tidy and Stat never want memory.
    ///
    /// The cost grows with the logarithm of the number of open sessions, and else is that of the request's own call: of a
    /// Get a read of its key, of a Put a copy of the value and a place among the transaction's writes, of a Commit the landing
    /// and the adding of the record; of a merge's fork points, conflict keys and Commit what its branches have done since they
    /// parted, as `branch_region::region` says; of the leaves, the states, a Show and a Pull what they list or try. A Settle judges
    /// the waiting records up to the first fit one. One table of costs is in `docs/SPEED.md`.
    pub fn step(&mut self, actor: u16, request: &Request) -> Result<Reply, NoMemory>
        requires { IsTrue (is_request request.now) }
        ensures given { (site : Site) → SiteStands self.old site → Gives (SiteStands self.new) (step site actor request.now) site result }
        ensures told { IfOk result (λ reply. IsTold reply) }
        ensures sure { IsTrue (is_sure request.now) → IsOk result }
        ensures opening { opened_with self.new ≡ opened_with self.old }
    {
        told(self.parts.serve(actor, request))
    }
}
