//! Sites give each other their news and take it, and early records wait. The rules are stated in `docs/MODEL.md`.

ghost use Rattle.std.specs.Prelude.{◌≡◌, ◌≤◌, ◌∷◌, [], length, IsTrue, IfOk, IfSome};
ghost use Rattle.std.specs.List.{list_all};
ghost use Rattle.tardis_base.specs.Valid.{is_record};
ghost use Rattle.wire_item.specs.Valid.{is_item, is_consent};
ghost use Rattle.plain_dag.specs.Conflicts.{open_conflict};
ghost use Rattle.state_dag.specs.Table.{is_listed};
ghost use Rattle.site_exchange.specs.declared.judging.Judged.TheVariants.{Fit};
ghost use Rattle.site_exchange.specs.Judgements.{reply_of, first_reply, IsAddable};
ghost use Rattle.plain_site.specs.Site.{Site};
ghost use Rattle.plain_site.specs.Answers.{refuse_found};
ghost use Rattle.plain_site.specs.Exchange.{pull as pulled, deliver as delivered, deliver_record as record_delivered};
ghost use Rattle.plain_site.specs.Exchange.{deliver_consent as consent_delivered, settle as settled};
ghost use Rattle.session_core.specs.Stands.{CoreStands};
ghost use Rattle.session_core.specs.Gives.{Answers};
ghost use Rattle.site_answers.specs.Told.{consent_reply};
ghost use Rattle.session_core.specs.Exchange.{JudgedAs, ArrivesAs, MaySettle, FindsFit, SettlesAt};

use crate::Parts;
use conflict_keys::open_conflict;
use site_answers::{Stop, consent_reply};
use site_exchange::{Judged, batch_for, judge_record};
use tardis_base::{Consent, Item, NoMemory, Record, Refusal, Reply};

impl Parts {
    /// The news for whoever has these counts, one for each site, as far as a batch takes them, and all consents.
    ///
    /// Refused where there aren't as many counts as sites (BadSite). The cost is that of `site_exchange::batch_for`.
    pub(crate) fn pull(&self, counts: &[u32]) -> Result<Reply, Stop>
        requires { length counts.now ≤ 16 }
        ensures { Answers self.now self.now result (λ site. pulled site counts.now) }
    {
        let count = counts.len() as u16;
        if count != self.book.sites() {
            return Err(Stop::Refused(Refusal::BadSite { site: count }));
        }
        let batch = batch_for(self.alloc, &self.store, &self.book, counts)?;
        Ok(Reply::Batch { batch })
    }

    /// Takes what another site made, or says why not.
    pub(crate) fn deliver(&mut self, item: Item) -> Result<Reply, Stop>
        requires { IsTrue (is_item item) }
        ensures { Answers self.old self.new result (λ site. delivered site item) }
    {
        match item {
            Item::State(record) => self.deliver_record(record),
            Item::Promise(promise) => self.deliver_consent(&promise),
        }
    }

    /// Takes a record of another site into the history. One that is known is told so, and one that is early waits.
    ///
    /// Refused where there is no such site (BadSite) or it is this one (OwnItem), a parent is closed (ClosedParent), two
    /// are comparable (Comparable), a conflict key of them isn't written (OpenConflict, with the least), or there is no
    /// room (Full, PathFull). One that is known or early costs no search of the store; else the cost is that of
    /// `site_exchange::judge_record`, of `conflict_keys::open_conflict` and of `RecordStore::commit`. The record is moved.
    fn deliver_record(&mut self, rec: Record) -> Result<Reply, Stop>
        requires { IsTrue (is_record rec) }
        ensures { Answers self.old self.new result (λ site. record_delivered site rec) }
    {
        match self.judge(&rec)? {
            Judged::Fit => self.add(rec),
            Judged::Known => {
                drop(rec);
                Ok(Reply::Known)
            },
            Judged::Early { have } => {
                drop(self.waiting.hold(rec));
                Ok(Reply::Early { have })
            },
            Judged::Refused(refusal) => {
                drop(rec);
                Err(Stop::Refused(refusal))
            },
        }
    }

    /// How the record is judged, as far as it doesn't concern room.
    fn judge(&self, rec: &Record) -> Result<Judged, NoMemory>
        requires { IsTrue (is_record rec.now) }
        ensures judged { JudgedAs self.now rec.now result }
        ensures fit { IfOk result (λ judged. judged ≡ Fit → IsAddable self.now.store.table rec.now) }
    {
        match judge_record(&self.store, &self.book, rec) {
            Judged::Fit => self.judge_writes(rec),
            Judged::Known => Ok(Judged::Known),
            Judged::Early { have } => Ok(Judged::Early { have }),
            Judged::Refused(refusal) => Ok(Judged::Refused(refusal)),
        }
    }

    /// How the writes of the record are judged, whose parents are kept: each conflict key of the parents is to be among them.
    pub(crate) fn judge_writes(&self, rec: &Record) -> Result<Judged, NoMemory>
        requires few { length rec.now.parents ≤ 8 }
        requires listed { IsTrue (list_all (is_listed self.now.store.table) rec.now.parents) }
        ensures { (site : Site) → CoreStands self.now site
            → IfOk result (λ judged. reply_of judged
            ≡ first_reply (refuse_found Refusal.OpenConflict (open_conflict site.dag rec.now.parents rec.now.writes) ∷ [])) }
    {
        let slots = self.store.slots_of(rec.parents.as_slice());
        match open_conflict(
            self.alloc,
            &self.store,
            &slots[..rec.parents.len()],
            &rec.writes,
        )? {
            Some(key) => Ok(Judged::Refused(Refusal::OpenConflict { key: key.copy()? })),
            None => Ok(Judged::Fit),
        }
    }

    /// Adds the record, which is fit, to the history, where there is room. What it writes is moved into the store.
    pub(crate) fn add(&mut self, rec: Record) -> Result<Reply, Stop>
        requires valid { IsTrue (is_record rec) }
        requires fit { IsAddable self.old.store.table rec }
        ensures arrives { ArrivesAs self.old self.new rec result }
        ensures applied { IfOk result (λ reply. reply ≡ Reply.Applied) }
    {
        let mut rec = rec;
        let slots = self.store.slots_of(rec.parents.as_slice());
        let below = &slots[..rec.parents.len()];
        let added = self.store.commit(rec.id, below, &mut rec.writes);
        drop(rec);
        added?;
        Ok(Reply::Applied)
    }

    /// Takes a consent of another site, or says why not. It takes no memory.
    ///
    /// Refused where there is no such site (BadSite) or it is this one (OwnItem), and where the site's floor isn't at or
    /// above the new one (FloorBack). The cost is that of `CeilingBook::take_consent`.
    fn deliver_consent(&mut self, promise: &Consent) -> Result<Reply, Stop>
        requires { IsTrue (is_consent promise.now) }
        ensures { Answers self.old self.new result (λ site. consent_delivered site promise.now) }
    {
        consent_reply(self.book.take_consent(self.store.dag(), promise))
    }

    /// Takes the first waiting record that is fit into the history; where none is, nothing is done.
    ///
    /// Refused where there is no room for it (Full, PathFull); it then goes on waiting. Each record up to the first fit one
    /// is judged, at the cost that a delivery of it has, and what that one writes is copied once.
    pub(crate) fn settle(&mut self) -> Result<Reply, Stop>
        ensures { Answers self.old self.new result (λ site. settled site) }
    {
        match self.first_fit()? {
            Some(place) => self.settle_at(place),
            None => Ok(Reply::Done),
        }
    }

    /// The place of the first waiting record that is fit.
    fn first_fit(&self) -> Result<Option<u16>, NoMemory>
        ensures place { IfOk result (λ found. IfSome found (MaySettle self.now)) }
        ensures first { FindsFit self.now result }
    {
        for place in 0..self.waiting.len() {
            match self.judge(self.waiting.at(place))? {
                Judged::Fit => return Ok(Some(place)),
                _ => {},
            }
        }
        Ok(None)
    }

    /// Takes the record at this place, which is fit, into the history, where there is room.
    fn settle_at(&mut self, place: u16) -> Result<Reply, Stop>
        requires { MaySettle self.old place }
        ensures { SettlesAt self.old self.new place result }
    {
        self.store.add_record(self.waiting.at(place))?;
        drop(self.waiting.take(place));
        Ok(Reply::Applied)
    }
}
