//! A site that plays a script: it asks, draws words and counts.

ghost use Rattle.std.specs.Prelude.{◌≡◌, ◌+◌, ◌≤◌, is_some, IsTrue, IfOk};
ghost use Rattle.tardis_base.specs.declared.requests.Request.{Request};
ghost use Rattle.wire_talk.specs.Valid.{is_request};
ghost use Rattle.plain_dag.specs.Entries.{entry_of};
ghost use Rattle.stored_site.specs.Gives.{IsTold};
ghost use Rattle.load_run.specs.Plays.{Play, asks};
ghost use Rattle.load_run.specs.Scripts.{opening_play};
ghost use Rattle.load_run.specs.Lines.{known, kept};
ghost use Rattle.load_run.specs.Held.{Plays, Asked, Does, Drew, Replied};

use crate::counts::Counts;
use command_words::Place;
use rand_core::utils::NextWord;
use rand_pcg::Lcg64Xsh32;
use std::alloc::Global;
use std::hash::RandomState;
use std::marker::Model;
use stored_site::StoredSite;
use tardis_base::{NoMemory, Reply, Request};

/// Where the site is: it is alone.
const ALONE: Place = Place { sites: 1, site: 1 };

/// A site, the words to come, and what was counted.
#[derive(Drop)]
pub(crate) struct Player<A: StoredSite> {
    alloc: Global,
    site: A,
    words: Lcg64Xsh32,
    counts: Counts,
}

impl<A: StoredSite> Model for Player<A> {
    ghost use Rattle.std.specs.Prelude.{◌≤◌};
    ghost use Rattle.load_run.specs.Held.{Held};

    ghost Value = { Held A };

    ghost view = { λ p. record { site = p.site; words = p.words; counts = p.counts } };

    ghost invariant = { λ p. (p.counts.committed ≤ p.counts.events) × (p.counts.refused ≤ p.counts.events) };
}

impl<A: StoredSite> Player<A> {
    /// A site that opens, the words of this start, and nothing counted.
    pub(crate) fn new(alloc: Global, keys: RandomState, start: u32) -> Result<Player<A>, NoMemory>
        ensures stands { IfOk result (λ held. Plays A.stands held (opening_play start)) }
        ensures none { IfOk result (λ held. held.counts.events ≡ 0) }
    {
        let site = A::open(alloc, keys, ALONE.limits(), 1)?;
        let words = Lcg64Xsh32::new(u64::from(start), 1);
        Ok(Player {
            alloc,
            site,
            words,
            counts: Counts::NONE,
        })
    }

    /// The allocator of what is asked.
    pub(crate) fn alloc(&self) -> Global {
        self.alloc
    }

    /// What was counted.
    pub(crate) fn counts(&self) -> Counts
        ensures { result ≡ self.now.counts }
    {
        self.counts
    }

    /// Draws the next word.
    pub(crate) fn word(&mut self) -> u32
        ensures drew { Drew A.stands self.old self.new result }
        ensures counts { self.new.counts ≡ self.old.counts }
    {
        self.words.next_word()
    }

    /// Whether the session has an open transaction.
    pub(crate) fn has_txn(&self, session: u16) -> bool
        ensures { (play : Play) → Plays A.stands self.now play → result ≡ is_some (entry_of session play.site.txns) }
    {
        self.site.has_txn(session)
    }

    /// What the site replies to the actor. It isn't counted.
    fn reply_to(&mut self, actor: u16, request: Request) -> Result<Reply, NoMemory>
        requires { IsTrue (is_request request) }
        ensures replied { Replied A.stands self.old self.new actor request result }
        ensures told { IfOk result (λ reply. IsTold reply) }
        ensures counts { self.new.counts ≡ self.old.counts }
    {
        self.site.step(actor, &request)
    }

    /// Asks the site, as the actor.
    pub(crate) fn ask(&mut self, actor: u16, request: Request) -> Result<Reply, NoMemory>
        requires request { IsTrue (is_request request) }
        requires room { self.old.counts.events + 1 ≤ 18446744073709551615 }
        ensures asked { Asked A.stands self.old self.new actor request result }
        ensures told { IfOk result (λ reply. IsTold reply) }
        ensures room { self.new.counts.events ≤ self.old.counts.events + 1 }
    {
        let reply = self.reply_to(actor, request)?;
        self.counts = self.counts.with(&reply);
        Ok(reply)
    }

    /// Asks the site, as the actor, whatever it replies.
    pub(crate) fn tell(&mut self, actor: u16, request: Request) -> Result<(), NoMemory>
        requires request { IsTrue (is_request request) }
        requires room { self.old.counts.events + 1 ≤ 18446744073709551615 }
        ensures does { Does A.stands self.old self.new result (asks actor request) }
        ensures room { self.new.counts.events ≤ self.old.counts.events + 1 }
    {
        let reply = self.ask(actor, request)?;
        drop(reply); // for the proof alone
        Ok(())
    }

    /// How many states the site knows, and how many of them it keeps.
    pub(crate) fn states(&self) -> (u64, u32)
        ensures known { (play : Play) → Plays A.stands self.now play → result.0 ≡ known play.site }
        ensures kept { (play : Play) → Plays A.stands self.now play → result.1 ≡ kept play.site }
    {
        let dag = self.site.store().dag();
        (dag.known(), dag.kept())
    }
}
