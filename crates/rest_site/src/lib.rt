//! A site with the lives that it knows, which joins leaves by rules and tells its oldest promise where it is asked to, and can end and
//! start again: it puts what lasts of each request behind a log, and takes back what stands in one. It can be told by a shorter history
//! than its own, a checkpoint, and knows another site that rests as it does.
//!
//! The rules, and how what lasts is spelled, are stated in `docs/MODEL.md`, 'What lasts', 'Lives', 'Joins by rules', 'The oldest promise',
//! 'Checkpoints' and 'A shorter history'.
#![tactic(auto)]

ghost use Rattle.std.specs.Prelude.{◌≡◌, ◌≤◌, length, is_some, IsTrue, IfOk};
ghost use Rattle.tardis_base.specs.Valid.{are_limits};
ghost use Rattle.plain_dag.specs.Collection.{kept_states};
ghost use Rattle.plain_site.specs.Site.{opening};
ghost use Rattle.site_lives.specs.Lives.{is_of_lives, with_new};
ghost use Rattle.site_lives.specs.Acquainted.{Acquainted, unacquainted, about_lives};
ghost use Rattle.rest_site.specs.Stands.{AcquaintedStands, opened_alone};

mod floors;
mod joins;
mod loading;
mod machines;
mod notes;
mod oldest;
pub mod oldest_codes;
mod puts;
mod serving;
mod shorter;
mod takes;
mod things;

use loading::Begin;
use session_core::SiteCore;
use shorter_history::Past;
use site_checkpoint::Checkpoint;
use site_lives::{Lives, NewLife};
use std::alloc::Global;
use std::hash::RandomState;
use std::marker::Model;
use tardis_base::{Limits, NoMemory, ReplyBuf};

/// A site with the lives that it knows, which can end and start again.
#[derive(Drop)]
pub struct RestSite {
    core: SiteCore,
    lives: Lives,
    /// What is loaded of a checkpoint, whose end was not told yet.
    loading: Option<Checkpoint>,
    /// The states that it took back and that arrived since: of these a shorter history is made.
    past: Past,
    alloc: Global,
    keys: RandomState,
}

impl Model for RestSite {
    ghost use Rattle.rest_site.specs.Stands.{HeldSite, StandsForSome};

    ghost Value = { HeldSite };

    ghost view = { λ a. record { core = a.core; lives = a.lives; loading = a.loading } };

    ghost invariant = { λ a. StandsForSome a.core a.loading };
}

impl RestSite {
    /// A site that opens: the root alone, no session, nothing that waits, and no life that is known, the own one neither. Its keys
    /// are found by hashing with this seed.
    pub fn new(
        alloc: Global,
        keys: RandomState,
        limits: Limits,
        own: u16,
    ) -> Result<RestSite, NoMemory>
        requires limits { IsTrue (are_limits limits) }
        requires first { 1 ≤ own }
        requires last { own ≤ limits.sites }
        ensures stands { IfOk result (λ site. AcquaintedStands site (unacquainted (opening limits own))) }
        ensures opening { IfOk result (λ site. opened_alone site ≡ unacquainted (opening limits own)) }
    {
        let past = Past::new(alloc, limits.sites)?;
        let core = SiteCore::new(alloc, keys, limits, own)?;
        Ok(RestSite {
            core,
            lives: Lives::new(),
            loading: None,
            past,
            alloc,
            keys,
        })
    }

    /// The site, to be asked.
    pub fn core(&self) -> &SiteCore
        ensures { result.now ≡ self.now.core }
    {
        &self.core
    }

    /// The lives that it knows.
    pub fn lives(&self) -> &Lives
        ensures { result.now ≡ self.now.lives }
    {
        &self.lives
    }

    /// The site's number, and how many sites there are.
    pub fn place(&self) -> (u16, u16)
        ensures { (a : Acquainted) → AcquaintedStands self.now a → result ≡ (a.site.own, a.site.limits.sites) }
    {
        (
            self.core.book().own_site(),
            self.core.store().dag().limits().sites,
        )
    }

    /// How many states are known, the root among them, in constant time.
    pub fn known(&self) -> u64
        ensures { (a : Acquainted) → AcquaintedStands self.now a → result ≡ length a.site.dag }
    {
        self.core.store().dag().known()
    }

    /// How many states are kept, in constant time.
    pub fn kept(&self) -> u32
        ensures { (a : Acquainted) → AcquaintedStands self.now a → result ≡ length (kept_states a.site.dag a.site.collected) }
    {
        self.core.store().dag().kept()
    }

    /// Answers a request about lives, and tells the life that is new. It takes no memory.
    fn meet(&mut self, request: &[u8], out: &mut ReplyBuf) -> Option<NewLife>
        requires { IsTrue (is_of_lives request.now) }
        ensures reply { (a : Acquainted) → AcquaintedStands self.old a → out.new ≡ (about_lives a request.now).0 }
        ensures new { (a : Acquainted) → AcquaintedStands self.old a → result ≡ (about_lives a request.now).1 }
        ensures core { self.new.core ≡ self.old.core }
        ensures lives { self.new.lives ≡ with_new result self.old.lives }
        ensures loading { self.new.loading ≡ self.old.loading }
    {
        let (own, sites) = self.place();
        self.lives.answer(own, sites, request, out)
    }

    /// Whether parts of a checkpoint are loaded, whose end was not told yet.
    fn is_loading(&self) -> bool
        ensures { result ≡ is_some self.now.loading }
    {
        self.loading.is_some()
    }

    /// With what a checkpoint begins.
    fn begin(&self) -> Begin {
        Begin {
            alloc: self.alloc,
            keys: self.keys,
        }
    }

    /// Notes the states that arrived by these things, and makes the past short where that is time. It never fails: where memory is wanting
    /// the past is lost, and no shorter history is made of it.
    fn note(&mut self, bytes: &[u8])
        ensures { self.new ≡ self.old }
    {
        self.past.note(bytes);
        if !self.is_loading() && self.past.is_long() {
            self.past.shorten(&self.core);
        }
    }
}
