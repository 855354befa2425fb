//! One site of the store: it answers requests as the plain site does.
//!
//! What each request does is stated in `docs/MODEL.md`.
#![tactic(auto)]

ghost use Rattle.std.specs.Prelude.{◌≡◌, ◌≤◌, is_some, IsTrue, IfOk};
ghost use Rattle.tardis_base.specs.Valid.{are_limits};
ghost use Rattle.std.specs.Option.{option_copied};
ghost use Rattle.plain_dag.specs.Entries.{entry_of};
ghost use Rattle.record_store.specs.Stands.{StoreStands};
ghost use Rattle.plain_site.specs.Site.{Site, opening};
ghost use Rattle.plain_site.specs.Sound.{IsSound};
ghost use Rattle.session_core.specs.Stands.{CoreStands};
ghost use Rattle.session_core.specs.Machine.{SiteStands};

mod any_sites;
mod bytes;
mod commits;
mod dispatch;
mod exchange;
mod floors;
mod joins;
mod merges;
mod reads_and_writes;
mod rests;
mod sessions;
mod shows;
mod starts;
mod stops;
mod transactions;

use ceiling_book::CeilingBook;
use merge_txn::Txn;
use record_store::RecordStore;
use site_exchange::WaitRoom;
use std::alloc::Global;
use std::hash::RandomState;
use std::marker::Model;
use tardis_base::{Limits, NoMemory, StateList};
use txn_book::TxnBook;

/// One site: its history, its sessions, its open transactions, and what waits.
///
/// How it is let go is written here, so that the crates above needn't prove it of each of its parts.
pub struct SiteCore {
    parts: Parts,
    /// What a reply told last of a commit's parents. The next one is told in its memory.
    told: StateList,
}

impl Drop for SiteCore {
    fn drop(self) {
        let SiteCore { parts, told } = self;
        drop(parts);
        drop(told);
    }
}

impl Model for SiteCore {
    ghost use Rattle.session_core.specs.Core.{Core};

    ghost Value = { Core };

    ghost use Rattle.session_core.specs.Stands.{StandsForSite};

    ghost view = { λ a. a.parts };

    ghost invariant = { λ a. StandsForSite a.parts };
}

impl SiteCore {
    /// A site that opens: the root alone, no session, and nothing that waits. Its keys are found by hashing with this seed.
    /// The room for what waits is taken here.
    pub fn new(
        alloc: Global,
        keys: RandomState,
        limits: Limits,
        own: u16,
    ) -> Result<SiteCore, NoMemory>
        requires limits { IsTrue (are_limits limits) }
        requires first { 1 ≤ own }
        requires last { own ≤ limits.sites }
        ensures stands { IfOk result (λ core. CoreStands core (opening limits own)) }
        ensures sound { IfOk result (λ _. IsSound (opening limits own)) }
    {
        let parts = Parts::new(alloc, keys, &limits, own)?;
        let told = StateList::new(alloc);
        Ok(SiteCore { parts, told })
    }

    /// The store of its history, to be read.
    pub fn store(&self) -> &RecordStore
        ensures is { result.now ≡ self.now.store }
        ensures stands { (site : Site) → CoreStands self.now site → StoreStands result.now site.dag site.collected }
    {
        &self.parts.store
    }

    /// The open transaction of the session, if it has one.
    pub fn txn(&self, session: u16) -> Option<&Txn>
        ensures { option_copied result ≡ entry_of session self.now.txns }
    {
        self.parts.txns.get(session)
    }

    /// Whether the session has an open transaction.
    pub fn has_txn(&self, session: u16) -> bool
        ensures { (site : Site) → SiteStands self.now site → result ≡ is_some (entry_of session site.txns) }
    {
        self.parts.txns.is_open(session)
    }
}

/// The history of a site, its sessions, its open transactions, and the records that wait for others.
#[derive(Drop)]
pub(crate) struct Parts {
    pub(crate) alloc: Global,
    pub(crate) store: RecordStore,
    pub(crate) book: CeilingBook,
    pub(crate) txns: TxnBook,
    pub(crate) waiting: WaitRoom,
}

impl Model for Parts {
    ghost use Rattle.session_core.specs.Core.{Core};

    ghost Value = { Core };

    ghost use Rattle.session_core.specs.Held.{seen, IsHeld};

    ghost view = { seen };

    ghost invariant = { IsHeld };
}

impl Parts {
    /// Those of a site that opens: the root alone, no session, and nothing that waits.
    fn new(alloc: Global, keys: RandomState, limits: &Limits, own: u16) -> Result<Parts, NoMemory>
        requires limits { IsTrue (are_limits limits.now) }
        requires first { 1 ≤ own }
        requires last { own ≤ limits.now.sites }
        ensures stands { IfOk result (λ core. CoreStands core (opening limits.now own)) }
    {
        let store = RecordStore::new(alloc, keys, limits)?;
        let root = store.dag().last();
        match CeilingBook::new(alloc, limits, own, root) {
            Ok(book) => Parts::resting(alloc, store, book),
            Err(NoMemory) => {
                drop(store);
                Err(NoMemory)
            },
        }
    }
}
