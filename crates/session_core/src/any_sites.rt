//! The site in memory, as what commands ask of a site, and of one that lends its store.

use crate::SiteCore;
use any_site::AnySite;
use record_store::RecordStore;
use std::alloc::Global;
use std::hash::RandomState;
use stored_site::StoredSite;
use tardis_base::{Limits, Machine, NoMemory, Refusal, Reply, ReplyBuf, Request, Slot, WriteSet};

impl AnySite for SiteCore {
    ghost use Rattle.session_core.specs.Machine.{SiteStands, opened_with};

    ghost stands = { SiteStands };

    ghost opened = { opened_with };

    fn open(
        alloc: Global,
        keys: RandomState,
        limits: Limits,
        own: u16,
    ) -> Result<SiteCore, NoMemory> {
        SiteCore::new(alloc, keys, limits, own)
    }

    fn act(&mut self, actor: u16, request: &[u8], out: &mut ReplyBuf) -> Result<(), NoMemory> {
        Machine::act(self, actor, request, out)
    }

    ghost sound = { λ core site stands. stands.1 };
}

impl StoredSite for SiteCore {
    ghost kept = { λ core. core.store };

    fn step(&mut self, actor: u16, request: &Request) -> Result<Reply, NoMemory> {
        self.step(actor, request)
    }

    fn store(&self) -> &RecordStore {
        self.store()
    }

    fn has_txn(&self, session: u16) -> bool {
        self.has_txn(session)
    }

    fn begin_refusal(&self, actor: u16) -> Option<Refusal> {
        self.begin_refusal(actor)
    }

    fn commit_merge(
        &mut self,
        actor: u16,
        below: &[Slot],
        writes: WriteSet,
    ) -> Result<Reply, NoMemory> {
        self.commit_merge(actor, below, writes)
    }

    ghost keeps = { λ core site stands. stands.0.store };
}
