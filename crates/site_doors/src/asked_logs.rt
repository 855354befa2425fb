//! A site with its log behind its doors.

use crate::answers::{answer_at, lets_in};
use disk_store::BytewiseDisk;
use rest_machine::Settling;
use rest_site::RestSite;
use site_log::Logged;
use std::alloc::Global;
use tardis_base::{NoMemory, ReplyBuf};
use tardis_io::Failed;

/// A site with the log of what lasted of its requests, behind its doors: what comes in through one is a request to the site, and
/// everything else is answered at the door, and nothing lasts of it. What a question costs is told at `site_questions::answer`.
/// Requests about lives, those to join leaves, and that for the oldest promise come in through no door.
#[derive(Drop)]
pub struct AskedLog<K: BytewiseDisk> {
    pub alloc: Global,
    pub log: Logged<RestSite, K>,
}

impl<K: BytewiseDisk> Settling for AskedLog<K> {
    ghost use Rattle.std.specs.Prelude.{refl};
    ghost use Rattle.site_lives.specs.Acquainted.{Acquainted};
    ghost use Rattle.hub.specs.Doors.{seen_through, seen_guards};
    ghost use Rattle.site_log.specs.Kept.{Kept, IsSettled, with_settle, logged};
    ghost use Rattle.site_log.specs.Images.{Mark};
    ghost use Rattle.site_log.specs.Stood.{Stands, faults_of};
    ghost use Rattle.site_doors.specs.Kept.{resting, kept_doors};

    ghost Plain = { Kept Acquainted };

    ghost plain = { logged resting };

    ghost through = { seen_through (logged resting) kept_doors };

    ghost stands = { λ a kept. ⟦<Logged<RestSite, K> as Settling>⟧.stands a.log kept };

    ghost opening = { λ a. ⟦<Logged<RestSite, K> as Settling>⟧.opening a.log };

    ghost is_settled = { λ kept. IsSettled kept };

    ghost settled = { λ kept. with_settle kept };

    ghost faults = { λ a. ⟦<Logged<RestSite, K> as Settling>⟧.faults a.log };

    fn act(&mut self, actor: u16, request: &[u8], out: &mut ReplyBuf) -> Result<(), NoMemory> {
        self.log.act(actor, request, out)
    }

    fn act_through(
        &mut self,
        door: u8,
        actor: u16,
        request: &[u8],
        out: &mut ReplyBuf,
    ) -> Result<(), NoMemory> {
        let site = self.log.machine();
        if lets_in(door, site, actor, request) {
            self.log.act(actor, request, out)
        } else {
            answer_at(self.alloc, site, door, actor, request, out)
        }
    }

    fn owes(&self) -> bool {
        self.log.owes()
    }

    fn settle(&mut self) -> Result<(), Failed> {
        self.log.settle()
    }

    ghost settles = { λ kept. (kept.settles, refl) };

    ghost guards = { seen_guards (logged resting) kept_doors };
}
