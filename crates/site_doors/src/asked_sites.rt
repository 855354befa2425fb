//! A site in memory behind its doors.

use crate::answers::{answer_at, lets_in};
use rest_machine::Settling;
use rest_site::RestSite;
use std::alloc::Global;
use tardis_base::{Machine, NoMemory, ReplyBuf};
use tardis_io::Failed;

/// A site that is lost when it ends, with the lives that it knows, behind its doors: what comes in through one is a request to the
/// site, and everything else is answered at the door. What a question costs is told at `site_questions::answer`. Requests about
/// lives, those to join leaves, and that for the oldest promise come in through no door.
#[derive(Drop)]
pub struct AskedSite {
    pub alloc: Global,
    pub site: RestSite,
}

impl Settling for AskedSite {
    ghost use Rattle.std.specs.Prelude.{◌≡◌, ℕ};
    ghost use Rattle.site_lives.specs.Acquainted.{Acquainted};
    ghost use Rattle.rest_site.specs.Ruled.{ruled_machine};
    ghost use Rattle.rest_site.specs.Stands.{AcquaintedStands, opened_alone};
    ghost use Rattle.hub.specs.Doors.{seen_through, seen_guards};
    ghost use Rattle.site_doors.specs.Rules.{site_doors};

    ghost Plain = { Acquainted };

    ghost plain = { ruled_machine };

    ghost through = { seen_through ruled_machine site_doors };

    ghost stands = { λ a plain. AcquaintedStands a.site plain };

    ghost opening = { λ a. opened_alone a.site };

    ghost is_settled = { λ _. Unit {0} };

    ghost settled = { λ plain. plain };

    ghost faults = { λ _. 0 };

    fn act(&mut self, actor: u16, request: &[u8], out: &mut ReplyBuf) -> Result<(), NoMemory> {
        self.site.act(actor, request, out)
    }

    fn act_through(
        &mut self,
        door: u8,
        actor: u16,
        request: &[u8],
        out: &mut ReplyBuf,
    ) -> Result<(), NoMemory> {
        if lets_in(door, &self.site, actor, request) {
            self.site.act(actor, request, out)
        } else {
            answer_at(self.alloc, &self.site, door, actor, request, out)
        }
    }

    fn owes(&self) -> bool {
        false
    }

    fn settle(&mut self) -> Result<(), Failed> {
        Ok(())
    }

    ghost settles = { λ plain. tt };

    ghost guards = { seen_guards ruled_machine site_doors };
}
