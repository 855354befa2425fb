//! A site as a machine.

ghost use Rattle.std.specs.Prelude.{◌≡◌, ◌≤◌, IsTrue, IfOk};
ghost use Rattle.tardis_base.specs.Valid.{are_limits};
ghost use Rattle.plain_site.specs.Site.{opening};

use crate::sites::AnySite;
use std::alloc::Global;
use std::hash::RandomState;
use std::marker::Model;
use tardis_base::{Limits, Machine, NoMemory, ReplyBuf};

/// A site as a machine that answers one request after another. It is seen as the site.
#[derive(Drop)]
pub struct SiteMachine<S: AnySite> {
    pub site: S,
}

impl<S: AnySite> Model for SiteMachine<S> {
    ghost Value = { S };

    ghost view = { λ m. m.site };
}

impl<S: AnySite> SiteMachine<S> {
    /// The site of this number, with these limits, which opens. Keys are found by hashing with this seed.
    pub fn open(
        alloc: Global,
        keys: RandomState,
        limits: Limits,
        own: u16,
    ) -> Result<SiteMachine<S>, NoMemory>
        requires limits { IsTrue (are_limits limits) }
        requires first { 1 ≤ own }
        requires last { own ≤ limits.sites }
        ensures stands { IfOk result (λ site. S.stands site (opening limits own)) }
        ensures opened { IfOk result (λ site. S.opened site ≡ opening limits own) }
    {
        let site = S::open(alloc, keys, limits, own)?;
        Ok(SiteMachine { site })
    }
}

impl<S: AnySite> Machine for SiteMachine<S> {
    ghost use Rattle.plain_site.specs.Site.{Site};
    ghost use Rattle.plain_site.specs.Step.{site_machine};

    ghost Plain = { Site };

    ghost plain = { site_machine };

    ghost stands = { S.stands };

    ghost opening = { S.opened };

    fn act(&mut self, actor: u16, request: &[u8], out: &mut ReplyBuf) -> Result<(), NoMemory> {
        self.site.act(actor, request, out)
    }
}
