//! What commands ask of a site.

ghost use Rattle.std.specs.Prelude.{◌≡◌, ◌≤◌, true, [], IsTrue, IsOk, IfOk, OnOk, OnErr};
ghost use Rattle.tardis_base.specs.Valid.{are_limits};
ghost use Rattle.plain_site.specs.Site.{Site, opening};
ghost use Rattle.plain_site.specs.Sound.{IsSound};
ghost use Rattle.plain_site.specs.Step.{site_machine};

use std::alloc::Global;
use std::hash::RandomState;
use tardis_base::{Limits, NoMemory, ReplyBuf};

/// A site: it answers requests as the plain site does that it stands for.
pub trait AnySite: Drop {
    // it stands for the plain site
    ghost stands: { Self → Site → Type 0 };

    // the plain site with which it opened
    ghost opened: { Self → Site };

    /// The site of this number, with these limits, which opens: the root alone, no session, and nothing that waits. Its keys are
    /// found by hashing with this seed.
    fn open(alloc: Global, keys: RandomState, limits: Limits, own: u16) -> Result<Self, NoMemory>
        requires limits { IsTrue (are_limits limits) }
        requires first { 1 ≤ own }
        requires last { own ≤ limits.sites }
        ensures stands { IfOk result (λ site. stands site (opening limits own)) }
        ensures opened { IfOk result (λ site. opened site ≡ opening limits own) };

    /// Answers a request of an actor in bytes, into `out`, whose bytes from before are gone.
    ///
    /// With no memory the site is as before and `out` is empty.
    fn act(&mut self, actor: u16, request: &[u8], out: &mut ReplyBuf) -> Result<(), NoMemory>
        ensures reply { OnOk result ((s : Site) → stands self.old s → out.new ≡ site_machine.reply s (actor, request.now)) }
        ensures step { OnOk result ((s : Site) → stands self.old s → stands self.new (site_machine.step s (actor, request.now))) }
        ensures same { OnErr result ((s : Site) → stands self.old s → stands self.new s) }
        ensures empty { OnErr result (out.new ≡ []) }
        ensures sure { site_machine.is_sure (actor, request.now) ≡ true → IsOk result }
        ensures opened { opened self.new ≡ opened self.old };

    // it stands for sound sites alone
    ghost sound: { (m : Self) (site : Site) → stands m site → IsSound site };
}
