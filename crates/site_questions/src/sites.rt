//! What holds of the whole site.

ghost use Rattle.std.specs.Prelude.{◌≡◌};
ghost use Rattle.plain_site.specs.Site.{Site};
ghost use Rattle.session_core.specs.Stands.{CoreStands};
ghost use Rattle.plain_questions.specs.Answer.{site_told};

use plain_questions::{Answered, FORMAT_VERSION};
use session_core::SiteCore;

/// The version of the format, the limits, the site's own number, how many states it knows and how many it keeps.
pub fn tell_site(site: &SiteCore) -> Answered
    ensures { (plain : Site) → CoreStands site.now plain → result ≡ site_told plain }
{
    let dag = site.store().dag();
    Answered::Site {
        version: FORMAT_VERSION,
        limits: *dag.limits(),
        own: site.book().own_site(),
        known: dag.known(),
        kept: dag.kept(),
    }
}
