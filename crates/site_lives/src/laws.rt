//! Laws of a site and the lives that it knows. Each call does nothing.

ghost use Rattle.tardis_base.specs.Plain.{PlainMachine};
ghost use Rattle.plain_site.specs.Site.{Site};
ghost use Rattle.site_lives.specs.Laws.{EachHasItsOwn, SiteHasItsTrail, LivesStay, RefusedMeetingsChangeNothing, OneLifeEach};

use wire_lives::introductions_have_one_spelling;

/// Requests about lives leave the site as it is, and all others the lives; none changes what a checkpoint has told. So what the site
/// is asked beside them is one trail of the site alone, and what is true of the trails of sites is true of a site that meets others.
pub fn meetings_leave_the_site()
    ensures own { (m : PlainMachine Site) → EachHasItsOwn m }
    ensures trail { (m : PlainMachine Site) → SiteHasItsTrail m }
{}

/// A life once known stays, and where another site isn't met nothing changes. So however long a site lives, of each number it meets one site: none that has another life.
pub fn one_life_is_met_of_each_site()
    ensures stay { (m : PlainMachine Site) → LivesStay m }
    ensures refused { (m : PlainMachine Site) → RefusedMeetingsChangeNothing m }
    ensures one { (m : PlainMachine Site) → OneLifeEach m }
{
    introductions_have_one_spelling();
}
