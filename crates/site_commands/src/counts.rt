//! Sites that tell their counts. The function is empty, and its contract is the law.

ghost use Rattle.site_commands.specs.Counts.{SitesTellCounts};

use plain_site::replies::replies_fit_a_frame;
use plain_site::soundness::{every_run_keeps_sound, opening_is_sound};
use wire_talk::talk_has_one_spelling;

/// A site that opens answers Stat by statistics, a line for each site, whatever was asked before. Exchanges with peers ask
/// it of the machine that they work for. This call does nothing.
pub fn sites_tell_counts()
    ensures { SitesTellCounts }
{
    opening_is_sound();
    every_run_keeps_sound();
    replies_fit_a_frame();
    talk_has_one_spelling();
}
