//! Laws of the runs of a hub over a site behind its doors, and of the bodies of its file. Each call does nothing.

ghost use Rattle.hub.specs.DoorLaws.{TrailBehindDoors};
ghost use Rattle.rest_site.specs.Ruled.{ruled_machine};
ghost use Rattle.site_doors.specs.Rules.{site_doors};
ghost use Rattle.site_doors.specs.Kept.{served};
ghost use Rattle.site_doors.specs.Larger.{FilesOpenUnderLargerLimits};
ghost use Rattle.site_doors.specs.RoomLaws.{OneSiteHasAllItsRoom, FewStatesLetAllIn, CommitsKeepToTheShare};

use crate::asked_logs::AskedLog;
use crate::asked_sites::AskedSite;
use disk_store::BytewiseDisk;
use hub::one_trail_behind_doors_as_seen;
use rest_machine::Settling;
use rest_site::RestSite;
use site_lives::larger_limits_take_the_same_bytes;
use wire_talk::talk_has_one_spelling;

/// Over a site in memory behind its doors the requests that came in are one run of the plain site with the lives that it knows, in
/// order, with the replies that were given to them; and each other one was answered at its door, from the site at its place.
pub fn one_trail_of_a_site()
    ensures { TrailBehindDoors (served ⟦<AskedSite as Settling>⟧) ruled_machine site_doors (λ a. a) }
{
    one_trail_behind_doors_as_seen::<AskedSite, RestSite>();
}

/// So they are over a site with its log.
pub fn one_trail_of_a_kept_site<K: BytewiseDisk>()
    ensures { TrailBehindDoors (served ⟦<AskedLog<K> as Settling>⟧) ruled_machine site_doors (λ kept. kept.state) }
{
    one_trail_behind_doors_as_seen::<AskedLog<K>, RestSite>();
}

/// The bodies of a file that lead from the site that opens to another, one behind another, lead from the one that opens under larger
/// limits to the same site but for these. So a site whose limits were raised has all that its file had.
pub fn files_open_under_larger_limits()
    ensures { FilesOpenUnderLargerLimits }
{
    larger_limits_take_the_same_bytes();
}

/// Of one site a door refuses no commit for want of room: what has no room the site refuses itself.
pub fn one_site_has_all_its_room()
    ensures { OneSiteHasAllItsRoom }
{}

/// A site that keeps less than its share is asked as if there were none.
pub fn few_states_let_all_in()
    ensures { FewStatesLetAllIn }
{}

/// At one of several sites a commit through a door leaves the history as it is, or was made where the bound for it wasn't reached.
pub fn commits_keep_to_the_share()
    ensures { CommitsKeepToTheShare }
{
    talk_has_one_spelling();
}
