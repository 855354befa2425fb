//! The limits of a site that a server runs.

ghost use Rattle.std.specs.Prelude.{◌≡◌, IsTrue};
ghost use Rattle.tardis_base.specs.Valid.{are_limits};
ghost use Rattle.command_words.specs.Places.{IsPlace};
ghost use Rattle.daemon_words.specs.Capacity.{IsCapacity};
ghost use Rattle.daemon_words.specs.Daemons.{daemon_of, daemon_limits};

use crate::daemons::DaemonPlan;
use tardis_base::{Limits, MAX_PATH, MAX_TRAIL};

impl<'a> DaemonPlan<'a> {
    /// The limits of the site that is asked for. A fork path may have as many pairs as it may at all: where a site refused a merge for
    /// its path, others that took it would be ahead for good.
    pub fn limits(&self) -> Limits
        ensures limits { result ≡ daemon_limits (daemon_of self.now) }
        ensures valid { IsPlace self.now.place → IsCapacity self.now.capacity → IsTrue (are_limits result) }
    {
        Limits {
            sites: self.place.sites,
            max_kept: self.capacity.states,
            max_path: MAX_PATH,
            max_sessions: self.capacity.sessions,
            max_trail: MAX_TRAIL,
        }
    }
}
