//! The limits of a site that a program runs.

ghost use Rattle.std.specs.Prelude.{◌≡◌, IsTrue};
ghost use Rattle.tardis_base.specs.Valid.{are_limits};
ghost use Rattle.command_words.specs.Places.{IsPlace, program_limits};

use crate::commands::Place;
use tardis_base::{Limits, MAX_TRAIL, USUAL_KEPT, USUAL_PATH, USUAL_SESSIONS};

/// The limits of a site that is alone.
const LIMITS: Limits = Limits {
    sites: 1,
    max_kept: USUAL_KEPT,
    max_path: USUAL_PATH,
    max_sessions: USUAL_SESSIONS,
    max_trail: MAX_TRAIL,
};

impl Place {
    /// The limits of the site at this place.
    pub fn limits(self) -> Limits
        ensures limits { result ≡ program_limits self.sites }
        ensures valid { IsPlace self → IsTrue (are_limits result) }
    {
        Limits {
            sites: self.sites,
            ..LIMITS
        }
    }
}
