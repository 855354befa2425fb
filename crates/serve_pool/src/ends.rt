//! How serving ends.

ghost use Rattle.std.specs.Prelude.{◌≡◌, ◌+◌, ◌<◌, ◌≤◌};
ghost use Rattle.serve_pool.specs.Rows.{wanting};

use session_serve::SessionEnd;

/// Why no more links are taken.
#[derive(Clone, Copy)]
pub enum PoolEnd {
    /// As many were taken as may be, or the gate had no more.
    Done,
    /// The gate failed.
    GateFault,
}

/// What serving came to.
#[derive(Clone, Copy)]
pub struct Served {
    /// How many links were taken.
    pub taken: u16,
    /// For how many of them there was no memory.
    pub unserved: u16,
    pub end: PoolEnd,
}

impl Served {
    /// No link was taken.
    pub(crate) fn none(end: PoolEnd) -> Served
        ensures { result ≡ record { taken = 0; unserved = 0; end = end } }
    {
        Served {
            taken: 0,
            unserved: 0,
            end,
        }
    }

    /// One more link was taken, and its session ended so.
    pub(crate) fn with(self, end: SessionEnd) -> Served
        requires taken { self.taken < 65535 }
        requires unserved { self.unserved ≤ self.taken }
        ensures { result ≡ record { taken = self.taken + 1; unserved = wanting end + self.unserved; end = self.end } }
    {
        let more = match end {
            SessionEnd::NoMemory => 1,
            _ => 0,
        };
        Served {
            taken: self.taken + 1,
            unserved: more + self.unserved,
            end: self.end,
        }
    }
}
