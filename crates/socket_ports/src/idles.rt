//! When connections are looked at that may have asked nothing for too long.

/// Two looks are so many milliseconds apart at least, so that they cost nothing.
const BETWEEN_LOOKS: u64 = 1_000;

/// After how long a connection is over that asked nothing, and when that is looked at again.
#[derive(Clone, Copy)]
pub(crate) struct Idle {
    /// So many milliseconds.
    after: u64,
    /// A time of the edge's clock, in milliseconds.
    next: u64,
}

impl Idle {
    pub(crate) fn new(seconds: u32) -> Idle {
        Idle {
            after: 1_000 * seconds as u64,
            next: 0,
        }
    }

    pub(crate) fn after(&self) -> u64 {
        self.after
    }

    /// Whether it is to be looked now.
    pub(crate) fn is_due(&self, now: u64) -> bool {
        self.next <= now
    }

    /// Notes that it was looked now, and that of no connection that wasn't over so little time is left.
    pub(crate) fn looked(&mut self, now: u64, least: u64) {
        self.next = now.saturating_add(least.max(BETWEEN_LOOKS));
    }

    /// How many milliseconds are left until it is to be looked.
    pub(crate) fn rests_for(&self, now: u64) -> u64 {
        self.next.saturating_sub(now)
    }
}
