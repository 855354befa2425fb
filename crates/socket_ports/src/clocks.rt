//! The edge's clock.

use std::io;
use std::time::{Clock, Instant};

/// The milliseconds since the edge began, as they were when it looked last. A clock that fails stands still.
#[derive(Drop)]
pub(crate) struct Stopwatch {
    start: Instant,
    now: u64,
}

impl Stopwatch {
    pub(crate) fn new(clock: &impl Clock) -> io::Result<Stopwatch> {
        Ok(Stopwatch {
            start: Instant::now(clock)?,
            now: 0,
        })
    }

    /// Looks at the clock.
    pub(crate) fn look(&mut self, clock: &impl Clock) {
        if let Ok(taken) = self.start.elapsed(clock) {
            let millis = taken.as_millis();
            if millis <= u64::MAX as u128 {
                self.now = self.now.max(millis as u64);
            }
        }
    }

    pub(crate) fn now(&self) -> u64 {
        self.now
    }
}
