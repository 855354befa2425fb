//! Where passes sleep until their turn comes.

use std::alloc::Global;
use std::sync::Wait;
use std::sync::atomic::{AtomicU64, Ordering};
use tardis_base::NoMemory;

/// How many bells there are. Passes whose tickets are so far apart share one.
const BELLS: u64 = 64;

/// A bell for each of the next tickets, so that passing a turn on wakes the pass whose turn it is, and not all that sleep.
#[derive(Drop)]
pub(crate) struct Bells {
    asleep: AtomicU64,
    rings: Vec<AtomicU64>,
}

impl Bells {
    pub(crate) fn new(alloc: Global) -> Result<Bells, NoMemory> {
        let mut rings = Vec::new(alloc);
        for _ in 0..BELLS {
            rings.push(AtomicU64::new(0))?;
        }
        Ok(Bells {
            asleep: AtomicU64::new(0),
            rings,
        })
    }

    fn rings_for(&self, ticket: u64) -> Option<&AtomicU64> {
        self.rings.get((ticket % BELLS) as usize)
    }

    /// Sleeps until the bell of the ticket rings, unless the ticket is served already. It may also end for no reason.
    ///
    /// The pass counts as asleep before it asks whether it is served, and a turn is passed on before the sleepers are
    /// counted, so that no ring falls between (`docs/THREADS.md`).
    pub(crate) fn sleep<R: Wait, F: FnMut() -> bool>(&self, rt: &R, ticket: u64, mut is_served: F)
        requires { F.IsAlwaysCallable is_served }
    {
        if let Some(rings) = self.rings_for(ticket) {
            self.asleep.fetch_add(1, Ordering::SeqCst);
            let heard = rings.load(Ordering::SeqCst);
            if !is_served() {
                rings.park(rt, (heard & 0xffff_ffff) as u32);
            }
            self.asleep.fetch_sub(1, Ordering::SeqCst);
        }
    }

    /// Wakes those who sleep until this ticket is served. Where nobody sleeps it is one look.
    pub(crate) fn ring(&self, ticket: u64) {
        if self.asleep.load(Ordering::SeqCst) > 0 {
            if let Some(rings) = self.rings_for(ticket) {
                rings.fetch_add(1, Ordering::SeqCst);
                rings.wake_all();
            }
        }
    }
}
