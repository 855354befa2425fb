//! Which calls of an object in memory fail.

ghost use Rattle.std.specs.Prelude.{◌≡◌, ◌≤◌, true, false, IfOk, MatchResult};
ghost use Rattle.memory_io.specs.Memory.{fresh_plan, fails_next, after_call, after_fault};
ghost use Rattle.tardis_io.specs.Faults.{raised, Rose, HasCause};

use std::alloc::Global;
use std::marker::Model;
use tardis_base::NoMemory;
use tardis_io::Failed;

/// The calls that are to fail, counted from 1, with the number of calls so far and of the faults among them. Both
/// numbers stand still at the end of their type.
#[derive(Drop)]
pub struct CallPlan {
    failing: Vec<u64>,
    calls: u64,
    faults: u64,
}

impl Model for CallPlan {
    ghost use Rattle.memory_io.specs.Memory.{Plan};

    ghost Value = { Plan };

    ghost view = { λ p. record { failing = p.failing.items; calls = p.calls; faults = p.faults } };
}

impl CallPlan {
    pub fn new(alloc: Global, failing: &[u64]) -> Result<CallPlan, NoMemory>
        ensures { IfOk result (λ p. p ≡ fresh_plan failing.now) }
    {
        match Vec::from_slice(alloc, failing) {
            Ok(failing) => Ok(CallPlan {
                failing,
                calls: 0,
                faults: 0,
            }),
            Err(_) => Err(NoMemory),
        }
    }

    /// Counts a call, and its fault where it is to fail.
    pub fn call(&mut self) -> Result<(), Failed>
        ensures plan { MatchResult result
            (λ _. (fails_next self.old ≡ false) × (self.new ≡ after_call self.old))
            (λ _. (fails_next self.old ≡ true) × (self.new ≡ after_fault self.old)) }
        ensures cause { HasCause self.old.faults self.new.faults result }
    {
        self.calls = self.calls.saturating_add(1);
        if self.failing.as_slice().contains(&self.calls) {
            self.faults = self.faults.saturating_add(1);
            Err(Failed)
        } else {
            Ok(())
        }
    }

    /// Counts a fault of the call that was counted last.
    pub fn fault(&mut self)
        ensures plan { self.new ≡ record { failing = self.old.failing; calls = self.old.calls; faults = raised self.old.faults } }
        ensures later { self.old.faults ≤ self.new.faults }
        ensures rose { Rose self.old.faults self.new.faults }
    {
        self.faults = self.faults.saturating_add(1);
    }
}
