//! Which calls of a disk in memory fail, with a count of the faults that can be read.

ghost use Rattle.std.specs.Prelude.{◌≡◌, ◌≤◌, true, false, IfOk, MatchResult};
ghost use Rattle.memory_io.specs.Memory.{fresh_plan, fails_next, after_call, after_fault};
ghost use Rattle.tardis_io.specs.Faults.{raised, Rose, HasCause};

use memory_io::CallPlan;
use std::alloc::Global;
use std::marker::Model;
use tardis_base::NoMemory;
use tardis_io::Failed;

/// The calls of a disk that are to fail, and how many faults were counted. It is seen as its plan.
#[derive(Drop)]
pub struct DiskPlan {
    plan: CallPlan,
    faults: u64,
}

impl Model for DiskPlan {
    ghost use Rattle.std.specs.Prelude.{◌≡◌};
    ghost use Rattle.memory_io.specs.Memory.{Plan};

    ghost Value = { Plan };

    ghost view = { λ p. p.plan };

    ghost invariant = { λ p. p.faults ≡ p.plan.faults };
}

impl DiskPlan {
    pub(crate) fn new(alloc: Global, failing: &[u64]) -> Result<DiskPlan, NoMemory>
        ensures { IfOk result (λ p. p ≡ fresh_plan failing.now) }
    {
        let plan = CallPlan::new(alloc, failing)?;
        Ok(DiskPlan { plan, faults: 0 })
    }

    /// How many faults were counted.
    pub(crate) fn faults(&self) -> u64
        ensures { result ≡ self.now.faults }
    {
        self.faults
    }

    /// Counts a call, and its fault where it is to fail.
    pub(crate) fn call(&mut self) -> Result<(), Failed>
        ensures plan { MatchResult result
            (λ _. (fails_next self.old ≡ false) × (self.new ≡ after_call self.old))
            (λ _. (fails_next self.old ≡ true) × (self.new ≡ after_fault self.old)) }
        ensures cause { HasCause self.old.faults self.new.faults result }
    {
        match self.plan.call() {
            Ok(()) => Ok(()),
            Err(Failed) => {
                self.faults = self.faults.saturating_add(1);
                Err(Failed)
            }
        }
    }

    /// Counts a fault of the call that was counted last.
    pub(crate) fn fault(&mut self)
        ensures plan { self.new ≡ record { failing = self.old.failing; calls = self.old.calls; faults = raised self.old.faults } }
        ensures later { self.old.faults ≤ self.new.faults }
        ensures rose { Rose self.old.faults self.new.faults }
    {
        self.plan.fault();
        self.faults = self.faults.saturating_add(1);
    }
}
