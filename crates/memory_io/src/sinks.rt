//! A sink in memory, of which some calls may fail.

ghost use Rattle.std.specs.Prelude.{◌≡◌, ◌<◌, ◌≤◌, Some, [], length, IfOk};
ghost use Rattle.memory_io.specs.Memory.{MemoryGives, fresh_plan};
ghost use Rattle.tardis_io.specs.Told.{WhileTold, Gives};
ghost use Rattle.tardis_io.specs.Faults.{HasCause};

use crate::plans::CallPlan;
use std::alloc::Global;
use std::marker::Model;
use tardis_base::NoMemory;
use tardis_io::{Failed, Sink};

/// A sink over room in memory that it took when it was made. It tells what was given.
#[derive(Drop)]
pub struct MemorySink {
    given: Vec<u8>,
    room: usize,
    piece: u32,
    plan: CallPlan,
}

impl Model for MemorySink {
    ghost use Rattle.std.specs.Prelude.{length, ◌+◌, ◌≤◌, vec_capacity};
    ghost use Rattle.memory_io.specs.Memory.{Output};

    ghost Value = { Output };

    ghost view = { λ s. record { given = s.given.items; room = s.room; piece = s.piece; plan = s.plan } };

    ghost invariant = { λ s. (length s.given.items + s.room ≤ vec_capacity s.given) × (1 ≤ s.piece) };
}

impl MemorySink {
    /// A sink for `room` bytes, of which each give moves at most `piece`. The calls listed in `failing`, counted from
    /// 1, fail, and so does each call once the room is used up.
    pub fn new(
        alloc: Global,
        room: u32,
        piece: u32,
        failing: &[u64],
    ) -> Result<MemorySink, NoMemory>
        requires { 1 ≤ piece }
        ensures { IfOk result (λ s. s ≡ record { given = []; room = room; piece = piece; plan = fresh_plan failing.now }) }
    {
        let Ok(given) = Vec::with_capacity(alloc, room as usize) else {
            return Err(NoMemory);
        };
        let plan = CallPlan::new(alloc, failing)?;
        Ok(MemorySink {
            given,
            room: room as usize,
            piece,
            plan,
        })
    }

    /// What was given.
    pub fn bytes(&self) -> &[u8]
        ensures { result.now ≡ self.now.given }
    {
        self.given.as_slice()
    }
}

impl Sink for MemorySink {
    ghost given = { λ s. Some s.given };

    ghost faults = { λ s. s.plan.faults };

    ghost Kept = { Unit {0} };

    ghost kept = { λ _. tt };

    fn give(&mut self, bytes: &[u8]) -> Result<usize, Failed>
        requires { 0 < length bytes.now }
        ensures bound { IfOk result (λ n. (0 < n) × (n ≤ length bytes.now)) }
        ensures bytes { WhileTold (Some self.old.given) (Some self.new.given) (λ before after. Gives before after result bytes.now) }
        ensures cause { HasCause self.old.plan.faults self.new.plan.faults result }
        ensures exact { MemoryGives self.old self.new bytes.now result }
    {
        self.plan.call()?;
        let count = (self.piece as usize).min(bytes.len().min(self.room));
        if count == 0 {
            self.plan.fault();
            return Err(Failed);
        }
        match self.given.extend_from_slice(&bytes[..count]) {
            Ok(()) => {
                self.room -= count;
                Ok(count)
            }
            Err(_) => unreachable!(),
        }
    }
}
