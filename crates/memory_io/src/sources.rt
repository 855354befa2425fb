//! A source in memory, of which some calls may fail.

ghost use Rattle.std.specs.Prelude.{◌≡◌, ◌<◌, ◌≤◌, Some, length, IfOk};
ghost use Rattle.memory_io.specs.Memory.{MemoryTakes, fresh_plan};
ghost use Rattle.tardis_io.specs.Told.{WhileTold, Takes};
ghost use Rattle.tardis_io.specs.Faults.{HasCause};

use crate::moves::move_front;
use crate::plans::CallPlan;
use std::alloc::Global;
use std::marker::Model;
use tardis_base::NoMemory;
use tardis_io::{Failed, Source};

/// A source over bytes in memory. It tells what is left.
#[derive(Drop)]
pub struct MemorySource {
    bytes: Vec<u8>,
    taken: usize,
    piece: u32,
    plan: CallPlan,
}

impl Model for MemorySource {
    ghost use Rattle.std.specs.Prelude.{length, drop, ◌≤◌};
    ghost use Rattle.memory_io.specs.Memory.{Input};

    ghost Value = { Input };

    ghost view = { λ s. record { left = drop s.taken s.bytes.items; piece = s.piece; plan = s.plan } };

    ghost invariant = { λ s. (s.taken ≤ length s.bytes.items) × (1 ≤ s.piece) };
}

impl MemorySource {
    /// A source of which each take moves at most `piece` bytes, and the calls listed in `failing`, counted from 1, fail.
    pub fn new(
        alloc: Global,
        bytes: &[u8],
        piece: u32,
        failing: &[u64],
    ) -> Result<MemorySource, NoMemory>
        requires { 1 ≤ piece }
        ensures { IfOk result (λ s. s ≡ record { left = bytes.now; piece = piece; plan = fresh_plan failing.now }) }
    {
        let Ok(bytes) = Vec::from_slice(alloc, bytes) else {
            return Err(NoMemory);
        };
        let plan = CallPlan::new(alloc, failing)?;
        Ok(MemorySource {
            bytes,
            taken: 0,
            piece,
            plan,
        })
    }

    /// What is left.
    pub fn left(&self) -> &[u8]
        ensures { result.now ≡ self.now.left }
    {
        &self.bytes[self.taken..]
    }
}

impl Source for MemorySource {
    ghost left = { λ s. Some s.left };

    ghost faults = { λ s. s.plan.faults };

    fn take(&mut self, buf: &mut [u8]) -> Result<usize, Failed>
        requires { 0 < length buf.old }
        ensures bound { IfOk result (λ n. n ≤ length buf.old) }
        ensures bytes { WhileTold (Some self.old.left) (Some self.new.left) (λ before after. Takes before after result buf.new) }
        ensures cause { HasCause self.old.plan.faults self.new.plan.faults result }
        ensures exact { MemoryTakes self.old self.new buf.old buf.new result }
    {
        self.plan.call()?;
        let count = move_front(&self.bytes[self.taken..], buf, self.piece as usize);
        self.taken += count;
        Ok(count)
    }
}
