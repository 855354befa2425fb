//! A source in memory that never fails.

ghost use Rattle.std.specs.Prelude.{◌≡◌, ◌++◌, ◌<◌, ◌≤◌, Some, None, length, take, drop, min, IfOk, Ok};
ghost use Rattle.tardis_io.specs.Told.{WhileTold, Takes};
ghost use Rattle.tardis_io.specs.Faults.{HasCause};

use crate::moves::move_front;
use std::alloc::Global;
use std::marker::Model;
use tardis_base::NoMemory;
use tardis_io::{Failed, Source};

/// A source over bytes in memory whose takes never fail. It is seen as what is left.
#[derive(Drop)]
pub struct SteadySource {
    bytes: Vec<u8>,
    taken: usize,
}

impl Model for SteadySource {
    ghost use Rattle.std.specs.Prelude.{List, ℕ, length, drop, ◌≤◌};

    ghost Value = { List ℕ };

    ghost view = { λ s. drop s.taken s.bytes.items };

    ghost invariant = { λ s. s.taken ≤ length s.bytes.items };
}

impl SteadySource {
    pub fn new(alloc: Global, bytes: &[u8]) -> Result<SteadySource, NoMemory>
        ensures { IfOk result (λ s. s ≡ bytes.now) }
    {
        match Vec::from_slice(alloc, bytes) {
            Ok(bytes) => Ok(SteadySource { bytes, taken: 0 }),
            Err(_) => Err(NoMemory),
        }
    }
}

impl Source for SteadySource {
    ghost left = { λ s. Some s };

    ghost faults = { λ _. 0 };

    fn take(&mut self, buf: &mut [u8]) -> Result<usize, Failed>
        requires { 0 < length buf.old }
        ensures bound { IfOk result (λ n. n ≤ length buf.old) }
        ensures bytes { WhileTold (Some self.old) (Some self.new) (λ before after. Takes before after result buf.new) }
        ensures cause { HasCause 0 0 result }
        ensures count { result ≡ Ok (min (length buf.old) (length self.old)) }
        ensures rest { self.new ≡ drop (length buf.old) self.old }
    {
        let count = move_front(&self.bytes[self.taken..], buf, buf.len());
        self.taken += count;
        Ok(count)
    }
}
