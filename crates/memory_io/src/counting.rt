//! A sink that counts.

ghost use Rattle.std.specs.Prelude.{◌≡◌, ◌+◌, ◌<◌, ◌≤◌, None, length, min, IfOk, Ok};
ghost use Rattle.tardis_io.specs.Told.{WhileTold, Gives};
ghost use Rattle.tardis_io.specs.Faults.{HasCause};

use tardis_io::{Failed, Sink};

/// A sink that never fails and tells only how many bytes it was given. The count stands still at its end.
#[derive(Clone, Copy, PartialEq, Eq)]
pub struct CountSink {
    pub bytes: u64,
}

impl CountSink {
    pub fn new() -> CountSink
        ensures { result ≡ record { bytes = 0 } }
    {
        CountSink { bytes: 0 }
    }
}

impl Sink for CountSink {
    ghost given = { λ _. None };

    ghost faults = { λ _. 0 };

    ghost Kept = { Unit {0} };

    ghost kept = { λ _. tt };

    fn give(&mut self, bytes: &[u8]) -> Result<usize, Failed>
        requires { 0 < length bytes.now }
        ensures bound { IfOk result (λ n. (0 < n) × (n ≤ length bytes.now)) }
        ensures bytes { WhileTold None None (λ before after. Gives before after result bytes.now) }
        ensures cause { HasCause 0 0 result }
        ensures count { result ≡ Ok (length bytes.now) }
        ensures sum { self.new.bytes ≡ min (self.old.bytes + length bytes.now) 18446744073709551615 }
    {
        self.bytes = self.bytes.saturating_add(bytes.len() as u64);
        Ok(bytes.len())
    }
}
