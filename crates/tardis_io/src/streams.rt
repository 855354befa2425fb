//! What a run reads from and writes to.

ghost use Rattle.std.specs.Prelude.{◌≡◌, ℕ, ◌<◌, ◌≤◌, List, Option, length, IfOk};
ghost use Rattle.tardis_io.specs.Told.{WhileTold, Takes, Gives};
ghost use Rattle.tardis_io.specs.Faults.{HasCause};

use crate::faults::Failed;

/// Bytes to be read. A source may tell which bytes are left; one over the real outside tells nothing.
pub trait Source {
    // what is left, where the source tells it
    ghost left: { Self → Option (List ℕ) };

    // how many faults were counted
    ghost faults: { Self → ℕ };

    /// Moves bytes from the front of what is left to the front of `buf`, and answers how many. Zero means the end
    /// of the input. A failed take moves nothing; the bytes of `buf` are then of no meaning.
    fn take(&mut self, buf: &mut [u8]) -> Result<usize, Failed>
        requires { 0 < length buf.old }
        ensures bound { IfOk result (λ n. n ≤ length buf.old) }
        ensures bytes { WhileTold (left self.old) (left self.new) (λ before after. Takes before after result buf.new) }
        ensures cause { HasCause (faults self.old) (faults self.new) result };
}

/// A place for bytes. A sink may tell which bytes it was given.
pub trait Sink {
    // what was given, where the sink tells it
    ghost given: { Self → Option (List ℕ) };

    // how many faults were counted
    ghost faults: { Self → ℕ };

    // what no give changes
    ghost Kept: { Type 0 };

    ghost kept: { Self → Kept };

    /// Gives a front of `bytes`, at least one, and answers how many. A failed give gives nothing.
    fn give(&mut self, bytes: &[u8]) -> Result<usize, Failed>
        requires { 0 < length bytes.now }
        ensures bound { IfOk result (λ n. (0 < n) × (n ≤ length bytes.now)) }
        ensures bytes { WhileTold (given self.old) (given self.new) (λ before after. Gives before after result bytes.now) }
        ensures cause { HasCause (faults self.old) (faults self.new) result }
        ensures kept { kept self.new ≡ kept self.old };
}
