//! Devices that a session is held over.

ghost use Rattle.std.specs.Prelude.{◌≡◌};
ghost use Rattle.tardis_io.specs.Faults.{MayRise};

use crate::duplexes::Duplex;

/// A device whose other side hears when no more bytes will be given.
pub trait Link: Duplex + Send + Drop {
    // it was said that no more bytes will be given
    ghost is_finished: { Self → Type 0 };

    /// Says that no more bytes will be given. What can't be said is counted as a fault of giving.
    fn finish(&mut self)
        ensures finished { is_finished self.new }
        ensures left { Self.left self.new ≡ Self.left self.old }
        ensures given { Self.given self.new ≡ Self.given self.old }
        ensures takes { Self.takes self.new ≡ Self.takes self.old }
        ensures parts { Self.parts self.new ≡ Self.parts self.old }
        ensures take_faults { Self.take_faults self.new ≡ Self.take_faults self.old }
        ensures faults { MayRise (Self.faults self.old) (Self.faults self.new) };
}
