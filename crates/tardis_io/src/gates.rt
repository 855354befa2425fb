//! Where links come from: those that others ask for, and those that are asked for.

ghost use Rattle.std.specs.Prelude.{◌≡◌, ℕ, Option, OnOk};
ghost use Rattle.tardis_io.specs.Faults.{HasCause};
ghost use Rattle.tardis_io.specs.Links.{ToldGate, ToldDial, HandsNext, HandsCalled, IsOut, IsCalled, with_back, with_hung};

use crate::faults::Failed;
use crate::links::Link;

/// Hands out the links that others ask for, one after another, and takes each back when its session is over.
pub trait Gate {
    type Link: Link;

    // its links, where the gate tells them
    ghost told: { Self → Option (ToldGate Self.Link) };

    // how many faults were counted
    ghost faults: { Self → ℕ };

    // it listens
    ghost is_bound: { Self → Type 0 };

    /// Listens at an address: `unix:` and the path of a Unix socket, or `HOST:PORT` over TCP.
    fn bind(&mut self, address: &str) -> Result<(), Failed>
        ensures cause { HasCause (faults self.old) (faults self.new) result }
        ensures told { told self.new ≡ told self.old }
        ensures bound { OnOk result (is_bound self.new) };

    /// Waits for the next link. `None` ends serving.
    fn next(&mut self) -> Result<Option<Self::Link>, Failed>
        requires bound { is_bound self.old }
        ensures cause { HasCause (faults self.old) (faults self.new) result }
        ensures told { HandsNext (told self.old) (told self.new) result }
        ensures bound { is_bound self.new };

    /// Takes back a finished link that was handed out, with the number of its session. It takes no memory.
    fn put_back(&mut self, session: u16, link: Self::Link)
        requires out { IsOut (told self.old) }
        requires finished { Self.Link.is_finished link }
        ensures faults { faults self.new ≡ faults self.old }
        ensures told { told self.new ≡ with_back (told self.old) session link }
        ensures bound { is_bound self.old → is_bound self.new };
}

/// Asks others for links, and takes each back when the call is over.
pub trait Dial {
    type Link: Link;

    // its links, and the addresses that it was asked for, where the dial tells them
    ghost told: { Self → Option (ToldDial Self.Link) };

    // how many faults were counted
    ghost faults: { Self → ℕ };

    /// A link to who listens at an address: `unix:` and the path of a Unix socket, or `HOST:PORT` over TCP.
    fn call(&mut self, address: &str) -> Result<Self::Link, Failed>
        ensures cause { HasCause (faults self.old) (faults self.new) result }
        ensures told { HandsCalled (told self.old) (told self.new) address.now result };

    /// Takes back a finished link that was handed out. It takes no memory.
    fn put_back(&mut self, link: Self::Link)
        requires out { IsCalled (told self.old) }
        requires finished { Self.Link.is_finished link }
        ensures faults { faults self.new ≡ faults self.old }
        ensures told { told self.new ≡ with_hung (told self.old) link };
}
