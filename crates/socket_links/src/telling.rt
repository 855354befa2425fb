//! A gate that says where it listens, and a dial that says whom it can't reach.

ghost use Rattle.std.specs.Prelude.{◌≡◌};

use std::io::Eprint;
use tardis_io::{Dial, Failed, Gate};

/// A gate that writes a line on standard error once it listens, so that whoever started the program knows that links may
/// come. Where standard error is closed, nobody waits for the line: that it couldn't be written is no fault. All else it
/// does as the gate behind it.
///
/// How it is let go is written here, so that the crates above needn't prove it of what it is made of.
pub struct TellingGate<'a, R, G> {
    rt: &'a R,
    gate: G,
}

impl<R, G: Drop> Drop for TellingGate<'_, R, G> {
    fn drop(self) {
        let TellingGate { rt: _, gate } = self;
        drop(gate);
    }
}

impl<'a, R, G> TellingGate<'a, R, G> {
    pub fn new(rt: &'a R, gate: G) -> TellingGate<'a, R, G>
        ensures { result.gate ≡ gate }
    {
        TellingGate { rt, gate }
    }
}

impl<R: Eprint, G: Gate> Gate for TellingGate<'_, R, G> {
    type Link = G::Link;

    ghost told = { λ g. G.told g.gate };

    ghost faults = { λ g. G.faults g.gate };

    ghost is_bound = { λ g. G.is_bound g.gate };

    fn bind(&mut self, address: &str) -> Result<(), Failed> {
        self.gate.bind(address)?;
        let _ = self
            .rt
            .eprintln(format_args!("tardis: listens at {address}"));
        Ok(())
    }

    fn next(&mut self) -> Result<Option<G::Link>, Failed> {
        self.gate.next()
    }

    fn put_back(&mut self, session: u16, link: G::Link) {
        self.gate.put_back(session, link);
    }
}

/// A dial that writes a line on standard error for each call that fails, so that whoever started the program knows which
/// peers aren't there. All else it does as the dial behind it.
#[derive(Drop)]
pub struct TellingDial<'a, R, D> {
    rt: &'a R,
    dial: D,
}

impl<'a, R, D> TellingDial<'a, R, D> {
    pub fn new(rt: &'a R, dial: D) -> TellingDial<'a, R, D>
        ensures { result.dial ≡ dial }
    {
        TellingDial { rt, dial }
    }
}

impl<R: Eprint, D: Dial> Dial for TellingDial<'_, R, D> {
    type Link = D::Link;

    ghost told = { λ d. D.told d.dial };

    ghost faults = { λ d. D.faults d.dial };

    fn call(&mut self, address: &str) -> Result<D::Link, Failed> {
        match self.dial.call(address) {
            Ok(link) => Ok(link),
            Err(Failed) => {
                let _ = self
                    .rt
                    .eprintln(format_args!("tardis: no link to {address}"));
                Err(Failed)
            }
        }
    }

    fn put_back(&mut self, link: D::Link) {
        self.dial.put_back(link);
    }
}
