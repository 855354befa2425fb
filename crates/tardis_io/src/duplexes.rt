//! Devices that bytes are given to and taken from.

ghost use Rattle.std.specs.Prelude.{◌≡◌, ℕ, ◌<◌, ◌≤◌, List, Option, None, refl, length, IfOk};
ghost use Rattle.std.proofs.Common.{ap};
ghost use Rattle.tardis_io.specs.Told.{WhileTold, Takes};
ghost use Rattle.tardis_io.specs.Moments.{Moment, with_take};
ghost use Rattle.tardis_io.specs.Faults.{HasCause};

use crate::faults::Failed;
use crate::streams::{Sink, Source};

/// A sink that bytes are taken from too. It may tell, of each take, what was left and what had been given by then, so that
/// a contract can say what is given before more is asked for.
pub trait Duplex: Sink {
    // what is left, where the device tells it
    ghost left: { Self → Option (List ℕ) };

    // how many faults of takes were counted
    ghost take_faults: { Self → ℕ };

    // the takes so far, where the device tells them
    ghost takes: { Self → Option (List Moment) };

    // what no call changes
    ghost Parts: { Type 0 };

    ghost parts: { Self → Parts };

    /// Takes as `Source::take` does.
    fn take(&mut self, buf: &mut [u8]) -> Result<usize, Failed>
        requires { 0 < length buf.old }
        ensures bound { IfOk result (λ n. n ≤ length buf.old) }
        ensures bytes { WhileTold (left self.old) (left self.new) (λ before after. Takes before after result buf.new) }
        ensures cause { HasCause (take_faults self.old) (take_faults self.new) result }
        ensures told { takes self.new ≡ with_take (takes self.old) (left self.old) (Self.given self.old) }
        ensures given { Self.given self.new ≡ Self.given self.old }
        ensures faults { Self.faults self.new ≡ Self.faults self.old }
        ensures parts { parts self.new ≡ parts self.old };

    // what no give changes tells all of this
    ghost gives_are_apart: { (d e : Self) → Self.kept d ≡ Self.kept e
        → (left d ≡ left e) × (take_faults d ≡ take_faults e) × (takes d ≡ takes e) × (parts d ≡ parts e) };
}

/// A source and a sink as one device. It tells what they tell, and not in which order they are called.
#[derive(Drop)]
pub struct Pair<'a, I, O> {
    pub input: &'a mut I,
    pub output: &'a mut O,
}

impl<I: Source, O: Sink> Sink for Pair<'_, I, O> {
    ghost given = { λ p. O.given p.output.now };

    ghost faults = { λ p. O.faults p.output.now };

    ghost Kept = { I × ℕ × ℕ };

    ghost kept = { λ p. (p.input.now, p.input.ghost_name, p.output.ghost_name) };

    fn give(&mut self, bytes: &[u8]) -> Result<usize, Failed> {
        self.output.give(bytes)
    }
}

impl<I: Source, O: Sink> Duplex for Pair<'_, I, O> {
    ghost left = { λ p. I.left p.input.now };

    ghost take_faults = { λ p. I.faults p.input.now };

    ghost takes = { λ _. None };

    ghost Parts = { ℕ × ℕ };

    ghost parts = { λ p. (p.input.ghost_name, p.output.ghost_name) };

    fn take(&mut self, buf: &mut [u8]) -> Result<usize, Failed> {
        self.input.take(buf)
    }

    ghost gives_are_apart = { λ d e same. (ap (λ k. I.left k.0) same, ap (λ k. I.faults k.0) same, refl, ap (λ k. (k.1, k.2)) same) };
}
