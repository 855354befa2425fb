//! A link in memory, of which some calls may fail.

ghost use Rattle.std.specs.Prelude.{◌≡◌, ◌<◌, ◌≤◌, Bool, true, false, Some, length, refl, IfOk};
ghost use Rattle.std.proofs.Common.{ap};
ghost use Rattle.tardis_io.specs.Faults.{HasCause, MayRise};
ghost use Rattle.memory_io.specs.Links.{LinkTakes, LinkGives, kept_of, no_takes, no_parts};
ghost use Rattle.tardis_io.specs.Moments.{with_take};
ghost use Rattle.memory_io.specs.Memory.{Input};
ghost use Rattle.tardis_io.specs.Told.{WhileTold, Takes, Gives};

use crate::sinks::MemorySink;
use crate::sources::MemorySource;
use tardis_io::{Duplex, Failed, Link, Sink, Source};

/// A link over bytes in memory. It tells what is left and what was given.
#[derive(Drop)]
pub struct MemoryLink {
    source: MemorySource,
    sink: MemorySink,
    finished: bool,
}

impl MemoryLink {
    pub fn new(source: MemorySource, sink: MemorySink) -> MemoryLink
        ensures { result ≡ record { source = source; sink = sink; finished = false } }
    {
        MemoryLink {
            source,
            sink,
            finished: false,
        }
    }

    /// What bytes are taken from.
    pub fn source(&self) -> &MemorySource
        ensures { result.now ≡ self.now.source }
    {
        &self.source
    }

    /// What bytes were given to.
    pub fn sink(&self) -> &MemorySink
        ensures { result.now ≡ self.now.sink }
    {
        &self.sink
    }

    /// Whether it was said that no more bytes will be given.
    pub fn is_finished(&self) -> bool
        ensures { result ≡ self.now.finished }
    {
        self.finished
    }
}

impl Sink for MemoryLink {
    ghost given = { λ l. Some l.sink.given };

    ghost faults = { λ l. l.sink.plan.faults };

    ghost Kept = { Input × Bool };

    ghost kept = { kept_of };

    fn give(&mut self, bytes: &[u8]) -> Result<usize, Failed>
        requires { 0 < length bytes.now }
        ensures bound { IfOk result (λ n. (0 < n) × (n ≤ length bytes.now)) }
        ensures bytes { WhileTold (Some self.old.sink.given) (Some self.new.sink.given) (λ before after. Gives before after result bytes.now) }
        ensures cause { HasCause self.old.sink.plan.faults self.new.sink.plan.faults result }
        ensures kept { kept_of self.new ≡ kept_of self.old }
        ensures exact { LinkGives self.old self.new bytes.now result }
    {
        self.sink.give(bytes)
    }
}

impl Duplex for MemoryLink {
    ghost left = { λ l. Some l.source.left };

    ghost take_faults = { λ l. l.source.plan.faults };

    ghost takes = { λ _. no_takes };

    ghost Parts = { Unit {0} };

    ghost parts = { λ _. no_parts };

    fn take(&mut self, buf: &mut [u8]) -> Result<usize, Failed>
        requires { 0 < length buf.old }
        ensures bound { IfOk result (λ n. n ≤ length buf.old) }
        ensures bytes { WhileTold (Some self.old.source.left) (Some self.new.source.left) (λ before after. Takes before after result buf.new) }
        ensures cause { HasCause self.old.source.plan.faults self.new.source.plan.faults result }
        ensures told { no_takes ≡ with_take no_takes (Some self.old.source.left) (Some self.old.sink.given) }
        ensures given { Some self.new.sink.given ≡ Some self.old.sink.given }
        ensures faults { self.new.sink.plan.faults ≡ self.old.sink.plan.faults }
        ensures parts { no_parts ≡ no_parts }
        ensures exact { LinkTakes self.old self.new buf.old buf.new result }
    {
        self.source.take(buf)
    }

    ghost gives_are_apart = { λ d e same. (ap (λ k. Some k.0.left) same, ap (λ k. k.0.plan.faults) same, refl, refl) };
}

impl Link for MemoryLink {
    ghost is_finished = { λ l. l.finished ≡ true };

    fn finish(&mut self)
        ensures finished { self.new.finished ≡ true }
        ensures left { Some self.new.source.left ≡ Some self.old.source.left }
        ensures given { Some self.new.sink.given ≡ Some self.old.sink.given }
        ensures takes { no_takes ≡ no_takes }
        ensures parts { no_parts ≡ no_parts }
        ensures take_faults { self.new.source.plan.faults ≡ self.old.source.plan.faults }
        ensures faults { MayRise self.old.sink.plan.faults self.new.sink.plan.faults }
        ensures same { (self.new.source ≡ self.old.source) × (self.new.sink ≡ self.old.sink) }
    {
        self.finished = true;
    }
}
