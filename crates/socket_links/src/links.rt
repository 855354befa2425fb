//! Links over sockets.

ghost use Rattle.std.specs.Prelude.{◌≡◌, ℕ, None, refl, true};
ghost use Rattle.std.proofs.Common.{ap};

use crate::doors::Stream;
use std::io::ErrorKind;
use tardis_io::{Duplex, Failed, Link, Sink};

/// A link over a socket. Each error of the system is counted, on the side where it came, and so is a write that takes
/// nothing; what was interrupted is tried again. An error in telling the other side that no more bytes will come is
/// counted as one of writing.
///
/// How it is let go is written here, so that the crates above needn't prove it of what it is made of.
pub struct SocketLink {
    stream: Stream,
    read_faults: u64,
    write_faults: u64,
    finished: bool,
}

impl Drop for SocketLink {
    fn drop(self) {
        let SocketLink {
            stream,
            read_faults: _,
            write_faults: _,
            finished: _,
        } = self;
        drop(stream);
    }
}

impl SocketLink {
    pub(crate) fn new(stream: Stream) -> SocketLink {
        SocketLink {
            stream,
            read_faults: 0,
            write_faults: 0,
            finished: false,
        }
    }

    /// How many errors of reading were counted.
    pub fn read_faults(&self) -> u64
        ensures { result ≡ self.now.read_faults }
    {
        self.read_faults
    }

    /// How many errors of writing were counted.
    pub fn write_faults(&self) -> u64
        ensures { result ≡ self.now.write_faults }
    {
        self.write_faults
    }
}

impl Sink for SocketLink {
    ghost given = { λ _. None };

    ghost faults = { λ l. l.write_faults };

    ghost Kept = { ℕ };

    ghost kept = { λ l. l.read_faults };

    fn give(&mut self, bytes: &[u8]) -> Result<usize, Failed> {
        for _ in 0..u64::MAX {
            match self.stream.write(bytes) {
                Ok(0) => break,
                Ok(count) => return Ok(count),
                Err(error) => {
                    if error.kind() != ErrorKind::Interrupted {
                        break;
                    }
                    self.write_faults = self.write_faults.saturating_add(1);
                }
            }
        }
        self.write_faults = self.write_faults.saturating_add(1);
        Err(Failed)
    }
}

impl Duplex for SocketLink {
    ghost left = { λ _. None };

    ghost take_faults = { λ l. l.read_faults };

    ghost takes = { λ _. None };

    ghost Parts = { Unit {0} };

    ghost parts = { λ _. tt };

    fn take(&mut self, buf: &mut [u8]) -> Result<usize, Failed> {
        for _ in 0..u64::MAX {
            match self.stream.read(buf) {
                Ok(count) => return Ok(count),
                Err(error) => {
                    self.read_faults = self.read_faults.saturating_add(1);
                    if error.kind() != ErrorKind::Interrupted {
                        return Err(Failed);
                    }
                }
            }
        }
        self.read_faults = self.read_faults.saturating_add(1);
        Err(Failed)
    }

    ghost gives_are_apart = { λ d e same. (refl, same, refl, refl) };
}

impl Link for SocketLink {
    ghost is_finished = { λ l. l.finished ≡ true };

    fn finish(&mut self) {
        self.finished = true;
        if self.stream.finish().is_err() {
            self.write_faults = self.write_faults.saturating_add(1);
        }
    }
}
