//! The outside as std gives it. These tell nothing of content.

ghost use Rattle.std.specs.Prelude.{◌≡◌, None};

use crate::faults::Failed;
use crate::streams::{Sink, Source};
use std::io::{ErrorKind, Read, Stdin, Stdout, Write};

/// A source that reads from a reader. Each error of the reader is counted; a read that was interrupted is tried again.
#[derive(Drop)]
pub struct ReaderSource<R> {
    reader: R,
    faults: u64,
}

/// A sink that writes to a writer and flushes it after each write. Each error of the writer is counted, and so is a
/// write that takes nothing; a write that was interrupted is tried again.
#[derive(Drop)]
pub struct WriterSink<W> {
    writer: W,
    faults: u64,
}

/// Standard input.
pub type StdIn = ReaderSource<Stdin>;

/// Standard output.
pub type StdOut = WriterSink<Stdout>;

impl<R: Read> ReaderSource<R> {
    pub fn new(reader: R) -> ReaderSource<R>
        ensures { result.faults ≡ 0 }
    {
        ReaderSource { reader, faults: 0 }
    }

    /// How many errors were counted.
    pub fn faults(&self) -> u64
        ensures { result ≡ self.now.faults }
    {
        self.faults
    }
}

impl<W: Write> WriterSink<W> {
    pub fn new(writer: W) -> WriterSink<W>
        ensures { result.faults ≡ 0 }
    {
        WriterSink { writer, faults: 0 }
    }

    /// How many errors were counted.
    pub fn faults(&self) -> u64
        ensures { result ≡ self.now.faults }
    {
        self.faults
    }
}

impl<R: Read> Source for ReaderSource<R> {
    ghost left = { λ _. None };

    ghost faults = { λ s. s.faults };

    fn take(&mut self, buf: &mut [u8]) -> Result<usize, Failed> {
        for _ in 0..u64::MAX {
            match self.reader.read(buf) {
                Ok(count) => return Ok(count),
                Err(error) => {
                    self.faults = self.faults.saturating_add(1);
                    if error.kind() != ErrorKind::Interrupted {
                        return Err(Failed);
                    }
                }
            }
        }
        self.faults = self.faults.saturating_add(1);
        Err(Failed)
    }
}

impl<W: Write> Sink for WriterSink<W> {
    ghost given = { λ _. None };

    ghost faults = { λ s. s.faults };

    ghost Kept = { Unit {0} };

    ghost kept = { λ _. tt };

    fn give(&mut self, bytes: &[u8]) -> Result<usize, Failed> {
        for _ in 0..u64::MAX {
            match self.writer.write(bytes) {
                Ok(0) => break,
                Ok(count) => match self.writer.flush() {
                    Ok(()) => return Ok(count),
                    Err(_) => break,
                },
                Err(error) => {
                    if error.kind() != ErrorKind::Interrupted {
                        break;
                    }
                    self.faults = self.faults.saturating_add(1);
                }
            }
        }
        self.faults = self.faults.saturating_add(1);
        Err(Failed)
    }
}
