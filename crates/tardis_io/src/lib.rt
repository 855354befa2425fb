//! Bytes in and out: what a run reads from, what it writes to, and how it ends.
#![tactic(auto)]

mod adapters;
mod duplexes;
mod faults;
mod gates;
mod links;
mod statuses;
mod streams;
mod writes;

pub use adapters::{ReaderSource, StdIn, StdOut, WriterSink};
pub use duplexes::{Duplex, Pair};
pub use faults::{Failed, WriteFault};
pub use gates::{Dial, Gate};
pub use links::Link;
pub use statuses::Status;
pub use streams::{Sink, Source};
pub use writes::write_all;
