//! What fails on the outside.

use std::error::Error;
use std::fmt;

/// A call on the outside failed. The object's count of faults rose, and nothing was taken or given.
#[derive(Clone, Copy, Debug, PartialEq, Eq)]
pub struct Failed;

/// A sink failed before all bytes were given to it.
#[derive(Clone, Copy, Debug, PartialEq, Eq)]
pub struct WriteFault;

impl fmt::Display for Failed {
    fn fmt<W: fmt::Write>(&self, f: &mut fmt::Formatter<W>) -> fmt::Result {
        f.write_str("a read or a write failed")
    }
}

impl fmt::Display for WriteFault {
    fn fmt<W: fmt::Write>(&self, f: &mut fmt::Formatter<W>) -> fmt::Result {
        f.write_str("writing failed before all bytes were written")
    }
}

impl Error for Failed {}

impl Error for WriteFault {}
