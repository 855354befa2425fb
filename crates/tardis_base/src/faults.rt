//! Why a call could not do what was asked.

ghost use Rattle.std.specs.Prelude.{⊤};

use crate::ids::StateId;
use crate::sizes::{MAX_KEY, MAX_VALUE};
use std::alloc::{AllocError, AllocFailed};
use std::error::Error;
use std::fmt;

/// There was no memory. The object is as before, unless the call says otherwise.
#[derive(Clone, Copy, Debug, PartialEq, Eq)]
pub struct NoMemory;

/// The site has no next number: its last one was given out.
#[derive(Clone, Copy, Debug, PartialEq, Eq)]
pub struct SeqEnd;

/// Why bytes are no key or no value.
#[derive(Clone, Copy, Debug, PartialEq, Eq)]
pub enum BytesFault {
    /// There are too few or too many of them.
    Length,
    NoMemory,
}

/// Why bytes were not read.
#[derive(Clone, Copy, Debug, PartialEq, Eq)]
pub enum ReadFault {
    /// They spell no thing of the kind.
    Malformed,
    NoMemory,
}

/// Why a record was not added.
#[derive(Clone, Copy, Debug, PartialEq, Eq)]
pub enum AddFault {
    /// As many states are kept as may be.
    Full { kept: u32 },
    /// The fork path of this state would be too long, with so many pairs.
    PathFull { state: StateId, pairs: u32 },
    NoMemory,
}

impl From<AllocError> for NoMemory {
    ghost from_gives = { λ _ _. ⊤ };

    fn from(_: AllocError) -> NoMemory {
        NoMemory
    }
}

impl<T: Drop> From<AllocFailed<T>> for NoMemory {
    ghost from_gives = { λ _ _. ⊤ };

    fn from(_: AllocFailed<T>) -> NoMemory {
        NoMemory
    }
}

impl From<NoMemory> for ReadFault {
    ghost use Rattle.std.specs.Prelude.{◌≡◌};
    ghost use Rattle.tardis_base.specs.declared.faults.ReadFault.TheVariants.{NoMemory as OutOfMemory};

    ghost from_gives = { λ _ fault. fault ≡ OutOfMemory };

    fn from(_: NoMemory) -> ReadFault {
        ReadFault::NoMemory
    }
}

impl From<BytesFault> for ReadFault {
    ghost use Rattle.std.specs.Prelude.{◌≡◌};
    ghost use Rattle.tardis_base.specs.Faults.{read_fault};

    ghost from_gives = { λ fault read. read ≡ read_fault fault };

    fn from(fault: BytesFault) -> ReadFault {
        match fault {
            BytesFault::Length => ReadFault::Malformed,
            BytesFault::NoMemory => ReadFault::NoMemory,
        }
    }
}

impl From<NoMemory> for AddFault {
    ghost use Rattle.std.specs.Prelude.{◌≡◌};
    ghost use Rattle.tardis_base.specs.declared.faults.AddFault.TheVariants.{NoMemory as OutOfMemory};

    ghost from_gives = { λ _ fault. fault ≡ OutOfMemory };

    fn from(_: NoMemory) -> AddFault {
        AddFault::NoMemory
    }
}

impl fmt::Display for NoMemory {
    fn fmt<W: fmt::Write>(&self, f: &mut fmt::Formatter<W>) -> fmt::Result {
        f.write_str("out of memory")
    }
}

impl Error for NoMemory {}

impl fmt::Display for SeqEnd {
    fn fmt<W: fmt::Write>(&self, f: &mut fmt::Formatter<W>) -> fmt::Result {
        f.write_str("the site has given out its last sequence number")
    }
}

impl Error for SeqEnd {}

impl fmt::Display for BytesFault {
    fn fmt<W: fmt::Write>(&self, f: &mut fmt::Formatter<W>) -> fmt::Result {
        match self {
            BytesFault::Length => write!(
                f,
                "wrong length: a key has 1 to {MAX_KEY} bytes, and a value at most {MAX_VALUE}"
            ),
            BytesFault::NoMemory => f.write_str("out of memory"),
        }
    }
}

impl Error for BytesFault {}

impl fmt::Display for ReadFault {
    fn fmt<W: fmt::Write>(&self, f: &mut fmt::Formatter<W>) -> fmt::Result {
        match self {
            ReadFault::Malformed => f.write_str("malformed: the bytes do not have the format"),
            ReadFault::NoMemory => f.write_str("out of memory"),
        }
    }
}

impl Error for ReadFault {}

impl fmt::Display for AddFault {
    fn fmt<W: fmt::Write>(&self, f: &mut fmt::Formatter<W>) -> fmt::Result {
        match self {
            AddFault::Full { kept } => {
                write!(f, "the site is full: it keeps {kept} states; collect some")
            },
            AddFault::PathFull { state, pairs } => {
                write!(
                    f,
                    "the fork path of state {state} would have {pairs} pairs, too many"
                )
            },
            AddFault::NoMemory => f.write_str("out of memory"),
        }
    }
}

impl Error for AddFault {}
