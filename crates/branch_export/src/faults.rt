//! Why an export wasn't written.

use std::error::Error;
use std::fmt;
use tardis_base::NoMemory;
use tardis_io::WriteFault;

/// Why the export of a state wasn't written whole.
#[derive(Clone, Copy, Debug)]
pub enum ExportFault {
    /// The state is unknown, or was collected.
    NoState,
    WriteFault,
    NoMemory,
}

impl fmt::Display for ExportFault {
    fn fmt<W: fmt::Write>(&self, f: &mut fmt::Formatter<W>) -> fmt::Result {
        match self {
            ExportFault::NoState => f.write_str("the state is unknown or was collected"),
            ExportFault::WriteFault => f.write_str("the export can't be written"),
            ExportFault::NoMemory => f.write_str("there is no memory for the export"),
        }
    }
}

impl Error for ExportFault {}

impl From<NoMemory> for ExportFault {
    ghost use Rattle.std.specs.Prelude.{◌≡◌};
    ghost use Rattle.branch_export.specs.declared.faults.ExportFault.TheVariants.{NoMemory as OutOfMemory};

    ghost from_gives = { λ _ fault. fault ≡ OutOfMemory };

    fn from(_: NoMemory) -> ExportFault {
        ExportFault::NoMemory
    }
}

impl From<WriteFault> for ExportFault {
    ghost use Rattle.std.specs.Prelude.{◌≡◌};
    ghost use Rattle.branch_export.specs.declared.faults.ExportFault.TheVariants.{WriteFault as NotWritten};

    ghost from_gives = { λ _ fault. fault ≡ NotWritten };

    fn from(_: WriteFault) -> ExportFault {
        ExportFault::WriteFault
    }
}
