//! How a run ends.

ghost use Rattle.std.specs.Prelude.{◌≡◌};
ghost use Rattle.tardis_io.specs.Statuses.{status_number};

use std::fmt;
use tardis_base::StateId;

/// How a run ends. The process ends with its number, and its text is the line on standard error.
#[derive(Clone, Copy, PartialEq, Eq)]
pub enum Status {
    /// The input was read to its end and all replies were written.
    Ok,
    /// The words of the command have none of the forms.
    Usage,
    ReadFault,
    WriteFault,
    /// The input ended inside a frame.
    Cut,
    /// A length word was above 1,048,576, or a text line beyond 1,048,576 bytes.
    LongFrame { len: u32 },
    NoMemory,
    /// A server can't listen, or can't take its next link.
    GateFault,
    /// A peer can't be called.
    DialFault,
    /// 1,099,511,627,776 bytes were taken and more would have been.
    Spent,
    /// The file that a site lives in can't be read or written.
    DiskFault,
    /// What was to be imported is no export.
    BadExport,
    /// What was to be exported is no state that is kept.
    NoState { state: StateId },
}

impl Status {
    /// The number with which the process ends.
    pub fn number(self) -> u8
        ensures { result ≡ status_number self }
    {
        match self {
            Status::Ok => 0,
            Status::Usage => 1,
            Status::ReadFault => 2,
            Status::WriteFault => 3,
            Status::Cut => 4,
            Status::LongFrame { .. } => 5,
            Status::NoMemory => 6,
            Status::GateFault => 7,
            Status::DialFault => 8,
            Status::Spent => 9,
            Status::DiskFault => 10,
            Status::BadExport => 11,
            Status::NoState { .. } => 12,
        }
    }

    /// Its text, up to the number or the state that ends it.
    fn text(self) -> &'static str {
        match self {
            Status::Ok => "",
            Status::Usage => "usage: tardis COMMAND OPTIONS",
            Status::ReadFault => "tardis: read fault",
            Status::WriteFault => "tardis: write fault",
            Status::Cut => "tardis: input ends inside a frame",
            Status::LongFrame { .. } => "tardis: frame too long: ",
            Status::NoMemory => "tardis: out of memory",
            Status::GateFault => "tardis: gate fault",
            Status::DialFault => "tardis: dial fault",
            Status::Spent => "tardis: input too large",
            Status::DiskFault => "tardis: disk fault",
            Status::BadExport => "tardis: not an export",
            Status::NoState { .. } => "tardis: no such state ",
        }
    }
}

impl fmt::Display for Status {
    fn fmt<W: fmt::Write>(&self, f: &mut fmt::Formatter<W>) -> fmt::Result {
        f.write_str(self.text())?;
        match self {
            Status::LongFrame { len } => write!(f, "{len}"),
            Status::NoState { state } => write!(f, "{state}"),
            _ => Ok(()),
        }
    }
}
