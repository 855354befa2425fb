//! How a server ends.

ghost use Rattle.std.specs.Prelude.{◌≡◌};
ghost use Rattle.tardisd_main.specs.Ends.{end_by, end_number, file_number};

use crate::checks::FileCheck;
use command_words::Place;
use hub::End;
use std::fmt;

/// Why no connection comes any more.
#[derive(Clone, Copy, PartialEq, Eq)]
pub enum GateFault {
    /// An address has none of the forms, or its host isn't known.
    NoAddress,
    /// A server that lives has the address of a door.
    InUse,
    /// Something else than a socket stands at the path.
    Occupied,
    /// The system refused to listen at a door.
    Refused,
    /// The system can't be waited for.
    Lost,
}

/// Why a site isn't served from its file, or no longer.
#[derive(Clone, Copy, PartialEq, Eq)]
pub enum FileFault {
    /// Another server has the file.
    InUse,
    /// The file can't be opened: it is no regular file, its folder isn't there, or the system refused it.
    Refused,
    /// A call of the disk failed, or what was answered couldn't be put there. Nothing that was told is lost.
    Disk,
    /// It begins with something else than a log, and isn't new.
    NotALog,
    /// It is a log of another version of the format.
    OtherVersion(u16),
    /// It is a log of this version, and its front is damaged.
    BadFront,
    /// It is the log of the site at this other place.
    OtherSite(Place),
    /// It is the log of a site with larger limits: it keeps so many states, or has so many sessions open.
    OtherLimits { states: u32, sessions: u16 },
    /// What stands at this place is neither the next group nor what a crash leaves.
    Damaged(u64),
    /// What the group at this place says doesn't fit the site that those before it lead to, under its limits.
    Unfit(u64),
}

/// How a server ends. The process ends with its number, and its text is the line on standard error.
#[derive(Clone, Copy, PartialEq, Eq)]
pub enum DaemonEnd {
    /// It told of itself.
    Told,
    /// A file was read, and has this. It is to be told on standard output.
    Checked(FileCheck),
    /// The words have none of the forms.
    Usage,
    /// What it tells of itself couldn't be written.
    WriteFailed,
    /// There was no memory for the site or the buffers.
    NoMemory,
    Gate(GateFault),
    File(FileFault),
    /// 18,446,744,073,709,551,615 turns were made.
    Spent,
}

impl DaemonEnd {
    /// The number with which the process ends.
    pub fn number(self) -> u8
        ensures { result ≡ end_number self }
    {
        match self {
            DaemonEnd::Told | DaemonEnd::Checked(_) => 0,
            DaemonEnd::Usage => 1,
            DaemonEnd::WriteFailed => 3,
            DaemonEnd::NoMemory => 6,
            DaemonEnd::Gate(_) => 7,
            DaemonEnd::Spent => 9,
            DaemonEnd::File(fault) => fault.number(),
        }
    }
}

impl FileFault {
    /// The number with which the process ends: 10 where the file or its disk can't be used, 13 where what stands in it isn't the
    /// log that is wanted.
    fn number(self) -> u8
        ensures { result ≡ file_number self }
    {
        match self {
            FileFault::InUse | FileFault::Refused | FileFault::Disk => 10,
            FileFault::NotALog
            | FileFault::OtherVersion(_)
            | FileFault::BadFront
            | FileFault::OtherSite(_)
            | FileFault::OtherLimits { .. }
            | FileFault::Damaged(_)
            | FileFault::Unfit(_) => 13,
        }
    }
}

/// How a server ends whose connections ended so.
pub(crate) fn ending_of(end: End) -> DaemonEnd
    ensures { result ≡ end_by end }
{
    match end {
        End::Stopped => DaemonEnd::Gate(GateFault::Lost),
        End::Spent => DaemonEnd::Spent,
        End::Unsettled => DaemonEnd::File(FileFault::Disk),
    }
}

impl fmt::Display for DaemonEnd {
    fn fmt<W: fmt::Write>(&self, f: &mut fmt::Formatter<W>) -> fmt::Result {
        match self {
            DaemonEnd::Told | DaemonEnd::Checked(_) => Ok(()),
            DaemonEnd::Usage => write!(
                f,
                "usage: tardisd --listen ADDR | --clients ADDR | --peers ADDR .. [--mode MODE] [--idle SECONDS] [--connections N] [--sessions N] [--states N] [--peer ADDR .. [--every SECONDS]] [--sites M] [--site N] [--keep-history] [--file PATH] [--rules RULES [--join-after SECONDS]] (ADDR is unix:PATH or HOST:PORT), or tardisd --check --file PATH"
            ),
            DaemonEnd::WriteFailed => write!(f, "tardisd: write fault"),
            DaemonEnd::NoMemory => write!(f, "tardisd: out of memory"),
            DaemonEnd::Gate(fault) => write!(f, "tardisd: gate fault: {fault}"),
            DaemonEnd::File(fault) => write!(f, "tardisd: {fault}"),
            DaemonEnd::Spent => write!(f, "tardisd: no turns are left"),
        }
    }
}

impl fmt::Display for GateFault {
    fn fmt<W: fmt::Write>(&self, f: &mut fmt::Formatter<W>) -> fmt::Result {
        match self {
            GateFault::NoAddress => {
                write!(
                    f,
                    "an address isn't unix:PATH or HOST:PORT, or its host isn't known"
                )
            }
            GateFault::InUse => write!(f, "another server listens there"),
            GateFault::Occupied => write!(f, "a file that is no socket stands there"),
            GateFault::Refused => write!(f, "the system doesn't let it listen there"),
            GateFault::Lost => write!(f, "the system can't be waited for"),
        }
    }
}

impl fmt::Display for FileFault {
    fn fmt<W: fmt::Write>(&self, f: &mut fmt::Formatter<W>) -> fmt::Result {
        match self {
            FileFault::InUse => write!(
                f,
                "another server has the file: end that one, or name another file"
            ),
            FileFault::Refused => write!(
                f,
                "the file can't be opened: see that its folder is there, and that it is a regular file which may be written"
            ),
            FileFault::Disk => write!(
                f,
                "the file's disk failed: nothing that was told is lost; see to the disk, and try again"
            ),
            FileFault::NotALog => write!(
                f,
                "the file is no log of a site, and was left as it is: name another one, which needn't be there"
            ),
            FileFault::OtherVersion(version) => write!(
                f,
                "the file has version {version} of the format, and was left as it is: start the program that wrote it"
            ),
            FileFault::BadFront => write!(
                f,
                "the file's first bytes are damaged; it was left as it is: restore a copy of it"
            ),
            FileFault::OtherSite(Place { sites, site }) => write!(
                f,
                "the file is that of site {site} of {sites}, and was left as it is: start it with --sites {sites} --site {site}"
            ),
            FileFault::OtherLimits { states, sessions } => write!(
                f,
                "the file is that of a site with larger limits, and was left as it is: start it with --states {states} --sessions {sessions}, or more of either"
            ),
            FileFault::Damaged(place) => write!(
                f,
                "the file is damaged at byte {place}; it was left as it is: restore a copy of it"
            ),
            FileFault::Unfit(place) => write!(
                f,
                "the file has what doesn't fit the site at byte {place}; it was left as it is: start it with the limits that it had, or restore a copy of it"
            ),
        }
    }
}
