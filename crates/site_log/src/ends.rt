//! Why a log isn't opened.

use log_groups::LogFront;

/// Why a log isn't opened.
#[derive(Clone, Copy)]
pub enum OpenEnd {
    /// The file doesn't begin with an item of a log. To `read_log` an empty file, and one of zeros alone, is none either; to
    /// `open_log` these are new files.
    NotALog,
    /// It is a log of another version of the format.
    OtherVersion(u16),
    /// It is a log of this version, and its front is damaged.
    BadFront,
    /// It is another site's log, which says this first.
    OtherSite(LogFront),
    /// It is this site's log, and one of its limits is larger than the wanted one: it says this first.
    OtherLimits(LogFront),
    /// What stands at this place is neither the next group nor what a crash leaves.
    Damaged(u64),
    /// The body of the group at this place isn't one that the machine takes back.
    Unfit(u64),
    /// There is too little memory.
    NoMemory,
    /// A call of the disk failed.
    Disk,
}
