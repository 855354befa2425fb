//! What a file of a site has, told without a byte of it changed.
//!
//! What is told is stated in `docs/DURABLE.md`, 'Checking a file'.

ghost use Rattle.std.specs.Prelude.{◌≡◌};
ghost use Rattle.std.specs.Bool.{Decides};
ghost use Rattle.command_words.specs.Places.{IsPlace};
ghost use Rattle.log_groups.specs.Items.{log_version};
ghost use Rattle.site_lives.specs.Acquainted.{Acquainted};
ghost use Rattle.rest_site.specs.Stands.{AcquaintedStands};
ghost use Rattle.site_log.specs.Reads.{HasFront};
ghost use Rattle.tardisd_main.specs.Checks.{place_in, widest, widest_limits, opens_widest, TellsBytes, TellsLog, TellsSite, IsRead, ChecksAs};

use crate::endings::DaemonEnd;
use crate::files::{end_of, unopened};
use command_words::Place;
use disk_store::{BytewiseDisk, Store};
use log_groups::LogFront;
use rest_site::RestSite;
use site_log::{FirstFound, Found, OpenEnd, read_all, read_first, read_log};
use std::alloc::Global;
use std::fmt;
use std::hash::RandomState;
use tardis_base::{Limits, MAX_KEPT, MAX_PATH, MAX_SESSIONS, MAX_SITES, MAX_TRAIL, NoMemory};
use tardis_io::Failed;

/// The version of the format in which logs are written.
const VERSION: u16 = 1;

/// What a file has.
#[derive(Clone, Copy, PartialEq, Eq)]
pub enum FileCheck {
    /// No log was begun in it.
    New,
    /// The log of a site, all of which is taken back.
    Log(CheckedLog),
}

/// What a log has, and what its site says of itself.
#[derive(Clone, Copy, PartialEq, Eq)]
pub struct CheckedLog {
    /// Whose log it is.
    pub place: Place,
    /// The log's life.
    pub life: [u8; 16],
    /// So many states may be kept, as was said when it was begun.
    pub states: u32,
    /// So many pairs a fork path may have.
    pub path: u32,
    /// So many sessions may be open.
    pub sessions: u16,
    /// How many states are known, the root among them.
    pub known: u64,
    /// How many of them are kept.
    pub kept: u32,
    /// How many of them have no child.
    pub leaves: u32,
    /// How many different keys are listed. No other has a value.
    pub keys: u64,
    /// How many groups of requests are there.
    pub groups: u64,
    /// How many bytes their text has, with what stands before.
    pub bytes: u64,
    /// How many bytes the file has.
    pub size: u64,
    /// Whether a group is there in part, as a crash leaves it.
    pub is_torn: bool,
}

/// Tells what the file at a path has. It isn't made, and nothing of it is changed: it is read into memory, and a site under the largest
/// limits that there are takes its groups back, since a file opens under limits that are larger than those that it was begun under. The
/// cost grows with the file.
///
/// The disk goes back to the store, as it was read.
#[tactic(auto, using(crate::proofs::Stores::out_now))]
pub fn check_file<K: BytewiseDisk, S: Store<Disk = K>>(
    alloc: Global,
    keys: RandomState,
    path: &str,
    store: &mut S,
) -> DaemonEnd
    ensures { ChecksAs S.Store K.Disk path.now store.old store.new result }
{
    match store.find_file(path) {
        Ok(disk) => {
            let (end, disk) = check_disk(alloc, keys, disk);
            store.put_back(disk);
            end
        }
        Err(Failed) => DaemonEnd::File(unopened(store)),
    }
}

/// Reads a disk, and tells what it has.
fn check_disk<K: BytewiseDisk>(alloc: Global, keys: RandomState, disk: K) -> (DaemonEnd, K)
    ensures { IsRead K.Disk disk result.1 result.0 }
{
    let mut disk = disk;
    match read_all(alloc, &mut disk) {
        Ok(bytes) => (check_bytes(alloc, keys, bytes.as_slice()), disk),
        Err(end) => (end_of(end), disk),
    }
}

/// Tells what a file of these bytes has.
fn check_bytes(alloc: Global, keys: RandomState, bytes: &[u8]) -> DaemonEnd
    ensures { TellsBytes bytes.now result }
{
    match read_first(alloc, bytes) {
        Ok(FirstFound::New) => DaemonEnd::Checked(FileCheck::New),
        Ok(FirstFound::Log(front)) => check_log(alloc, keys, bytes, &front),
        Err(end) => end_of(end),
    }
}

/// Tells what a log has which says this first.
fn check_log(alloc: Global, keys: RandomState, bytes: &[u8], front: &LogFront) -> DaemonEnd
    requires front { HasFront bytes.now front.now }
    ensures { TellsBytes bytes.now result }
{
    if !is_place(front) {
        return end_of(OpenEnd::BadFront);
    }
    match RestSite::new(alloc, keys, widest_limits(front.sites), front.own) {
        Ok(site) => take_log(alloc, site, bytes, front),
        Err(NoMemory) => DaemonEnd::NoMemory,
    }
}

/// Has a site that opens take back the groups of a log which says this first, and tells what it is then.
fn take_log(alloc: Global, site: RestSite, bytes: &[u8], front: &LogFront) -> DaemonEnd
    requires front { HasFront bytes.now front.now }
    requires place { IsPlace (place_in front.now) }
    requires opens { AcquaintedStands site (opens_widest front.now) }
    ensures { TellsBytes bytes.now result }
{
    let mut site = site;
    let end = match read_log(alloc, &mut site, bytes, &widest(front)) {
        Ok(found) => DaemonEnd::Checked(FileCheck::Log(checked(&site, &found, bytes.len()))),
        Err(end) => end_of(end),
    };
    drop(site);
    end
}

/// Whether a log's front names a place.
fn is_place(front: &LogFront) -> bool
    ensures { Decides result (IsPlace (place_in front.now)) }
{
    1 <= front.sites && front.sites <= MAX_SITES && 1 <= front.own && front.own <= front.sites
}

/// The largest limits that a site may have, of so many sites.
fn widest_limits(sites: u16) -> Limits
    ensures { result ≡ widest_limits sites }
{
    Limits {
        sites,
        max_kept: MAX_KEPT,
        max_path: MAX_PATH,
        max_sessions: MAX_SESSIONS,
        max_trail: MAX_TRAIL,
    }
}

/// The front of the same site's log under these.
fn widest(front: &LogFront) -> LogFront
    ensures { result ≡ widest front.now }
{
    LogFront {
        max_kept: MAX_KEPT,
        max_path: MAX_PATH,
        max_sessions: MAX_SESSIONS,
        ..*front
    }
}

/// What is told of a site that took back a log, in a file of so many bytes.
fn checked(site: &RestSite, found: &Found, size: usize) -> CheckedLog
    ensures log { TellsLog found.now size result }
    ensures site { (a : Acquainted) → AcquaintedStands site.now a → TellsSite a.site result }
{
    let store = site.core().store();
    CheckedLog {
        place: Place {
            sites: found.front.sites,
            site: found.front.own,
        },
        life: found.front.life,
        states: found.front.max_kept,
        path: found.front.max_path,
        sessions: found.front.max_sessions,
        known: store.dag().known(),
        kept: store.dag().kept(),
        leaves: store.dag().leaves(),
        keys: store.versions().keys() as u64,
        groups: found.number,
        bytes: found.place as u64,
        size: size as u64,
        is_torn: found.torn,
    }
}

/// The version that is told of a log.
fn version() -> u16
    ensures { result ≡ log_version }
{
    VERSION
}

impl fmt::Display for FileCheck {
    fn fmt<W: fmt::Write>(&self, f: &mut fmt::Formatter<W>) -> fmt::Result {
        match self {
            FileCheck::New => writeln!(f, "a new file: no log was begun"),
            FileCheck::Log(log) => write!(f, "{log}"),
        }
    }
}

impl CheckedLog {
    /// The lines of what the file says of its site.
    fn write_front<W: fmt::Write>(&self, f: &mut fmt::Formatter<W>) -> fmt::Result {
        let Place { sites, site } = self.place;
        writeln!(f, "format {}", version())?;
        writeln!(f, "site {site} of {sites}")?;
        self.write_life(f)?;
        write!(f, "limits states {} path {}", self.states, self.path)?;
        writeln!(f, " sessions {}", self.sessions)
    }

    fn write_life<W: fmt::Write>(&self, f: &mut fmt::Formatter<W>) -> fmt::Result {
        write!(f, "life ")?;
        for byte in self.life.iter() {
            write!(f, "{byte:02x}")?;
        }
        writeln!(f)
    }

    /// The lines of what the site has that takes all back.
    fn write_counts<W: fmt::Write>(&self, f: &mut fmt::Formatter<W>) -> fmt::Result {
        writeln!(f, "states known {} kept {}", self.known, self.kept)?;
        writeln!(f, "leaves {}", self.leaves)?;
        writeln!(f, "keys {}", self.keys)
    }
}

impl fmt::Display for CheckedLog {
    fn fmt<W: fmt::Write>(&self, f: &mut fmt::Formatter<W>) -> fmt::Result {
        self.write_front(f)?;
        self.write_counts(f)?;
        writeln!(f, "groups {}", self.groups)?;
        writeln!(f, "bytes text {} file {}", self.bytes, self.size)?;
        if self.is_torn {
            writeln!(f, "end torn, which the next start mends")
        } else {
            writeln!(f, "end whole")
        }
    }
}
