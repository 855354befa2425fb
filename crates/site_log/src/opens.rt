//! Opening a log on a disk.

ghost use Rattle.std.specs.Prelude.{◌≡◌, ◌⊎◌, ◌≤◌, [], ℕ, List, length, max, true, false, IfOk, IfErr};
ghost use Rattle.tardis_io.specs.Faults.{Rose};
ghost use Rattle.disk_store.specs.Disks.{longest_disk, Only, LeavesOnly, AsHonest};
ghost use Rattle.log_groups.specs.Items.{IsFront};
ghost use Rattle.site_log.specs.declared.ends.OpenEnd.TheVariants.{NoMemory as NoMemoryLeft, Disk as DiskFailed};
ghost use Rattle.site_log.specs.Files.{text_of};
ghost use Rattle.site_log.specs.Images.{HoldsBodies};
ghost use Rattle.site_log.specs.Reads.{IsWanted};
ghost use Rattle.site_log.specs.News.{first_room, IsNew};
ghost use Rattle.site_log.specs.Opens.{IsOpened, OpeningLeaves, IsRefused, disk_of};
ghost use Rattle.site_log.specs.Shorter.{first_length};
ghost use Rattle.site_log.specs.Readies.{IsLoaded, DiskEnd, IsBegun, IsReady};

use crate::ends::OpenEnd;
use crate::loads::load;
use crate::logged::Logged;
use crate::makes::{FIRST_ROOM, is_new, make};
use crate::mends::mend;
use crate::reads::read_log;
use crate::replays::Found;
use crate::resumes::{LogEnd, Rooms, go_on};
use crate::texts::front_text;
use disk_store::BytewiseDisk;
use log_groups::LogFront;
use rest_machine::Resting;
use std::alloc::Global;
use tardis_base::NoMemory;
use tardis_io::Failed;

/// What was found on a disk: what the log says first, how many groups and bytes it has, whether it ended as a crash may leave it, and
/// whether the file was new, so that its front was written now.
#[derive(Clone, Copy)]
pub struct FoundLog {
    pub front: LogFront,
    pub groups: u64,
    pub bytes: u64,
    pub is_torn: bool,
    pub is_new: bool,
}

/// A log that was opened, and what was found of it.
#[derive(Drop)]
pub struct OpenedLog<M: Resting, K: BytewiseDisk> {
    pub log: Logged<M, K>,
    pub found: FoundLog,
}

/// Why a log wasn't opened, and its disk.
#[derive(Drop)]
pub struct NotOpened<K: BytewiseDisk> {
    pub end: OpenEnd,
    pub disk: K,
}

/// Opens the wanted log on a disk, and has a machine take back the bodies of its groups, in order. The log has to be the wanted site's,
/// of whatever life, with none of its limits larger than the wanted one, and it keeps its front. A new file gets the wanted front: one
/// without bytes, of zeros alone, or with a front that a crash left in part. What a crash left behind the last group is mended. Only
/// where this is on the disk the log is handed out.
///
/// A refused file isn't written to, and neither is one for which there is too little memory. All bytes of the file are read into
/// memory, and their room is given back at the end; about 5 MiB are taken beside them, of which the log keeps 3.
/// `docs/DURABLE.md` states the steps.
pub fn open_log<M: Resting, K: BytewiseDisk>(
    alloc: Global,
    machine: M,
    disk: K,
    wanted: &LogFront,
) -> Result<OpenedLog<M, K>, NotOpened<K>>
    requires front { IsFront wanted.now }
    ensures opened { IfOk result (λ o. (bodies : List (List ℕ)) × IsOpened M.Resting K.Disk machine disk wanted.now o bodies) }
    ensures wanted { IfOk result (λ o. IsWanted o.found.front wanted.now × (o.found.is_new ≡ true → o.found.front ≡ wanted.now)) }
    ensures any_moment { K.honest disk → OpeningLeaves K.Disk disk (disk_of result) wanted.now }
    ensures refused { IfErr result (λ n. IsRefused M.Resting K.Disk machine disk wanted.now n.end n.disk) }
    ensures cause { IfErr result (λ n. n.end ≡ DiskFailed → Rose (K.faults disk) (K.faults n.disk)) }
    ensures honest { AsHonest K.honest disk (disk_of result) }
    ensures later { K.faults disk ≤ K.faults (disk_of result) }
    ensures opening { IfOk result (λ o. M.opening o.log.machine ≡ M.opening machine) }
    ensures long { IfOk result (λ o. o.log.long ≡ first_length) }
{
    let Ok(rooms) = Rooms::new(alloc) else {
        return Err(NotOpened {
            end: OpenEnd::NoMemory,
            disk,
        });
    };
    let mut machine = machine;
    let mut disk = disk;
    match prepare(alloc, &mut machine, &mut disk, wanted) {
        Ok(ready) => Ok(OpenedLog {
            log: go_on(alloc, machine, disk, ready.end(), rooms),
            found: ready.found,
        }),
        Err(end) => Err(NotOpened { end, disk }),
    }
}

/// What was found on a disk that has a whole log now, and how many bytes its file has.
#[derive(Clone, Copy)]
pub(crate) struct Ready {
    found: FoundLog,
    room: u64,
}

impl Ready {
    /// Where the log ends.
    fn end(&self) -> LogEnd
        ensures { result ≡ record { front = self.now.found.front; number = self.now.found.groups; place = self.now.found.bytes; room = self.now.room } }
    {
        LogEnd {
            front: self.found.front,
            number: self.found.groups,
            place: self.found.bytes,
            room: self.room,
        }
    }
}

/// Reads a disk, and makes of it one with the wanted log.
fn prepare<M: Resting, K: BytewiseDisk>(
    alloc: Global,
    machine: &mut M,
    disk: &mut K,
    wanted: &LogFront,
) -> Result<Ready, OpenEnd>
    requires front { IsFront wanted.now }
    ensures ready { IfOk result (λ r. (bodies : List (List ℕ)) × IsReady M.Resting K.Disk machine.old machine.new disk.old disk.new wanted.now r bodies) }
    ensures wanted { IfOk result (λ r. IsWanted r.found.front wanted.now × (r.found.is_new ≡ true → r.found.front ≡ wanted.now)) }
    ensures any_moment { K.honest disk.old → OpeningLeaves K.Disk disk.old disk.new wanted.now }
    ensures refused { IfErr result (λ end. IsRefused M.Resting K.Disk machine.old disk.old wanted.now end disk.new) }
    ensures cause { IfErr result (λ end. end ≡ DiskFailed → Rose (K.faults disk.old) (K.faults disk.new)) }
    ensures honest { AsHonest K.honest disk.old disk.new }
    ensures later { K.faults disk.old ≤ K.faults disk.new }
    ensures opening { M.opening machine.new ≡ M.opening machine.old }
{
    match load(alloc, disk) {
        Ok(bytes) => prepare_loaded(alloc, machine, disk, bytes.as_slice(), wanted),
        Err(end) => Err(end),
    }
}

/// Makes of a disk whose bytes were read one with the wanted log.
fn prepare_loaded<M: Resting, K: BytewiseDisk>(
    alloc: Global,
    machine: &mut M,
    disk: &mut K,
    bytes: &[u8],
    wanted: &LogFront,
) -> Result<Ready, OpenEnd>
    requires front { IsFront wanted.now }
    requires loaded { K.honest disk.old → IsLoaded K.Disk disk.old bytes.now }
    requires few { length bytes.now ≤ longest_disk }
    ensures ready { IfOk result (λ r. (bodies : List (List ℕ)) × IsReady M.Resting K.Disk machine.old machine.new disk.old disk.new wanted.now r bodies) }
    ensures wanted { IfOk result (λ r. IsWanted r.found.front wanted.now × (r.found.is_new ≡ true → r.found.front ≡ wanted.now)) }
    ensures any_moment { K.honest disk.old → OpeningLeaves K.Disk disk.old disk.new wanted.now }
    ensures refused { IfErr result (λ end. IsRefused M.Resting K.Disk machine.old disk.old wanted.now end disk.new) }
    ensures cause { IfErr result (λ end. end ≡ DiskFailed → Rose (K.faults disk.old) (K.faults disk.new)) }
    ensures honest { AsHonest K.honest disk.old disk.new }
    ensures later { K.faults disk.old ≤ K.faults disk.new }
    ensures opening { M.opening machine.new ≡ M.opening machine.old }
{
    match is_new(bytes, alloc) {
        Ok(true) => begin(alloc, disk, bytes.len(), wanted),
        Ok(false) => recover(alloc, machine, disk, bytes, wanted),
        Err(NoMemory) => Err(OpenEnd::NoMemory),
    }
}

/// Makes a new file of so many bytes.
fn begin<K: BytewiseDisk>(
    alloc: Global,
    disk: &mut K,
    size: usize,
    wanted: &LogFront,
) -> Result<Ready, OpenEnd>
    requires front { IsFront wanted.now }
    requires size { K.honest disk.old → size ≡ length (K.reads disk.old) }
    requires new { K.honest disk.old → IsNew (K.reads disk.old) }
    requires durable { K.honest disk.old → Only (K.reads disk.old) (K.may_leave disk.old) }
    ensures begun { IfOk result (λ r. IsBegun K.Disk disk.old disk.new wanted.now r) }
    ensures any_moment { K.honest disk.old
        → LeavesOnly K.moment K.left_since disk.old disk.new (λ image. IsNew image ⊎ HoldsBodies wanted.now [] image) }
    ensures end { IfErr result (λ end. DiskEnd (K.faults disk.old) (K.faults disk.new) end) }
    ensures still { IfErr result (λ end. end ≡ NoMemoryLeft → disk.new ≡ disk.old) }
    ensures honest { AsHonest K.honest disk.old disk.new }
    ensures later { K.faults disk.old ≤ K.faults disk.new }
{
    match front_text(wanted, alloc) {
        Ok(text) => match make(disk, text.as_slice()) {
            Ok(()) => Ok(new_ready(wanted, text.len(), size)),
            Err(Failed) => Err(OpenEnd::Disk),
        },
        Err(NoMemory) => Err(OpenEnd::NoMemory),
    }
}

/// What is said of a new file that had so many bytes, and whose front has a text of so many.
fn new_ready(wanted: &LogFront, text: usize, size: usize) -> Ready
    ensures { result ≡ record {
      found = record { front = wanted.now; groups = 0; bytes = text; is_torn = false; is_new = true };
      room = max size first_room;
    } }
{
    Ready {
        found: FoundLog {
            front: *wanted,
            groups: 0,
            bytes: text as u64,
            is_torn: false,
            is_new: true,
        },
        room: size.max(FIRST_ROOM) as u64,
    }
}

/// Has a machine take back the groups of the wanted log, whose bytes were read from a disk, and mends its end there.
fn recover<M: Resting, K: BytewiseDisk>(
    alloc: Global,
    machine: &mut M,
    disk: &mut K,
    bytes: &[u8],
    wanted: &LogFront,
) -> Result<Ready, OpenEnd>
    requires loaded { K.honest disk.old → IsLoaded K.Disk disk.old bytes.now }
    requires few { length bytes.now ≤ longest_disk }
    requires other { IsNew bytes.now → ⊥ }
    ensures ready { IfOk result (λ r. (bodies : List (List ℕ)) × IsReady M.Resting K.Disk machine.old machine.new disk.old disk.new wanted.now r bodies) }
    ensures wanted { IfOk result (λ r. IsWanted r.found.front wanted.now × (r.found.is_new ≡ true → r.found.front ≡ wanted.now)) }
    ensures any_moment { K.honest disk.old → OpeningLeaves K.Disk disk.old disk.new wanted.now }
    ensures refused { IfErr result (λ end. IsRefused M.Resting K.Disk machine.old disk.old wanted.now end disk.new) }
    ensures cause { IfErr result (λ end. end ≡ DiskFailed → Rose (K.faults disk.old) (K.faults disk.new)) }
    ensures honest { AsHonest K.honest disk.old disk.new }
    ensures later { K.faults disk.old ≤ K.faults disk.new }
    ensures opening { M.opening machine.new ≡ M.opening machine.old }
{
    match read_log(alloc, machine, bytes, wanted) {
        Ok(found) => match mend(alloc, disk, found.place, bytes.len(), found.torn) {
            Ok(()) => Ok(ready_of(&found, bytes.len())),
            Err(end) => Err(end),
        },
        Err(end) => Err(end),
    }
}

/// What was found of a log, in a file of so many bytes.
fn ready_of(found: &Found, size: usize) -> Ready
    ensures { result ≡ record {
      found = record {
        front = found.now.front;
        groups = found.now.number;
        bytes = found.now.place;
        is_torn = found.now.torn;
        is_new = false;
      };
      room = size;
    } }
{
    Ready {
        found: FoundLog {
            front: found.front,
            groups: found.number,
            bytes: found.place as u64,
            is_torn: found.torn,
            is_new: false,
        },
        room: size as u64,
    }
}
