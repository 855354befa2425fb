//! Going on with a log that was read.

ghost use Rattle.std.specs.Prelude.{◌≡◌, [], ◌∷◌, ℕ, List, length, IfOk, IfErr};
ghost use Rattle.site_log.specs.Kept.{starts, TakesAll};
ghost use Rattle.site_log.specs.Images.{Mark};
ghost use Rattle.site_log.specs.Files.{IsAtRest};
ghost use Rattle.site_log.specs.Resumes.{file_at};
ghost use Rattle.site_log.specs.Shorter.{first_length};
ghost use Rattle.site_log.specs.Stood.{Stands};

use crate::bodies::Body;
use crate::files::LogFile;
use crate::logged::{LONG, Logged};
use crate::texts::EntryText;
use disk_store::{BytewiseDisk, Disk};
use log_groups::{LogFront, group_laws};
use rest_machine::Resting;
use std::alloc::Global;
use tardis_base::NoMemory;

/// What a log says first, and where it ends: the number and the place of the next group, and how many bytes the file has.
#[derive(Clone, Copy)]
pub struct LogEnd {
    pub front: LogFront,
    pub number: u64,
    pub place: u64,
    pub room: u64,
}

/// All memory that a log that goes on ever needs.
#[derive(Drop)]
pub(crate) struct Rooms {
    waiting: Body,
    text: EntryText,
}

impl Rooms {
    pub(crate) fn new(alloc: Global) -> Result<Rooms, NoMemory>
        ensures { IfOk result (λ rooms. rooms.waiting ≡ []) }
    {
        let waiting = Body::new(alloc)?;
        let text = EntryText::new(alloc)?;
        Ok(Rooms { waiting, text })
    }
}

/// Goes on with the log on a disk, behind its groups, with a machine that opened and took their bodies back. The file has zeros behind the
/// last group, and no write is pending. All memory that is ever needed is taken now: about 3 MiB; where there is none, the disk is
/// handed back.
pub fn resume<M: Resting, K: BytewiseDisk>(
    alloc: Global,
    machine: M,
    disk: K,
    end: LogEnd,
) -> Result<Logged<M, K>, K>
    requires size { K.honest disk → end.room ≡ length (K.reads disk) }
    ensures stands { IfOk result (λ l. (s : M.Plain) (bodies : List (List ℕ)) → M.stands machine s → TakesAll M.Resting (M.opening machine) bodies s → end.number ≡ length bodies
        → (K.honest disk → IsAtRest K.Disk disk end.front bodies end.place end.room)
        → Stands M.Resting K.Disk l (starts s bodies) (record { moment = K.moment disk; count = length bodies } ∷ [])) }
    ensures file { IfOk result (λ l. l.file ≡ file_at disk end) }
    ensures handed_back { IfErr result (λ back. back ≡ disk) }
    ensures machine { IfOk result (λ l. l.machine ≡ machine) }
    ensures long { IfOk result (λ l. l.long ≡ first_length) }
{
    match Rooms::new(alloc) {
        Ok(rooms) => Ok(go_on(alloc, machine, disk, end, rooms)),
        Err(NoMemory) => Err(disk),
    }
}

/// Goes on with a log, in room that was taken before.
pub(crate) fn go_on<M: Resting, K: BytewiseDisk>(
    alloc: Global,
    machine: M,
    disk: K,
    end: LogEnd,
    rooms: Rooms,
) -> Logged<M, K>
    requires size { K.honest disk → end.room ≡ length (K.reads disk) }
    requires none { rooms.waiting ≡ [] }
    ensures stands { (s : M.Plain) (bodies : List (List ℕ)) → M.stands machine s → TakesAll M.Resting (M.opening machine) bodies s → end.number ≡ length bodies
        → (K.honest disk → IsAtRest K.Disk disk end.front bodies end.place end.room)
        → Stands M.Resting K.Disk result (starts s bodies) (record { moment = K.moment disk; count = length bodies } ∷ []) }
    ensures file { result.file ≡ file_at disk end }
    ensures machine { result.machine ≡ machine }
    ensures long { result.long ≡ first_length }
{
    group_laws(); // for the proof alone
    Logged {
        machine,
        file: LogFile::new(disk, end.front, end.number, end.place, end.room),
        waiting: rooms.waiting,
        text: rooms.text,
        owed: false,
        alloc,
        long: LONG,
    }
}
