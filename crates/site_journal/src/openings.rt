//! Opening a journal.

ghost use Rattle.std.specs.Prelude.{◌≡◌, ◌≤◌, [], ℕ, List, length, IfOk, OnOk, IsErrOf};
ghost use Rattle.tardis_base.specs.Sizes.{longest_trail, longest_frame};
ghost use Rattle.tardis_io.specs.Faults.{Rose};
ghost use Rattle.disk_store.specs.Disks.{Only, LeavesOnly, AsHonest};
ghost use Rattle.site_journal.specs.Texts.{HasEntries};
ghost use Rattle.site_journal.specs.Moments.{IsAtRest};
ghost use Rattle.site_journal.specs.Replays.{Replayed};
ghost use Rattle.site_journal.specs.Opened.{IsOpen, OpenFault, OpenImages, disk_of};
ghost use Rattle.site_journal.specs.declared.replays.ReplayEnd.TheVariants.{DiskFailed};

use crate::entry_texts::EntryText;
use crate::journals::{Journaled, OpenEnd};
use crate::mends::mend;
use crate::replays::{Found, ReplayEnd, replay};
use disk_store::Disk;
use std::alloc::Global;
use tardis_base::{MAX_FRAME, Machine, NoMemory, ReplyBuf};
use tardis_io::Failed;

/// What opening takes memory for.
#[derive(Drop)]
struct Rooms {
    staged: EntryText,
    body: Vec<u8>,
    out: ReplyBuf,
}

impl Rooms {
    fn new(alloc: Global) -> Result<Rooms, NoMemory>
        ensures staged { IfOk result (λ rooms. rooms.staged ≡ []) }
        ensures body { IfOk result (λ rooms. length rooms.body.items ≡ longest_frame) }
    {
        let staged = EntryText::new(alloc)?;
        let out = ReplyBuf::new(alloc)?;
        match vec![in alloc; 0; MAX_FRAME] {
            Ok(body) => Ok(Rooms { staged, body, out }),
            Err(_) => Err(NoMemory),
        }
    }
}

/// Opens the journal on a disk: the machine, at its opening state, answers the entries, and what a crash left behind
/// them is mended. It answers how many entries there were. A journal may have at most `max_trail` bytes; one that has
/// more is opened too, and is full.
///
/// It reads each entry once, and takes as much memory as its longest entry may need.
pub fn open_on<M: Machine, K: Disk>(
    alloc: Global,
    machine: M,
    disk: K,
    max_trail: u64,
) -> Result<(Journaled<M, K>, u64), OpenEnd<K>>
    requires opening { M.stands machine (M.opening machine) }
    requires most { max_trail ≤ longest_trail }
    ensures opened { IfOk result (λ opened. (entries : List (List ℕ)) × (IsOpen M.Machine K.Disk opened.0 entries []
        × (opened.1 ≡ length entries) × (K.honest disk → HasEntries entries (K.reads disk)))) }
    ensures images { K.honest disk → (entries : List (List ℕ)) → HasEntries entries (K.reads disk)
        → OpenImages K.Disk disk result (HasEntries entries) }
    ensures failed { OpenFault K.Disk disk result }
    ensures honest { AsHonest K.honest disk (disk_of result) }
    ensures later { K.faults disk ≤ K.faults (disk_of result) }
    ensures opening { IfOk result (λ opened. M.opening opened.0.machine ≡ M.opening machine) }
    ensures limit { IfOk result (λ opened. opened.0.max_trail ≡ max_trail) }
{
    let mut machine = machine;
    let mut disk = disk;
    let Ok(rooms) = Rooms::new(alloc) else {
        return Err(OpenEnd::NoMemory(disk));
    };
    match disk.sync() {
        Ok(()) => {}
        Err(Failed) => return Err(OpenEnd::DiskFault(disk)),
    }
    let Rooms {
        staged,
        mut body,
        mut out,
    } = rooms;
    match recover(&mut machine, &mut disk, body.as_mut_slice(), &mut out) {
        Ok(found) => {
            let journal = Journaled {
                machine,
                disk,
                staged,
                place: found.place,
                max_trail,
            };
            Ok((journal, found.entries))
        }
        Err(ReplayEnd::DiskFailed) => Err(OpenEnd::DiskFault(disk)),
        Err(ReplayEnd::NoMemory) => Err(OpenEnd::NoMemory(disk)),
    }
}

/// Has the machine answer the entries, and mends what stands behind them.
fn recover<M: Machine, K: Disk>(
    machine: &mut M,
    disk: &mut K,
    body: &mut [u8],
    out: &mut ReplyBuf,
) -> Result<Found, ReplayEnd>
    requires opening { M.stands machine.old (M.opening machine.old) }
    requires room { longest_frame ≤ length body.old }
    requires durable { K.honest disk.old → Only (K.reads disk.old) (K.may_leave disk.old) }
    ensures replayed { IfOk result (λ found. Replayed M.Machine K.Disk machine.new disk.old found) }
    ensures at_rest { K.honest disk.old → (entries : List (List ℕ)) → HasEntries entries (K.reads disk.old)
        → OnOk result (IsAtRest K.Disk disk.new entries) }
    ensures any_moment { K.honest disk.old → (entries : List (List ℕ)) → HasEntries entries (K.reads disk.old)
        → LeavesOnly K.moment K.left_since disk.old disk.new (HasEntries entries) }
    ensures opening { M.opening machine.new ≡ M.opening machine.old }
    ensures honest { AsHonest K.honest disk.old disk.new }
    ensures later { K.faults disk.old ≤ K.faults disk.new }
    ensures failed { IsErrOf result DiskFailed → Rose (K.faults disk.old) (K.faults disk.new) }
{
    let found = replay(machine, disk, body, out)?;
    match mend(disk, found.place, found.size) {
        Ok(()) => Ok(found),
        Err(Failed) => Err(ReplayEnd::DiskFailed),
    }
}
