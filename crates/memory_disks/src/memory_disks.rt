//! A disk in memory, of which some calls may fail, and which a crash may tear.

ghost use Rattle.std.specs.Prelude.{◌≡◌, ◌+◌, ◌≤◌, true, false, [], Ok, length, take, drop, IfOk, OnOk};
ghost use Rattle.tardis_io.specs.Faults.{HasCause};
ghost use Rattle.memory_io.specs.Memory.{fresh_plan};
ghost use Rattle.disk_store.specs.Disks.{longest_disk, with_bytes, Torn, Bytewise, Shortened, Replaced, Follows, NoMore, Only};
ghost use Rattle.memory_disks.specs.declared.histories.Kept.TheVariants.{Looked, Wrote, Tore, WroteBytewise, ToreBytewise, CutTo, MayCut, Synced};
ghost use Rattle.memory_disks.specs.Memory.{fresh, known_of, IsImage, IsTorn, IsQuiet, Notes, NotesBytes, PlanAnswers};
ghost use Rattle.memory_disks.specs.Crashes.{unused};
ghost use Rattle.memory_disks.specs.MemoryLaws.{reads_is, counts_now, only_now};
ghost use Rattle.std.proofs.Common.{refl};

use crate::histories::{History, Kept};
use crate::plans::DiskPlan;
use disk_store::{BytewiseDisk, Disk};
use std::alloc::Global;
use tardis_base::NoMemory;
use tardis_io::Failed;

/// A disk over bytes in memory. It records its calls, and a crash leaves one of the images that they allow.
#[derive(Drop)]
pub struct MemoryDisk {
    history: History,
    plan: DiskPlan,
}

impl MemoryDisk {
    /// A disk that holds these bytes, all of them synced, with room for `room` written bytes and for the record of
    /// `room` calls. A call fails exactly where it is listed, counted from 1, where its bytes and those that were
    /// written before are more than `room`, and where there were `room` calls before it. The bytes of a bytewise write or a
    /// replacement that failed count as written, where there was room for them. A replacement whose bytes find no room isn't
    /// done, and doesn't fail.
    pub fn new(
        alloc: Global,
        bytes: &[u8],
        room: u32,
        failing: &[u64],
    ) -> Result<MemoryDisk, NoMemory>
        ensures history { IfOk result (λ d. d.history ≡ unused bytes.now room) }
        ensures plan { IfOk result (λ d. d.plan ≡ fresh_plan failing.now) }
    {
        let history = History::new(alloc, bytes, room as usize)?;
        let plan = DiskPlan::new(alloc, failing)?;
        Ok(MemoryDisk { history, plan })
    }

    /// What a read gives.
    pub fn bytes(&self) -> &[u8]
        ensures { result.now ≡ (known_of self.now.history).reads }
    {
        self.history.bytes()
    }

    /// A disk that holds what a crash now leaves, by the choice: 0 is what a read gives, and 1 what the last good sync
    /// left, where a replacement that was done counts as a sync. From 2 on each call since that sync is there in part, or not at all: small numbers go through what may
    /// become of the first of them, the fronts of a write or a cut first, then such with bytes that nobody wrote, or of a
    /// bytewise write all bytes but one and other mixes of old bytes and new ones, and large numbers tear the later
    /// calls too. A replacement that failed is there as a whole, or not at all. All of it is synced, the room is the same and empty, and no call is listed to fail.
    ///
    /// Where there is no memory for it, the disk is dropped.
    pub fn crash(self, choice: u64) -> Result<MemoryDisk, NoMemory>
        ensures image { IfOk result (λ d. IsImage (known_of self.history) d.history.first) }
        ensures whole { choice ≡ 0 → IfOk result (λ d. d.history.first ≡ (known_of self.history).reads) }
        ensures none { choice ≡ 1 → IfOk result (λ d. d.history.first ≡ (known_of self.history).base) }
        ensures unused { IfOk result (λ d. d.history ≡ unused d.history.first self.history.room) }
        ensures plan { IfOk result (λ d. d.plan ≡ fresh_plan []) }
    {
        let image = self.history.image(choice)?;
        let alloc = *image.allocator();
        let history = History::new(alloc, image.as_slice(), self.history.room())?;
        let plan = DiskPlan::new(alloc, &[])?;
        Ok(MemoryDisk { history, plan })
    }

    /// How many faults were counted.
    pub(crate) fn faults(&self) -> u64
        ensures { result ≡ self.now.plan.faults }
    {
        self.plan.faults()
    }
}

/// Counts a call that writes so many bytes. It fails where it is to fail or finds no room.
fn start(plan: &mut DiskPlan, history: &History, count: usize) -> Result<(), Failed>
    ensures answer { PlanAnswers history.now count plan.old plan.new result }
    ensures cause { HasCause plan.old.faults plan.new.faults result }
{
    plan.call()?;
    if history.has_room(count) {
        Ok(())
    } else {
        plan.fault();
        Err(Failed)
    }
}

/// Records a call that failed, wherever there is room.
fn note_fault(history: &mut History, kept: Kept)
    requires { IsQuiet kept }
    ensures { Notes kept history.old history.new }
{
    if !history.is_full() {
        history.note(kept);
    }
}

/// Records a call that failed, with its bytes where there is room for them.
fn note_torn(history: &mut History, kept: Kept, bytes: &[u8])
    requires { IsTorn kept (length bytes.now) }
    ensures { NotesBytes kept bytes.now history.old history.new }
{
    if history.has_room(bytes.len()) {
        history.keep(kept, bytes);
    } else {
        note_fault(history, Kept::Looked);
    }
}

impl Disk for MemoryDisk {
    ghost use Rattle.memory_disks.specs.MemoryDisks.{reads, may_leave, moment, left_since, GoesOn, Calls, Replaces};

    ghost honest = { λ _. Unit {0} };

    ghost reads = { λ d. reads d };

    ghost may_leave = { λ d. may_leave d };

    ghost moment = { λ d. moment d };

    ghost left_since = { λ d. left_since d };

    ghost faults = { λ d. d.plan.faults };

    fn len(&mut self) -> Result<u64, Failed>
        ensures bound { IfOk result (λ count. count ≤ longest_disk) }
        ensures count { IfOk result (λ count. count ≡ length (reads self.old)) }
        ensures reads { reads self.new ≡ reads self.old }
        ensures crash { NoMore (may_leave self.old) (may_leave self.new) }
        ensures time { GoesOn self.old self.new }
        ensures cause { HasCause self.old.plan.faults self.new.plan.faults result }
        ensures exact { Calls Looked [] (Notes Looked) self.old self.new result }
    {
        match start(&mut self.plan, &self.history, 0) {
            Ok(()) => {
                self.history.note(Kept::Looked);
                Ok(self.history.bytes().len() as u64)
            }
            Err(Failed) => {
                note_fault(&mut self.history, Kept::Looked);
                Err(Failed)
            }
        }
    }

    fn read_at(&mut self, place: u64, buf: &mut [u8]) -> Result<(), Failed>
        requires { place + length buf.old ≤ length (reads self.old) }
        ensures bytes { OnOk result (buf.new ≡ take (length buf.old) (drop place (reads self.old))) }
        ensures reads { reads self.new ≡ reads self.old }
        ensures crash { NoMore (may_leave self.old) (may_leave self.new) }
        ensures time { GoesOn self.old self.new }
        ensures cause { HasCause self.old.plan.faults self.new.plan.faults result }
        ensures exact { Calls Looked [] (Notes Looked) self.old self.new result }
    {
        match start(&mut self.plan, &self.history, 0) {
            Ok(()) => {
                self.history.note(Kept::Looked);
                self.history.read(place, buf);
                Ok(())
            }
            Err(Failed) => {
                note_fault(&mut self.history, Kept::Looked);
                Err(Failed)
            }
        }
    }

    fn write_at(&mut self, place: u64, bytes: &[u8]) -> Result<(), Failed>
        requires begin { place ≤ length (reads self.old) }
        requires end { place + length bytes.now ≤ longest_disk }
        ensures written { OnOk result (reads self.new ≡ with_bytes (reads self.old) place bytes.now) }
        ensures crash { Follows (Torn place (length bytes.now)) (may_leave self.old) (may_leave self.new) }
        ensures time { GoesOn self.old self.new }
        ensures cause { HasCause self.old.plan.faults self.new.plan.faults result }
        ensures exact { Calls (Wrote place (length bytes.now)) bytes.now (Notes (Tore place (length bytes.now))) self.old self.new result }
    {
        let count = bytes.len();
        match start(&mut self.plan, &self.history, count) {
            Ok(()) => {
                self.history
                    .write(Kept::Wrote { place, count }, place, bytes);
                Ok(())
            }
            Err(Failed) => {
                note_fault(&mut self.history, Kept::Tore { place, count });
                Err(Failed)
            }
        }
    }

    fn cut(&mut self, len: u64) -> Result<(), Failed>
        requires { len ≤ length (reads self.old) }
        ensures shorter { OnOk result (reads self.new ≡ take len (reads self.old)) }
        ensures crash { Follows (Shortened len) (may_leave self.old) (may_leave self.new) }
        ensures time { GoesOn self.old self.new }
        ensures cause { HasCause self.old.plan.faults self.new.plan.faults result }
        ensures exact { Calls (CutTo len) [] (Notes (MayCut len)) self.old self.new result }
    {
        match start(&mut self.plan, &self.history, 0) {
            Ok(()) => {
                self.history.cut(len);
                Ok(())
            }
            Err(Failed) => {
                note_fault(&mut self.history, Kept::MayCut { len });
                Err(Failed)
            }
        }
    }

    fn sync(&mut self) -> Result<(), Failed>
        ensures durable { OnOk result (Only (reads self.old) (may_leave self.new)) }
        ensures reads { reads self.new ≡ reads self.old }
        ensures crash { NoMore (may_leave self.old) (may_leave self.new) }
        ensures time { GoesOn self.old self.new }
        ensures cause { HasCause self.old.plan.faults self.new.plan.faults result }
        ensures exact { Calls Synced [] (Notes Looked) self.old self.new result }
    {
        match start(&mut self.plan, &self.history, 0) {
            Ok(()) => {
                self.history.note(Kept::Synced);
                Ok(())
            }
            Err(Failed) => {
                note_fault(&mut self.history, Kept::Looked);
                Err(Failed)
            }
        }
    }

    fn replace(&mut self, bytes: &[u8]) -> Result<bool, Failed>
        requires { length bytes.now ≤ longest_disk }
        ensures replaced { result ≡ Ok true → (reads self.new ≡ bytes.now) × Only bytes.now (may_leave self.new) }
        ensures same { result ≡ Ok false → (reads self.new ≡ reads self.old) × NoMore (may_leave self.old) (may_leave self.new) }
        ensures crash { Replaced bytes.now (may_leave self.old) (may_leave self.new) }
        ensures time { GoesOn self.old self.new }
        ensures cause { HasCause self.old.plan.faults self.new.plan.faults result }
        ensures exact { Replaces bytes.now self.old self.new result }
    {
        let count = bytes.len();
        match start(&mut self.plan, &self.history, 0) {
            Ok(()) => {
                if self.history.has_room(count) {
                    self.history.replace(bytes);
                    Ok(true)
                } else {
                    self.history.note(Kept::Looked);
                    Ok(false)
                }
            }
            Err(Failed) => {
                note_torn(&mut self.history, Kept::MayReplace { count }, bytes);
                Err(Failed)
            }
        }
    }

    ghost reads_image = { λ d _. reads_is (fresh d.history.first) d.history.calls refl };

    ghost counts_now = { λ d t image le is. counts_now t (fresh d.history.first) d.history.calls image le is };

    ghost only_now = { λ d image left. only_now (fresh d.history.first) d.history.calls image left };
}

impl BytewiseDisk for MemoryDisk {
    ghost use Rattle.memory_disks.specs.MemoryDisks.{reads, may_leave, GoesOn, Calls};

    fn write_bytewise(&mut self, place: u64, bytes: &[u8]) -> Result<(), Failed>
        requires begin { place ≤ length (reads self.old) }
        requires end { place + length bytes.now ≤ longest_disk }
        ensures written { OnOk result (reads self.new ≡ with_bytes (reads self.old) place bytes.now) }
        ensures crash { Follows (Bytewise place bytes.now) (may_leave self.old) (may_leave self.new) }
        ensures time { GoesOn self.old self.new }
        ensures cause { HasCause self.old.plan.faults self.new.plan.faults result }
        ensures exact { Calls (WroteBytewise place (length bytes.now)) bytes.now (NotesBytes (ToreBytewise place (length bytes.now)) bytes.now) self.old self.new result }
    {
        let count = bytes.len();
        match start(&mut self.plan, &self.history, count) {
            Ok(()) => {
                let kept = Kept::WroteBytewise { place, count };
                self.history.write(kept, place, bytes);
                Ok(())
            }
            Err(Failed) => {
                let kept = Kept::ToreBytewise { place, count };
                note_torn(&mut self.history, kept, bytes);
                Err(Failed)
            }
        }
    }
}
