//! A machine with its journal on a disk.

ghost use Rattle.std.specs.Prelude.{◌≡◌, ◌≢◌, ◌⊎◌, ◌+◌, ◌<◌, ◌≤◌, ◌++◌, [], ◌∷◌, ◌==◌, ℕ, List, length, map, true, false, IfOk, IfErr};
ghost use Rattle.tardis_base.specs.Sizes.{longest_request, longest_trail};
ghost use Rattle.tardis_base.specs.Plain.{state_after};
ghost use Rattle.tardis_io.specs.Faults.{Rose};
ghost use Rattle.frame_cut.specs.Events.{event_of};
ghost use Rattle.disk_store.specs.Disks.{LeavesOnly, AsHonest};
ghost use Rattle.site_journal.specs.Sizes.{most_staged, longest_entry};
ghost use Rattle.site_journal.specs.Texts.{entry_of, HasEntries, HasAllOrNone};
ghost use Rattle.site_journal.specs.Opened.{IsOpen, HasRoom, StagedBy, EndsAct, ActRose, OpenFault, OpenImages, disk_after, disk_at, disk_of};

use crate::appends::append;
use crate::entry_texts::EntryText;
use crate::sizes::{MOST_ENTRY, ROOM};
use disk_store::Disk;
use tardis_base::{Machine, NoMemory, ReplyBuf};
use tardis_io::Failed;

/// A machine that answered the entries of a journal, and the disk with this journal. Entries that are staged were
/// answered too, and don't stand on the disk yet.
#[derive(Drop)]
pub struct Journaled<M: Machine, K: Disk> {
    pub(crate) machine: M,
    pub(crate) disk: K,
    pub(crate) staged: EntryText,
    pub(crate) place: u64,
    pub(crate) max_trail: u64,
}

/// Why a journal wasn't opened. The disk is handed back.
#[derive(Drop)]
pub enum OpenEnd<K: Disk> {
    DiskFault(K),
    NoMemory(K),
}

/// What became of a request that is to be staged.
#[derive(Clone, Copy)]
pub enum Staged {
    /// It was answered, and its entry waits for a commit.
    Done,
    /// The journal has so many bytes, and with this entry it would have more than it may.
    TrailFull { bytes: u64 },
    /// There was no memory.
    NoMemory,
}

/// What became of a request.
#[derive(Drop)]
pub enum JournalEnd<M: Machine, K: Disk> {
    /// It was answered, and its entry is on the disk.
    Done(Journaled<M, K>),
    /// The journal has so many bytes, and with this entry it would have more than it may.
    TrailFull(Journaled<M, K>, u64),
    /// There was no memory.
    NoMemory(Journaled<M, K>),
    /// The disk failed. It is to be opened again.
    DiskFault(K),
}

impl<M: Machine, K: Disk> Journaled<M, K> {
    /// Whether one more request of any length may be staged before a commit.
    pub fn has_room(&self) -> bool
        ensures room { result ≡ true → HasRoom self.now }
        ensures full { result ≡ false → most_staged < length self.now.staged + longest_entry }
    {
        self.staged.len() + MOST_ENTRY <= ROOM
    }

    /// Answers a request of an actor into `out`, and stages its entry, which then waits for a commit. Its reply is not
    /// to be handed on before. An entry has 7 bytes more than its request.
    ///
    /// Where it ends otherwise than by `Staged::Done` nothing is changed and `out` is empty.
    pub fn stage(&mut self, actor: u16, request: &[u8], out: &mut ReplyBuf) -> Staged
        requires fits { length request.now ≤ longest_request }
        requires room { HasRoom self.old }
        requires open { (entries staged : List (List ℕ)) × IsOpen M.Machine K.Disk self.old entries staged }
        ensures staged { (entries staged : List (List ℕ)) → IsOpen M.Machine K.Disk self.old entries staged
            → StagedBy M.Machine K.Disk result self.old self.new entries staged (actor, request.now) out.new }
        ensures disk { self.new.disk ≡ self.old.disk }
        ensures opening { M.opening self.new.machine ≡ M.opening self.old.machine }
        ensures most { self.new.max_trail ≡ self.old.max_trail }
    {
        let count = request.len() as u64 + 7;
        let bytes = self.place + self.staged.len() as u64;
        if self.max_trail < bytes + count {
            out.clear();
            return Staged::TrailFull { bytes };
        }
        match self.machine.act(actor, request, out) {
            Ok(()) => {
                self.staged.push_entry(actor, request);
                Staged::Done
            }
            Err(NoMemory) => Staged::NoMemory,
        }
    }

    /// Puts all entries that are staged on the disk at once: after a crash all of them are there, or none. Where it
    /// fails the disk is to be opened again.
    pub fn commit(mut self) -> Result<Journaled<M, K>, K>
        requires open { (entries staged : List (List ℕ)) × IsOpen M.Machine K.Disk self entries staged }
        ensures committed { (entries staged : List (List ℕ)) → IsOpen M.Machine K.Disk self entries staged
            → IfOk result (λ j. IsOpen M.Machine K.Disk j (entries ++ staged) []) }
        ensures any_moment { K.honest self.disk → (entries staged : List (List ℕ))
            → IsOpen M.Machine K.Disk self entries staged
            → LeavesOnly K.moment K.left_since self.disk (disk_after result) (HasAllOrNone entries staged) }
        ensures honest { AsHonest K.honest self.disk (disk_after result) }
        ensures failed { IfErr result (λ disk. Rose (K.faults self.disk) (K.faults disk)) }
        ensures later { K.faults self.disk ≤ K.faults (disk_after result) }
        ensures opening { IfOk result (λ j. M.opening j.machine ≡ M.opening self.machine) }
        ensures most { IfOk result (λ j. j.max_trail ≡ self.max_trail) }
    {
        let count = self.staged.len();
        if count == 0 {
            return Ok(self);
        }
        self.staged.push_end();
        match append(&mut self.disk, self.place, self.staged.bytes()) {
            Ok(()) => {
                self.staged.clear();
                self.place += count as u64;
                Ok(self)
            }
            Err(Failed) => Err(self.disk),
        }
    }

    /// Answers a request of an actor into `out`, and puts its entry on the disk. Nothing is staged before or after.
    ///
    /// Where it ends otherwise than by `JournalEnd::Done`, `out` is empty.
    pub fn act(mut self, actor: u16, request: &[u8], out: &mut ReplyBuf) -> JournalEnd<M, K>
        requires fits { length request.now ≤ longest_request }
        requires open { (entries : List (List ℕ)) × IsOpen M.Machine K.Disk self entries [] }
        ensures answered { (entries : List (List ℕ)) → IsOpen M.Machine K.Disk self entries []
            → EndsAct M.Machine K.Disk result self entries (actor, request.now) out.new }
        ensures any_moment { K.honest self.disk → (entries : List (List ℕ)) → IsOpen M.Machine K.Disk self entries []
            → LeavesOnly K.moment K.left_since self.disk (disk_at result) (HasAllOrNone entries (entry_of (actor, request.now) ∷ [])) }
        ensures honest { AsHonest K.honest self.disk (disk_at result) }
        ensures failed { ActRose K.Disk self.disk result }
        ensures later { K.faults self.disk ≤ K.faults (disk_at result) }
    {
        match self.stage(actor, request, out) {
            Staged::Done => match self.commit() {
                Ok(journal) => JournalEnd::Done(journal),
                Err(disk) => {
                    out.clear();
                    JournalEnd::DiskFault(disk)
                }
            },
            Staged::TrailFull { bytes } => JournalEnd::TrailFull(self, bytes),
            Staged::NoMemory => JournalEnd::NoMemory(self),
        }
    }

    /// The machine and the disk. Entries that are staged are not put on the disk.
    pub fn close(self) -> (M, K)
        ensures machine { result.0 ≡ self.machine }
        ensures disk { result.1 ≡ self.disk }
    {
        (self.machine, self.disk)
    }
}
