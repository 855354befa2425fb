//! Telling a log shorter. `docs/DURABLE.md` states the steps.

ghost use Rattle.std.specs.Prelude.{◌≡◌, ◌≤◌, ◌<◌, [], List, ℕ, true, false, OnOk, OnErr};
ghost use Rattle.tardis_io.specs.Faults.{Rose};
ghost use Rattle.disk_store.specs.Disks.{AsHonest};
ghost use Rattle.site_log.specs.Kept.{Kept};
ghost use Rattle.site_log.specs.Images.{Mark};
ghost use Rattle.site_log.specs.Drafts.{guards_of, IsShorter};
ghost use Rattle.site_log.specs.Shorter.{twice_as_long, quarter_longer, WhereDone, WhereLooked, IsGuarded, LooksAgain, WasTold};
ghost use Rattle.site_log.specs.Stood.{Stands};

use crate::appends::MAX_PLACE;
use crate::drafts::{Draft, draft_log};
use crate::logged::{LONG, Logged};
use disk_store::{BytewiseDisk, Disk};
use rest_machine::{Resting, Shortening};
use tardis_base::NoMemory;
use tardis_io::Failed;

/// What came of telling a log shorter.
#[derive(Clone, Copy)]
pub enum Shortened {
    /// It isn't longer than was asked for, or something waits to be put behind it.
    NotLong,
    /// Another log that brings the same is there in its place: how many bytes the text had before, and how many it has now.
    Done { before: u64, after: u64 },
    /// No log was found that brings the same and is shorter.
    NoShorter,
    /// There is too little memory.
    NoMemory,
    /// There is no room on the disk for both texts.
    NoRoom,
    /// A call of the disk failed, now or before.
    Failed,
}

impl<M: Shortening, K: BytewiseDisk> Logged<M, K> {
    /// Where the log's text is longer than `length` bytes and nothing waits, puts a log of a shorter history in its place, in one step:
    /// a crash leaves the old one, or the new one. It brings the same: a machine that starts from it is one that started from the old
    /// log. Whatever comes of it but `Failed`, the log goes on. Where it was long, `settle_now` tells it shorter next once it is twice as
    /// long as it is then, and has `LONG` bytes at least; or, where no shorter one was found, once it has grown by a quarter, by `LONG`
    /// bytes at least, for a later moment may have one.
    ///
    /// It takes memory for a second machine and for the new text, and time as the machine and the text grow.
    pub fn shorten_beyond(&mut self, length: u64) -> Shortened
        ensures told { WasTold K.Disk self.old length result self.new }
        ensures guarded { K.honest self.old.file.disk → WhereDone result (IsGuarded K.Disk self.old.file self.new.file) }
        ensures next { WhereLooked result (self.new.file.place ≤ self.new.long) }
        ensures stands { (kept : Kept M.Plain) (marks : List Mark) → Stands M.Resting K.Disk self.old kept marks → Stands M.Resting K.Disk self.new kept marks }
        ensures machine { self.new.machine ≡ self.old.machine }
        ensures waiting { self.new.waiting ≡ self.old.waiting }
        ensures owed { self.new.owed ≡ self.old.owed }
        ensures front { self.new.file.front ≡ self.old.file.front }
        ensures honest { AsHonest K.honest self.old.file.disk self.new.file.disk }
        ensures later { K.faults self.old.file.disk ≤ K.faults self.new.file.disk }
    {
        if self.file.has_failed() {
            return Shortened::Failed;
        }
        if self.file.place() <= length {
            return Shortened::NotLong;
        }
        if self.waiting.len() > 0 {
            return Shortened::NotLong;
        }
        let before = self.file.place();
        match draft_log(self.alloc, &self.machine, self.file.front(), before) {
            Ok(Some(draft)) => self.take_over(&draft),
            Ok(None) => {
                self.long = once_grown(before);
                Shortened::NoShorter
            }
            Err(NoMemory) => {
                self.long = once_doubled(before);
                Shortened::NoMemory
            }
        }
    }

    /// Puts a draft in the place of the log, where it is shorter.
    fn take_over(&mut self, draft: &Draft<M>) -> Shortened
        requires open { self.old.file.failed ≡ false }
        requires none { self.old.waiting ≡ [] }
        requires draft { IsShorter M.Resting (guards_of self.old.file.place) self.old.machine self.old.file.front draft.now }
        ensures told { (length : ℕ) → length < self.old.file.place → WasTold K.Disk self.old length result self.new }
        ensures guarded { K.honest self.old.file.disk → WhereDone result (IsGuarded K.Disk self.old.file self.new.file) }
        ensures next { WhereLooked result (self.new.file.place ≤ self.new.long) }
        ensures stands { (kept : Kept M.Plain) (marks : List Mark) → Stands M.Resting K.Disk self.old kept marks → Stands M.Resting K.Disk self.new kept marks }
        ensures machine { self.new.machine ≡ self.old.machine }
        ensures waiting { self.new.waiting ≡ self.old.waiting }
        ensures owed { self.new.owed ≡ self.old.owed }
        ensures front { self.new.file.front ≡ self.old.file.front }
        ensures honest { AsHonest K.honest self.old.file.disk self.new.file.disk }
        ensures later { K.faults self.old.file.disk ≤ K.faults self.new.file.disk }
    {
        let before = self.file.place();
        let after = draft.text.len() as u64;
        if after >= before {
            self.long = once_grown(before);
            return Shortened::NoShorter;
        }
        if after > MAX_PLACE {
            self.long = once_grown(before);
            return Shortened::NoShorter;
        }
        match self.file.replace(draft.text.as_slice(), draft.number) {
            Ok(true) => {
                self.long = once_doubled(after);
                Shortened::Done { before, after }
            }
            Ok(false) => {
                self.long = once_doubled(before);
                Shortened::NoRoom
            }
            Err(Failed) => Shortened::Failed,
        }
    }

    /// Tells the log shorter, where it has become long.
    pub(crate) fn shorten_now(&mut self) -> Result<(), Failed>
        requires open { self.old.file.failed ≡ false }
        requires none { self.old.waiting ≡ [] }
        ensures stands { (kept : Kept M.Plain) (marks : List Mark) → Stands M.Resting K.Disk self.old kept marks → Stands M.Resting K.Disk self.new kept marks }
        ensures again { OnOk result (LooksAgain self.old.long self.new) }
        ensures done { OnOk result (self.new.file.failed ≡ false) }
        ensures failed { OnErr result (self.new.file.failed ≡ true) }
        ensures cause { OnErr result (Rose (K.faults self.old.file.disk) (K.faults self.new.file.disk)) }
        ensures machine { self.new.machine ≡ self.old.machine }
        ensures waiting { self.new.waiting ≡ self.old.waiting }
        ensures owed { self.new.owed ≡ self.old.owed }
        ensures front { self.new.file.front ≡ self.old.file.front }
        ensures later { K.faults self.old.file.disk ≤ K.faults self.new.file.disk }
    {
        match self.shorten_beyond(self.long) {
            Shortened::Failed => Err(Failed),
            _ => Ok(()),
        }
    }
}

/// Beyond which length a log of so many bytes is told shorter next: once it is twice as long, and has `LONG` bytes at least.
fn once_doubled(bytes: u64) -> u64
    ensures next { result ≡ twice_as_long bytes }
    ensures within { bytes ≤ result }
{
    LONG.max(bytes.saturating_mul(2))
}

/// Beyond which length it is told shorter next, where no shorter one was found: once it has grown by a quarter, by `LONG` bytes at
/// least.
fn once_grown(bytes: u64) -> u64
    ensures next { result ≡ quarter_longer bytes }
    ensures within { bytes ≤ result }
{
    bytes.saturating_add(LONG.max(bytes / 4))
}
