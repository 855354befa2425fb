//! A machine with the log of what lasted of its requests.

ghost use Rattle.std.specs.Prelude.{◌≡◌, ◌+◌, ◌<◌, ◌≤◌, ◌++◌, [], ◌∷◌, ℕ, List, length, true, false, refl, IsOk, OnOk, OnErr};
ghost use Rattle.std.proofs.Common.{inl};
ghost use Rattle.rest_machine.specs.Rests.{most_lasting};
ghost use Rattle.disk_store.specs.Disks.{AsHonest};
ghost use Rattle.log_groups.specs.Items.{longest_body};
ghost use Rattle.site_log.specs.Kept.{Kept, IsSettled, with_settle, opens_with, logged};
ghost use Rattle.site_log.specs.Images.{Mark};
ghost use Rattle.site_log.specs.Files.{MayFail};
ghost use Rattle.site_log.specs.Shorter.{LooksAgain};
ghost use Rattle.site_log.specs.Stood.{Stands, faults_of};

use crate::bodies::Body;
use crate::files::LogFile;
use crate::texts::EntryText;
use disk_store::{BytewiseDisk, Disk};
use log_groups::group_laws;
use rest_machine::{Resting, Settling, Shortening};
use std::alloc::Global;
use tardis_base::{NoMemory, ReplyBuf};
use tardis_io::Failed;

/// How long a log's text becomes, in bytes, before it is told shorter for the first time: 16 MiB.
pub const LONG: u64 = 16_777_216;

/// A machine with the log of what lasted of its requests, on a disk. What lasted since the last group was put there waits for the
/// next.
///
/// Once it couldn't be settled it never is again: the machine goes on answering, and the disk is left as it is.
#[derive(Drop)]
pub struct Logged<M: Resting, K: BytewiseDisk> {
    pub(crate) machine: M,
    pub(crate) file: LogFile<K>,
    pub(crate) waiting: Body,
    pub(crate) text: EntryText,
    pub(crate) owed: bool,
    pub(crate) alloc: Global,
    pub(crate) long: u64,
}

impl<M: Shortening, K: BytewiseDisk> Logged<M, K> {
    /// Answers a request of an actor into `out`, and keeps what lasts of it for the next group. Where another's might find no
    /// room behind what waits, this is put on the disk first; where that fails, a later `settle_now` fails.
    pub fn answer(&mut self, actor: u16, request: &[u8], out: &mut ReplyBuf) -> Result<(), NoMemory>
        ensures reply { OnOk result ((kept : Kept M.Plain) (marks : List Mark) → Stands M.Resting K.Disk self.old kept marks
            → out.new ≡ M.plain.reply kept.state (actor, request.now)) }
        ensures step { OnOk result ((kept : Kept M.Plain) (marks : List Mark) → Stands M.Resting K.Disk self.old kept marks
            → Stands M.Resting K.Disk self.new ((logged M.Resting).step kept (actor, request.now)) marks) }
        ensures same { OnErr result ((kept : Kept M.Plain) (marks : List Mark) → Stands M.Resting K.Disk self.old kept marks
            → Stands M.Resting K.Disk self.new kept marks) }
        ensures empty { OnErr result (out.new ≡ []) }
        ensures sure { M.plain.is_sure (actor, request.now) ≡ true → IsOk result }
        ensures failed { self.new.file.failed ≡ true → MayFail K.Disk self.old.file self.new.file }
        ensures still { self.old.file.failed ≡ true → self.new.file ≡ self.old.file }
        ensures front { self.new.file.front ≡ self.old.file.front }
        ensures opening { M.opening self.new.machine ≡ M.opening self.old.machine }
        ensures long { self.new.long ≡ self.old.long }
    {
        self.make_way();
        let before = self.waiting.len();
        match self.waiting.act(&mut self.machine, actor, request, out) {
            Ok(()) => {
                if self.waiting.len() == before {
                    return Ok(());
                }
                self.owed = true;
                Ok(())
            }
            Err(NoMemory) => Err(NoMemory),
        }
    }

    /// Whether something may have to be settled. After a failure there always is.
    pub fn may_owe(&self) -> bool
        ensures { result ≡ false → (kept : Kept M.Plain) (marks : List Mark) → Stands M.Resting K.Disk self.now kept marks → IsSettled kept }
    {
        if self.file.has_failed() {
            return true;
        }
        self.owed
    }

    /// Puts what waits on the disk, as one group: after a crash all of it is there, or none. From the moment at which this
    /// answers `Ok`, all that lasted so far is in every image. Where the log has become long, it is told shorter then: first beyond
    /// `LONG` bytes, and then as `shorten_beyond` says.
    pub fn settle_now(&mut self) -> Result<(), Failed>
        ensures settled { OnOk result ((kept : Kept M.Plain) (marks : List Mark) → Stands M.Resting K.Disk self.old kept marks
            → Stands M.Resting K.Disk self.new (with_settle kept) (record { moment = K.moment self.new.file.disk; count = length kept.things } ∷ marks)) }
        ensures same { OnErr result ((kept : Kept M.Plain) (marks : List Mark) → Stands M.Resting K.Disk self.old kept marks
            → Stands M.Resting K.Disk self.new kept marks) }
        ensures again { OnOk result (LooksAgain self.old.long self.new) }
        ensures ended { OnErr result (self.new.file.failed ≡ true) }
        ensures still { self.old.file.failed ≡ true → self.new.file ≡ self.old.file }
        ensures cause { OnErr result (MayFail K.Disk self.old.file self.new.file) }
        ensures later { K.faults self.old.file.disk ≤ K.faults self.new.file.disk }
        ensures front { self.new.file.front ≡ self.old.file.front }
        ensures opening { M.opening self.new.machine ≡ M.opening self.old.machine }
    {
        group_laws(); // for the proof alone
        match self.flush() {
            Ok(()) => {}
            Err(Failed) => return Err(Failed),
        }
        match self.shorten_now() {
            Ok(()) => {
                self.owed = false;
                Ok(())
            }
            Err(Failed) => Err(Failed),
        }
    }

    /// Makes room for what lasts of one request.
    fn make_way(&mut self)
        ensures room { length self.new.waiting + most_lasting ≤ longest_body }
        ensures failed { self.new.file.failed ≡ true → MayFail K.Disk self.old.file self.new.file }
        ensures still { self.old.file.failed ≡ true → self.new.file ≡ self.old.file }
        ensures stands { (kept : Kept M.Plain) (marks : List Mark) → Stands M.Resting K.Disk self.old kept marks → Stands M.Resting K.Disk self.new kept marks }
        ensures front { self.new.file.front ≡ self.old.file.front }
        ensures opening { M.opening self.new.machine ≡ M.opening self.old.machine }
        ensures long { self.new.long ≡ self.old.long }
    {
        if self.waiting.has_room() {
            return;
        }
        let _ = self.flush();
    }

    /// Puts what waits on the disk, or forgets it, where that fails.
    fn flush(&mut self) -> Result<(), Failed>
        ensures emptied { self.new.waiting ≡ [] }
        ensures done { OnOk result (self.new.file.failed ≡ false) }
        ensures failed { OnErr result (self.new.file.failed ≡ true) }
        ensures still { self.old.file.failed ≡ true → self.new.file ≡ self.old.file }
        ensures cause { OnErr result (MayFail K.Disk self.old.file self.new.file) }
        ensures stands { (kept : Kept M.Plain) (marks : List Mark) → Stands M.Resting K.Disk self.old kept marks → Stands M.Resting K.Disk self.new kept marks }
        ensures later { K.faults self.old.file.disk ≤ K.faults self.new.file.disk }
        ensures machine { self.new.machine ≡ self.old.machine }
        ensures front { self.new.file.front ≡ self.old.file.front }
        ensures long { self.new.long ≡ self.old.long }
    {
        if self.file.has_failed() {
            self.waiting.clear();
            return Err(Failed);
        }
        if self.waiting.len() == 0 {
            return Ok(());
        }
        let put = self.file.put_body(self.waiting.bytes(), &mut self.text);
        self.waiting.clear();
        put
    }

    /// The machine.
    pub fn machine(&self) -> &M
        ensures { result.now ≡ self.now.machine }
    {
        &self.machine
    }

    /// The disk. What waits isn't put there.
    pub fn close(self) -> K
        ensures { result ≡ self.file.disk }
    {
        self.file.into_disk()
    }
}

impl<M: Shortening, K: BytewiseDisk> Settling for Logged<M, K> {
    ghost Plain = { Kept M.Plain };

    ghost plain = { logged M.Resting };

    ghost through = { λ _. logged M.Resting };

    ghost stands = { λ l kept. (marks : List Mark) × Stands M.Resting K.Disk l kept marks };

    ghost opening = { λ l. opens_with l.file.front (M.opening l.machine) };

    ghost is_settled = { λ kept. IsSettled kept };

    ghost settled = { λ kept. with_settle kept };

    ghost faults = { λ l. faults_of K.Disk l.file };

    fn act(&mut self, actor: u16, request: &[u8], out: &mut ReplyBuf) -> Result<(), NoMemory> {
        self.answer(actor, request, out)
    }

    fn act_through(
        &mut self,
        door: u8,
        actor: u16,
        request: &[u8],
        out: &mut ReplyBuf,
    ) -> Result<(), NoMemory> {
        let _ = door;
        self.act(actor, request, out)
    }

    fn owes(&self) -> bool {
        self.may_owe()
    }

    fn settle(&mut self) -> Result<(), Failed> {
        self.settle_now()
    }

    ghost settles = { λ kept. (kept.settles, refl) };

    ghost guards = { λ door kept e. inl refl };
}
