//! A log's file while it is open.

ghost use Rattle.std.specs.Prelude.{◌≡◌, ◌⊎◌, ◌+◌, ◌<◌, ◌≤◌, ◌++◌, [], ◌∷◌, ℕ, List, length, true, false, Ok, OnOk, OnErr};
ghost use Rattle.tardis_io.specs.Faults.{Rose};
ghost use Rattle.disk_store.specs.Disks.{longest_disk, LeavesOnly, AsHonest};
ghost use Rattle.log_text.specs.Texts.{entry};
ghost use Rattle.log_groups.specs.Items.{IsBody, group};
ghost use Rattle.site_log.specs.Sizes.{last_place};
ghost use Rattle.site_log.specs.Files.{HoldsOneMore, HoldsEither, IsLogText, IsFile, IsSameFile, MayFail};

use crate::appends::{MAX_PLACE, put};
use crate::texts::EntryText;
use disk_store::{BytewiseDisk, Disk};
use log_groups::{LogFront, group_laws};
use std::marker::Model;
use tardis_io::Failed;

/// A disk, and where the log on it ends. Once a call failed, the disk is left as it is.
#[derive(Drop)]
pub struct LogFile<K: BytewiseDisk> {
    disk: K,
    front: LogFront,
    number: u64,
    place: u64,
    room: u64,
    failed: bool,
}

impl<K: BytewiseDisk> Model for LogFile<K> {
    ghost use Rattle.std.specs.Prelude.{◌≡◌, ◌≤◌, false, length};
    ghost use Rattle.site_log.specs.Files.{OpenFile};

    ghost Value = { OpenFile K };

    ghost view = { λ f. record { disk = f.disk; front = f.front; number = f.number; place = f.place; room = f.room; failed = f.failed } };

    ghost invariant = { λ f. f.failed ≡ false → K.honest f.disk → f.room ≡ length (K.reads f.disk) };
}

impl<K: BytewiseDisk> LogFile<K> {
    /// The file of a log that ends at a place.
    pub(crate) fn new(disk: K, front: LogFront, number: u64, place: u64, room: u64) -> LogFile<K>
        requires { K.honest disk → room ≡ length (K.reads disk) }
        ensures { result ≡ record { disk = disk; front = front; number = number; place = place; room = room; failed = false } }
    {
        LogFile {
            disk,
            front,
            number,
            place,
            room,
            failed: false,
        }
    }

    pub(crate) fn has_failed(&self) -> bool
        ensures { result ≡ self.now.failed }
    {
        self.failed
    }

    /// Puts a group of this body behind the log. Its text is spelled in `text`. So a crash leaves the bodies so far, or these and
    /// this one.
    pub(crate) fn put_body(&mut self, body: &[u8], text: &mut EntryText) -> Result<(), Failed>
        requires body { IsBody body.now }
        requires open { self.old.failed ≡ false }
        ensures put { K.honest self.old.disk → (bodies : List (List ℕ)) → IsFile K.Disk self.old bodies → OnOk result (IsFile K.Disk self.new (bodies ++ body.now ∷ [])) }
        ensures any_moment { K.honest self.old.disk → (bodies : List (List ℕ)) → IsFile K.Disk self.old bodies
            → LeavesOnly K.moment K.left_since self.old.disk self.new.disk (HoldsOneMore self.old.front bodies body.now) }
        ensures done { OnOk result (self.new.failed ≡ false) }
        ensures failed { OnErr result (self.new.failed ≡ true) }
        ensures cause { OnErr result (MayFail K.Disk self.old self.new) }
        ensures front { self.new.front ≡ self.old.front }
        ensures honest { AsHonest K.honest self.old.disk self.new.disk }
        ensures later { K.faults self.old.disk ≤ K.faults self.new.disk }
    {
        match self.spell(body, text) {
            Ok(()) => {}
            Err(Failed) => {
                self.failed = true;
                return Err(Failed);
            }
        }
        match put(&mut self.disk, self.place, self.room, text.bytes()) {
            Ok(room) => {
                self.room = room;
                self.place += text.bytes().len() as u64;
                self.number += 1;
                Ok(())
            }
            Err(Failed) => {
                self.failed = true;
                Err(Failed)
            }
        }
    }

    /// Puts the text of a log of as many groups as `number` says in the place of this one, in one step: so a crash leaves the bodies so far, or
    /// those of that log. `false` means that there is no room for both texts; then all is as before.
    pub(crate) fn replace(&mut self, text: &[u8], number: u64) -> Result<bool, Failed>
        requires few { length text.now ≤ longest_disk }
        requires open { self.old.failed ≡ false }
        ensures replaced { K.honest self.old.disk → result ≡ Ok true → (bodies others : List (List ℕ)) → IsFile K.Disk self.old bodies
            → IsLogText text.now self.old.front number others → IsFile K.Disk self.new others }
        ensures kept { K.honest self.old.disk → result ≡ Ok false → (bodies : List (List ℕ)) → IsFile K.Disk self.old bodies → IsFile K.Disk self.new bodies }
        ensures any_moment { K.honest self.old.disk → (bodies others : List (List ℕ)) → IsFile K.Disk self.old bodies
            → IsLogText text.now self.old.front number others
            → LeavesOnly K.moment K.left_since self.old.disk self.new.disk (HoldsEither self.old.front bodies others) }
        ensures ends { result ≡ Ok true → (self.new.place ≡ length text.now) × (self.new.room ≡ length text.now) }
        ensures same { result ≡ Ok false → IsSameFile K.Disk self.old self.new }
        ensures done { OnOk result (self.new.failed ≡ false) }
        ensures failed { OnErr result (self.new.failed ≡ true) }
        ensures cause { OnErr result (Rose (K.faults self.old.disk) (K.faults self.new.disk)) }
        ensures front { self.new.front ≡ self.old.front }
        ensures honest { AsHonest K.honest self.old.disk self.new.disk }
        ensures later { K.faults self.old.disk ≤ K.faults self.new.disk }
    {
        group_laws(); // for the proof alone
        match self.disk.replace(text) {
            Ok(true) => {
                self.number = number;
                self.place = text.len() as u64;
                self.room = text.len() as u64;
                Ok(true)
            }
            Ok(false) => Ok(false),
            Err(Failed) => {
                self.failed = true;
                Err(Failed)
            }
        }
    }

    /// What the log says first.
    pub(crate) fn front(&self) -> &LogFront
        ensures { result.now ≡ self.now.front }
    {
        &self.front
    }

    /// How long the log's text is.
    pub(crate) fn place(&self) -> u64
        ensures { result ≡ self.now.place }
    {
        self.place
    }

    /// Spells the next group's entry, where the log isn't too long.
    fn spell(&self, body: &[u8], text: &mut EntryText) -> Result<(), Failed>
        requires { IsBody body.now }
        ensures text { OnOk result (text.new ≡ entry (group self.now.front.life self.now.number body.now)) }
        ensures place { OnOk result (self.now.place ≤ last_place) }
        ensures number { OnOk result (self.now.number < 18446744073709551615) }
        ensures cause { OnErr result ((last_place < self.now.place) ⊎ (self.now.number ≡ 18446744073709551615)) }
    {
        if MAX_PLACE < self.place {
            return Err(Failed);
        }
        if self.number == u64::MAX {
            return Err(Failed);
        }
        text.spell(&self.front.life, self.number, body);
        Ok(())
    }

    pub(crate) fn into_disk(self) -> K
        ensures { result ≡ self.disk }
    {
        self.disk
    }
}
