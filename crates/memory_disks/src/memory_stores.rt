//! A store of one disk in memory.

ghost use Rattle.std.specs.Prelude.{◌≡◌, ◌↔◌, Some, None, IfOk, is_none, true, false};
ghost use Rattle.std.specs.String.{string_bytes};
ghost use Rattle.tardis_io.specs.Faults.{HasCause};
ghost use Rattle.disk_store.specs.Stores.{Opens, FindsHeld, IsOut, with_back, count_after};
ghost use Rattle.memory_disks.specs.MemoryStores.{disk_of, store_of};

use crate::memory_disks::MemoryDisk;
use disk_store::Store;
use std::marker::Model;
use std::mem;
use tardis_io::Failed;

/// Where the disk of a store is.
#[derive(Drop)]
pub enum Held {
    /// It wasn't opened yet.
    Within(MemoryDisk),
    /// It is opened.
    Out,
    /// It was put back.
    Back(MemoryDisk),
}

/// A store of one disk in memory, at one path, which it gives once, opened or found. Asking for it a second time is a counted
/// fault, also after it was put back, and so is asking for another path, which it counts apart too.
#[derive(Drop)]
pub struct MemoryStore {
    path: String,
    held: Held,
    elsewhere: u64,
    faults: u64,
    is_locked: bool,
}

impl Model for MemoryStore {
    ghost use Rattle.std.specs.String.{string_bytes};
    ghost use Rattle.memory_disks.specs.MemoryStores.{KeptStore, told_of, IsHeld, IsLock};

    ghost Value = { KeptStore };

    ghost view = { λ s. record { told = told_of (string_bytes s.path) s.held s.elsewhere; faults = s.faults; locked = s.is_locked } };

    ghost invariant = { λ s. IsHeld s.held × IsLock s.held s.is_locked };
}

impl MemoryStore {
    /// A store of this disk, which has counted no fault, at this path.
    pub fn new(path: String, disk: MemoryDisk) -> MemoryStore
        requires { disk.plan.faults ≡ 0 }
        ensures { result ≡ store_of (string_bytes path) disk }
    {
        MemoryStore {
            path,
            held: Held::Within(disk),
            elsewhere: 0,
            faults: 0,
            is_locked: false,
        }
    }

    /// The disk, as it is now. There is none exactly where it is opened and wasn't put back.
    pub fn disk(self) -> Option<MemoryDisk>
        ensures disk { result ≡ disk_of self.told }
        ensures out { is_none result ≡ true ↔ self.told.out ≡ 1 }
    {
        let MemoryStore { path, held, .. } = self;
        drop(path);
        match held {
            Held::Within(disk) | Held::Back(disk) => Some(disk),
            Held::Out => None,
        }
    }

    /// The disk at a path.
    fn hand_out(&mut self, path: &str) -> Result<MemoryDisk, Failed>
        ensures fresh { IfOk result (λ disk. disk.plan.faults ≡ 0) }
        ensures told { Opens path.now (Some self.old.told) (Some self.new.told) result }
        ensures locked { FindsHeld path.now (Some self.old.told) self.new.locked result }
        ensures cause { HasCause self.old.faults self.new.faults result }
    {
        self.is_locked = false;
        if path != self.path.as_str() {
            self.elsewhere = self.elsewhere.saturating_add(1);
            self.faults = self.faults.saturating_add(1);
            return Err(Failed);
        }
        match mem::replace(&mut self.held, Held::Out) {
            Held::Within(disk) => Ok(disk),
            Held::Out => {
                self.is_locked = true;
                self.faults = self.faults.saturating_add(1);
                Err(Failed)
            }
            Held::Back(disk) => {
                drop(mem::replace(&mut self.held, Held::Back(disk)));
                self.faults = self.faults.saturating_add(1);
                Err(Failed)
            }
        }
    }
}

impl Store for MemoryStore {
    type Disk = MemoryDisk;

    ghost honest = { λ _. Unit {0} };

    ghost told = { λ s. Some s.told };

    ghost faults = { λ s. s.faults };

    ghost locked = { λ s. s.locked };

    fn open_file(&mut self, path: &str) -> Result<MemoryDisk, Failed> {
        self.hand_out(path)
    }

    fn find_file(&mut self, path: &str) -> Result<MemoryDisk, Failed> {
        self.hand_out(path)
    }

    fn put_back(&mut self, disk: MemoryDisk) {
        if disk.faults() > 0 {
            self.faults = self.faults.saturating_add(1);
        }
        drop(mem::replace(&mut self.held, Held::Back(disk)));
        self.is_locked = false;
    }

    fn is_locked(&self) -> bool {
        self.is_locked
    }
}
