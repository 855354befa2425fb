//! Where disks come from.

ghost use Rattle.std.specs.Prelude.{◌≡◌, ◌≤◌, ℕ, Bool, true, false, Option, IfOk};
ghost use Rattle.tardis_io.specs.Faults.{HasCause};
ghost use Rattle.disk_store.specs.Stores.{ToldStore, Opens, FindsHeld, IsOut, with_back, count_after};

use crate::disks::Disk;
use tardis_io::Failed;

/// Opens disks by their paths, and takes each back when its work is over. A store may tell the disk that it holds and the
/// path at which it stands, and may be told to be honest; then each disk that it opens is honest.
pub trait Store {
    type Disk: Disk;

    // every disk that it opens is honest
    ghost honest: { Self → Type 0 };

    // its disk, where the store tells it
    ghost told: { Self → Option (ToldStore Self.Disk) };

    // how many faults were counted
    ghost faults: { Self → ℕ };

    // whether the last call found its disk held by somebody else
    ghost locked: { Self → Bool };

    /// The disk at a path, which is made where there is none.
    fn open_file(&mut self, path: &str) -> Result<Self::Disk, Failed>
        ensures fresh { IfOk result (λ disk. Self.Disk.faults disk ≡ 0) }
        ensures honest { honest self.old → IfOk result (λ disk. Self.Disk.honest disk) }
        ensures still { honest self.old → honest self.new }
        ensures told { Opens path.now (told self.old) (told self.new) result }
        ensures locked { FindsHeld path.now (told self.old) (locked self.new) result }
        ensures cause { HasCause (faults self.old) (faults self.new) result };

    /// The disk at a path, where there is one, for reading alone: none is made, and nothing of the one that is there
    /// changes. Of such a disk of the system's files each call that writes or cuts fails, and `replace` answers `false`.
    fn find_file(&mut self, path: &str) -> Result<Self::Disk, Failed>
        ensures fresh { IfOk result (λ disk. Self.Disk.faults disk ≡ 0) }
        ensures honest { honest self.old → IfOk result (λ disk. Self.Disk.honest disk) }
        ensures still { honest self.old → honest self.new }
        ensures told { Opens path.now (told self.old) (told self.new) result }
        ensures locked { FindsHeld path.now (told self.old) (locked self.new) result }
        ensures cause { HasCause (faults self.old) (faults self.new) result };

    /// Takes back a disk that this store opened, as it is, and counts a fault exactly where the disk counted one. It
    /// takes no memory.
    fn put_back(&mut self, disk: Self::Disk)
        requires { IsOut (told self.old) }
        ensures told { told self.new ≡ with_back (told self.old) disk }
        ensures locked { locked self.new ≡ false }
        ensures still { honest self.old → honest self.new }
        ensures faults { faults self.new ≡ count_after (Self.Disk.faults disk) (faults self.old) }
        ensures later { faults self.old ≤ faults self.new };

    /// Whether the last call of the three above was an `open_file` or a `find_file` that was refused because somebody else
    /// holds the file: as a disk in this process or another. Whoever holds it may let it go, so the same call may be well
    /// later. Each other refusal (no such folder, no regular file, an error of the system) answers false, and so does a
    /// store of which nothing was asked yet.
    fn is_locked(&self) -> bool
        ensures answer { result ≡ locked self.now }
        ensures out { result ≡ true → IsOut (told self.now) };
}
