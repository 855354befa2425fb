//! Disks whose torn writes leave no byte that nobody wrote.

ghost use Rattle.std.specs.Prelude.{◌≡◌, ◌+◌, ◌≤◌, length, OnOk};
ghost use Rattle.tardis_io.specs.Faults.{HasCause};
ghost use Rattle.disk_store.specs.Disks.{longest_disk, with_bytes, Bytewise, Follows, Elapses, AsHonest};

use crate::disks::Disk;
use tardis_io::Failed;

/// A disk that can also write bytewise: until a sync, a crash leaves of each byte the one that stood there or the one that was
/// written, and no other. `docs/DURABLE.md` says which disks keep this.
pub trait BytewiseDisk: Disk {
    /// Writes over what is there, and past the end, as `Disk::write_at` does. A byte that isn't there yet counts as 0. A call
    /// that failed leaves each of its bytes, and the length, in that same uncertainty.
    fn write_bytewise(&mut self, place: u64, bytes: &[u8]) -> Result<(), Failed>
        requires begin { Self.honest self.old → place ≤ length (Self.reads self.old) }
        requires end { place + length bytes.now ≤ longest_disk }
        ensures written { Self.honest self.old → OnOk result (Self.reads self.new ≡ with_bytes (Self.reads self.old) place bytes.now) }
        ensures crash { Self.honest self.old → Follows (Bytewise place bytes.now) (Self.may_leave self.old) (Self.may_leave self.new) }
        ensures time { Self.honest self.old → Elapses (Self.moment self.old) (Self.moment self.new) (Self.left_since self.old) (Self.left_since self.new) (Self.may_leave self.new) }
        ensures honest { AsHonest Self.honest self.old self.new }
        ensures cause { HasCause (Self.faults self.old) (Self.faults self.new) result };
}
