//! Putting entries behind a journal.

ghost use Rattle.std.specs.Prelude.{◌≡◌, ◌+◌, ◌≤◌, ◌++◌, ◌<◌, ℕ, List, length, OnOk};
ghost use Rattle.std.specs.List.{AllByRecursion};
ghost use Rattle.tardis_io.specs.Faults.{HasCause};
ghost use Rattle.disk_store.specs.Disks.{longest_disk, LeavesOnly, AsHonest};
ghost use Rattle.site_journal.specs.Texts.{IsEntry, marked, journal_text, HasAllOrNone};
ghost use Rattle.site_journal.specs.Moments.{IsAtRest, IsBehind};

use disk_store::Disk;
use tardis_io::Failed;

/// Puts the journal text of some entries in the place of the last byte of a journal: all but its first byte behind that
/// byte, and once they are on the disk its first byte, a 1, over it. So a crash leaves all of these entries or none.
pub(crate) fn append<K: Disk>(disk: &mut K, place: u64, text: &[u8]) -> Result<(), Failed>
    requires rest { K.honest disk.old → (entries : List (List ℕ)) × IsBehind K.Disk disk.old place entries }
    requires some { 0 < length text.now }
    requires end { place + 1 + length text.now ≤ longest_disk }
    ensures appended { K.honest disk.old → (entries more : List (List ℕ)) → IsBehind K.Disk disk.old place entries
        → text.now ≡ journal_text more → AllByRecursion IsEntry more → 0 < length more → OnOk result (IsAtRest K.Disk disk.new (entries ++ more)) }
    ensures any_moment { K.honest disk.old → (entries more : List (List ℕ)) → IsBehind K.Disk disk.old place entries
        → text.now ≡ journal_text more → AllByRecursion IsEntry more → 0 < length more
        → LeavesOnly K.moment K.left_since disk.old disk.new (HasAllOrNone entries more) }
    ensures honest { AsHonest K.honest disk.old disk.new }
    ensures cause { HasCause (K.faults disk.old) (K.faults disk.new) result }
{
    disk.write_at(place + 1, &text[1..])?;
    disk.sync()?;
    disk.write_at(place, &[1])?;
    disk.sync()
}
