//! Mending the end of a journal that a crash may have left.

ghost use Rattle.std.specs.Prelude.{◌≡◌, ◌⊎◌, ◌+◌, ◌<◌, ◌≤◌, ◌++◌, ℕ, List, length, min, true, OnOk, IfOk};
ghost use Rattle.tardis_io.specs.Faults.{HasCause};
ghost use Rattle.disk_store.specs.Disks.{longest_disk, LeavesOnly, AsHonest};
ghost use Rattle.site_journal.specs.Texts.{HasEntries};
ghost use Rattle.site_journal.specs.Moments.{IsAtRest, IsTorn, WasRead};

use disk_store::Disk;
use tardis_io::Failed;

/// Makes one byte 0 of what stands behind the last entry. Whatever fails, and at every moment, the entries stay.
pub(crate) fn mend<K: Disk>(disk: &mut K, place: u64, size: u64) -> Result<(), Failed>
    requires torn { K.honest disk.old → (entries : List (List ℕ)) × IsTorn K.Disk disk.old entries place size }
    requires within { place ≤ size }
    requires end { size ≤ longest_disk }
    requires begin { (place ≡ 0) ⊎ (place < size) }
    ensures at_rest { K.honest disk.old → (entries : List (List ℕ)) → IsTorn K.Disk disk.old entries place size
        → OnOk result (IsAtRest K.Disk disk.new entries) }
    ensures any_moment { K.honest disk.old → (entries : List (List ℕ)) → IsTorn K.Disk disk.old entries place size
        → LeavesOnly K.moment K.left_since disk.old disk.new (HasEntries entries) }
    ensures honest { AsHonest K.honest disk.old disk.new }
    ensures cause { HasCause (K.faults disk.old) (K.faults disk.new) result }
{
    cut_rest(disk, place, size)?;
    end_rest(disk, place, size.min(place + 1))
}

/// Cuts off what stands behind the first byte of the rest. That byte stays, since there has to be one behind the last
/// entry, and what stands behind it has to be gone before it may be written.
pub(crate) fn cut_rest<K: Disk>(disk: &mut K, place: u64, size: u64) -> Result<(), Failed>
    requires torn { K.honest disk.old → (entries : List (List ℕ)) × IsTorn K.Disk disk.old entries place size }
    requires within { place ≤ size }
    ensures torn { K.honest disk.old → (entries : List (List ℕ)) → IsTorn K.Disk disk.old entries place size
        → OnOk result (IsTorn K.Disk disk.new entries place (min size (place + 1))) }
    ensures any_moment { K.honest disk.old → (entries : List (List ℕ)) → IsTorn K.Disk disk.old entries place size
        → LeavesOnly K.moment K.left_since disk.old disk.new (HasEntries entries) }
    ensures honest { AsHonest K.honest disk.old disk.new }
    ensures cause { HasCause (K.faults disk.old) (K.faults disk.new) result }
{
    if size - place <= 1 {
        return Ok(());
    }
    disk.cut(place + 1)?;
    disk.sync()
}

/// Writes the byte 0, where it isn't there.
pub(crate) fn end_rest<K: Disk>(disk: &mut K, place: u64, size: u64) -> Result<(), Failed>
    requires torn { K.honest disk.old → (entries : List (List ℕ)) × IsTorn K.Disk disk.old entries place size }
    requires within { place ≤ size }
    requires few { size ≤ place + 1 }
    requires end { place + 1 ≤ longest_disk }
    ensures at_rest { K.honest disk.old → (entries : List (List ℕ)) → IsTorn K.Disk disk.old entries place size
        → OnOk result (IsAtRest K.Disk disk.new entries) }
    ensures any_moment { K.honest disk.old → (entries : List (List ℕ)) → IsTorn K.Disk disk.old entries place size
        → LeavesOnly K.moment K.left_since disk.old disk.new (HasEntries entries) }
    ensures honest { AsHonest K.honest disk.old disk.new }
    ensures cause { HasCause (K.faults disk.old) (K.faults disk.new) result }
{
    if has_end(disk, place, size)? {
        return Ok(());
    }
    disk.write_at(place, &[0])?;
    disk.sync()
}

/// Whether the rest is the one byte 0.
pub(crate) fn has_end<K: Disk>(disk: &mut K, place: u64, size: u64) -> Result<bool, Failed>
    requires torn { K.honest disk.old → (entries : List (List ℕ)) × IsTorn K.Disk disk.old entries place size }
    requires few { size ≤ place + 1 }
    ensures at_rest { K.honest disk.old → (entries : List (List ℕ)) → IsTorn K.Disk disk.old entries place size
        → IfOk result (λ is. is ≡ true → IsAtRest K.Disk disk.new entries) }
    ensures read { K.honest disk.old → WasRead K.Disk disk.old disk.new }
    ensures honest { AsHonest K.honest disk.old disk.new }
    ensures cause { HasCause (K.faults disk.old) (K.faults disk.new) result }
{
    if size <= place {
        return Ok(false);
    }
    let mut last = [0; 1];
    disk.read_at(place, &mut last)?;
    Ok(last[0] == 0)
}
