//! Mending the end of a log that a crash may have left.

ghost use Rattle.std.specs.Prelude.{◌≡◌, ◌⊎◌, ◌+◌, ◌≤◌, ℕ, List, length, true, IfErr, OnOk};
ghost use Rattle.tardis_io.specs.Faults.{HasCause};
ghost use Rattle.disk_store.specs.Disks.{longest_disk, LeavesOnly, AsHonest};
ghost use Rattle.log_text.specs.Texts.{IsZeros};
ghost use Rattle.log_groups.specs.declared.fronts.LogFront.{LogFront};
ghost use Rattle.site_log.specs.declared.ends.OpenEnd.TheVariants.{NoMemory};
ghost use Rattle.site_log.specs.Sizes.{longest_text};
ghost use Rattle.site_log.specs.Images.{HoldsBodies};
ghost use Rattle.site_log.specs.Files.{IsAtRest};
ghost use Rattle.site_log.specs.Readies.{DiskEnd, HasLog};

use crate::appends::MAX_TEXT;
use crate::ends::OpenEnd;
use disk_store::{BytewiseDisk, Disk};
use log_groups::group_laws;
use std::alloc::Global;
use tardis_io::Failed;

/// Writes zeros over what may be other than zero behind a log's last group, where a crash tore it, and syncs them. A whole end
/// needs none.
pub(crate) fn mend<K: BytewiseDisk>(
    alloc: Global,
    disk: &mut K,
    place: usize,
    size: usize,
    torn: bool,
) -> Result<(), OpenEnd>
    requires within { place ≤ size }
    requires few { size ≤ longest_disk }
    requires size { K.honest disk.old → size ≡ length (K.reads disk.old) }
    ensures mended { K.honest disk.old → (front : LogFront) (bodies : List (List ℕ)) → HasLog K.Disk disk.old front bodies place size torn
        → OnOk result (IsAtRest K.Disk disk.new front bodies place size) }
    ensures any_moment { K.honest disk.old → (front : LogFront) (bodies : List (List ℕ)) → HasLog K.Disk disk.old front bodies place size torn
        → LeavesOnly K.moment K.left_since disk.old disk.new (HoldsBodies front bodies) }
    ensures end { IfErr result (λ end. DiskEnd (K.faults disk.old) (K.faults disk.new) end) }
    ensures still { IfErr result (λ end. end ≡ NoMemory → disk.new ≡ disk.old) }
    ensures honest { AsHonest K.honest disk.old disk.new }
    ensures later { K.faults disk.old ≤ K.faults disk.new }
{
    group_laws(); // for the proof alone
    if !torn {
        return Ok(());
    }
    let Ok(zeros) = vec![in alloc; 0; (size - place).min(MAX_TEXT)] else {
        return Err(OpenEnd::NoMemory);
    };
    match write_over(disk, place as u64, zeros.as_slice()) {
        Ok(()) => Ok(()),
        Err(Failed) => Err(OpenEnd::Disk),
    }
}

/// Writes zeros over the rest of a file, or over as many bytes of it as an entry may have, and syncs them.
fn write_over<K: BytewiseDisk>(disk: &mut K, place: u64, zeros: &[u8]) -> Result<(), Failed>
    requires zeros { IsZeros zeros.now }
    requires begin { K.honest disk.old → place + length zeros.now ≤ length (K.reads disk.old) }
    requires enough { K.honest disk.old → (place + length zeros.now ≡ length (K.reads disk.old)) ⊎ (longest_text ≤ length zeros.now) }
    requires end { place + length zeros.now ≤ longest_disk }
    ensures mended { K.honest disk.old → (front : LogFront) (bodies : List (List ℕ)) (size : ℕ) → HasLog K.Disk disk.old front bodies place size true
        → OnOk result (IsAtRest K.Disk disk.new front bodies place size) }
    ensures any_moment { K.honest disk.old → (front : LogFront) (bodies : List (List ℕ)) (size : ℕ) → HasLog K.Disk disk.old front bodies place size true
        → LeavesOnly K.moment K.left_since disk.old disk.new (HoldsBodies front bodies) }
    ensures honest { AsHonest K.honest disk.old disk.new }
    ensures cause { HasCause (K.faults disk.old) (K.faults disk.new) result }
{
    group_laws(); // for the proof alone
    disk.write_bytewise(place, zeros)?;
    disk.sync()
}
