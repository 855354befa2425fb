//! Reading all bytes of a disk.

ghost use Rattle.std.specs.Prelude.{◌≡◌, ◌≤◌, length, IfOk, IfErr};
ghost use Rattle.disk_store.specs.Disks.{longest_disk, AsHonest};
ghost use Rattle.site_log.specs.Opens.{WasRead};
ghost use Rattle.site_log.specs.Readies.{IsLoaded, DiskEnd};

use crate::ends::OpenEnd;
use disk_store::{BytewiseDisk, Disk};
use std::alloc::Global;
use tardis_io::Failed;

/// Syncs a disk, and reads all its bytes.
pub(crate) fn load<K: BytewiseDisk>(alloc: Global, disk: &mut K) -> Result<Vec<u8>, OpenEnd>
    ensures loaded { K.honest disk.old → IfOk result (λ bytes. IsLoaded K.Disk disk.new bytes.items) }
    ensures few { IfOk result (λ bytes. length bytes.items ≤ longest_disk) }
    ensures read { K.honest disk.old → WasRead K.Disk disk.old disk.new }
    ensures end { IfErr result (λ end. DiskEnd (K.faults disk.old) (K.faults disk.new) end) }
    ensures honest { AsHonest K.honest disk.old disk.new }
    ensures later { K.faults disk.old ≤ K.faults disk.new }
{
    match disk.sync() {
        Ok(()) => read_all(alloc, disk),
        Err(Failed) => Err(OpenEnd::Disk),
    }
}

/// Reads all bytes of a disk into memory. It syncs and writes nothing.
pub fn read_all<K: BytewiseDisk>(alloc: Global, disk: &mut K) -> Result<Vec<u8>, OpenEnd>
    ensures bytes { K.honest disk.old → IfOk result (λ bytes. bytes.items ≡ K.reads disk.old) }
    ensures few { IfOk result (λ bytes. length bytes.items ≤ longest_disk) }
    ensures read { K.honest disk.old → WasRead K.Disk disk.old disk.new }
    ensures end { IfErr result (λ end. DiskEnd (K.faults disk.old) (K.faults disk.new) end) }
    ensures honest { AsHonest K.honest disk.old disk.new }
    ensures later { K.faults disk.old ≤ K.faults disk.new }
{
    match disk.len() {
        Ok(count) => read_bytes(alloc, disk, count as usize),
        Err(Failed) => Err(OpenEnd::Disk),
    }
}

/// Reads so many bytes, which are all.
fn read_bytes<K: BytewiseDisk>(
    alloc: Global,
    disk: &mut K,
    count: usize,
) -> Result<Vec<u8>, OpenEnd>
    requires all { K.honest disk.old → count ≡ length (K.reads disk.old) }
    ensures bytes { K.honest disk.old → IfOk result (λ bytes. bytes.items ≡ K.reads disk.old) }
    ensures count { IfOk result (λ bytes. length bytes.items ≡ count) }
    ensures read { K.honest disk.old → WasRead K.Disk disk.old disk.new }
    ensures end { IfErr result (λ end. DiskEnd (K.faults disk.old) (K.faults disk.new) end) }
    ensures honest { AsHonest K.honest disk.old disk.new }
    ensures later { K.faults disk.old ≤ K.faults disk.new }
{
    let Ok(mut bytes) = vec![in alloc; 0; count] else {
        return Err(OpenEnd::NoMemory);
    };
    match disk.read_at(0, bytes.as_mut_slice()) {
        Ok(()) => Ok(bytes),
        Err(Failed) => Err(OpenEnd::Disk),
    }
}
