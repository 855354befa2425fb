//! Disks in memory, and what a crash leaves of them.

use memory_disks::{MemoryDisk, MemoryStore};
use std::alloc::Global;
use std::process::Abort;

/// A disk that holds these bytes, with room for 1,000, of which the listed calls fail.
pub(crate) fn disk_of(rt: &impl Abort, alloc: Global, bytes: &[u8], failing: &[u64]) -> MemoryDisk {
    MemoryDisk::new(alloc, bytes, 1_000, failing).expect(rt, "room")
}

/// The path at which a store's disk stands.
pub(crate) const PATH: &str = "carts";

/// A store of such a disk, at this path.
pub(crate) fn store_of(
    rt: &impl Abort,
    alloc: Global,
    bytes: &[u8],
    failing: &[u64],
) -> MemoryStore {
    let path = String::from_str(alloc, PATH).expect(rt, "room");
    MemoryStore::new(
        path,
        MemoryDisk::new(alloc, bytes, 1_000, failing).expect(rt, "room"),
    )
}

/// What a crash by this choice leaves of the disk.
pub(crate) fn crashed(rt: &impl Abort, disk: MemoryDisk, choice: u64) -> MemoryDisk {
    disk.crash(choice).expect(rt, "room")
}

/// Whether the disk holds these bytes.
pub(crate) fn holds(disk: &MemoryDisk, bytes: &[u8]) -> bool {
    disk.bytes() == bytes
}

/// Whether the store has its disk, which holds these bytes.
pub(crate) fn has_disk(store: MemoryStore, bytes: &[u8]) -> bool {
    match store.disk() {
        Some(disk) => holds(&disk, bytes),
        None => false,
    }
}
