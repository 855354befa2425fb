//! What a crash of a disk in memory leaves.

use disk_store::{BytewiseDisk, Disk};
use memory_disks::MemoryDisk;
use std::alloc::Global;
use std::process::Abort;

/// A disk of three synced bytes, over which a write of three from the third on is pending.
fn pending(rt: &impl Abort, alloc: Global) -> MemoryDisk {
    let mut disk = MemoryDisk::new(alloc, b"abc", 100, &[]).expect(rt, "room");
    disk.write_at(2, b"xyz").expect(rt, "a write");
    disk
}

/// Whether a crash by this choice leaves these bytes of it.
fn leaves(rt: &impl Abort, alloc: Global, choice: u64, bytes: &[u8]) -> bool {
    let disk = pending(rt, alloc).crash(choice).expect(rt, "room");
    let is_left = disk.bytes() == bytes;
    drop(disk);
    is_left
}

#[test]
fn a_crash_leaves_fronts_and_torn_bytes(rt: HostRuntime) {
    let rows: [(u64, &[u8]); 9] = [
        (0, b"abxyz"),
        (1, b"abc"),
        (2, b"abxy"),
        (3, b"abx"),
        (4, b"abc"),
        (5, b"abxyz"),
        (6, b"abxy\0"),
        (7, b"abx\0\0"),
        (8, b"ab\0\0\0"),
    ];
    for (choice, bytes) in rows {
        assert!(rt; leaves(&rt, rt.alloc(), choice, bytes), "choice {choice}");
    }
}

/// A disk of three synced bytes, over which a bytewise write of three from the third on is pending, which may fail.
fn pending_bytewise(rt: &impl Abort, alloc: Global, failing: &[u64]) -> MemoryDisk {
    let mut disk = MemoryDisk::new(alloc, b"abc", 100, failing).expect(rt, "room");
    let written = disk.write_bytewise(2, b"xyz");
    assert!(rt; written.is_err() == (disk.bytes() == b"abc".as_slice()));
    disk
}

/// How many images have the old length, one more, or two more, and how many are neither a front of the write nor a back.
#[derive(Clone, Copy)]
struct Images {
    old: u32,
    longer: u32,
    whole: u32,
    mixed: u32,
}

impl Images {
    /// Counts one; whether each of its bytes is the old one or the new one.
    fn count(&mut self, image: &[u8]) -> bool {
        match image {
            [b'a', b'b', b'c' | b'x'] => self.old = self.old.saturating_add(1),
            [b'a', b'b', b'c' | b'x', 0 | b'y'] => self.longer = self.longer.saturating_add(1),
            [b'a', b'b', b'x', 0, b'z'] => self.mixed = self.mixed.saturating_add(1),
            [b'a', b'b', b'c' | b'x', 0 | b'y', 0 | b'z'] => {
                self.whole = self.whole.saturating_add(1);
            }
            _ => return false,
        }
        true
    }
}

/// Whether crashes of a bytewise write leave only old and new bytes, each length, and mixes.
fn is_bytewise(rt: &impl Abort, alloc: Global, failing: &[u64]) -> bool {
    let mut images = Images {
        old: 0,
        longer: 0,
        whole: 0,
        mixed: 0,
    };
    for choice in 0..41 {
        let disk = pending_bytewise(rt, alloc, failing);
        let left = disk.crash(choice).expect(rt, "room");
        let is_blend = images.count(left.bytes());
        drop(left);
        if !is_blend {
            return false;
        }
    }
    images.old > 0 && images.longer > 0 && images.whole > 0 && images.mixed > 0
}

#[test]
fn a_crash_mixes_the_bytes_of_a_bytewise_write(rt: HostRuntime) {
    assert!(rt; is_bytewise(&rt, rt.alloc(), &[]));
    assert!(rt; is_bytewise(&rt, rt.alloc(), &[1]));
}

/// A disk of three synced bytes, of which a write is pending; then a replacement was tried, with this answer, and a write
/// follows.
fn replaced(
    rt: &impl Abort,
    alloc: Global,
    room: u32,
    failing: &[u64],
) -> (MemoryDisk, Option<bool>) {
    let mut disk = MemoryDisk::new(alloc, b"abc", room, failing).expect(rt, "room");
    disk.write_at(2, b"xyz").expect(rt, "a write");
    let answer = disk.replace(b"newest").ok();
    disk.write_at(3, b"er").expect(rt, "a write");
    (disk, answer)
}

#[test]
fn a_crash_leaves_the_old_bytes_or_the_new_ones(rt: HostRuntime) {
    let rows: [(u32, &[u64], Option<bool>, u64, &[u8]); 11] = [
        // done: only what follows may be lost
        (100, &[], Some(true), 0, b"newert"),
        (100, &[], Some(true), 1, b"newest"),
        (100, &[], Some(true), 2, b"newest"),
        (100, &[], Some(true), 5, b"newe\0t"),
        // no room for it: nothing happened
        (8, &[], Some(false), 0, b"abxer"),
        (8, &[], Some(false), 1, b"abc"),
        (8, &[], Some(false), 4, b"abcer"),
        // failed: the old bytes, torn as before it, or the new ones
        (100, &[2], None, 0, b"abxer"),
        (100, &[2], None, 1, b"abc"),
        (100, &[2], None, 4, b"abcer"),
        (100, &[2], None, 4_100, b"newert"),
    ];
    for (room, failing, answer, choice, bytes) in rows {
        let (disk, told) = replaced(&rt, rt.alloc(), room, failing);
        let left = disk.crash(choice).expect(&rt, "room");
        assert!(rt;
            told == answer && left.bytes() == bytes,
            "choice {choice} of room {room}"
        );
        drop(left);
    }
}
