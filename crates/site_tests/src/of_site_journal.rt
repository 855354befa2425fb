//! Journals that are opened over a machine that counts, and the crashes that are tried.

ghost use Rattle.std.specs.Prelude.{◌≡◌, ◌+◌, ◌%◌, [], ◌∷◌, ℕ, false};

use crate::disks::{crashed, disk_of, holds};
use disk_store::Disk;
use memory_disks::MemoryDisk;
use site_journal::{OpenEnd, open_on};
use std::alloc::Global;
use std::process::Abort;
use tardis_base::{Machine, NoMemory, ReplyBuf};

/// Replies by how many requests came before, and finds no memory for an empty one.
#[derive(Drop)]
struct Counter {
    acts: u64,
}

impl Machine for Counter {
    ghost Plain = { ℕ };

    ghost plain = { record { step = λ s e. s + 1; reply = λ s e. (s % 256) ∷ []; is_sure = λ e. false } };

    ghost stands = { λ m s. m.acts ≡ s };

    ghost opening = { λ m. 0 };

    fn act(&mut self, actor: u16, request: &[u8], out: &mut ReplyBuf) -> Result<(), NoMemory> {
        out.clear();
        let _ = actor;
        if request.is_empty() || self.acts == u64::MAX {
            return Err(NoMemory);
        }
        out.push_byte((self.acts % 256) as u8);
        self.acts += 1;
        Ok(())
    }
}

/// How opening a journal ended: with so many entries, or with a fault.
#[derive(Clone, Copy, PartialEq, Eq)]
pub(crate) enum Opening {
    Entries(u64),
    Fault,
    NoMemory,
}

/// Opens the journal on a disk, and closes it.
pub(crate) fn open<K: Disk>(alloc: Global, disk: K) -> (Opening, K) {
    match open_on(alloc, Counter { acts: 0 }, disk, 1_000) {
        Ok((journal, entries)) => {
            let (machine, disk) = journal.close();
            let opening = if machine.acts == entries {
                Opening::Entries(entries)
            } else {
                Opening::Fault
            };
            (opening, disk)
        }
        Err(OpenEnd::DiskFault(disk)) => (Opening::Fault, disk),
        Err(OpenEnd::NoMemory(disk)) => (Opening::NoMemory, disk),
    }
}

/// Opens the journal that these bytes are.
fn open_bytes(rt: &impl Abort, alloc: Global, bytes: &[u8]) -> (Opening, MemoryDisk) {
    open(alloc, disk_of(rt, alloc, bytes, &[]))
}

/// Whether the journal that these bytes are has so many entries, and becomes this one.
fn opens_as(rt: &impl Abort, alloc: Global, before: &[u8], entries: u64, after: &[u8]) -> bool {
    let (opening, disk) = open_bytes(rt, alloc, before);
    let is_after = holds(&disk, after);
    drop(disk);
    opening == Opening::Entries(entries) && is_after
}

/// A journal of one entry: actor 1 opens a session.
const ONE: &[u8] = b"\x01\0\0\0\x04\0\x01\x01\0\0";

#[test]
fn what_stands_behind_the_entries_becomes_a_closed_gate(rt: HostRuntime) {
    let rows: [(&[u8], u64, &[u8]); 5] = [
        (b"", 0, b"\0"),
        (ONE, 1, ONE),
        (b"\x01\0\0\0\x04\0\x01\x01\0\x07", 1, ONE),
        (b"\x01\0\0\0\x04\0\x01\x01\0", 0, b"\0"),
        (b"\x01\0\0\0\x04\0\x01\x01\0\x07\x05", 1, ONE),
    ];
    for (before, entries, after) in rows {
        assert!(rt; opens_as(&rt, rt.alloc(), before, entries, after));
    }
}

/// Choices of crashes. The small ones go through what may become of the first call that isn't synced, the large ones tear
/// the later calls too.
pub(crate) const CRASHES: [u64; 20] = [
    0,
    1,
    2,
    3,
    4,
    5,
    6,
    7,
    8,
    9,
    10,
    11,
    12,
    13,
    243,
    6_561,
    531_441,
    3_486_784_401,
    205_891_132_094_649,
    12_157_665_459_056_928_801,
];

/// A journal of one entry, and what a crash left of another behind it.
const TORN: &[u8] = b"\x01\0\0\0\x04\0\x01\x01\0\x07\x05";

/// Opens the torn journal over a disk whose listed call fails.
fn open_torn(rt: &impl Abort, alloc: Global, failing: u64) -> (Opening, MemoryDisk) {
    open(alloc, disk_of(rt, alloc, TORN, &[failing]))
}

/// Whether a crash by this choice, once it was opened so, leaves the entry.
fn leaves_one(rt: &impl Abort, alloc: Global, failing: u64, choice: u64) -> bool {
    let (_, disk) = open_torn(rt, alloc, failing);
    let (opening, disk) = open(alloc, crashed(rt, disk, choice));
    let is_one = holds(&disk, ONE);
    drop(disk);
    opening == Opening::Entries(1) && is_one
}

/// Whether many crashes do.
fn crashes_leave_one(rt: &impl Abort, alloc: Global, failing: u64) -> bool {
    for choice in CRASHES {
        if !leaves_one(rt, alloc, failing, choice) {
            return false;
        }
    }
    true
}

/// Whether it is opened, and its disk then holds the entry and no more. Else the disk had a fault.
fn opens_as_one(rt: &impl Abort, alloc: Global, failing: u64) -> bool {
    let (opening, disk) = open_torn(rt, alloc, failing);
    let is_one = holds(&disk, ONE);
    drop(disk);
    assert!(rt; opening == Opening::Fault || is_one);
    opening == Opening::Entries(1)
}

/// Has each call of the disk fail in turn, until none fails.
#[test]
fn a_crash_in_opening_leaves_the_entry_whichever_call_failed(rt: HostRuntime) {
    for failing in 1..100u64 {
        assert!(rt; crashes_leave_one(&rt, rt.alloc(), failing));
        if opens_as_one(&rt, rt.alloc(), failing) {
            return;
        }
    }
    panic!(rt; "a call fails each time")
}
