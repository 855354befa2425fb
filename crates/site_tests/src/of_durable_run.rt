//! Durable runs of a site, over disks that fail and crash.

ghost use Rattle.std.specs.Prelude.{◌≤◌, IsTrue};
ghost use Rattle.tardis_base.specs.Valid.{are_limits};

use crate::disks::{PATH, crashed, disk_of, has_disk, holds, store_of};
use crate::journal_rows::{journal_of, replies_from, replies_to, requests_from};
use crate::of_site_journal::{CRASHES, Opening, open};
use crate::sites::{LIMITS, an_input, an_output, keys};
use disk_store::{Disk, Store};
use durable_run::{durable, run_site_on};
use memory_disks::MemoryDisk;
use memory_io::{MemorySink, MemorySource};
use session_core::SiteCore;
use std::alloc::Global;
use std::process::Abort;
use std::random::RandomSource;
use tardis_base::Limits;
use tardis_io::{Sink, Source, Status};

/// How a durable site with these limits ends, in this store.
fn ran<R: RandomSource + Abort, S: Store, I: Source, O: Sink>(
    rt: &R,
    alloc: Global,
    limits: Limits,
    store: &mut S,
    source: &mut I,
    sink: &mut O,
) -> Status
    requires limits { IsTrue (are_limits limits) }
    requires sites { 1 ≤ limits.sites }
{
    durable::<SiteCore, _, _, _>(alloc, keys(rt), limits, 1, PATH, store, source, sink)
}

/// Whether a durable site with these limits, in a store of an empty disk, writes this output, and puts a disk back that
/// holds these bytes.
fn is_kept<R: RandomSource + Abort>(
    rt: &R,
    alloc: Global,
    limits: Limits,
    input: &[u8],
    output: &[u8],
    bytes: &[u8],
) -> bool
    requires limits { IsTrue (are_limits limits) }
    requires sites { 1 ≤ limits.sites }
{
    let mut store = store_of(rt, alloc, b"", &[]);
    let mut source = an_input(rt, alloc, input, 1_000, &[]);
    let mut sink = an_output(rt, alloc, 1_000, 1_000);
    let status = ran(rt, alloc, limits, &mut store, &mut source, &mut sink);
    let is_written = sink.bytes() == output;
    drop(sink);
    drop(source);
    let is_put_back = has_disk(store, bytes);
    status == Status::Ok && is_written && is_put_back
}

/// The journal of a site that actor 1 asked to open a session.
const OPENED: &[u8] = b"\x01\0\0\0\x04\0\x01\x01\0\0";

#[test]
fn a_request_is_kept_unless_the_journal_is_full(rt: HostRuntime) {
    let alloc = rt.alloc();
    let open = b"\0\0\0\x04\0\x01\x01\0";
    let opened = b"\0\0\0\x07\x01\0\0\0\0\0\0";
    assert!(rt; is_kept(&rt, alloc, LIMITS, open, opened, OPENED));
    let ten_bytes = Limits {
        max_trail: 10,
        ..LIMITS
    };
    let begin = b"\0\0\0\x04\0\x01\x01\0\0\0\0\x04\0\x01\x02\0";
    let full = b"\0\0\0\x07\x01\0\0\0\0\0\0\0\0\0\x0a\x15\x1a\0\0\0\0\0\0\0\x09";
    assert!(rt; is_kept(&rt, alloc, ten_bytes, begin, full, OPENED));
}

/// How a run ended, what it wrote, and its disk.
#[derive(Drop)]
struct Ended {
    status: Status,
    output: MemorySink,
    disk: MemoryDisk,
}

/// Runs a site with these limits over a disk.
fn run_over<R: RandomSource + Abort, K: Disk, I: Source, O: Sink>(
    rt: &R,
    alloc: Global,
    limits: Limits,
    source: &mut I,
    output: &mut O,
    disk: K,
) -> (Status, K)
    requires limits { IsTrue (are_limits limits) }
    requires sites { 1 ≤ limits.sites }
{
    run_site_on::<SiteCore, _, _, _>(alloc, keys(rt), limits, 1, disk, source, output)
}

/// Runs the site over a disk and the requests from this one on, in pieces of so many bytes.
fn run_from<R: RandomSource + Abort>(
    rt: &R,
    alloc: Global,
    first: usize,
    piece: u32,
    disk: MemoryDisk,
) -> Ended {
    let input = requests_from(rt, alloc, first);
    let mut source = an_input(rt, alloc, input.as_slice(), piece, &[]);
    drop(input);
    let mut output = an_output(rt, alloc, 1_000, 1_000);
    let (status, disk) = run_over(rt, alloc, LIMITS, &mut source, &mut output, disk);
    drop(source);
    Ended {
        status,
        output,
        disk,
    }
}

/// Whether these are the replies to so many of the requests.
fn are_replies_to(rt: &impl Abort, alloc: Global, count: usize, output: &[u8]) -> bool {
    let replies = replies_to(rt, alloc, count);
    let are_these = replies.as_slice() == output;
    drop(replies);
    are_these
}

/// To how many of the requests, from the first on, these are the replies.
fn count_of_replies(rt: &impl Abort, alloc: Global, output: &[u8]) -> usize {
    for count in 0..=6usize {
        if are_replies_to(rt, alloc, count, output) {
            return count;
        }
    }
    panic!(rt; "these are no replies")
}

/// Whether the disk holds the entries of so many requests.
fn has_entries(rt: &impl Abort, alloc: Global, disk: &MemoryDisk, count: usize) -> bool {
    let journal = journal_of(rt, alloc, count);
    let has_these = holds(disk, journal.as_slice());
    drop(journal);
    has_these
}

/// Whether these are the replies to the requests from this one on.
fn are_replies_from(rt: &impl Abort, alloc: Global, first: usize, output: &[u8]) -> bool {
    let replies = replies_from(rt, alloc, first);
    let are_these = replies.as_slice() == output;
    drop(replies);
    are_these
}

/// Whether the run answered the requests from this one on, and its disk holds the entries of all.
fn has_answered(rt: &impl Abort, alloc: Global, ended: &Ended, first: usize) -> bool {
    ended.status == Status::Ok
        && are_replies_from(rt, alloc, first, ended.output.bytes())
        && has_entries(rt, alloc, &ended.disk, 6)
}

/// Whether the site goes on over a disk with the entries of so many requests, and answers the others.
fn goes_on<R: RandomSource + Abort>(
    rt: &R,
    alloc: Global,
    disk: MemoryDisk,
    entries: usize,
) -> bool {
    let has_these = has_entries(rt, alloc, &disk, entries);
    let ended = run_from(rt, alloc, entries, 1_000, disk);
    let has_answered = has_answered(rt, alloc, &ended, entries);
    drop(ended);
    has_these && has_answered
}

/// A run over an empty disk whose listed call fails, in pieces of so many bytes, of which each has so many requests at most.
#[derive(Clone, Copy)]
struct Plan {
    failing: u64,
    piece: u32,
    group: usize,
}

/// How such a run ends.
fn run_planned<R: RandomSource + Abort>(rt: &R, alloc: Global, plan: Plan) -> Ended {
    let disk = disk_of(rt, alloc, b"", &[plan.failing]);
    run_from(rt, alloc, 0, plan.piece, disk)
}

/// How many replies the run wrote, and what a crash by this choice leaves of its disk when it has ended.
fn crash_run<R: RandomSource + Abort>(
    rt: &R,
    alloc: Global,
    plan: Plan,
    choice: u64,
) -> (usize, MemoryDisk) {
    let Ended {
        status: _,
        output,
        disk,
    } = run_planned(rt, alloc, plan);
    let written = count_of_replies(rt, alloc, output.bytes());
    drop(output);
    (written, crashed(rt, disk, choice))
}

/// How many entries a journal has that was opened.
fn entries_of(rt: &impl Abort, opening: Opening) -> usize {
    match opening {
        Opening::Entries(entries) => entries as usize,
        _ => panic!(rt; "the journal is not opened"),
    }
}

/// Whether a crash by this choice, when the run has ended, leaves the entries of the replies that were written, or those of
/// the next group too, and the site goes on from them.
fn crash_leaves_whole_groups<R: RandomSource + Abort>(
    rt: &R,
    alloc: Global,
    plan: Plan,
    choice: u64,
) -> bool {
    let (written, disk) = crash_run(rt, alloc, plan, choice);
    let (opening, disk) = open(alloc, disk);
    let entries = entries_of(rt, opening);
    let are_whole = entries == written || entries == written.saturating_add(plan.group);
    let goes_on = goes_on(rt, alloc, disk, entries);
    are_whole && goes_on
}

/// Whether many crashes do.
fn crashes_leave_whole_groups<R: RandomSource + Abort>(rt: &R, alloc: Global, plan: Plan) -> bool {
    for choice in CRASHES {
        if !crash_leaves_whole_groups(rt, alloc, plan, choice) {
            return false;
        }
    }
    true
}

/// Whether the run ends well. Else it ends with a disk fault.
fn ends_well<R: RandomSource + Abort>(rt: &R, alloc: Global, plan: Plan) -> bool {
    let ended = run_planned(rt, alloc, plan);
    let status = ended.status;
    drop(ended);
    assert!(rt; status == Status::Ok || status == Status::DiskFault);
    status == Status::Ok
}

/// Has each call fail in turn, until none fails, and answers how many calls there are.
fn count_of_calls<R: RandomSource + Abort>(rt: &R, alloc: Global, piece: u32, group: usize) -> u64 {
    for before in 0..100u64 {
        let plan = Plan {
            failing: before + 1,
            piece,
            group,
        };
        assert!(rt; crashes_leave_whole_groups(rt, alloc, plan));
        if ends_well(rt, alloc, plan) {
            return before;
        }
    }
    panic!(rt; "a call fails each time")
}

/// Opening takes 4 calls of the disk, and each group 4, of which 2 are syncs.
#[test]
fn a_crash_leaves_whole_groups_whichever_call_failed(rt: HostRuntime) {
    assert_eq!(rt; count_of_calls(&rt, rt.alloc(), 1, 1), 28);
    assert_eq!(rt; count_of_calls(&rt, rt.alloc(), 1_000, 6), 8);
}
