//! Two clients at once.

use crate::devices::{gate_of, link};
use crate::programs::{Ran, run_line};
use crate::servers::serve_clients;
use crate::trails::{Part, part_of};
use memory_io::{MemoryGate, MemoryLink};
use std::alloc::Global;
use std::process::Abort;
use std::random::RandomSource;
use std::sync::Wait;
use std::thread::Threads;
use tardis_io::Status;

/// A client that opens, begins, puts `1` to `x`, commits, begins, and gets `x`.
const WRITER: &[u8] = b"\0\0\0\x02\x01\0\
\0\0\0\x02\x02\0\
\0\0\0\x06\x04\x01x\0\x011\
\0\0\0\x04\x06\x01\0\0\
\0\0\0\x02\x02\0\
\0\0\0\x03\x03\x01x";

/// Its replies: opened under the root, begun there, done, committed as 1.1 from the root, begun there, the value of 1.1.
const WRITER_REPLIES: &[u8] = b"\0\0\0\x07\x01\0\0\0\0\0\0\
\0\0\0\x07\x02\0\0\0\0\0\0\
\0\0\0\x01\x07\
\0\0\0\x0e\x08\0\x01\0\0\0\x01\x01\0\0\0\0\0\0\
\0\0\0\x07\x02\0\x01\0\0\0\x01\
\0\0\0\x0a\x04\0\x01\0\0\0\x01\0\x011";

/// Its entries, and the Close behind them.
const WRITER_ENTRIES: &[u8] = b"\0\0\0\x04\0\x01\x01\0\
\0\0\0\x04\0\x01\x02\0\
\0\0\0\x08\0\x01\x04\x01x\0\x011\
\0\0\0\x06\0\x01\x06\x01\0\0\
\0\0\0\x04\0\x01\x02\0\
\0\0\0\x05\0\x01\x03\x01x\
\0\0\0\x03\0\x01\x15";

/// A client that opens, begins, and gets `x`.
const READER: &[u8] = b"\0\0\0\x02\x01\0\
\0\0\0\x02\x02\0\
\0\0\0\x03\x03\x01x";

/// Its replies where it begins at the root: `x` is absent.
const ABSENT: &[u8] = b"\0\0\0\x07\x01\0\0\0\0\0\0\
\0\0\0\x07\x02\0\0\0\0\0\0\
\0\0\0\x01\x06";

/// Its replies where it begins at 1.1.
const FOUND: &[u8] = b"\0\0\0\x07\x01\0\0\0\0\0\0\
\0\0\0\x07\x02\0\x01\0\0\0\x01\
\0\0\0\x0a\x04\0\x01\0\0\0\x01\0\x011";

/// Its entries, and the Close behind them.
const READER_ENTRIES: &[u8] = b"\0\0\0\x04\0\x02\x01\0\
\0\0\0\x04\0\x02\x02\0\
\0\0\0\x05\0\x02\x03\x01x\
\0\0\0\x03\0\x02\x15";

/// The reply to Close.
const CLOSED: &[u8] = b"\0\0\0\x01\x14";

const LINE: &str = "serve --listen x:1 --links 2";

/// Both clients.
fn clients(rt: &impl Abort, alloc: Global) -> Vec<MemoryLink> {
    let writer = link(rt, alloc, WRITER, 16);
    let reader = link(rt, alloc, READER, 16);
    vec![in alloc; writer, reader].expect(rt, "room")
}

/// What the link of a session was given.
fn given(gate: &MemoryGate<MemoryLink>, session: u16) -> &[u8] {
    for (number, link) in gate.back() {
        if *number == session {
            return link.sink().bytes();
        }
    }
    &[]
}

/// Whether the part has just these entries, and in the replies to them what its link was given, and then Closed.
fn is_whole(part: &Part, entries: &[u8], to_link: &[u8]) -> bool {
    let Some(front) = part.told.as_slice().strip_suffix(CLOSED) else {
        return false;
    };
    part.asked.as_slice() == entries && front == to_link
}

/// Whether the part of the actor in a trail and in the replies to it is so.
fn has(
    rt: &impl Abort,
    alloc: Global,
    trail: &[u8],
    replies: &[u8],
    actor: u8,
    entries: &[u8],
    to_link: &[u8],
) -> bool {
    let part = part_of(rt, alloc, trail, replies, actor);
    let is_right = is_whole(&part, entries, to_link);
    drop(part);
    is_right
}

/// Whether the replies to the trail are for both clients what their links were given.
fn are_given(
    rt: &impl Abort,
    alloc: Global,
    trail: &[u8],
    replies: &[u8],
    to_writer: &[u8],
    to_reader: &[u8],
) -> bool {
    has(rt, alloc, trail, replies, 1, WRITER_ENTRIES, to_writer)
        && has(rt, alloc, trail, replies, 2, READER_ENTRIES, to_reader)
}

/// Whether a run over the trail ends well, and gives both clients what their links were given.
fn is_told_again<R: RandomSource + Abort + Threads + Wait + Sync>(
    rt: &R,
    alloc: Global,
    trail: &[u8],
    to_writer: &[u8],
    to_reader: &[u8],
) -> bool {
    let again = run_line(rt, alloc, "run", trail);
    let is_right = again.status == Status::Ok
        && are_given(
            rt,
            alloc,
            trail,
            again.written.as_slice(),
            to_writer,
            to_reader,
        );
    drop(again);
    is_right
}

fn check_replies(rt: &impl Abort, gate: &MemoryGate<MemoryLink>) {
    let to_reader = given(gate, 2);
    assert!(rt; given(gate, 1) == WRITER_REPLIES);
    assert!(rt; to_reader == ABSENT || to_reader == FOUND);
}

fn check_trail<R: RandomSource + Abort + Threads + Wait + Sync>(
    rt: &R,
    alloc: Global,
    ran: &Ran,
    gate: &MemoryGate<MemoryLink>,
) {
    let trail = ran.written.as_slice();
    assert!(rt; ran.status == Status::Ok);
    // seven entries of the first client, and four of the second
    assert!(rt; trail.len() == 94);
    assert!(rt; is_told_again(rt, alloc, trail, given(gate, 1), given(gate, 2)));
}

#[test]
fn a_run_over_the_trail_gives_each_client_its_replies(rt: HostRuntime) {
    let mut gate = gate_of(&rt, rt.alloc(), clients(&rt, rt.alloc()));
    let ran = serve_clients(&rt, rt.alloc(), LINE, &mut gate);
    check_replies(&rt, &gate);
    check_trail(&rt, rt.alloc(), &ran, &gate);
    drop(ran);
    drop(gate);
}
