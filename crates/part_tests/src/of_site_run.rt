//! Runs of a site over a source and a sink in memory, which tell no order.

use crate::counters::Counter;
use crate::streams::{sink_of, source_of};
use site_run::run_site;
use std::alloc::Global;
use std::process::Abort;
use tardis_io::{Sink, Source, Status};

/// How many bytes of both frames a take moves at most, and which takes and gives fail; how the run ends, how often it has
/// acted then, and what it gave.
#[derive(Clone, Copy)]
struct Row {
    take: u32,
    failing: (&'static [u64], &'static [u64]),
    status: Status,
    acts: u64,
    given: &'static [u8],
}

const FRAMES: &[u8] = b"\0\0\0\x04\0\x01ab\0\0\0\x04\0\x02cd";

const FIRST_REPLY: &[u8] = b"\0\0\0\x01\0";

const REPLIES: &[u8] = b"\0\0\0\x01\0\0\0\0\x01\x01";

/// How the machine ends over these streams.
fn ended<I: Source, O: Sink>(
    alloc: Global,
    machine: &mut Counter,
    source: &mut I,
    sink: &mut O,
) -> Status {
    run_site(alloc, machine, source, sink)
}

/// Whether a run comes to what the row says.
fn comes_to(rt: &impl Abort, alloc: Global, row: &Row) -> bool {
    let (takes, gives) = row.failing;
    let mut machine = Counter { acts: 0 };
    let mut source = source_of(rt, alloc, FRAMES, row.take, takes);
    let mut sink = sink_of(rt, alloc, 1_000, 1_000, gives);
    let status = ended(alloc, &mut machine, &mut source, &mut sink);
    drop(source);
    let is_given = sink.bytes() == row.given;
    drop(sink);
    status == row.status && machine.acts == row.acts && is_given
}

#[test]
fn the_replies_to_one_piece_are_given_in_one_write(rt: HostRuntime) {
    let row = Row {
        take: 16,
        failing: (&[], &[2]),
        status: Status::Ok,
        acts: 2,
        given: REPLIES,
    };
    assert!(rt; comes_to(&rt, rt.alloc(), &row));
}

#[test]
fn a_reply_is_given_before_the_next_take(rt: HostRuntime) {
    let rows = [
        Row {
            take: 8,
            failing: (&[2], &[]),
            status: Status::ReadFault,
            acts: 1,
            given: FIRST_REPLY,
        },
        Row {
            take: 8,
            failing: (&[], &[2]),
            status: Status::WriteFault,
            acts: 2,
            given: FIRST_REPLY,
        },
    ];
    for row in rows {
        assert!(rt; comes_to(&rt, rt.alloc(), &row));
    }
}

#[test]
fn nothing_is_acted_on_after_a_write_failed(rt: HostRuntime) {
    for (take, acts) in [(8, 1), (16, 2)] {
        let row = Row {
            take,
            failing: (&[], &[1]),
            status: Status::WriteFault,
            acts,
            given: b"",
        };
        assert!(rt; comes_to(&rt, rt.alloc(), &row));
    }
}
