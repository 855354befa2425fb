//! A fresh site of two that fetches from a peer, in one round.

use crate::devices::{dial_of, link, nobody};
use crate::programs::{Ran, comes_to, run_line};
use crate::servers::serve;
use memory_io::{MemoryDial, MemoryLink};
use std::alloc::Global;
use std::process::Abort;
use std::random::RandomSource;
use std::sync::Wait;
use std::thread::Threads;
use tardis_io::Status;

/// A line of words, what the peer sends, the trail, and what a run over the trail replies.
type Row = (&'static str, &'static [u8], &'static [u8], &'static [u8]);

/// A batch of state 2.1, which puts `1` to `a`.
const BATCH: &[u8] = b"\0\0\0\x18\x10\0\x01\0\x02\0\0\0\x01\x01\0\0\0\0\0\0\x01\x01a\x01\0\x011\0";

/// Stat, and Deliver of the record.
const DELIVERED: &[u8] = b"\0\0\0\x03\0\0\x10\
\0\0\0\x18\0\0\x14\x01\0\x02\0\0\0\x01\x01\0\0\0\0\0\0\x01\x01a\x01\0\x011";

/// One state is known and kept, and is a leaf; no session is open, and of neither site there is more than the root. Then:
/// applied.
const APPLIED: &[u8] = b"\0\0\0\x30\x0e\0\0\0\0\0\0\0\x01\0\0\0\x01\0\0\0\x01\0\0\x02\
\0\0\0\0\0\0\0\0\0\0\0\0\0\0\0\0\0\0\0\0\0\0\0\0\0\0\0\0\
\0\0\0\x01\x11";

/// Stat, Deliver of the record, RaiseAuto, and Tidy 64.
const TIDIED: &[u8] = b"\0\0\0\x03\0\0\x10\
\0\0\0\x18\0\0\x14\x01\0\x02\0\0\0\x01\x01\0\0\0\0\0\0\x01\x01a\x01\0\x011\
\0\0\0\x03\0\0\x0e\
\0\0\0\x05\0\0\x0f\0\x40";

/// The same, then: raised to 2.1, for the first time; and none is collected, since site 2 hasn't promised anything.
const RAISED: &[u8] = b"\0\0\0\x30\x0e\0\0\0\0\0\0\0\x01\0\0\0\x01\0\0\0\x01\0\0\x02\
\0\0\0\0\0\0\0\0\0\0\0\0\0\0\0\0\0\0\0\0\0\0\0\0\0\0\0\0\
\0\0\0\x01\x11\
\0\0\0\x0b\x0c\0\x02\0\0\0\x01\0\0\0\x01\
\0\0\0\x05\x0d\0\0\0\0";

/// Stat alone.
const ASKED: &[u8] = b"\0\0\0\x03\0\0\x10";

/// The statistics alone.
const COUNTS: &[u8] = b"\0\0\0\x30\x0e\0\0\0\0\0\0\0\x01\0\0\0\x01\0\0\0\x01\0\0\x02\
\0\0\0\0\0\0\0\0\0\0\0\0\0\0\0\0\0\0\0\0\0\0\0\0\0\0\0\0";

/// The request for what is above no states of both sites, which each peer is given.
const PULL: &[u8] = b"\0\0\0\x0a\x13\x02\0\0\0\0\0\0\0\0";

/// A dial to a peer that sends these bytes.
fn peer(rt: &impl Abort, alloc: Global, sent: &[u8]) -> MemoryDial<MemoryLink> {
    let link = link(rt, alloc, sent, 16);
    dial_of(rt, alloc, vec![in alloc; link].expect(rt, "room"))
}

/// Serves nobody, and makes a round with the peer.
fn make_round<R: RandomSource + Abort + Threads + Wait + Sync>(
    rt: &R,
    alloc: Global,
    line: &str,
    dial: &mut MemoryDial<MemoryLink>,
) -> Ran {
    let mut gate = nobody(rt, alloc);
    let ran = serve(rt, alloc, line, &mut gate, dial);
    drop(gate);
    ran
}

/// How many links were put back finished, having been given the Pull.
fn pulled(dial: &MemoryDial<MemoryLink>) -> usize {
    let mut count = 0usize;
    for link in dial.back() {
        if link.is_finished() && link.sink().bytes() == PULL {
            count = count.saturating_add(1);
        }
    }
    count
}

/// Whether a round with a peer that sends these bytes ends well with this trail, and the peer was asked once.
fn leaves_trail<R: RandomSource + Abort + Threads + Wait + Sync>(
    rt: &R,
    alloc: Global,
    line: &str,
    sent: &[u8],
    trail: &[u8],
) -> bool {
    let mut dial = peer(rt, alloc, sent);
    let ran = make_round(rt, alloc, line, &mut dial);
    let asked = pulled(&dial);
    drop(dial);
    comes_to(ran, Status::Ok, trail) && asked == 1
}

/// Whether a round comes to what the row says.
fn is_so<R: RandomSource + Abort + Threads + Wait + Sync>(
    rt: &R,
    alloc: Global,
    row: &Row,
) -> bool {
    let (line, sent, trail, replies) = *row;
    leaves_trail(rt, alloc, line, sent, trail)
        && comes_to(
            run_line(rt, alloc, "run --sites 2", trail),
            Status::Ok,
            replies,
        )
}

const PLAIN: &str = "serve --listen x:1 --links 1 --sites 2 --peer y:1 --rounds 1";

const WITH_TIDY: &str = "serve --listen x:1 --links 1 --sites 2 --peer y:1 --rounds 1 --tidy";

const ROWS: [Row; 4] = [
    (PLAIN, BATCH, DELIVERED, APPLIED),
    (WITH_TIDY, BATCH, TIDIED, RAISED),
    // a reply that is no batch
    (PLAIN, b"\0\0\0\x01\x07", ASKED, COUNTS),
    // an end inside a frame
    (PLAIN, b"\0\0", ASKED, COUNTS),
];

#[test]
fn a_round_delivers_what_a_peer_gives(rt: HostRuntime) {
    for (place, row) in ROWS.iter().enumerate() {
        assert!(rt; is_so(&rt, rt.alloc(), row), "row {place}");
    }
}
