//! Worked rows of links, each served by a fresh site: how a session ends, and what is closed with it.

ghost use Rattle.std.specs.Prelude.{◌≡◌};
ghost use Rattle.dag_lock.specs.Named.{lock_id};
ghost use Rattle.dag_lock.specs.Steps.{Keeps};

use crate::locks::{entries, locked};
use crate::sites::{LIMITS, an_input, an_output, keys};
use dag_lock::{DagLock, Pass};
use memory_io::MemoryLink;
use session_core::SiteCore;
use session_serve::{SessionEnd, serve_session};
use std::alloc::Global;
use std::process::Abort;
use std::random::RandomSource;
use std::sync::Wait;
use tardis_base::Limits;

/// The most bytes of the trail, what a link sends, what it is given, the word of the session's end, and the trail.
type Row = (
    u64,
    &'static [u8],
    &'static [u8],
    &'static str,
    &'static [u8],
);

/// A session opens and begins.
const BEGUN: &[u8] = b"\0\0\0\x02\x01\0\0\0\0\x02\x02\0";

/// It puts `1` to `x` besides.
const PUT: &[u8] = b"\0\0\0\x02\x01\0\0\0\0\x02\x02\0\0\0\0\x06\x04\x01x\0\x011";

/// It begins, and then the link ends inside a frame.
const CUT: &[u8] = b"\0\0\0\x02\x01\0\0\0\0\x02\x02\0\0\0";

const ROWS: [Row; 3] = [
    // opened 0.0, refused trailfull 8; there is no room for the Close either
    (
        10,
        BEGUN,
        b"\0\0\0\x07\x01\0\0\0\0\0\0\0\0\0\x0a\x15\x1a\0\0\0\0\0\0\0\x08",
        "ended",
        b"\0\0\0\x04\0\x01\x01\0",
    ),
    // opened 0.0, begun 0.0, done; the transaction is open, and the session is closed
    (
        1_000,
        PUT,
        b"\0\0\0\x07\x01\0\0\0\0\0\0\0\0\0\x07\x02\0\0\0\0\0\0\0\0\0\x01\x07",
        "ended",
        b"\0\0\0\x04\0\x01\x01\0\0\0\0\x04\0\x01\x02\0\0\0\0\x08\0\x01\x04\x01x\0\x011\0\0\0\x03\0\x01\x15",
    ),
    // opened 0.0, begun 0.0; the session is closed where the link was cut
    (
        1_000,
        CUT,
        b"\0\0\0\x07\x01\0\0\0\0\0\0\0\0\0\x07\x02\0\0\0\0\0\0",
        "cut",
        b"\0\0\0\x04\0\x01\x01\0\0\0\0\x04\0\x01\x02\0\0\0\0\x03\0\x01\x15",
    ),
];

/// The word of an end.
fn word_of(end: SessionEnd) -> &'static str {
    match end {
        SessionEnd::Ended => "ended",
        SessionEnd::Cut => "cut",
        SessionEnd::LongFrame { len: _ } => "long frame",
        SessionEnd::ReadFault => "read fault",
        SessionEnd::WriteFault => "write fault",
        SessionEnd::Spent => "spent",
        SessionEnd::NoMemory => "no memory",
    }
}

/// A link that sends these bytes.
fn link_of(rt: &impl Abort, alloc: Global, sent: &[u8]) -> MemoryLink {
    let source = an_input(rt, alloc, sent, 5, &[]);
    let sink = an_output(rt, alloc, 200, 200);
    MemoryLink::new(source, sink)
}

/// Serves the link as session 1.
fn serve<R: Wait>(
    rt: &R,
    alloc: Global,
    lock: &DagLock<SiteCore>,
    pass: Pass,
    link: &mut MemoryLink,
) -> (Pass, SessionEnd)
    requires { pass.lock ≡ lock_id lock.now }
    ensures { Keeps pass result.0 }
{
    serve_session(alloc, rt, lock, pass, 1, link)
}

/// How the session of the link ended at a fresh site with these limits, and the trail.
fn served<R: RandomSource + Abort + Wait>(
    rt: &R,
    alloc: Global,
    limits: Limits,
    link: &mut MemoryLink,
) -> (SessionEnd, Vec<u8>) {
    assert!(rt; limits.valid());
    assert!(rt; 1 <= limits.sites);
    let (lock, pass) = locked(rt, alloc, keys(rt), limits);
    let (pass, end) = serve(rt, alloc, &lock, pass, link);
    (end, entries(rt, alloc, lock, pass))
}

/// Whether the link of the row is served so.
fn is_so<R: RandomSource + Abort + Wait>(rt: &R, alloc: Global, row: &Row) -> bool {
    let (max_trail, sent, given, word, trail) = *row;
    let limits = Limits {
        max_trail,
        ..LIMITS
    };
    let mut link = link_of(rt, alloc, sent);
    let (end, left) = served(rt, alloc, limits, &mut link);
    word_of(end) == word && link.sink().bytes() == given && left.as_slice() == trail
}

#[test]
fn a_session_is_closed_with_its_link(rt: HostRuntime) {
    for (place, row) in ROWS.iter().enumerate() {
        assert!(rt; is_so(&rt, rt.alloc(), row), "row {place}");
    }
}
