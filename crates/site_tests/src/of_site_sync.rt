//! Worked rows of exchanges of a fresh site 1 of 2 with a peer.

ghost use Rattle.std.specs.Prelude.{◌≡◌};
ghost use Rattle.dag_lock.specs.Named.{lock_id, start_of};
ghost use Rattle.dag_lock.specs.Steps.{Keeps};
ghost use Rattle.plain_site.specs.Site.{opening};
ghost use Rattle.plain_site.specs.Step.{site_machine};
ghost use Rattle.session_core.specs.Machine.{opened_with};
ghost use Rattle.site_sync.specs.Asking.{TellsCounts};

use crate::locks::{entries, locked};
use crate::of_exchange::TWO_SITES;
use crate::sites::{an_input, keys};
use dag_lock::{DagLock, Pass};
use memory_io::{MemoryDial, MemoryLink, MemorySink};
use session_core::SiteCore;
use site_commands::sites_tell_counts;
use site_sync::{SyncEnd, sync_round};
use std::alloc::Global;
use std::process::Abort;
use std::random::RandomSource;
use std::sync::Wait;
use tardis_base::Limits;

/// A batch of state 2.1, which puts `1` to `a`.
const BATCH: &[u8] = b"\0\0\0\x18\x10\0\x01\0\x02\0\0\0\x01\x01\0\0\0\0\0\0\x01\x01a\x01\0\x011\0";

/// A batch of ten records without writes: 2.2 below 2.1 three times, which comes early; 2.1, which is applied; 2.1 twice, which
/// is known; and 3.1 four times, which is refused, since there is no site 3.
const MIXED: &[u8] = b"\0\0\0\x90\x10\0\x0a\
\0\x02\0\0\0\x02\x01\0\x02\0\0\0\x01\0\
\0\x02\0\0\0\x02\x01\0\x02\0\0\0\x01\0\
\0\x02\0\0\0\x02\x01\0\x02\0\0\0\x01\0\
\0\x02\0\0\0\x01\x01\0\0\0\0\0\0\0\
\0\x02\0\0\0\x01\x01\0\0\0\0\0\0\0\
\0\x02\0\0\0\x01\x01\0\0\0\0\0\0\0\
\0\x03\0\0\0\x01\x01\0\0\0\0\0\0\0\
\0\x03\0\0\0\x01\x01\0\0\0\0\0\0\0\
\0\x03\0\0\0\x01\x01\0\0\0\0\0\0\0\
\0\x03\0\0\0\x01\x01\0\0\0\0\0\0\0\
\0";

/// The word of an end, and the numbers that it tells.
fn told(end: SyncEnd) -> (&'static str, [u64; 4]) {
    match end {
        SyncEnd::Done {
            applied,
            known,
            early,
            refused,
        } => (
            "done",
            [
                u64::from(applied),
                u64::from(known),
                u64::from(early),
                u64::from(refused),
            ],
        ),
        SyncEnd::DialFault => ("dial fault", [0; 4]),
        SyncEnd::ReadFault => ("read fault", [0; 4]),
        SyncEnd::WriteFault => ("write fault", [0; 4]),
        SyncEnd::Cut => ("cut", [0; 4]),
        SyncEnd::LongFrame { len } => ("long frame", [u64::from(len), 0, 0, 0]),
        SyncEnd::BadReply => ("bad reply", [0; 4]),
        SyncEnd::TrailFull { bytes } => ("trail full", [bytes, 0, 0, 0]),
        SyncEnd::NoMemory => ("no memory", [0; 4]),
    }
}

/// A dial to a peer that sends these bytes. A take or a give of its link moves at most 5, and these fail.
fn dial_of(
    rt: &impl Abort,
    alloc: Global,
    sent: &[u8],
    takes: &[u64],
    gives: &[u64],
) -> MemoryDial<MemoryLink> {
    let source = an_input(rt, alloc, sent, 5, takes);
    let sink = MemorySink::new(alloc, 200, 5, gives).expect(rt, "room");
    let links = vec![in alloc; MemoryLink::new(source, sink)].expect(rt, "room");
    MemoryDial::new(alloc, links, &[]).expect(rt, "room")
}

/// Makes an exchange.
fn exchange<R: Wait>(
    rt: &R,
    alloc: Global,
    lock: &DagLock<SiteCore>,
    pass: Pass,
    dial: &mut MemoryDial<MemoryLink>,
) -> (Pass, SyncEnd)
    requires lock { pass.lock ≡ lock_id lock.now }
    requires counts { TellsCounts site_machine (opened_with (start_of lock.now).machine) }
    ensures { Keeps pass result.0 }
{
    sync_round(alloc, rt, lock, pass, dial, "y:1")
}

/// How an exchange of a fresh site with these limits ends.
fn exchanged<R: RandomSource + Abort + Wait>(
    rt: &R,
    alloc: Global,
    limits: Limits,
    dial: &mut MemoryDial<MemoryLink>,
) -> SyncEnd {
    sites_tell_counts();
    assert!(rt; limits.valid());
    assert!(rt; 1 <= limits.sites);
    let (lock, pass) = locked(rt, alloc, keys(rt), limits);
    let (pass, end) = exchange(rt, alloc, &lock, pass, dial);
    drop(entries(rt, alloc, lock, pass));
    end
}

/// Whether an exchange with a peer that sends these bytes ends so, where these takes and gives fail.
fn ends_so<R: RandomSource + Abort + Wait>(
    rt: &R,
    alloc: Global,
    max_trail: u64,
    sent: &[u8],
    takes: &[u64],
    gives: &[u64],
    word: &str,
    numbers: [u64; 4],
) -> bool {
    let limits = Limits {
        max_trail,
        ..TWO_SITES
    };
    let mut dial = dial_of(rt, alloc, sent, takes, gives);
    let end = exchanged(rt, alloc, limits, &mut dial);
    drop(dial);
    let (is, told) = told(end);
    is == word && told == numbers
}

/// The most bytes of the trail, what a peer sends, and the word and the numbers of the end.
type Row = (u64, &'static [u8], &'static str, [u64; 4]);

const ROWS: [Row; 7] = [
    (1_000, BATCH, "done", [1, 0, 0, 0]),
    (1_000, MIXED, "done", [1, 2, 3, 4]),
    (1_000, b"\0\0\0\x01\x07", "bad reply", [0; 4]),
    (1_000, b"\0\0", "cut", [0; 4]),
    (1_000, b"", "cut", [0; 4]),
    (1_000, b"\0\x10\0\x01", "long frame", [1_048_577, 0, 0, 0]),
    (10, BATCH, "trail full", [7, 0, 0, 0]),
];

#[test]
fn an_exchange_ends_as_told(rt: HostRuntime) {
    for (place, row) in ROWS.iter().enumerate() {
        let (most, sent, word, numbers) = *row;
        assert!(rt;
            ends_so(&rt, rt.alloc(), most, sent, &[], &[], word, numbers),
            "row {place}"
        );
    }
}

/// Whether an exchange ends so where these takes and gives fail.
fn fails_so<R: RandomSource + Abort + Wait>(
    rt: &R,
    alloc: Global,
    takes: &[u64],
    gives: &[u64],
    word: &str,
) -> bool {
    ends_so(rt, alloc, 1_000, BATCH, takes, gives, word, [0; 4])
}

/// The request for the peer's news takes 3 gives, and its batch 6 takes.
#[test]
fn an_exchange_ends_with_the_call_that_fails(rt: HostRuntime) {
    for call in 1..=3u64 {
        assert!(rt; fails_so(&rt, rt.alloc(), &[], &[call], "write fault"));
    }
    for call in 1..=6u64 {
        assert!(rt; fails_so(&rt, rt.alloc(), &[call], &[], "read fault"));
    }
    assert!(rt;
        ends_so(
            &rt,
            rt.alloc(),
            1_000,
            BATCH,
            &[7],
            &[4],
            "done",
            [1, 0, 0, 0]
        )
    );
}
