//! Two clients that wait for each other.

ghost use Rattle.std.specs.Prelude.{◌≡◌, ℕ, None, true, refl};

use crate::devices::{gate_of, link};
use crate::servers::serve_clients;
use memory_io::{MemoryGate, MemoryLink};
use std::alloc::Global;
use std::process::Abort;
use std::random::RandomSource;
use std::sync::Wait;
use std::sync::atomic::{AtomicU64, Ordering};
use std::thread::Threads;
use tardis_io::{Duplex, Failed, Link, Sink, Status};

/// A client that opens and begins. It sends its second request only once the other client was given so many replies.
#[derive(Drop)]
struct Waiting<'a> {
    link: MemoryLink,
    takes: u64,
    faults: u64,
    own: &'a AtomicU64,
    other: &'a AtomicU64,
    awaited: u64,
}

/// Whether the count comes to so much while it is looked at so often.
fn comes_to(count: &AtomicU64, awaited: u64) -> bool {
    for _ in 0..1_000_000_000u64 {
        if count.load(Ordering::SeqCst) >= awaited {
            return true;
        }
    }
    false
}

impl Sink for Waiting<'_> {
    ghost given = { λ _. None };

    ghost faults = { λ w. w.link.sink.plan.faults };

    ghost Kept = { ℕ };

    ghost kept = { λ w. w.faults };

    fn give(&mut self, bytes: &[u8]) -> Result<usize, Failed> {
        let count = self.link.give(bytes)?;
        self.own.fetch_add(1, Ordering::SeqCst);
        Ok(count)
    }
}

impl Duplex for Waiting<'_> {
    ghost left = { λ _. None };

    ghost take_faults = { λ w. w.faults };

    ghost takes = { λ _. None };

    ghost Parts = { Unit {0} };

    ghost parts = { λ _. tt };

    fn take(&mut self, buf: &mut [u8]) -> Result<usize, Failed> {
        self.takes = self.takes.saturating_add(1);
        if self.takes == 2 && !comes_to(self.other, self.awaited) {
            self.faults = self.faults.saturating_add(1);
            return Err(Failed);
        }
        match self.link.take(buf) {
            Ok(count) => Ok(count),
            Err(Failed) => {
                self.faults = self.faults.saturating_add(1);
                Err(Failed)
            }
        }
    }

    ghost gives_are_apart = { λ d e same. (refl, same, refl, refl) };
}

impl Link for Waiting<'_> {
    ghost is_finished = { λ w. w.link.finished ≡ true };

    fn finish(&mut self) {
        self.link.finish();
    }
}

/// Open and Begin, one in each take.
const SENT: &[u8] = b"\0\0\0\x02\x01\0\0\0\0\x02\x02\0";

/// Opened and Begun, at the root.
const GIVEN: &[u8] = b"\0\0\0\x07\x01\0\0\0\0\0\0\0\0\0\x07\x02\0\0\0\0\0\0";

/// A client whose replies are counted in `own`, and which waits until `other` is so much.
fn client<'a>(
    rt: &impl Abort,
    alloc: Global,
    own: &'a AtomicU64,
    other: &'a AtomicU64,
    awaited: u64,
) -> Waiting<'a> {
    Waiting {
        link: link(rt, alloc, SENT, 6),
        takes: 0,
        faults: 0,
        own,
        other,
        awaited,
    }
}

/// The first client, which waits for a reply to the second, and the second, which waits for two to the first.
fn both<'a>(
    rt: &impl Abort,
    alloc: Global,
    one: &'a AtomicU64,
    two: &'a AtomicU64,
) -> Vec<Waiting<'a>> {
    let first = client(rt, alloc, one, two, 1);
    let second = client(rt, alloc, two, one, 2);
    vec![in alloc; first, second].expect(rt, "room")
}

/// How many clients were given both replies, without a fault.
fn answered(gate: &MemoryGate<Waiting<'_>>) -> usize {
    let mut count = 0usize;
    for (_, link) in gate.back() {
        if link.faults == 0 && link.link.sink().bytes() == GIVEN {
            count = count.saturating_add(1);
        }
    }
    count
}

/// How the server of both ends, and how many of them were answered.
fn serve_both<R: RandomSource + Abort + Threads + Wait + Sync>(
    rt: &R,
    alloc: Global,
    one: &AtomicU64,
    two: &AtomicU64,
) -> (Status, usize) {
    let mut gate = gate_of(rt, alloc, both(rt, alloc, one, two));
    let ran = serve_clients(rt, alloc, "serve --listen x:1 --links 2", &mut gate);
    let status = ran.status;
    drop(ran);
    let count = answered(&gate);
    drop(gate);
    (status, count)
}

#[test]
fn two_clients_that_wait_for_each_other_are_served(rt: HostRuntime) {
    let one = AtomicU64::new(0);
    let two = AtomicU64::new(0);
    let (status, count) = serve_both(&rt, rt.alloc(), &one, &two);
    assert!(rt; status == Status::Ok);
    assert!(rt; count == 2);
}
