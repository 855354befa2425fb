//! Passes of a lock that ask at the same time.

ghost use Rattle.std.specs.Prelude.{◌≡◌, ◌+◌, ◌%◌, ◌<◌, ◌≤◌, [], ◌∷◌, ℕ, false};
ghost use Rattle.dag_lock.specs.Named.{lock_id, pieces_of};
ghost use Rattle.dag_lock.specs.Steps.{Keeps};

use crate::counters::Counter;
use dag_lock::{DagLock, Pass};
use memory_io::MemorySink;
use std::alloc::Global;
use std::process::Abort;
use std::sync::Wait;
use std::thread::{Threads, join};
use tardis_base::ReplyBuf;
use trail_log::{Acted, Trailed};

/// A lock over a machine that counts, whose trail may have so many bytes, and the pass with all its pieces.
fn locked(rt: &impl Abort, alloc: Global, most: u64, pieces: u32) -> (DagLock<Counter>, Pass)
    requires { 0 < pieces }
    ensures { (result.1.lock ≡ lock_id result.0) × (result.1.pieces ≡ pieces) × (pieces_of result.0 ≡ pieces) }
{
    let trail = Trailed::new(alloc, Counter { acts: 0 }, most);
    DagLock::new(alloc, trail, pieces).expect(rt, "room")
}

/// Takes the lock apart.
fn closed(lock: DagLock<Counter>, pass: Pass) -> Trailed<Counter>
    requires lock { pass.lock ≡ lock_id lock }
    requires whole { pass.pieces ≡ pieces_of lock }
{
    lock.close(pass)
}

/// What is written of a trail.
fn written(rt: &impl Abort, alloc: Global, trail: &Trailed<Counter>) -> Vec<u8> {
    let mut sink = MemorySink::new(alloc, 60_000, 60_000, &[]).expect(rt, "room");
    trail.write_trail(&mut sink).expect(rt, "a trail that fits");
    let bytes = Vec::from_slice(alloc, sink.bytes()).expect(rt, "room");
    drop(sink);
    bytes
}

/// Asks for up to 100 bytes of the request.
fn ask<R: Wait>(
    rt: &R,
    lock: &DagLock<Counter>,
    pass: Pass,
    actor: u16,
    request: &[u8],
    out: &mut ReplyBuf,
) -> (Pass, Acted)
    requires { pass.lock ≡ lock_id lock.now }
    ensures { Keeps pass result.0 }
{
    let request = &request[..request.len().min(100)];
    lock.step(rt, pass, actor, request, out)
}

/// Asks for a write of the value, and tells whether it was answered.
fn put<R: Wait>(
    rt: &R,
    lock: &DagLock<Counter>,
    pass: Pass,
    actor: u16,
    value: u16,
    out: &mut ReplyBuf,
) -> (Pass, bool)
    requires { pass.lock ≡ lock_id lock.now }
    ensures { Keeps pass result.0 }
{
    let [high, low] = value.to_be_bytes();
    let request = [4, 1, b'x', 0, 2, high, low];
    let (pass, acted) = ask(rt, lock, pass, actor, &request, out);
    (pass, acted == Acted::Done)
}

/// Asks for so many writes, each of another value, and counts those that were answered.
fn puts<R: Wait>(
    rt: &R,
    alloc: Global,
    lock: &DagLock<Counter>,
    pass: Pass,
    actor: u16,
    writes: u16,
) -> (Pass, u64)
    requires { pass.lock ≡ lock_id lock.now }
    ensures { Keeps pass result.0 }
{
    let mut mine = pass;
    let mut done: u64 = 0;
    let Ok(mut out) = ReplyBuf::new(alloc) else {
        return (mine, 0);
    };
    for value in 0..writes {
        let (next, is_done) = put(rt, lock, mine, actor, value, &mut out);
        mine = next;
        done = done.saturating_add(u64::from(is_done));
    }
    (mine, done)
}

/// Two actors ask at the same time.
fn two_put<R: Threads + Wait + Sync>(
    rt: &R,
    alloc: Global,
    lock: &DagLock<Counter>,
    pass: Pass,
    actors: (u16, u16),
    writes: u16,
) -> (Pass, u64)
    requires lock { pass.lock ≡ lock_id lock.now }
    requires some { 2 ≤ pass.pieces }
    ensures { Keeps pass result.0 }
{
    let (first, second) = lock.split(pass, 1);
    let (one, other) = join(
        rt,
        move ||
            requires { first.lock ≡ lock_id lock.now }
            ensures { Keeps first result.0 }
        { puts(rt, alloc, lock, first, actors.0, writes) },
        move ||
            requires { second.lock ≡ lock_id lock.now }
            ensures { Keeps second result.0 }
        { puts(rt, alloc, lock, second, actors.1, writes) },
    );
    (lock.join(one.0, other.0), one.1.saturating_add(other.1))
}

/// Four actors ask at the same time.
fn four_put<R: Threads + Wait + Sync>(
    rt: &R,
    alloc: Global,
    lock: &DagLock<Counter>,
    pass: Pass,
    writes: u16,
) -> (Pass, u64)
    requires lock { pass.lock ≡ lock_id lock.now }
    requires some { pass.pieces ≡ 4 }
    ensures { Keeps pass result.0 }
{
    let (first, second) = lock.split(pass, 2);
    let (one, other) = join(
        rt,
        move ||
            requires { (first.lock ≡ lock_id lock.now) × (2 ≤ first.pieces) }
            ensures { Keeps first result.0 }
        { two_put(rt, alloc, lock, first, (1, 2), writes) },
        move ||
            requires { (second.lock ≡ lock_id lock.now) × (2 ≤ second.pieces) }
            ensures { Keeps second result.0 }
        { two_put(rt, alloc, lock, second, (3, 4), writes) },
    );
    (lock.join(one.0, other.0), one.1.saturating_add(other.1))
}

/// The actor and the value of a write that stands in a trail.
fn write_of(entry: &[u8]) -> Option<(u8, u16)> {
    match entry {
        [0, 0, 0, 9, 0, actor, 4, 1, b'x', 0, 2, high, low] => {
            Some((*actor, u16::from_be_bytes([*high, *low])))
        }
        _ => None,
    }
}

/// How many writes of each actor these entries are, if each actor's values are 0, 1, 2 and so on, and nothing else is there.
fn counts_in(entries: &[u8]) -> [u16; 5] {
    let mut next = [0u16; 5];
    for entry in entries.chunks(13) {
        let Some((actor, value)) = write_of(entry) else {
            return [0; 5];
        };
        let at = usize::from(actor % 5);
        if next[at] != value {
            return [0; 5];
        }
        next[at] = next[at].saturating_add(1);
    }
    next
}

/// The same of the trail.
fn counts(rt: &impl Abort, alloc: Global, trail: &Trailed<Counter>) -> [u16; 5] {
    let bytes = written(rt, alloc, trail);
    let next = counts_in(bytes.as_slice());
    drop(bytes);
    next
}

/// How many writes of two actors at once are answered under a lock of a trail of so many bytes at most, and the trail.
fn two_locked<R: Threads + Wait + Sync + Abort>(
    rt: &R,
    alloc: Global,
    most: u64,
    writes: u16,
) -> (u64, Trailed<Counter>) {
    let (lock, pass) = locked(rt, alloc, most, 2);
    let (pass, done) = two_put(rt, alloc, &lock, pass, (1, 2), writes);
    (done, closed(lock, pass))
}

/// The same for four actors.
fn four_locked<R: Threads + Wait + Sync + Abort>(
    rt: &R,
    alloc: Global,
    most: u64,
    writes: u16,
) -> (u64, Trailed<Counter>) {
    let (lock, pass) = locked(rt, alloc, most, 4);
    let (pass, done) = four_put(rt, alloc, &lock, pass, writes);
    (done, closed(lock, pass))
}

#[test]
fn four_actors_at_once_have_each_request_once_and_in_order(rt: HostRuntime) {
    let (done, trail) = four_locked(&rt, rt.alloc(), 1 << 30, 1_000);
    assert_eq!(rt; done, 4_000);
    assert_eq!(rt;
        counts(&rt, rt.alloc(), &trail),
        [0, 1_000, 1_000, 1_000, 1_000]
    );
    drop(trail);
}

/// How many writes actors 1 and 2 have in the trail.
fn both_counted(rt: &impl Abort, alloc: Global, trail: &Trailed<Counter>) -> u16 {
    let counted = counts(rt, alloc, trail);
    counted[1].saturating_add(counted[2])
}

#[test]
fn a_trail_fills_up_while_two_actors_ask(rt: HostRuntime) {
    let (done, trail) = two_locked(&rt, rt.alloc(), 13 * 50 + 12, 40);
    assert_eq!(rt; done, 50);
    assert_eq!(rt; trail.bytes(), 650);
    assert_eq!(rt; both_counted(&rt, rt.alloc(), &trail), 50);
    drop(trail);
}

/// Asks for both by actor 1, under a lock of a trail of ten bytes at most: how each was answered, and the trail.
fn ask_both<R: Wait + Abort>(
    rt: &R,
    alloc: Global,
    first: &[u8],
    second: &[u8],
) -> (Acted, Acted, Trailed<Counter>) {
    let (lock, pass) = locked(rt, alloc, 10, 1);
    let mut out = ReplyBuf::new(alloc).expect(rt, "room");
    let (pass, one) = ask(rt, &lock, pass, 1, first, &mut out);
    let (pass, other) = ask(rt, &lock, pass, 1, second, &mut out);
    drop(out);
    (one, other, closed(lock, pass))
}

/// Whether this is written of the trail.
fn is_written(rt: &impl Abort, alloc: Global, trail: &Trailed<Counter>, entries: &[u8]) -> bool {
    let bytes = written(rt, alloc, trail);
    let is_so = bytes.as_slice() == entries;
    drop(bytes);
    is_so
}

/// A session opens, and has no room to begin.
#[test]
fn a_trail_of_ten_bytes_has_room_for_one_request(rt: HostRuntime) {
    let (one, other, trail) = ask_both(&rt, rt.alloc(), b"\x01\0", b"\x02\0");
    assert!(rt; one == Acted::Done);
    assert!(rt; other == Acted::TrailFull { bytes: 8 });
    assert!(rt; is_written(&rt, rt.alloc(), &trail, b"\0\0\0\x04\0\x01\x01\0"));
    drop(trail);
}
