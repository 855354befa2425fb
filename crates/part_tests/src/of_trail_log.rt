//! A trail over more than one chunk.

use crate::counters::Counter;
use std::alloc::Global;
use std::process::Abort;
use tardis_base::ReplyBuf;
use trail_log::Trailed;

/// Asks for so many bytes by a request of actor 9, up to 1,048,574.
fn ask(
    rt: &impl Abort,
    alloc: Global,
    trail: &mut Trailed<Counter>,
    count: usize,
    out: &mut ReplyBuf,
) {
    let request = vec![in alloc; 7; count.min(1_048_574)].expect(rt, "room");
    let _ = trail.act(9, request.as_slice(), out);
    drop(request);
}

/// A trail of requests of these sizes.
fn long_trail(rt: &impl Abort, alloc: Global, counts: &[usize]) -> Trailed<Counter> {
    let mut trail = Trailed::new(alloc, Counter { acts: 0 }, 1 << 30);
    let mut out = ReplyBuf::new(alloc).expect(rt, "room");
    for count in counts {
        ask(rt, alloc, &mut trail, *count, &mut out);
    }
    drop(out);
    trail
}

const SIZES: [usize; 6] = [600_000, 500_000, 1_048_574, 10, 1_048_574, 400];

#[test]
fn there_is_memory_for_more_than_one_chunk(rt: HostRuntime) {
    let trail = long_trail(&rt, rt.alloc(), &SIZES);
    assert_eq!(rt; trail.machine().acts, 6);
    assert_eq!(rt; trail.bytes(), 3_197_594);
    drop(trail);
}
