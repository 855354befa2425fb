//! A site over streams in memory.

use crate::talks::Talk;
use memory_io::{MemorySink, MemorySource};
use session_core::SiteCore;
use site_commands::run;
use std::alloc::Global;
use std::hash::RandomState;
use std::process::Abort;
use std::random::RandomSource;
use tardis_base::Limits;
use tardis_io::Status;

/// The limits of the program's site, where it is alone.
pub(crate) const LIMITS: Limits = Limits {
    sites: 1,
    max_kept: 16_384,
    max_path: 4_096,
    max_sessions: 256,
    max_trail: 1_073_741_824,
};

/// A seed of hashing.
pub(crate) fn keys<R: RandomSource + Abort>(rt: &R) -> RandomState {
    RandomState::new(rt).expect(rt, "random bytes")
}

/// An input of these bytes, of which a take moves at most so many, and these takes fail.
pub(crate) fn an_input(
    rt: &impl Abort,
    alloc: Global,
    bytes: &[u8],
    piece: u32,
    failing: &[u64],
) -> MemorySource {
    MemorySource::new(alloc, bytes, piece.max(1), failing).expect(rt, "room")
}

/// An output with room for so many bytes, of which a give moves at most so many.
pub(crate) fn an_output(rt: &impl Abort, alloc: Global, room: u32, piece: u32) -> MemorySink {
    MemorySink::new(alloc, room, piece.max(1), &[]).expect(rt, "room")
}

/// How the site of this number, with these limits, ends over these streams.
fn ends(
    rt: &impl Abort,
    alloc: Global,
    keys: RandomState,
    limits: Limits,
    own: u16,
    source: &mut MemorySource,
    sink: &mut MemorySink,
) -> Status {
    assert!(rt; limits.valid());
    assert!(rt; 1 <= own);
    assert!(rt; own <= limits.sites);
    run::<SiteCore, _, _>(alloc, keys, limits, own, source, sink)
}

/// Whether the site of this number, with these limits, gives this output for this input.
fn gives(
    rt: &impl Abort,
    alloc: Global,
    keys: RandomState,
    limits: Limits,
    own: u16,
    input: &[u8],
    output: &[u8],
) -> bool {
    let room = u32::try_from(output.len()).unwrap_or(u32::MAX);
    let mut source = an_input(rt, alloc, input, 65_536, &[]);
    let mut sink = an_output(rt, alloc, room, 65_536);
    let ended = ends(rt, alloc, keys, limits, own, &mut source, &mut sink);
    ended == Status::Ok && sink.bytes() == output
}

/// Whether the site of this number, with these limits, answers the requests by these replies.
pub(crate) fn answers(
    rt: &impl Abort,
    alloc: Global,
    keys: RandomState,
    limits: Limits,
    own: u16,
    talk: &Talk,
) -> bool {
    let input = talk.input(rt);
    let output = talk.output(rt);
    gives(
        rt,
        alloc,
        keys,
        limits,
        own,
        input.as_slice(),
        output.as_slice(),
    )
}

/// Whether it answers the rows of these tables so.
pub(crate) fn are_answered(
    rt: &impl Abort,
    alloc: Global,
    keys: RandomState,
    limits: Limits,
    own: u16,
    tables: &[&str],
) -> bool {
    let talk = Talk::of(rt, alloc, tables);
    let are_so = answers(rt, alloc, keys, limits, own, &talk);
    drop(talk);
    are_so
}
