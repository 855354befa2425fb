//! Streams in memory, what a take of one answers, and bytes that are put behind others.

use memory_io::{MemorySink, MemorySource};
use std::alloc::Global;
use std::process::Abort;
use tardis_io::{Failed, Source};

/// An input of these bytes, of which at most so many are taken at once, and these takes fail.
pub(crate) fn source_of(
    rt: &impl Abort,
    alloc: Global,
    bytes: &[u8],
    piece: u32,
    failing: &[u64],
) -> MemorySource {
    MemorySource::new(alloc, bytes, piece.max(1), failing).expect(rt, "room")
}

/// An output with so much room, to which at most so many bytes are given at once, and these gives
/// fail.
pub(crate) fn sink_of(
    rt: &impl Abort,
    alloc: Global,
    room: u32,
    piece: u32,
    failing: &[u64],
) -> MemorySink {
    MemorySink::new(alloc, room, piece.max(1), failing).expect(rt, "room")
}

/// Whether a take into the buffer, which must have room, answers this.
pub(crate) fn takes<S: Source>(
    source: &mut S,
    buf: &mut [u8],
    want: Result<usize, Failed>,
) -> bool {
    !buf.is_empty() && source.take(buf) == want
}

/// Puts more bytes behind these.
pub(crate) fn put(rt: &impl Abort, bytes: &mut Vec<u8>, more: &[u8]) {
    bytes.extend_from_slice(more).expect(rt, "room");
}
