//! Devices in memory.

use memory_disks::{MemoryDisk, MemoryStore};
use memory_io::{MemoryDial, MemoryGate, MemoryLink, MemorySink, MemorySource};
use std::alloc::Global;
use std::process::Abort;
use tardis_io::Link;

/// The input, the output and the file of a program.
#[derive(Drop)]
pub(crate) struct Streams {
    pub(crate) input: MemorySource,
    pub(crate) output: MemorySink,
    pub(crate) store: MemoryStore,
}

/// An input of these bytes, an output and an empty file. At most so many bytes are taken or given at once, and these takes
/// and gives fail.
pub(crate) fn streams_over(
    rt: &impl Abort,
    alloc: Global,
    bytes: &[u8],
    piece: u32,
    takes: &[u64],
    gives: &[u64],
) -> Streams {
    Streams {
        input: source_of(rt, alloc, bytes, piece, takes),
        output: sink_of(rt, alloc, 4_096, piece, gives),
        store: empty_file(rt, alloc),
    }
}

fn source_of(
    rt: &impl Abort,
    alloc: Global,
    bytes: &[u8],
    piece: u32,
    failing: &[u64],
) -> MemorySource {
    MemorySource::new(alloc, bytes, piece.max(1), failing).expect(rt, "room")
}

fn sink_of(rt: &impl Abort, alloc: Global, room: u32, piece: u32, failing: &[u64]) -> MemorySink {
    MemorySink::new(alloc, room, piece.max(1), failing).expect(rt, "room")
}

/// An empty file at the path `carts`.
fn empty_file(rt: &impl Abort, alloc: Global) -> MemoryStore {
    let path = String::from_str(alloc, "carts").expect(rt, "room");
    MemoryStore::new(
        path,
        MemoryDisk::new(alloc, &[], 1_000, &[]).expect(rt, "room"),
    )
}

/// A link that sends these bytes, at most so many in each take.
pub(crate) fn link(rt: &impl Abort, alloc: Global, sent: &[u8], piece: u32) -> MemoryLink {
    let source = source_of(rt, alloc, sent, piece, &[]);
    let sink = sink_of(rt, alloc, 200, 200, &[]);
    MemoryLink::new(source, sink)
}

/// A gate of these links.
pub(crate) fn gate_of<L: Link>(rt: &impl Abort, alloc: Global, links: Vec<L>) -> MemoryGate<L> {
    MemoryGate::new(alloc, links, &[]).expect(rt, "room")
}

/// A dial to these links.
pub(crate) fn dial_of(
    rt: &impl Abort,
    alloc: Global,
    links: Vec<MemoryLink>,
) -> MemoryDial<MemoryLink> {
    MemoryDial::new(alloc, links, &[]).expect(rt, "room")
}

/// A gate at which nobody is.
pub(crate) fn nobody(rt: &impl Abort, alloc: Global) -> MemoryGate<MemoryLink> {
    gate_of(rt, alloc, Vec::new(alloc))
}

/// A dial to no peer.
pub(crate) fn no_peer(rt: &impl Abort, alloc: Global) -> MemoryDial<MemoryLink> {
    dial_of(rt, alloc, Vec::new(alloc))
}
