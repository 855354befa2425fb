use crate::sites::{an_input, an_output, keys};
use crate::talks::{bytes_of, put_frame};
use crate::world_rows::{HALF_LOST, NOT_THERE, SHARED_CART};
use memory_io::{MemorySink, MemorySource};
use session_core::SiteCore;
use std::alloc::Global;
use std::hash::RandomState;
use std::process::Abort;
use tardis_io::Status;
use world_core::run_world;

/// Puts the frame of the body behind these that these hexadecimal digits spell.
fn put_spelled(rt: &impl Abort, alloc: Global, frames: &mut Vec<u8>, digits: &str) {
    put_frame(rt, frames, &[], bytes_of(rt, alloc, digits).as_slice());
}

/// Frames of bodies, and those of the replies that they are to get.
#[derive(Drop)]
struct Talk {
    input: Vec<u8>,
    output: Vec<u8>,
}

impl Talk {
    fn new(alloc: Global) -> Talk {
        Talk {
            input: Vec::new(alloc),
            output: Vec::new(alloc),
        }
    }

    /// The rows of a table.
    fn of(rt: &impl Abort, alloc: Global, table: &str) -> Talk {
        let mut talk = Talk::new(alloc);
        for line in table.lines() {
            talk.note(rt, alloc, line);
        }
        talk
    }

    /// Puts the row behind the others that a line is.
    fn note(&mut self, rt: &impl Abort, alloc: Global, line: &str) {
        let mut words = line.split_whitespace();
        let body = words.next().expect(rt, "a body");
        let reply = words.next().expect(rt, "a reply");
        put_spelled(rt, alloc, &mut self.input, body);
        put_spelled(rt, alloc, &mut self.output, reply);
    }

    /// Puts a body behind the others, and the reply that it is to get.
    fn ask(&mut self, rt: &impl Abort, body: &[u8], reply: &[u8]) {
        put_frame(rt, &mut self.input, &[], body);
        put_frame(rt, &mut self.output, &[], reply);
    }
}

/// How a world of so many sites ends over these streams.
fn ends(
    alloc: Global,
    keys: RandomState,
    sites: u16,
    source: &mut MemorySource,
    sink: &mut MemorySink,
) -> Status {
    run_world::<SiteCore, _, _>(alloc, keys, sites.clamp(1, 16), source, sink)
}

/// Whether a world of so many sites answers so.
fn answers(rt: &impl Abort, alloc: Global, keys: RandomState, sites: u16, talk: &Talk) -> bool {
    let mut source = an_input(rt, alloc, talk.input.as_slice(), 4_096, &[]);
    let mut sink = an_output(rt, alloc, 100_000, 4_096);
    let status = ends(alloc, keys, sites, &mut source, &mut sink);
    status == Status::Ok && sink.bytes() == talk.output.as_slice()
}

/// Whether it answers the rows of a table so.
fn is_answered(rt: &impl Abort, alloc: Global, keys: RandomState, sites: u16, table: &str) -> bool {
    let talk = Talk::of(rt, alloc, table);
    answers(rt, alloc, keys, sites, &talk)
}

#[test]
fn sites_share_a_cart(rt: HostRuntime) {
    let keys = keys(&rt);
    for (sites, table) in [(3, SHARED_CART), (3, HALF_LOST), (2, NOT_THERE)] {
        assert!(rt; is_answered(&rt, rt.alloc(), keys, sites, table));
    }
}

/// A pull of a site that has no news.
const PULL: &[u8] = b"\x01\0\x01\0\0\x13\x02\0\0\0\0\0\0\0\0";

/// The statistics of a site of two, and those of a fresh one: one state is known, kept and a leaf, and no session is open.
const STAT: &[u8] = b"\x01\0\x01\0\0\x10";

const FRESH: &[u8] = b"\x0e\0\0\0\0\0\0\0\x01\0\0\0\x01\0\0\0\x01\0\0\x02\
\0\0\0\0\0\0\0\0\0\0\0\0\0\0\0\0\0\0\0\0\0\0\0\0\0\0\0\0";

/// 1,024 batches come, and one more is refused; Stat is answered as before, and there is no item that may be carried.
fn full_bag(rt: &impl Abort, alloc: Global) -> Talk {
    let mut talk = Talk::new(alloc);
    talk.ask(rt, STAT, FRESH);
    for _ in 0..1_024 {
        talk.ask(rt, PULL, b"\x10\0\0\0");
    }
    talk.ask(rt, PULL, b"\x15\x1d\0\0\x04\0");
    talk.ask(rt, STAT, FRESH);
    talk.ask(rt, b"\x02\0\x02\0\0\0\0\0\0\0\0", b"\x15\x1c\0\0\x04\0");
    talk
}

#[test]
fn the_bag_holds_1024_batches(rt: HostRuntime) {
    let talk = full_bag(&rt, rt.alloc());
    assert!(rt; answers(&rt, rt.alloc(), keys(&rt), 2, &talk));
}
