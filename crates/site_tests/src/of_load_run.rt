use crate::sites::{an_output, keys};
use load_run::run_load;
use memory_io::MemorySink;
use session_core::SiteCore;
use std::alloc::Global;
use std::hash::RandomState;
use std::process::Abort;
use tardis_io::Status;

/// Numbers, and the line of a load. The lines are those of a model of the rules that was written apart from this program, in
/// another language.
const LINES: [(u32, u32, &str); 5] = [
    (
        1,
        0,
        "load start 1 steps 0 events 9 committed 0 refused 0 known 1 kept 1\n",
    ),
    (
        1,
        100,
        "load start 1 steps 100 events 281 committed 63 refused 0 known 64 kept 27\n",
    ),
    (
        4_294_967_295,
        500,
        "load start 4294967295 steps 500 events 1371 committed 318 refused 0 known 319 kept 20\n",
    ),
    (
        1,
        2_000,
        "load start 1 steps 2000 events 5444 committed 1283 refused 0 known 1284 kept 23\n",
    ),
    (
        1,
        2_000,
        "load start 1 steps 2000 events 5444 committed 1283 refused 0 known 1284 kept 23\n",
    ),
];

/// How a load by these numbers ends over this output.
fn ends(alloc: Global, keys: RandomState, start: u32, steps: u32, sink: &mut MemorySink) -> Status {
    run_load::<SiteCore, _>(alloc, keys, start, steps, sink)
}

/// Whether it writes this line.
fn writes(
    rt: &impl Abort,
    alloc: Global,
    keys: RandomState,
    start: u32,
    steps: u32,
    line: &str,
) -> bool {
    let mut sink = an_output(rt, alloc, 1_000, 4_096);
    let status = ends(alloc, keys, start, steps, &mut sink);
    status == Status::Ok && sink.bytes() == line.as_bytes()
}

#[test]
fn two_numbers_determine_the_line(rt: HostRuntime) {
    for (start, steps, line) in LINES {
        assert!(rt;
            writes(&rt, rt.alloc(), keys(&rt), start, steps, line),
            "{steps} steps"
        );
    }
}
