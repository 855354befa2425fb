use crate::streams::takes;
use memory_io::SteadySource;
use std::alloc::Global;
use std::process::Abort;

/// An input of these bytes that never fails.
fn steady_source(rt: &impl Abort, alloc: Global, bytes: &[u8]) -> SteadySource {
    SteadySource::new(alloc, bytes).expect(rt, "room")
}

#[test]
fn a_steady_source_gives_all(rt: HostRuntime) {
    let mut source = steady_source(&rt, rt.alloc(), b"abc");
    let mut buf = [0u8; 2];
    for want in [2, 1, 0] {
        assert!(rt; takes(&mut source, &mut buf, Ok(want)));
    }
    drop(source);
}
