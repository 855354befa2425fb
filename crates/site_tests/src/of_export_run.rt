//! Worked rows of exports and imports.

use crate::sites::{LIMITS, an_input, an_output, keys};
use crate::talks::{bytes_of, copied, put, put_frame};
use branch_export::run_import;
use export_run::export;
use memory_io::{MemorySink, MemorySource};
use session_core::SiteCore;
use std::alloc::Global;
use std::hash::RandomState;
use std::process::Abort;
use tardis_base::StateId;
use tardis_io::Status;

/// Session 1 puts x and commits.
const ONE_KEY: &str = "00010101 00010200 0001040178000131 000106000000";

/// Two branches, each with its own x, are merged, and all but the merge is collected.
const MERGED: &str = "\
00010101 00010200 0001040178000131 000106000000 00020100 00010200 00020200 0001030178 0002030178
0001040178000132 0002040178000133 0002040161000134 000106010000 000206010000 000215
00010800 0001040178000135 000106000000 00010e 00010f0040";

/// x is deleted, and z put.
const DELETED: &str = "\
00010101 00010200 0001040178000131 000106000000 00010200 0001050178 000104017a0000 000106000000";

/// The script of the export in which x alone is, with the value 1.
const SCRIPT: &str =
    "0000000400010101000000040001020000000008000104017800013100000006000106000000000000030001\
0e0000000500010f0040";

/// The state isn't kept.
const GONE: Status = Status::NoState {
    state: StateId {
        site: 1,
        sequence: 2,
    },
};

/// What a run wrote, and how it ended.
#[derive(Drop)]
struct Ran {
    status: Status,
    written: Vec<u8>,
}

/// The frames of these bodies, which are written as hexadecimal digits.
fn frames(rt: &impl Abort, alloc: Global, bodies: &str) -> Vec<u8> {
    let mut frames = Vec::new(alloc);
    for word in bodies.split_whitespace() {
        put_frame(rt, &mut frames, &[], bytes_of(rt, alloc, word).as_slice());
    }
    frames
}

/// How the export of this state of site 1 ends over these streams.
fn export_ends(
    alloc: Global,
    keys: RandomState,
    sequence: u32,
    source: &mut MemorySource,
    sink: &mut MemorySink,
) -> Status {
    let site = if sequence == 0 { 0 } else { 1 };
    let state = StateId { site, sequence };
    export::<SiteCore, _, _>(alloc, keys, LIMITS, 1, state, source, sink)
}

/// What it comes to over these frames, where these takes fail.
fn exported(
    rt: &impl Abort,
    alloc: Global,
    keys: RandomState,
    input: &[u8],
    sequence: u32,
    failing: &[u64],
) -> Ran {
    let mut source = an_input(rt, alloc, input, 4_096, failing);
    let mut sink = an_output(rt, alloc, 65_536, 4_096);
    let status = export_ends(alloc, keys, sequence, &mut source, &mut sink);
    let written = copied(rt, alloc, sink.bytes());
    Ran { status, written }
}

/// What it comes to over the frames of these bodies.
fn exported_from(
    rt: &impl Abort,
    alloc: Global,
    keys: RandomState,
    bodies: &str,
    sequence: u32,
) -> Ran {
    let input = frames(rt, alloc, bodies);
    exported(rt, alloc, keys, input.as_slice(), sequence, &[])
}

/// How an import ends over these streams.
fn import_ends(alloc: Global, source: &mut MemorySource, sink: &mut MemorySink) -> Status {
    run_import(alloc, source, sink)
}

/// What the import of these bytes comes to, into an output with room for so many, where these takes fail.
fn imported(rt: &impl Abort, alloc: Global, input: &[u8], room: u32, failing: &[u64]) -> Ran {
    let mut source = an_input(rt, alloc, input, 4_096, failing);
    let mut sink = an_output(rt, alloc, room, 4_096);
    let status = import_ends(alloc, &mut source, &mut sink);
    let written = copied(rt, alloc, sink.bytes());
    Ran { status, written }
}

/// What the import of the bytes that these digits spell comes to.
fn imported_from(rt: &impl Abort, alloc: Global, digits: &str, room: u32, failing: &[u64]) -> Ran {
    let input = bytes_of(rt, alloc, digits);
    imported(rt, alloc, input.as_slice(), room, failing)
}

/// Whether it ended so, having written the bytes that these digits spell.
fn is_so(rt: &impl Abort, alloc: Global, ran: &Ran, status: Status, written: &str) -> bool {
    let bytes = bytes_of(rt, alloc, written);
    ran.status == status && ran.written.as_slice() == bytes.as_slice()
}

/// Bodies of frames, the sequence of a state, how its export ends, and the digits of what is written.
const EXPORTS: [(&str, u32, Status, &str); 7] = [
    (ONE_KEY, 1, Status::Ok, "00000000000000010178000131"),
    (ONE_KEY, 2, GONE, ""),
    ("", 0, Status::Ok, "0000000000000000"),
    (
        MERGED,
        4,
        Status::Ok,
        "000000000000000201610001340178000135",
    ),
    (MERGED, 2, GONE, ""),
    (DELETED, 2, Status::Ok, "0000000000000001017a0000"),
    (DELETED, 1, Status::Ok, "00000000000000010178000131"),
];

#[test]
fn exports_are_those_of_their_state(rt: HostRuntime) {
    let keys = keys(&rt);
    for (bodies, sequence, status, written) in EXPORTS {
        let ran = exported_from(&rt, rt.alloc(), keys, bodies, sequence);
        assert!(rt; is_so(&rt, rt.alloc(), &ran, status, written));
    }
}

/// The digits of bytes that are imported, how that ends, and the digits of what is written.
const IMPORTS: [(&str, Status, &str); 6] = [
    ("00000000000000010178000131", Status::Ok, SCRIPT),
    ("0000000000000000", Status::Ok, "0000000400010101"),
    ("00", Status::BadExport, ""),
    (
        "000000000000000201780001310161000134",
        Status::BadExport,
        "",
    ),
    ("0000000000000001017800013100", Status::BadExport, ""),
    ("00000000000000020178000131", Status::BadExport, ""),
];

#[test]
fn exports_alone_are_imported(rt: HostRuntime) {
    for (bytes, status, written) in IMPORTS {
        let ran = imported_from(&rt, rt.alloc(), bytes, 4_096, &[]);
        assert!(rt; is_so(&rt, rt.alloc(), &ran, status, written));
    }
}

/// An export of 65 keys.
fn wide_export(rt: &impl Abort, alloc: Global) -> Vec<u8> {
    let mut export = copied(rt, alloc, &65u64.to_be_bytes());
    for key in 0..65u8 {
        put(rt, &mut export, &[1, key, 0, 1, key]);
    }
    export
}

/// Whether the export of the second state of the script of an export is that export.
fn comes_back(rt: &impl Abort, alloc: Global, keys: RandomState, export: &[u8]) -> bool {
    let script = imported(rt, alloc, export, 65_536, &[]);
    let ran = exported(rt, alloc, keys, script.written.as_slice(), 2, &[]);
    script.status == Status::Ok && ran.status == Status::Ok && ran.written.as_slice() == export
}

#[test]
fn of_65_keys_two_commits_are_made(rt: HostRuntime) {
    let export = wide_export(&rt, rt.alloc());
    assert!(rt; comes_back(&rt, rt.alloc(), keys(&rt), export.as_slice()));
}

/// Exports over frames of which a take fails, and over frames that are cut.
fn check_exports(rt: &impl Abort, alloc: Global, keys: RandomState) {
    let input = frames(rt, alloc, ONE_KEY);
    let broken = exported(rt, alloc, keys, input.as_slice(), 1, &[1]);
    assert!(rt; is_so(rt, alloc, &broken, Status::ReadFault, ""));
    let cut = exported(rt, alloc, keys, &[0, 0, 0], 0, &[]);
    assert!(rt; is_so(rt, alloc, &cut, Status::Cut, ""));
}

/// Imports of which the second take fails, and into an output that is too small.
fn check_imports(rt: &impl Abort, alloc: Global) {
    let unread = imported_from(rt, alloc, "0000000000000000", 4_096, &[2]);
    assert!(rt; is_so(rt, alloc, &unread, Status::ReadFault, ""));
    let unwritten = imported_from(rt, alloc, "0000000000000000", 3, &[]);
    assert!(rt; is_so(rt, alloc, &unwritten, Status::WriteFault, "000000"));
}

#[test]
fn after_a_fault_nothing_is_written(rt: HostRuntime) {
    check_exports(&rt, rt.alloc(), keys(&rt));
    check_imports(&rt, rt.alloc());
}
