use crate::command_rows::{
    AUTO, CARRIED_OUT, CUT, EMPTY_EXPORT, EXPORT, FORK, FORKED, LOADED, LONG, MERGED, ODD_ANSWERS,
    ODD_LINES, OPENED, REPLIES, REPLIES_OF_2, SCRIPT, SESSION, TOLD, WORLD, WORLD_REPLIES,
};
use crate::programs::{comes_to, run_failing, run_line};
use std::alloc::Global;
use std::process::Abort;
use std::random::RandomSource;
use std::sync::Wait;
use std::thread::Threads;
use tardis_base::StateId;
use tardis_io::Status;
use tardis_main::USAGE;

/// A line of words and an input, and how the program ends with them and what it writes.
type Row = (&'static str, &'static [u8], Status, &'static [u8]);

const LONG_FRAME: Status = Status::LongFrame { len: 1_048_577 };

const GONE: Status = Status::NoState {
    state: StateId {
        site: 1,
        sequence: 2,
    },
};

const ROWS: [Row; 19] = [
    ("run", SESSION, Status::Ok, REPLIES),
    ("run", b"", Status::Ok, b""),
    ("run --site 2 --sites 3", SESSION, Status::Ok, REPLIES_OF_2),
    ("run", CUT, Status::Cut, OPENED),
    ("run", LONG, LONG_FRAME, OPENED),
    ("shell", FORK, Status::Ok, FORKED),
    ("shell --sites 2", ODD_LINES, Status::Ok, ODD_ANSWERS),
    ("audit", SESSION, Status::Ok, TOLD),
    ("auto --rules cart=set", AUTO, Status::Ok, MERGED),
    ("export --at 1.1", SESSION, Status::Ok, EXPORT),
    ("export --at 1.2", SESSION, GONE, b""),
    ("export --at 0.0", b"", Status::Ok, EMPTY_EXPORT),
    ("import", EXPORT, Status::Ok, SCRIPT),
    ("run", SCRIPT, Status::Ok, CARRIED_OUT),
    ("import", b"\0", Status::BadExport, b""),
    ("world --sites 2", WORLD, Status::Ok, WORLD_REPLIES),
    ("load --start 1 --steps 0", b"", Status::Ok, LOADED),
    ("durable --file carts", SESSION, Status::Ok, REPLIES),
    ("--version", b"", Status::Ok, b"tardis 0.1.0\n"),
];

/// Whether each program comes to what its row says.
fn check_rows<R: RandomSource + Abort + Threads + Wait + Sync>(
    rt: &R,
    alloc: Global,
    rows: &[Row],
) {
    for row in rows {
        let (line, input, status, output) = *row;
        let ran = run_line(rt, alloc, line, input);
        assert!(rt; comes_to(ran, status, output), "{line}");
    }
}

#[test]
fn each_command_writes_its_bytes(rt: HostRuntime) {
    check_rows(&rt, rt.alloc(), &ROWS);
}

const NO_COMMANDS: [&str; 16] = [
    "",
    "run extra",
    "run --site 2",
    "run --sites=2",
    "run --sites 1 --sites 1",
    "serve --links 2",
    "serve --listen a --links 2 --rounds 1000001",
    "world",
    "world --sites 17",
    "load --start 1 --steps 10001",
    "import 1",
    "export --at 007.1",
    "auto --rules =sum",
    "durable",
    "Run",
    "--help run",
];

/// Whether the program comes to Usage with each of these lines, and writes nothing.
fn check_unknown<R: RandomSource + Abort + Threads + Wait + Sync>(
    rt: &R,
    alloc: Global,
    lines: &[&'static str],
) {
    for line in lines {
        check_rows(rt, alloc, &[(*line, SESSION, Status::Usage, b"")]);
    }
}

#[test]
fn other_words_are_no_command(rt: HostRuntime) {
    check_unknown(&rt, rt.alloc(), &NO_COMMANDS);
}

const COMMANDS: [&str; 12] = [
    "tardis shell ",
    "tardis run ",
    "tardis audit ",
    "tardis world ",
    "tardis load ",
    "tardis serve ",
    "tardis auto ",
    "tardis durable ",
    "tardis export ",
    "tardis import ",
    "tardis --help ",
    "tardis --version ",
];

/// Whether the help has each of these texts.
fn check_help(rt: &impl Abort, help: &str, texts: &[&str]) {
    for text in texts {
        assert!(rt; help.contains(*text), "{text}");
    }
}

#[test]
fn the_help_tells_each_command(rt: HostRuntime) {
    let row: Row = ("--help", b"", Status::Ok, USAGE.as_bytes());
    check_rows(&rt, rt.alloc(), &[row]);
    check_help(&rt, USAGE, &COMMANDS);
}

/// Whether `run` over the input, in pieces of so many bytes, ends so, having written this, where these calls fail.
fn runs_to<R: RandomSource + Abort + Threads + Wait + Sync>(
    rt: &R,
    alloc: Global,
    input: &[u8],
    piece: u32,
    takes: &[u64],
    gives: &[u64],
    status: Status,
    output: &[u8],
) -> bool {
    let ran = run_failing(rt, alloc, "run", input, piece, takes, gives);
    comes_to(ran, status, output)
}

/// An input that comes byte by byte, the takes and gives that fail, how the run ends, and what it writes.
type Bytewise = (
    &'static [u8],
    &'static [u64],
    &'static [u64],
    Status,
    &'static [u8],
);

const BYTEWISE: [Bytewise; 5] = [
    (SESSION, &[], &[], Status::Ok, REPLIES),
    (CUT, &[], &[], Status::Cut, OPENED),
    (LONG, &[], &[], LONG_FRAME, OPENED),
    (SESSION, &[3], &[], Status::ReadFault, b""),
    (SESSION, &[], &[2], Status::WriteFault, b"\0"),
];

#[test]
fn bytes_may_come_one_by_one(rt: HostRuntime) {
    for (input, takes, gives, status, output) in BYTEWISE {
        assert!(rt; runs_to(&rt, rt.alloc(), input, 1, takes, gives, status, output));
    }
}

/// The first so many bytes of the session's replies.
fn front(length: usize) -> &'static [u8] {
    &REPLIES[..length.min(REPLIES.len())]
}

/// Of the replies to the session, how many bytes are written before each take: those to all frames in 0, 9, 18 and so on of
/// its 55 bytes.
const BEFORE_TAKES: [usize; 8] = [0, 11, 22, 22, 27, 45, 56, 70];

/// How many bytes are written before each give: those of whole replies, and 9 of one that has more.
const BEFORE_GIVES: [usize; 11] = [0, 9, 11, 20, 22, 27, 36, 45, 54, 56, 65];

/// Whether the session's replies are cut to so many bytes where this take fails.
fn take_cuts<R: RandomSource + Abort + Threads + Wait + Sync>(
    rt: &R,
    alloc: Global,
    take: u64,
    written: usize,
) -> bool {
    let output = front(written);
    runs_to(
        rt,
        alloc,
        SESSION,
        9,
        &[take],
        &[],
        Status::ReadFault,
        output,
    )
}

/// Whether they are where this give fails.
fn give_cuts<R: RandomSource + Abort + Threads + Wait + Sync>(
    rt: &R,
    alloc: Global,
    give: u64,
    written: usize,
) -> bool {
    let output = front(written);
    runs_to(
        rt,
        alloc,
        SESSION,
        9,
        &[],
        &[give],
        Status::WriteFault,
        output,
    )
}

#[test]
fn a_call_that_fails_cuts_the_replies(rt: HostRuntime) {
    for (place, written) in BEFORE_TAKES.iter().enumerate() {
        let take = (place as u64).saturating_add(1);
        assert!(rt; take_cuts(&rt, rt.alloc(), take, *written), "take {take}");
    }
    for (place, written) in BEFORE_GIVES.iter().enumerate() {
        let give = (place as u64).saturating_add(1);
        assert!(rt; give_cuts(&rt, rt.alloc(), give, *written), "give {give}");
    }
}
