//! A site that is kept in a file, whose server ends and starts again.

ghost use Rattle.std.specs.Prelude.{◌≡◌, ◌≤◌, None, length};

use crate::disks::crashed;
use crate::exchange_rows::TWO_RECORDS;
use crate::file_rows::{
    COLLECTED, COLLECTED_AGAIN, COMMITTED, COMMITTED_AGAIN, PROMISED, PROMISED_AGAIN, TWO_COMMITS,
};
use crate::of_site_journal::CRASHES;
use crate::of_tardisd_main::words_of;
use crate::sites::keys;
use crate::talks::{Talk, bytes_of, copied, put};
use daemon_words::DaemonPlan;
use disk_store::Store;
use hub::{Connection, Ports, Ready};
use memory_disks::{MemoryDisk, MemoryStore};
use memory_io::MemorySink;
use site_peers::{Failure, Peer};
use std::alloc::Global;
use std::process::Abort;
use std::random::RandomSource;
use tardisd_main::{
    CheckedLog, DaemonEnd, Doors, FileCheck, FileFault, FoundSite, GateFault, tardisd,
};

/// An edge of one connection. Its requests come one at a time, each once the reply to the one before it was taken.
#[derive(Drop)]
struct OneByOne<'a> {
    asked: Vec<Vec<u8>>,
    turns: usize,
    told: &'a mut Vec<u8>,
}

impl Ports for OneByOne<'_> {
    ghost seen = { λ p. None };

    fn ready(&mut self, connections: &[Option<Connection>], peers: &[Peer]) -> Ready {
        let _ = connections;
        let _ = peers;
        let turn = self.turns;
        self.turns = turn.saturating_add(1);
        if turn == 0 {
            return Ready::Accept;
        }
        if (turn - 1) / 2 >= self.asked.len() {
            return Ready::Stop;
        }
        if turn % 2 == 1 {
            Ready::Read(0)
        } else {
            Ready::Write(0)
        }
    }

    fn accept(&mut self, slot: usize) -> Option<u8> {
        let _ = slot;
        Some(0)
    }

    fn decline(&mut self) {}

    fn read(&mut self, slot: usize, buf: &mut [u8]) -> usize {
        let _ = slot;
        match self.asked.get(self.turns.saturating_sub(2) / 2) {
            Some(frame) => copy_front(frame.as_slice(), buf),
            None => 0,
        }
    }

    fn write(&mut self, slot: usize, bytes: &[u8]) -> usize {
        let _ = slot;
        match self.told.extend_from_slice(bytes) {
            Ok(()) => bytes.len(),
            Err(_) => 0,
        }
    }

    fn close(&mut self, slot: usize) {
        let _ = slot;
    }

    fn call_peer(&mut self, peer: usize) {
        let _ = peer;
    }

    fn close_peer(&mut self, peer: usize) {
        let _ = peer;
    }

    fn read_peer(&mut self, peer: usize, buf: &mut [u8]) -> usize {
        let _ = peer;
        let _ = buf;
        0
    }

    fn write_peer(&mut self, peer: usize, bytes: &[u8]) -> usize {
        let _ = peer;
        let _ = bytes;
        0
    }

    fn note_reply(&mut self, reply: &[u8]) {
        let _ = reply;
    }

    fn tell_failure(&mut self, peer: usize, why: Failure) {
        let _ = peer;
        let _ = why;
    }
}

/// Copies a front of the bytes, as long as there is room.
fn copy_front(bytes: &[u8], buf: &mut [u8]) -> usize
    ensures bound { result ≤ length buf.new }
    ensures room { length buf.new ≡ length buf.old }
{
    let count = bytes.len().min(buf.len());
    buf[..count].copy_from_slice(&bytes[..count]);
    count
}

/// Doors at which this edge is, once, and which know what was found in the file.
#[derive(Drop)]
struct OneDoor<'a> {
    edge: Option<OneByOne<'a>>,
    found: Option<FoundSite>,
}

impl<'a> Doors for OneDoor<'a> {
    type Ports = OneByOne<'a>;

    ghost opens = { λ asked opened. Unit {0} };

    fn open(&mut self, plan: &DaemonPlan<'_>) -> Result<OneByOne<'a>, GateFault> {
        let _ = plan;
        match self.edge.take() {
            Some(edge) => Ok(edge),
            None => Err(GateFault::Refused),
        }
    }

    fn announce(&mut self, plan: &DaemonPlan<'_>, found: Option<FoundSite>) {
        let _ = plan;
        self.found = found;
    }
}

/// How a server of a site in a file ended, what it told, what it had found there, and the disk.
#[derive(Drop)]
struct Life {
    end: DaemonEnd,
    told: Vec<u8>,
    found: Option<FoundSite>,
    disk: MemoryDisk,
}

/// A store that has a disk with these bytes at `f`, of which the listed calls fail.
fn file_of(rt: &impl Abort, alloc: Global, bytes: &[u8], failing: &[u64]) -> MemoryStore {
    let path = String::from_str(alloc, "f").expect(rt, "room");
    MemoryStore::new(
        path,
        MemoryDisk::new(alloc, bytes, 20_000, failing).expect(rt, "room"),
    )
}

/// How a server with these words ends.
fn ended<D: Doors>(
    rt: &(impl Abort + RandomSource),
    alloc: Global,
    line: &str,
    doors: &mut D,
    store: &mut MemoryStore,
) -> DaemonEnd {
    let words = words_of(rt, alloc, line);
    let mut output = MemorySink::new(alloc, 0, 1, &[]).expect(rt, "room");
    let words = words.as_slice();
    tardisd(alloc, keys(rt), [7; 16], words, doors, store, &mut output)
}

/// The server with these words over a disk of these bytes, of which the listed calls fail, which is asked this.
fn live(
    rt: &(impl Abort + RandomSource),
    alloc: Global,
    line: &str,
    talk: &Talk,
    bytes: &[u8],
    failing: &[u64],
) -> Life {
    let mut told = Vec::new(alloc);
    let edge = OneByOne {
        asked: talk.frames(rt),
        turns: 0,
        told: &mut told,
    };
    let mut doors = OneDoor {
        edge: Some(edge),
        found: None,
    };
    let mut store = file_of(rt, alloc, bytes, failing);
    let end = ended(rt, alloc, line, &mut doors, &mut store);
    let found = doors.found;
    drop(doors);
    let disk = store.disk().expect(rt, "a disk");
    Life {
        end,
        told,
        found,
        disk,
    }
}

/// What is left of a disk of these bytes, once a server with these words answered the rows of these tables.
fn after(
    rt: &(impl Abort + RandomSource),
    alloc: Global,
    line: &str,
    tables: &[&str],
    bytes: &[u8],
) -> Vec<u8> {
    let talk = Talk::of(rt, alloc, tables);
    let life = live(rt, alloc, line, &talk, bytes, &[]);
    assert!(rt; life.end == DaemonEnd::Gate(GateFault::Lost));
    assert!(rt; life.told == talk.output(rt));
    copied(rt, alloc, life.disk.bytes())
}

/// The words of a site alone, and of the first of two.
const ALONE: &str = "--listen unix:s --file f";

const OF_TWO: &str = "--sites 2 --listen unix:s --file f";

/// Lives of servers: their words, the tables that the first one answers, and the one that the next one does.
const LIVES: [(&str, &[&str], &str); 3] = [
    (OF_TWO, &[COMMITTED], COMMITTED_AGAIN),
    (OF_TWO, &[TWO_RECORDS, PROMISED], PROMISED_AGAIN),
    (ALONE, &[COLLECTED], COLLECTED_AGAIN),
];

#[test]
fn a_site_goes_on_from_its_file(rt: HostRuntime) {
    for (line, first, next) in LIVES {
        let bytes = after(&rt, rt.alloc(), line, first, b"");
        let _ = after(&rt, rt.alloc(), line, &[next], bytes.as_slice());
    }
}

/// What a server finds in a file of these bytes, and how it ends.
fn found_in(
    rt: &(impl Abort + RandomSource),
    alloc: Global,
    bytes: &[u8],
) -> (Option<FoundSite>, DaemonEnd) {
    let life = live(rt, alloc, ALONE, &Talk::new(alloc), bytes, &[]);
    (life.found, life.end)
}

/// Three groups in a file, of the site's life and of two commits: as they are, without the last byte of the third, and with another
/// first byte.
#[test]
fn a_torn_group_is_left_out_and_a_damaged_file_is_told(rt: HostRuntime) {
    let mut bytes = after(&rt, rt.alloc(), ALONE, &[TWO_COMMITS], b"");
    let (found, _) = found_in(&rt, rt.alloc(), bytes.as_slice());
    let whole = found.expect(&rt, "a site");
    assert!(rt; whole.known == 3 && whole.groups == 3 && !whole.is_torn && !whole.is_new);
    let last = (whole.bytes as usize).saturating_sub(1);
    *bytes.get_mut(last).expect(&rt, "a byte") = 0;
    let (found, _) = found_in(&rt, rt.alloc(), bytes.as_slice());
    let torn = found.expect(&rt, "a site");
    assert!(rt; torn.known == 2 && torn.groups == 2 && torn.is_torn && !torn.is_new);
    *bytes.get_mut(0).expect(&rt, "a byte") = b'x';
    let (found, end) = found_in(&rt, rt.alloc(), bytes.as_slice());
    assert!(rt; found.is_none() && end == DaemonEnd::File(FileFault::NotALog));
}

/// How a check of a file of these bytes ends, whose disk is as it was then.
fn checked(rt: &(impl Abort + RandomSource), alloc: Global, bytes: &[u8]) -> DaemonEnd {
    let mut store = file_of(rt, alloc, bytes, &[]);
    let end = checked_at(rt, alloc, "f", &mut store);
    let disk = store.disk().expect(rt, "a disk");
    assert!(rt; disk.bytes() == bytes);
    end
}

/// How a check of the file at a path ends.
fn checked_at(
    rt: &(impl Abort + RandomSource),
    alloc: Global,
    path: &str,
    store: &mut MemoryStore,
) -> DaemonEnd {
    let line = format!(in alloc; "--check --file {path}").expect(rt, "room");
    let mut doors = OneDoor {
        edge: None,
        found: None,
    };
    let end = ended(rt, alloc, line.as_str(), &mut doors, store);
    drop(doors);
    end
}

/// What is told of a log.
fn told_of(rt: &impl Abort, end: DaemonEnd) -> CheckedLog {
    match end {
        DaemonEnd::Checked(FileCheck::Log(log)) => log,
        _ => panic!(rt; "a log"),
    }
}

/// The lines of a file with three groups: of the site's life, and of two commits of one key. Its text has 49 bytes of the front, 36 of the
/// first group, and 38 of each further one (`docs/FORMATS.md`, 'The items of a server's log').
const CHECKED: &str = "\
format 1
site 1 of 1
life 07070707070707070707070707070707
limits states 16384 path 65000 sessions 256
states known 3 kept 3
leaves 1
keys 1
groups 3
bytes text 161 file 4096
end whole
";

/// What is told of the same file once one of its bytes is another: of the name, of the version, of the limits, and of each group but the
/// last, which is told by the place where it begins.
const SPOILED: [(usize, FileFault); 5] = [
    (0, FileFault::NotALog),
    (9, FileFault::OtherVersion(97)),
    (20, FileFault::BadFront),
    (70, FileFault::Damaged(49)),
    (110, FileFault::Damaged(85)),
];

#[test]
fn a_check_tells_what_a_file_has(rt: HostRuntime) {
    let bytes = after(&rt, rt.alloc(), ALONE, &[TWO_COMMITS], b"");
    let whole = told_of(&rt, checked(&rt, rt.alloc(), bytes.as_slice()));
    let lines = format!(in rt.alloc(); "{whole}").expect(&rt, "room");
    assert_eq!(rt; lines.as_str(), CHECKED);
    let torn = with_byte(&rt, rt.alloc(), bytes.as_slice(), 160, 0);
    let torn = told_of(&rt, checked(&rt, rt.alloc(), torn.as_slice()));
    assert!(rt; torn.known == 2 && torn.groups == 2 && torn.is_torn && torn.bytes == 123);
    for (place, fault) in SPOILED {
        let spoiled = with_byte(&rt, rt.alloc(), bytes.as_slice(), place, b'a');
        assert!(rt; checked(&rt, rt.alloc(), spoiled.as_slice()) == DaemonEnd::File(fault));
    }
}

/// These bytes, of which the one at a place is another.
fn with_byte(rt: &impl Abort, alloc: Global, bytes: &[u8], place: usize, byte: u8) -> Vec<u8> {
    let mut other = copied(rt, alloc, bytes);
    *other.get_mut(place).expect(rt, "a byte") = byte;
    other
}

#[test]
fn a_file_that_is_new_or_in_use_is_told(rt: HostRuntime) {
    let new = DaemonEnd::Checked(FileCheck::New);
    assert!(rt; checked(&rt, rt.alloc(), b"") == new);
    assert!(rt; checked(&rt, rt.alloc(), &[0; 5000]) == new);
    let mut store = file_of(&rt, rt.alloc(), b"", &[]);
    let other = checked_at(&rt, rt.alloc(), "g", &mut store);
    assert!(rt; other == DaemonEnd::File(FileFault::Refused));
    let disk = store.open_file("f");
    let held = checked_at(&rt, rt.alloc(), "f", &mut store);
    assert!(rt; held == DaemonEnd::File(FileFault::InUse));
    drop(disk);
    drop(store);
}

/// What the log of a site alone says first under which one state may be kept, and what that of one under which 65,000 may.
const OF_ONE_STATE: &str =
    "7461726469736c67f501f501f501f5f5f501f5f510f501f507070707070707070707070707070707f47e87176a355c46f7";

const OF_MORE_STATES: &str =
    "7461726469736c67f501f501f501f5f5fde8f5f510f501f50707070707070707070707070707070778f12fd76b8b1eebf7";

/// A log opens under larger limits, keeps its front, and is opened again with what it has then. Under smaller ones it is refused, and
/// left as it is.
#[test]
fn a_log_opens_under_limits_that_are_no_smaller(rt: HostRuntime) {
    let front = bytes_of(&rt, rt.alloc(), OF_ONE_STATE);
    let mut begun = copied(&rt, rt.alloc(), front.as_slice());
    put(&rt, &mut begun, &[0; 4000]);
    let bytes = after(&rt, rt.alloc(), ALONE, &[TWO_COMMITS], begun.as_slice());
    assert!(rt; bytes.as_slice().starts_with(front.as_slice()));
    let (found, _) = found_in(&rt, rt.alloc(), bytes.as_slice());
    let found = found.expect(&rt, "a site");
    assert!(rt; found.known == 3 && found.kept == 3 && found.groups == 3 && !found.is_new);
    let front = bytes_of(&rt, rt.alloc(), OF_MORE_STATES);
    let talk = Talk::new(rt.alloc());
    let life = live(&rt, rt.alloc(), ALONE, &talk, front.as_slice(), &[]);
    let larger = FileFault::OtherLimits {
        states: 65_000,
        sessions: 256,
    };
    assert!(rt; life.end == DaemonEnd::File(larger));
    assert!(rt; life.disk.bytes() == front.as_slice());
}

/// How many commits were told: in these replies only the one to a commit has a byte 8.
fn count_of_commits(told: &[u8]) -> u64 {
    told.iter().filter(|byte| **byte == 8).count() as u64
}

/// Whether a crash by this choice, once a server ended whose listed call of the disk failed, leaves the commits that were told, or
/// the next one too, and the next server goes on from them.
fn crash_leaves_what_was_told(
    rt: &(impl Abort + RandomSource),
    alloc: Global,
    failing: u64,
    choice: u64,
) -> bool {
    let talk = Talk::of(rt, alloc, &[TWO_COMMITS]);
    let Life { told, disk, .. } = live(rt, alloc, ALONE, &talk, b"", &[failing]);
    let disk = crashed(rt, disk, choice);
    let next = live(rt, alloc, ALONE, &talk, disk.bytes(), &[]);
    let states = count_of_commits(told.as_slice()).saturating_add(1);
    let goes_on = count_of_commits(next.told.as_slice()) == 2;
    match next.found {
        Some(found) => goes_on
            && (found.known == states || found.known == states.saturating_add(1)),
        None => false,
    }
}

/// Whether it ends as its edge does. Else it ends since the disk failed.
fn ends_well(rt: &(impl Abort + RandomSource), alloc: Global, failing: u64) -> bool {
    let talk = Talk::of(rt, alloc, &[TWO_COMMITS]);
    let life = live(rt, alloc, ALONE, &talk, b"", &[failing]);
    let is_well = life.end == DaemonEnd::Gate(GateFault::Lost);
    assert!(rt; is_well || life.end == DaemonEnd::File(FileFault::Disk));
    is_well
}

/// Has each call of the disk fail in turn, until none fails, and answers how many calls there are.
fn count_of_calls(rt: &(impl Abort + RandomSource), alloc: Global) -> u64 {
    for before in 0..100u64 {
        for choice in CRASHES {
            assert!(rt; crash_leaves_what_was_told(rt, alloc, before + 1, choice));
        }
        if ends_well(rt, alloc, before + 1) {
            return before;
        }
    }
    panic!(rt; "a call fails each time")
}

/// A new file is synced, measured and read, filled and synced, named and synced: 7 calls. Each of the three groups, that of the site's
/// life and those of the commits, is written and synced.
#[test]
fn what_was_told_is_there_whichever_call_failed(rt: HostRuntime) {
    assert_eq!(rt; count_of_calls(&rt, rt.alloc()), 13);
}
