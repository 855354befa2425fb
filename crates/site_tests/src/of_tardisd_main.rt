use crate::disks::store_of;
use crate::sites::keys;
use crate::talks::bytes_of;
use command_words::Place;
use daemon_words::{Capacity, DaemonPlan, DoorKind, DoorPlan};
use hub::{End, MemoryPorts, Move, Seen};
use memory_io::MemorySink;
use std::alloc::Global;
use std::process::Abort;
use std::random::RandomSource;
use tardis_base::{ByteList, NoMemory};
use tardisd_main::{
    DaemonEnd, Doors, FileFault, FoundSite, GateFault, plan_of, serve_place, tardisd,
};

/// The place of the site.
const PLACE: Place = Place { sites: 3, site: 2 };

/// Words of a server with two doors, that fetches from two peers and joins leaves after a time, and for how much it has room.
const LINE: &str = concat!(
    "--site 2 --tidy --listen unix:s --peers unix:p --sites 3 --peer unix:k --peer k:1 --every 60 --mode 0660 --idle 600 ",
    "--connections 5 --states 65000 --sessions 4096 --rules k/=set --join-after 9"
);

const CAPACITY: Capacity = Capacity {
    states: 65_000,
    sessions: 4_096,
    connections: 5,
};

/// The words of a line.
pub(crate) fn words_of(rt: &impl Abort, alloc: Global, line: &str) -> Vec<String> {
    let mut words = Vec::new(alloc);
    for word in line.split_whitespace() {
        let word = String::from_str(alloc, word).expect(rt, "room");
        words.push(word).expect(rt, "room");
    }
    words
}

/// Whether the doors are one for all at `unix:s` and then one for other sites at `unix:p`.
fn are_these(doors: &[DoorPlan<'_>]) -> bool {
    match doors {
        [first, second] => is_door(first, DoorKind::All, "unix:s")
            && is_door(second, DoorKind::Peers, "unix:p"),
        _ => false,
    }
}

/// Whether a door is of this kind, and at this address.
fn is_door(door: &DoorPlan<'_>, kind: DoorKind, address: &str) -> bool {
    door.kind == kind && door.address == address
}

/// Whether the peers are those at `unix:k` and `k:1`.
fn are_peers(peers: &[&str]) -> bool {
    match peers {
        [first, second] => *first == "unix:k" && *second == "k:1",
        _ => false,
    }
}

/// Whether a plan is to collect states at the place, to listen at the doors and to fetch from the peers.
fn is_planned(plan: &DaemonPlan<'_>) -> bool {
    let is_fetching = are_peers(plan.peers.as_slice()) && plan.every == 60 && plan.join_after == 9;
    let is_of_sockets = plan.mode == 0o660 && plan.idle == Some(600);
    let is_of_site = plan.place == PLACE && plan.tidy && plan.capacity == CAPACITY;
    are_these(plan.doors.as_slice()) && is_of_site && is_fetching && is_of_sockets
}

/// Whether the words are such a plan.
fn are_planned(alloc: Global, words: &[String]) -> bool {
    match plan_of(alloc, words) {
        Ok(plan) => is_planned(&plan),
        Err(_) => false,
    }
}

/// Whether the words have none of the forms.
fn are_refused(alloc: Global, words: &[String]) -> bool {
    match plan_of(alloc, words) {
        Ok(_) => false,
        Err(refused) => refused == DaemonEnd::Usage,
    }
}

/// Words that have no form: without a door; an option that speaks of something which isn't there; a mode or a number of no range; a
/// peer without a path; a number that is there twice; a sixteenth peer; and two options that contradict each other.
const UNPLANNED: [&str; 17] = [
    "--sites 2",
    "--listen h:1 --tidy --keep-history",
    "--listen h:1 --join-after 5",
    "--listen unix:s --every 5",
    "--listen h:1 --mode 0600",
    "--listen unix:s --mode 0680",
    "--listen unix:s --mode 00600",
    "--listen unix:s --idle 0",
    "--listen unix:s --peer k:1 --every 86401",
    "--listen unix:s --peer unix:",
    "--listen unix:s --states 0",
    "--listen unix:s --states 65001",
    "--listen unix:s --sessions 4097",
    "--listen unix:s --connections 0",
    "--listen unix:s --connections 4097",
    "--listen unix:s --connections 2 --connections 2",
    "--listen h:1 --peer a:1 --peer a:1 --peer a:1 --peer a:1 --peer a:1 --peer a:1 --peer a:1 --peer a:1 --peer a:1 --peer a:1 --peer a:1 --peer a:1 --peer a:1 --peer a:1 --peer a:1 --peer a:1",
];

#[test]
fn words_are_a_plan_or_refused(rt: HostRuntime) {
    let words = words_of(&rt, rt.alloc(), LINE);
    assert!(rt; are_planned(rt.alloc(), words.as_slice()));
    for line in UNPLANNED {
        let words = words_of(&rt, rt.alloc(), line);
        assert!(rt; are_refused(rt.alloc(), words.as_slice()));
    }
}

/// Doors behind which nobody is, which know whether they were opened, and announced for the place.
#[derive(Drop)]
struct NotingDoors {
    alloc: Global,
    is_opened: bool,
    is_announced: bool,
}

impl Doors for NotingDoors {
    type Ports = MemoryPorts;

    ghost opens = { λ asked opened. Unit {0} };

    fn open(&mut self, plan: &DaemonPlan<'_>) -> Result<MemoryPorts, GateFault> {
        self.is_opened = is_planned(plan);
        Ok(MemoryPorts::new(self.alloc, Vec::new(self.alloc)))
    }

    fn announce(&mut self, plan: &DaemonPlan<'_>, found: Option<FoundSite>) {
        self.is_announced = self.is_opened && is_planned(plan) && found.is_none();
    }
}

/// Whether these words end so, and write this.
fn end_as(
    rt: &(impl Abort + RandomSource),
    alloc: Global,
    line: &str,
    doors: &mut NotingDoors,
    end: DaemonEnd,
    written: &[u8],
) -> bool {
    let words = words_of(rt, alloc, line);
    let mut store = store_of(rt, alloc, b"", &[]);
    let mut output = MemorySink::new(alloc, 100, 100, &[]).expect(rt, "room");
    let ended = tardisd(
        alloc,
        keys(rt),
        [7; 16],
        words.as_slice(),
        doors,
        &mut store,
        &mut output,
    );
    let is_right = ended == end && output.bytes() == written;
    drop(output);
    drop(store);
    is_right
}

#[test]
fn words_are_carried_out(rt: HostRuntime) {
    let mut doors = NotingDoors {
        alloc: rt.alloc(),
        is_opened: false,
        is_announced: false,
    };
    let told = b"tardisd 0.1.0\n";
    assert!(rt;
        end_as(
            &rt,
            rt.alloc(),
            "--version",
            &mut doors,
            DaemonEnd::Told,
            told
        )
    );
    assert!(rt;
        end_as(
            &rt,
            rt.alloc(),
            "--sites 2",
            &mut doors,
            DaemonEnd::Usage,
            b""
        )
    );
    assert!(rt; !doors.is_opened);
    let lost = DaemonEnd::Gate(GateFault::Lost);
    assert!(rt; end_as(&rt, rt.alloc(), LINE, &mut doors, lost, b""));
    assert!(rt; doors.is_announced);
    drop(doors);
}

/// Whether the end is told by the line, and is the number of the program's status.
fn is_told(rt: &impl Abort, alloc: Global, end: DaemonEnd, line: &str, number: u8) -> bool {
    let told = format!(in alloc; "{end}").expect(rt, "room");
    told.as_str() == line && end.number() == number
}

#[test]
fn an_end_has_a_line_and_a_number(rt: HostRuntime) {
    let in_use = DaemonEnd::Gate(GateFault::InUse);
    let line = "tardisd: gate fault: another server listens there";
    assert!(rt; is_told(&rt, rt.alloc(), in_use, line, 7));
    let line = "tardisd: out of memory";
    assert!(rt; is_told(&rt, rt.alloc(), DaemonEnd::NoMemory, line, 6));
    let other = DaemonEnd::File(FileFault::OtherSite(PLACE));
    let line =
        "tardisd: the file is that of site 2 of 3, and was left as it is: start it with --sites 3 --site 2";
    assert!(rt; is_told(&rt, rt.alloc(), other, line, 13));
    let locked = DaemonEnd::File(FileFault::InUse);
    let line = "tardisd: another server has the file: end that one, or name another file";
    assert!(rt; is_told(&rt, rt.alloc(), locked, line, 10));
}

/// A session that puts a key and commits, as frames of a connection.
const ASKED: &str = "000000020100000000020200000000060401780001310000000406010000";

/// What it is to be told by site 2.
const TOLD: &str = concat!(
    "000000070100000000000000000007020000000000000000000107",
    "0000000e0800020000000101000000000000"
);

/// A connection comes, asks, and is told.
fn moves(rt: &impl Abort, alloc: Global) -> Vec<Move> {
    let asked = ByteList::from_vec(bytes_of(rt, alloc, ASKED));
    let moves = [
        Move::Accept { comes: Some(0) },
        Move::Read {
            slot: 0,
            bytes: asked,
        },
        Move::Write { slot: 0, most: 100 },
    ];
    Vec::from_array(alloc, moves).expect(rt, "room")
}

/// Whether a site at the place serves this edge until it says stop.
fn is_served(rt: &(impl Abort + RandomSource), alloc: Global, ports: &mut MemoryPorts) -> bool {
    let words = words_of(rt, alloc, LINE);
    match plan_of(alloc, words.as_slice()) {
        Ok(plan) => is_stopped(serve_place(alloc, keys(rt), [7; 16], &plan, ports)),
        Err(_) => false,
    }
}

/// Whether the edge said stop.
fn is_stopped(end: Result<End, NoMemory>) -> bool {
    match end {
        Ok(end) => end == End::Stopped,
        Err(NoMemory) => false,
    }
}

/// How many of the calls took these bytes.
fn count_of_writes(calls: &[Seen], told: &[u8]) -> usize {
    let wrote = calls.iter().filter(
        |call| matches!(call, Seen::WroteTo { bytes, .. } if bytes.as_slice() == told),
    );
    wrote.count()
}

/// How often the edge took what was to be told.
fn count_told(rt: &impl Abort, alloc: Global, ports: &MemoryPorts) -> usize {
    let told = bytes_of(rt, alloc, TOLD);
    let calls = ports.seen().expect(rt, "memory");
    count_of_writes(calls, told.as_slice())
}

#[test]
fn a_site_is_served_at_its_place(rt: HostRuntime) {
    let mut ports = MemoryPorts::new(rt.alloc(), moves(&rt, rt.alloc()));
    assert!(rt; is_served(&rt, rt.alloc(), &mut ports));
    assert_eq!(rt; count_told(&rt, rt.alloc(), &ports), 1);
    drop(ports);
}

/// So many connections come.
fn comers(rt: &impl Abort, alloc: Global, count: u16) -> Vec<Move> {
    let mut moves = Vec::new(alloc);
    for _ in 0..count {
        moves
            .push(Move::Accept { comes: Some(0) })
            .expect(rt, "room");
    }
    moves
}

/// How many connections came in, and how many were turned away.
fn come_and_go(calls: &[Seen]) -> (usize, usize) {
    let came = calls.iter().filter(|call| matches!(call, Seen::Accepted { came: Some(_), .. }));
    let declined = calls.iter().filter(|call| matches!(call, Seen::Declined));
    (came.count(), declined.count())
}

/// The same of an edge.
fn count_comers(rt: &impl Abort, ports: &MemoryPorts) -> (usize, usize) {
    come_and_go(ports.seen().expect(rt, "memory"))
}

#[test]
fn the_sixth_connection_of_five_waits(rt: HostRuntime) {
    let mut ports = MemoryPorts::new(rt.alloc(), comers(&rt, rt.alloc(), 6));
    assert!(rt; is_served(&rt, rt.alloc(), &mut ports));
    assert!(rt; count_comers(&rt, &ports) == (5, 0));
    drop(ports);
}
