//! A hub over a machine that settles what it answered, until it can't; and over one whose upkeep goes in slices.

ghost use Rattle.std.specs.Prelude.{◌≡◌, ℕ, Bool, false, refl};
ghost use Rattle.std.proofs.Common.{inl};
ghost use Rattle.site_tests.specs.Owing.{first_byte};

use crate::talks::{copied, put_frame};
use hub::{End, MemoryPorts, Move, PeerNews, Scope, Seen, Upkeep, serve};
use rest_machine::{InMemory, Settling};
use std::alloc::Global;
use std::process::Abort;
use tardis_base::{ByteList, Machine, NoMemory, ReplyBuf};
use tardis_io::Failed;

/// As many connections as usual, and no site is fetched from.
const SCOPE: Scope = Scope {
    connections: 256,
    peers: 0,
    seconds: 1,
};

/// Replies one byte to each request, and owes that it is settled. It settles twice, and then fails.
#[derive(Drop)]
struct Owing {
    owed: bool,
    settles: u8,
    faults: u8,
}

impl Settling for Owing {
    ghost use Rattle.site_tests.specs.Owing.{owing};

    ghost Plain = { Bool };

    ghost plain = { owing };

    ghost through = { λ _. owing };

    ghost stands = { λ m s. m.owed ≡ s };

    ghost opening = { λ m. false };

    ghost is_settled = { λ s. s ≡ false };

    ghost settled = { λ s. false };

    ghost faults = { λ m. m.faults };

    fn act(&mut self, actor: u16, request: &[u8], out: &mut ReplyBuf) -> Result<(), NoMemory> {
        let _ = actor;
        let _ = request;
        out.clear();
        out.push_byte(7);
        self.owed = true;
        Ok(())
    }

    fn act_through(
        &mut self,
        door: u8,
        actor: u16,
        request: &[u8],
        out: &mut ReplyBuf,
    ) -> Result<(), NoMemory> {
        let _ = door;
        self.act(actor, request, out)
    }

    fn owes(&self) -> bool {
        self.owed
    }

    fn settle(&mut self) -> Result<(), Failed> {
        if self.settles == 2 {
            self.faults = 1;
            return Err(Failed);
        }
        self.settles = self.settles.saturating_add(1);
        self.owed = false;
        Ok(())
    }

    ghost settles = { λ s. refl };

    ghost guards = { λ door s e. inl refl };
}

/// The same behind doors: what comes through door 0 is let in, and 9 is replied to everything else.
#[derive(Drop)]
struct Guarded {
    owing: Owing,
}

impl Settling for Guarded {
    ghost use Rattle.hub.specs.Doors.{seen_through, seen_guards};
    ghost use Rattle.site_tests.specs.Owing.{owing, first_door};

    ghost Plain = { Bool };

    ghost plain = { owing };

    ghost through = { seen_through owing first_door };

    ghost stands = { λ m s. m.owing.owed ≡ s };

    ghost opening = { λ m. false };

    ghost is_settled = { λ s. s ≡ false };

    ghost settled = { λ s. false };

    ghost faults = { λ m. m.owing.faults };

    fn act(&mut self, actor: u16, request: &[u8], out: &mut ReplyBuf) -> Result<(), NoMemory> {
        self.owing.act(actor, request, out)
    }

    fn act_through(
        &mut self,
        door: u8,
        actor: u16,
        request: &[u8],
        out: &mut ReplyBuf,
    ) -> Result<(), NoMemory> {
        if door == 0 {
            return self.owing.act(actor, request, out);
        }
        out.clear();
        out.push_byte(9);
        Ok(())
    }

    fn owes(&self) -> bool {
        self.owing.owes()
    }

    fn settle(&mut self) -> Result<(), Failed> {
        self.owing.settle()
    }

    ghost settles = { λ s. refl };

    ghost guards = { seen_guards owing first_door };
}

/// A connection in a slot asks for something.
fn asks(rt: &impl Abort, alloc: Global, slot: usize) -> Move {
    let bytes = ByteList::from_vec(copied(rt, alloc, &[0, 0, 0, 1, 1]));
    Move::Read { slot, bytes }
}

/// What an edge does by its letter: connection `a` or `b` asks, or is told under the same large letter; with another one a
/// connection comes, through door 1 where it is `-`.
fn move_of(rt: &impl Abort, alloc: Global, letter: u8) -> Move {
    match letter {
        b'a' => asks(rt, alloc, 0),
        b'b' => asks(rt, alloc, 1),
        b'A' => Move::Write { slot: 0, most: 100 },
        b'B' => Move::Write { slot: 1, most: 100 },
        b'-' => Move::Accept { comes: Some(1) },
        _ => Move::Accept { comes: Some(0) },
    }
}

/// An edge that does what these letters say.
fn edge_of(rt: &impl Abort, alloc: Global, letters: &[u8]) -> MemoryPorts {
    let mut moves = Vec::new(alloc);
    for letter in letters {
        moves.push(move_of(rt, alloc, *letter)).expect(rt, "room");
    }
    MemoryPorts::new(alloc, moves)
}

/// How many of these calls are offers, and how many are writes.
fn counts_of(calls: &[Seen]) -> (usize, usize) {
    let offers = calls.iter().filter(|call| matches!(call, Seen::Offered(_)));
    let writes = calls
        .iter()
        .filter(|call| matches!(call, Seen::WroteTo { .. }));
    (offers.count(), writes.count())
}

/// What a hub makes of an edge that does what the letters say: how it ends, how often it settles, and how many offers and
/// writes the edge sees.
fn came_of(rt: &impl Abort, alloc: Global, letters: &[u8]) -> (End, u8, (usize, usize)) {
    let mut machine = Owing {
        owed: false,
        settles: 0,
        faults: 0,
    };
    let mut ports = edge_of(rt, alloc, letters);
    let end = serve(alloc, &mut machine, &mut ports, None, SCOPE).expect(rt, "memory");
    let counts = counts_of(ports.seen().expect(rt, "memory"));
    drop(ports);
    (end, machine.settles, counts)
}

#[test]
fn what_was_answered_is_settled_before_it_is_told(rt: HostRuntime) {
    let rows: [(&[u8], End, u8, (usize, usize)); 5] = [
        // nothing is told, so nothing is settled
        (b"+Aa", End::Stopped, 0, (4, 0)),
        // once, and all is told
        (b"+aAA", End::Stopped, 1, (5, 1)),
        // once for both that asked before
        (b"++abAB", End::Stopped, 1, (7, 2)),
        (b"++aAbB", End::Stopped, 2, (7, 2)),
        // not a third time: nothing more is told, and nothing more is done
        (b"++aAbBabAB", End::Unsettled, 2, (9, 2)),
    ];
    for (letters, end, settles, counts) in rows {
        assert!(rt; came_of(&rt, rt.alloc(), letters) == (end, settles, counts));
    }
}

/// Whether this byte was written to the connection in the slot, in a frame.
fn is_told(calls: &[Seen], place: usize, reply: u8) -> bool {
    let frame = [0, 0, 0, 1, reply];
    calls.iter().any(|call| {
        matches!(call, Seen::WroteTo { slot, bytes, .. } if *slot == place && bytes.as_slice() == frame.as_slice())
    })
}

#[test]
fn what_a_door_doesnt_let_in_is_answered_there(rt: HostRuntime) {
    let owing = Owing {
        owed: false,
        settles: 0,
        faults: 0,
    };
    let mut machine = Guarded { owing };
    // what only the second door's connection asks changes nothing, so nothing is to be settled
    let mut ports = edge_of(&rt, rt.alloc(), b"+-bB");
    let end = serve(rt.alloc(), &mut machine, &mut ports, None, SCOPE).expect(&rt, "memory");
    assert!(rt; end == End::Stopped && machine.owing.settles == 0);
    assert!(rt; is_told(ports.seen().expect(&rt, "memory"), 1, 9));
    drop(ports);
    let mut ports = edge_of(&rt, rt.alloc(), b"+-abAB");
    let end = serve(rt.alloc(), &mut machine, &mut ports, None, SCOPE).expect(&rt, "memory");
    assert!(rt; end == End::Stopped && machine.owing.settles == 1);
    assert!(rt; is_told(ports.seen().expect(&rt, "memory"), 0, 7));
    assert!(rt; is_told(ports.seen().expect(&rt, "memory"), 1, 9));
    drop(ports);
}

/// So many slices are left of an upkeep, which goes in slices, so many upkeeps were made, and the second bytes of what they asked
/// are these digits. It replies to each connection the first byte of what that asked.
#[derive(Drop)]
struct Slicing {
    left: u8,
    made: u16,
    asked: u64,
}

impl Machine for Slicing {
    ghost use Rattle.site_tests.specs.Owing.{slicing};

    ghost Plain = { ℕ };

    ghost plain = { slicing };

    ghost stands = { λ m s. m.left ≡ s };

    ghost opening = { λ m. 0 };

    fn act(&mut self, actor: u16, request: &[u8], out: &mut ReplyBuf) -> Result<(), NoMemory> {
        out.clear();
        if actor != 0 {
            out.push_byte(first_of(request));
            return Ok(());
        }
        self.made = self.made.saturating_add(1);
        if let [_, digit] = request {
            self.asked = self.asked.saturating_mul(10).saturating_add(*digit as u64);
        }
        if self.left == 0 {
            out.push_byte(0);
        } else {
            out.push_byte(1);
            self.left -= 1;
        }
        Ok(())
    }
}

fn first_of(request: &[u8]) -> u8
    ensures { result ≡ first_byte request.now }
{
    match request {
        [first, ..] => *first,
        [] => 0,
    }
}

/// A connection comes, and then these reads: each brings so many requests which are replied with this byte.
fn reads_of(rt: &impl Abort, alloc: Global, reads: &[(u8, u16)]) -> MemoryPorts {
    let mut moves = Vec::new(alloc);
    moves
        .push(Move::Accept { comes: Some(0) })
        .expect(rt, "room");
    for (code, count) in reads {
        let mut bytes = Vec::new(alloc);
        for _ in 0..*count {
            put_frame(rt, &mut bytes, &[*code], b"");
        }
        let bytes = ByteList::from_vec(bytes);
        moves.push(Move::Read { slot: 0, bytes }).expect(rt, "room");
    }
    MemoryPorts::new(alloc, moves)
}

/// How many upkeeps come of these reads, where so many slices are left at first.
fn upkeeps_of(rt: &impl Abort, alloc: Global, left: u8, reads: &[(u8, u16)]) -> u16 {
    let upkeep = Upkeep {
        codes: &[8, 17],
        after: 64,
        pays: 64,
        requests: &[&[15]],
        full: &[1],
        idle: &[],
        held: &[],
        later: 64,
        soon: u64::MAX,
        late: &[],
        wait: 1,
    };
    let machine = Slicing {
        left,
        made: 0,
        asked: 0,
    };
    let mut machine = InMemory { machine };
    let mut ports = reads_of(rt, alloc, reads);
    let end = serve(alloc, &mut machine, &mut ports, Some(upkeep), SCOPE).expect(rt, "memory");
    assert!(rt; end == End::Stopped);
    drop(ports);
    machine.machine.made
}

#[test]
fn upkeep_is_made_as_often_as_it_is_due(rt: HostRuntime) {
    let rows: [(u8, &[(u8, u16)], u16); 12] = [
        (0, &[(8, 63)], 0),
        (0, &[(8, 64)], 1),
        // another reply counts as well, and a third doesn't
        (0, &[(8, 40), (17, 24)], 1),
        (0, &[(7, 64), (8, 63)], 0),
        // as many as were counted, before the edge is asked again, and what remains stays counted
        (0, &[(8, 130)], 2),
        (0, &[(8, 130), (8, 61)], 2),
        (0, &[(8, 130), (17, 62)], 3),
        (0, &[(8, 1500)], 23),
        // a backlog goes by a slice after each turn, until there is none
        (3, &[(8, 64)], 1),
        (3, &[(8, 64), (7, 1)], 2),
        (3, &[(8, 64), (7, 1), (7, 0), (7, 1)], 4),
        (3, &[(8, 64), (7, 1), (7, 1), (7, 0), (7, 1)], 4),
    ];
    for (left, reads, upkeeps) in rows {
        assert!(rt; upkeeps_of(&rt, rt.alloc(), left, reads) == upkeeps);
    }
}

/// What an edge does: requests come, as many, which are replied with 8; or it tells this time.
#[derive(Clone, Copy)]
enum Step {
    Eights(u16),
    Time(u64),
}

/// A connection comes, and then these.
fn steps_of(rt: &impl Abort, alloc: Global, steps: &[Step]) -> MemoryPorts {
    let mut moves = Vec::new(alloc);
    moves
        .push(Move::Accept { comes: Some(0) })
        .expect(rt, "room");
    for step in steps {
        let next = match step {
            Step::Eights(count) => eights(rt, alloc, *count),
            Step::Time(now) => Move::Peer {
                peer: 0,
                now: *now,
                news: PeerNews::Time,
            },
        };
        moves.push(next).expect(rt, "room");
    }
    MemoryPorts::new(alloc, moves)
}

fn eights(rt: &impl Abort, alloc: Global, count: u16) -> Move {
    let mut bytes = Vec::new(alloc);
    for _ in 0..count {
        put_frame(rt, &mut bytes, &[8], b"");
    }
    Move::Read {
        slot: 0,
        bytes: ByteList::from_vec(bytes),
    }
}

/// What upkeeps ask behind these steps: 1, or 2 and 3 once it has waited. It is held so many times.
fn asked_of(rt: &impl Abort, alloc: Global, left: u8, steps: &[Step]) -> u64 {
    let upkeep = Upkeep {
        codes: &[8],
        after: 2,
        pays: 2,
        requests: &[&[15, 1]],
        full: &[],
        idle: &[],
        held: &[1],
        later: 4,
        soon: 50,
        late: &[&[15, 2], &[15, 3]],
        wait: 10,
    };
    let machine = Slicing {
        left,
        made: 0,
        asked: 0,
    };
    let mut machine = InMemory { machine };
    let mut ports = steps_of(rt, alloc, steps);
    let end = serve(alloc, &mut machine, &mut ports, Some(upkeep), SCOPE).expect(rt, "memory");
    assert!(rt; end == End::Stopped);
    drop(ports);
    machine.machine.asked
}

#[test]
fn what_is_held_is_taken_over_once_it_has_waited(rt: HostRuntime) {
    use Step::{Eights, Time};
    let rows: [(u8, &[Step], u64); 11] = [
        (9, &[Eights(2)], 1),
        // a wait later another is asked, and one more a wait after that; the last one stays
        (9, &[Eights(2), Time(9)], 1),
        (9, &[Eights(2), Time(9), Time(10), Time(19)], 12),
        (9, &[Eights(2), Time(10), Time(20), Time(45)], 123),
        (9, &[Eights(2), Time(45)], 13),
        // the wait begins where it is held first, and an earlier time changes nothing
        (9, &[Time(100), Eights(2), Time(50), Time(109)], 1),
        (9, &[Time(100), Eights(2), Time(50), Time(110)], 12),
        // it ends with another reply, and then as many replies as ever are enough
        (1, &[Eights(2), Time(10), Time(20), Eights(2)], 121),
        // while it lasts more of them are wanted, or more time
        (9, &[Eights(2), Eights(3), Eights(1)], 11),
        (9, &[Eights(2), Time(45), Eights(2), Time(94)], 13),
        (9, &[Eights(2), Time(45), Eights(2), Time(95)], 133),
    ];
    for (left, steps, asked) in rows {
        assert!(rt; asked_of(&rt, rt.alloc(), left, steps) == asked);
    }
}
