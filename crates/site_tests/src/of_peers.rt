//! A hub that fetches from a peer, beside a client: until what was answered can't be settled.

ghost use Rattle.std.specs.Prelude.{◌≡◌, ◌==◌, ◌∷◌, [], ℕ, Bool, true, false, length, if◌then◌else◌};
ghost use Rattle.std.specs.Prelude.{refl};
ghost use Rattle.std.proofs.Common.{inl};

use hub::{End, MemoryPorts, Move, PeerNews, Scope, Seen, Upkeep, serve};
use rest_machine::Settling;
use std::alloc::Global;
use std::process::Abort;
use tardis_base::{ByteList, NoMemory, ReplyBuf};
use tardis_io::Failed;

/// Replies to Stat that of the only site 3 states are known, to what has three bytes that a peer is met, and to everything else that it
/// was applied. It owes that this is settled, and settles so often.
#[derive(Drop)]
struct Owing {
    owed: bool,
    settles: u8,
    asked: u8,
}

impl Settling for Owing {
    ghost Plain = { Bool };

    ghost plain = { record {
      step = λ s e. true;
      reply = λ s e. if length e.1 == 1 then 14 ∷ 0 ∷ 0 ∷ 0 ∷ 0 ∷ 0 ∷ 0 ∷ 0 ∷ 3 ∷ 0 ∷ 0 ∷ 0 ∷ 3 ∷ 0 ∷ 0 ∷ 0 ∷ 1 ∷ 0 ∷ 0 ∷ 1 ∷ 0 ∷ 0 ∷ 0 ∷ 3 ∷ 0 ∷ 0 ∷ 0 ∷ 0 ∷ 0 ∷ 0 ∷ 0 ∷ 0 ∷ 0 ∷ 0 ∷ [] else if length e.1 == 3 then 72 ∷ 0 ∷ [] else 17 ∷ [];
      is_sure = λ e. true;
    } };

    ghost through = { λ _. record {
      step = λ s e. true;
      reply = λ s e. if length e.1 == 1 then 14 ∷ 0 ∷ 0 ∷ 0 ∷ 0 ∷ 0 ∷ 0 ∷ 0 ∷ 3 ∷ 0 ∷ 0 ∷ 0 ∷ 3 ∷ 0 ∷ 0 ∷ 0 ∷ 1 ∷ 0 ∷ 0 ∷ 1 ∷ 0 ∷ 0 ∷ 0 ∷ 3 ∷ 0 ∷ 0 ∷ 0 ∷ 0 ∷ 0 ∷ 0 ∷ 0 ∷ 0 ∷ 0 ∷ 0 ∷ [] else if length e.1 == 3 then 72 ∷ 0 ∷ [] else 17 ∷ [];
      is_sure = λ e. true;
    } };

    ghost stands = { λ m s. m.owed ≡ s };

    ghost opening = { λ m. false };

    ghost is_settled = { λ s. s ≡ false };

    ghost settled = { λ s. false };

    ghost faults = { λ m. 1 };

    fn act(&mut self, actor: u16, request: &[u8], out: &mut ReplyBuf) -> Result<(), NoMemory> {
        let _ = actor;
        self.asked = self.asked.saturating_add(1);
        self.owed = true;
        out.clear();
        if request.len() == 1 {
            out.push(&STATISTICS);
        } else if request.len() == 3 {
            out.push(&[72, 0]);
        } else {
            out.push(&[17]);
        }
        Ok(())
    }

    fn act_through(
        &mut self,
        door: u8,
        actor: u16,
        request: &[u8],
        out: &mut ReplyBuf,
    ) -> Result<(), NoMemory> {
        let _ = door;
        self.act(actor, request, out)
    }

    fn owes(&self) -> bool {
        self.owed
    }

    fn settle(&mut self) -> Result<(), Failed> {
        if self.settles == 0 {
            return Err(Failed);
        }
        self.settles -= 1;
        self.owed = false;
        Ok(())
    }

    ghost settles = { λ s. refl };

    ghost guards = { λ door s e. inl refl };
}

const STATISTICS: [u8; 34] = [
    14, 0, 0, 0, 0, 0, 0, 0, 3, 0, 0, 0, 3, 0, 0, 0, 1, 0, 0, 1, 0, 0, 0, 3, 0, 0, 0, 0, 0, 0, 0,
    0, 0, 0,
];

/// A batch of two records, which delete a key each, and of one consent; in its frame.
const BATCH: [u8; 58] = [
    0, 0, 0, 54, 16, 0, 2, 0, 2, 0, 0, 0, 1, 1, 0, 0, 0, 0, 0, 0, 1, 1, 97, 0, 0, 2, 0, 0, 0, 2, 1,
    0, 2, 0, 0, 0, 1, 1, 1, 98, 0, 1, 0, 2, 0, 0, 0, 1, 0, 0, 0, 0, 0, 0, 0, 0, 0, 2,
];

fn bytes_of(rt: &impl Abort, alloc: Global, bytes: &[u8]) -> ByteList {
    ByteList::from_vec(Vec::from_slice(alloc, bytes).expect(rt, "room"))
}

/// What an edge does by its letter: the time of peer 0 is told, its call comes through, it is over, it introduces itself, it answers, or
/// takes bytes; so is the time of peer 3, which isn't there; or a connection comes, asks, or is told.
fn move_of(rt: &impl Abort, alloc: Global, letter: u8, now: u64) -> Move {
    let peer = 0;
    match letter {
        b't' => Move::Peer {
            peer,
            now,
            news: PeerNews::Time,
        },
        b'c' => Move::Peer {
            peer,
            now,
            news: PeerNews::Through,
        },
        b'o' => Move::Peer {
            peer,
            now,
            news: PeerNews::Over,
        },
        b'r' => Move::ReadPeer {
            peer,
            now,
            bytes: bytes_of(rt, alloc, &BATCH),
        },
        b'i' => Move::ReadPeer {
            peer,
            now,
            bytes: bytes_of(rt, alloc, &[0, 0, 0, 2, 71, 7]),
        },
        b'w' => Move::WritePeer {
            peer,
            now,
            most: 100,
        },
        b'3' => Move::Peer {
            peer: 3,
            now,
            news: PeerNews::Time,
        },
        b'a' => Move::Read {
            slot: 0,
            bytes: bytes_of(rt, alloc, &[0, 0, 0, 2, 1, 1]),
        },
        b'A' => Move::Write { slot: 0, most: 100 },
        _ => Move::Accept { comes: Some(0) },
    }
}

/// The letter of a call that the edge saw, if it is more than an offer; of what the hub asked itself each reply is one.
fn letter_of(call: &Seen) -> Option<u8> {
    match call {
        Seen::CalledPeer { peer: 0 } => Some(b'c'),
        Seen::ClosedPeer { peer: 0 } => Some(b'x'),
        Seen::ReadFromPeer { peer: 0, .. } => Some(b'r'),
        Seen::WroteToPeer {
            peer: 0,
            offered: 5,
            ..
        } => Some(b'g'),
        Seen::WroteToPeer {
            peer: 0,
            offered: 10,
            ..
        } => Some(b'w'),
        Seen::ToldFailure { peer: 0, .. } => Some(b'!'),
        Seen::Accepted { .. } => Some(b'+'),
        Seen::ReadFrom { .. } => Some(b'a'),
        Seen::WroteTo { .. } => Some(b'A'),
        Seen::NotedReply { .. } => Some(b'u'),
        Seen::Offered(_) => None,
        _ => Some(b'?'),
    }
}

/// What a hub with a peer makes of an edge that does what the letters say, 500 milliseconds apart: how it ends, how often the
/// machine was asked, and the letters of the calls that the edge saw.
fn came_of(rt: &impl Abort, alloc: Global, letters: &[u8], settles: u8) -> (End, u8, Vec<u8>) {
    let mut moves = Vec::new(alloc);
    let mut now: u64 = 0;
    for letter in letters {
        now = now.saturating_add(500);
        moves
            .push(move_of(rt, alloc, *letter, now))
            .expect(rt, "room");
    }
    let mut ports = MemoryPorts::new(alloc, moves);
    let mut machine = Owing {
        owed: false,
        settles,
        asked: 0,
    };
    let upkeep = Upkeep {
        codes: &[17],
        after: 3,
        pays: 3,
        requests: &[&[15, 0], &[15, 1]],
        full: &[1],
        idle: &[],
        held: &[],
        later: 3,
        soon: u64::MAX,
        late: &[],
        wait: 1,
    };
    let scope = Scope {
        connections: 256,
        peers: 1,
        seconds: 5,
    };
    let end = serve(alloc, &mut machine, &mut ports, Some(upkeep), scope).expect(rt, "memory");
    let mut seen = Vec::new(alloc);
    for call in ports.seen().expect(rt, "memory") {
        if let Some(letter) = letter_of(call) {
            seen.push(letter).expect(rt, "room");
        }
    }
    drop(ports);
    (end, machine.asked, seen)
}

#[test]
fn a_peer_is_fetched_from_beside_a_client(rt: HostRuntime) {
    let rows: [(&[u8], u8, End, u8, &[u8]); 7] = [
        // a peer is met, and an exchange made: Stat and three items, and for their replies an upkeep of two requests
        (b"tcwitwrt", 9, End::Stopped, 7, b"cgrwruu"),
        // beside a client, whose reply counts as well; nothing is done for a peer that isn't there, nor where it has nothing to do
        (b"+3rwtacwitwArtA", 9, End::Stopped, 8, b"+cagrwAruu"),
        // its call fails twice, which is told once, and it is called again after a second
        (b"totttotttt", 9, End::Stopped, 0, b"cx!cxc"),
        // the question waits for the settling, and isn't written without; nor is the first one behind a client's request
        (b"tcwitwrt", 0, End::Unsettled, 2, b"cgr"),
        (b"+atcw", 0, End::Unsettled, 1, b"+ac"),
        // one settling serves the client and the peer
        (b"+tcwitawA", 1, End::Stopped, 3, b"+cgrawA"),
        (b"+tcwitaAw", 1, End::Stopped, 3, b"+cgraAw"),
    ];
    for (letters, settles, end, asked, seen) in rows {
        let (ended, came, calls) = came_of(&rt, rt.alloc(), letters, settles);
        assert!(rt; ended == end && came == asked);
        assert!(rt; calls.as_slice() == seen);
    }
}
