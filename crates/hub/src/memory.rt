//! An edge in memory, which tells of the calls that it saw.

ghost use Rattle.std.specs.Prelude.{◌≡◌, ◌≤◌, [], ◌∷◌, length, take, false, None};
ghost use Rattle.hub.specs.Telling.{Tells};
ghost use Rattle.hub.specs.Memory.{told};

use crate::connections::Connection;
use crate::ports::{PeerNews, Ports, Ready, Seen};
use site_peers::{Failure, Peer};
use std::alloc::Global;
use tardis_base::ByteList;

/// What an edge in memory does in one turn: its offer, and what it gives to the call that takes it up.
#[derive(Drop)]
pub enum Move {
    /// A connection comes through the door of this number, or none comes after all.
    Accept {
        comes: Option<u8>,
    },
    /// These bytes come, as far as there is room.
    Read {
        slot: usize,
        bytes: ByteList,
    },
    /// At most so many bytes are taken.
    Write {
        slot: usize,
        most: usize,
    },
    /// The connection ends.
    Close {
        slot: usize,
    },
    /// This is told of a peer at this time.
    Peer {
        peer: usize,
        now: u64,
        news: PeerNews,
    },
    /// These bytes come of a peer, as far as there is room.
    ReadPeer {
        peer: usize,
        now: u64,
        bytes: ByteList,
    },
    /// At most so many bytes are taken for a peer.
    WritePeer {
        peer: usize,
        now: u64,
        most: usize,
    },
}

/// An edge in memory. It offers its moves in order, and then says stop. To a call that doesn't take up its last offer it
/// gives nothing. It tells of each call that it saw, until it finds no memory to keep one.
#[derive(Drop)]
pub struct MemoryPorts {
    alloc: Global,
    moves: Vec<Move>,
    played: usize,
    seen: Vec<Seen>,
    lost: bool,
}

impl MemoryPorts {
    /// An edge that plays these moves.
    pub fn new(alloc: Global, moves: Vec<Move>) -> MemoryPorts
        ensures none { result.seen.items ≡ [] }
        ensures all { result.lost ≡ false }
    {
        MemoryPorts {
            alloc,
            moves,
            played: 0,
            seen: Vec::new(alloc),
            lost: false,
        }
    }

    /// The calls that were seen, oldest first, unless one couldn't be kept.
    pub fn seen(&self) -> Option<&[Seen]> {
        if self.lost {
            return None;
        }
        Some(self.seen.as_slice())
    }

    /// Keeps a call.
    fn note(&mut self, call: Seen)
        ensures { Tells (told self.old.lost self.old.seen.items) (told self.new.lost self.new.seen.items) (call ∷ []) }
    {
        if self.lost {
            return;
        }
        match self.seen.push(call) {
            Ok(()) => {}
            Err(_) => self.lost = true,
        }
    }

    /// Keeps that there was no memory to keep a call.
    fn lose(&mut self)
        ensures { told self.new.lost self.new.seen.items ≡ None }
    {
        self.lost = true;
    }
}

/// Copies a front of the bytes, as long as there is room.
fn copy_front(bytes: &[u8], buf: &mut [u8]) -> usize
    ensures bound { result ≤ length buf.new }
    ensures room { length buf.new ≡ length buf.old }
{
    let count = bytes.len().min(buf.len());
    buf[..count].copy_from_slice(&bytes[..count]);
    count
}

/// The offer of these news.
fn of_peer(peer: usize, now: u64, news: PeerNews) -> Ready {
    Ready::Peer { peer, now, news }
}

impl Ports for MemoryPorts {
    ghost use Rattle.hub.specs.Memory.{told};

    ghost seen = { λ p. told p.lost p.seen.items };

    fn ready(&mut self, connections: &[Option<Connection>], peers: &[Peer]) -> Ready {
        let _ = connections;
        let _ = peers;
        let offer = match self.moves.get(self.played) {
            None => Ready::Stop,
            Some(Move::Accept { .. }) => Ready::Accept,
            Some(Move::Read { slot, .. }) => Ready::Read(*slot),
            Some(Move::Write { slot, .. }) => Ready::Write(*slot),
            Some(Move::Close { slot }) => Ready::Close(*slot),
            Some(Move::Peer { peer, now, news }) => of_peer(*peer, *now, *news),
            Some(Move::ReadPeer { peer, now, .. }) => of_peer(*peer, *now, PeerNews::Read),
            Some(Move::WritePeer { peer, now, .. }) => of_peer(*peer, *now, PeerNews::Write),
        };
        self.played = self.played.saturating_add(1);
        self.note(Seen::Offered(offer));
        offer
    }

    fn accept(&mut self, slot: usize) -> Option<u8> {
        let came = match self.moves.get(self.played.saturating_sub(1)) {
            Some(Move::Accept { comes }) => *comes,
            _ => None,
        };
        self.note(Seen::Accepted { slot, came });
        came
    }

    fn decline(&mut self) {
        self.note(Seen::Declined);
    }

    #[tactic(auto, using(crate::proofs::Leading::tells_lost))]
    fn read(&mut self, slot: usize, buf: &mut [u8]) -> usize {
        let room = buf.len();
        let count = match self.moves.get(self.played.saturating_sub(1)) {
            Some(Move::Read { bytes, .. }) => copy_front(bytes.as_slice(), buf),
            _ => 0,
        };
        match Vec::from_slice(self.alloc, &buf[..count]) {
            Ok(bytes) => self.note(Seen::ReadFrom {
                slot,
                room,
                bytes: ByteList::from_vec(bytes),
            }),
            Err(_) => self.lose(),
        }
        count
    }

    #[tactic(auto, using(crate::proofs::Leading::tells_lost))]
    fn write(&mut self, slot: usize, bytes: &[u8]) -> usize {
        let count = match self.moves.get(self.played.saturating_sub(1)) {
            Some(Move::Write { most, .. }) => bytes.len().min(*most),
            _ => 0,
        };
        match Vec::from_slice(self.alloc, &bytes[..count]) {
            Ok(taken) => self.note(Seen::WroteTo {
                slot,
                offered: bytes.len(),
                bytes: ByteList::from_vec(taken),
            }),
            Err(_) => self.lose(),
        }
        count
    }

    fn close(&mut self, slot: usize) {
        self.note(Seen::Closed { slot });
    }

    fn call_peer(&mut self, peer: usize) {
        self.note(Seen::CalledPeer { peer });
    }

    fn close_peer(&mut self, peer: usize) {
        self.note(Seen::ClosedPeer { peer });
    }

    #[tactic(auto, using(crate::proofs::Leading::tells_lost))]
    fn read_peer(&mut self, peer: usize, buf: &mut [u8]) -> usize {
        let room = buf.len();
        let count = match self.moves.get(self.played.saturating_sub(1)) {
            Some(Move::ReadPeer { bytes, .. }) => copy_front(bytes.as_slice(), buf),
            _ => 0,
        };
        match Vec::from_slice(self.alloc, &buf[..count]) {
            Ok(bytes) => self.note(Seen::ReadFromPeer {
                peer,
                room,
                bytes: ByteList::from_vec(bytes),
            }),
            Err(_) => self.lose(),
        }
        count
    }

    #[tactic(auto, using(crate::proofs::Leading::tells_lost))]
    fn write_peer(&mut self, peer: usize, bytes: &[u8]) -> usize {
        let count = match self.moves.get(self.played.saturating_sub(1)) {
            Some(Move::WritePeer { most, .. }) => bytes.len().min(*most),
            _ => 0,
        };
        match Vec::from_slice(self.alloc, &bytes[..count]) {
            Ok(taken) => self.note(Seen::WroteToPeer {
                peer,
                offered: bytes.len(),
                bytes: ByteList::from_vec(taken),
            }),
            Err(_) => self.lose(),
        }
        count
    }

    #[tactic(auto, using(crate::proofs::Leading::tells_lost))]
    fn note_reply(&mut self, reply: &[u8]) {
        match Vec::from_slice(self.alloc, reply) {
            Ok(reply) => self.note(Seen::NotedReply {
                reply: ByteList::from_vec(reply),
            }),
            Err(_) => self.lose(),
        }
    }

    fn tell_failure(&mut self, peer: usize, why: Failure) {
        self.note(Seen::ToldFailure { peer, why });
    }
}
