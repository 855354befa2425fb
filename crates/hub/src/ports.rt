//! The edge of a hub: connections that come, are ready, and end.

ghost use Rattle.std.specs.Prelude.{◌≡◌, ◌≤◌, List, [], ◌∷◌, Option, length, take};
ghost use Rattle.hub.specs.Telling.{Tells};

use crate::connections::Connection;
use site_peers::{Failure, Peer};
use tardis_base::ByteList;

/// How many a hub has to do with: so many connections at once; and so many peers, numbered from 0 on, from each of which it fetches
/// every so many seconds. With no peers nothing is fetched.
#[derive(Clone, Copy)]
pub struct Scope {
    pub connections: u16,
    pub peers: u8,
    pub seconds: u32,
}

/// What the edge tells of a peer.
#[derive(Clone, Copy, PartialEq, Eq)]
pub enum PeerNews {
    /// The time alone.
    Time,
    /// Its call came through.
    Through,
    /// Its call failed, or its connection is over.
    Over,
    /// Bytes may have come of it.
    Read,
    /// It may take bytes.
    Write,
}

/// What is ready at the edge.
#[derive(Clone, Copy)]
pub enum Ready {
    /// A connection may have come.
    Accept,
    /// Bytes may have come of the connection in this slot.
    Read(usize),
    /// The connection in this slot may take bytes.
    Write(usize),
    /// The connection in this slot is over.
    Close(usize),
    /// This is so of the peer of this number, by the edge's clock, in milliseconds.
    Peer {
        peer: usize,
        now: u64,
        news: PeerNews,
    },
    /// The hub is to end.
    Stop,
}

/// A call that the edge saw, as it tells of it.
#[derive(Drop)]
pub enum Seen {
    /// It was asked what is ready, and offered this.
    Offered(Ready),
    /// It was to bring a connection into the slot, and one came through the door of this number, or none came.
    Accepted {
        slot: usize,
        came: Option<u8>,
    },
    /// It was to turn a connection away.
    Declined,
    /// It was to give bytes of the connection in the slot into so much room, and gave these.
    ReadFrom {
        slot: usize,
        room: usize,
        bytes: ByteList,
    },
    /// It was offered so many bytes for the connection in the slot, and took these.
    WroteTo {
        slot: usize,
        offered: usize,
        bytes: ByteList,
    },
    /// It was to end the connection in the slot.
    Closed {
        slot: usize,
    },
    /// It was to call the peer.
    CalledPeer {
        peer: usize,
    },
    /// It was to end the connection to the peer, or to give the call up.
    ClosedPeer {
        peer: usize,
    },
    /// It was to give bytes of the peer into so much room, and gave these.
    ReadFromPeer {
        peer: usize,
        room: usize,
        bytes: ByteList,
    },
    /// It was offered so many bytes for the peer, and took these.
    WroteToPeer {
        peer: usize,
        offered: usize,
        bytes: ByteList,
    },
    /// It was told the reply to a request that the hub asked itself.
    NotedReply {
        reply: ByteList,
    },
    /// It was to tell why the exchange with the peer failed.
    ToldFailure {
        peer: usize,
        why: Failure,
    },
}

/// The edge, which holds the connections, those to peers too. It may tell of the calls that it saw.
pub trait Ports {
    ghost use Rattle.hub.specs.declared.ports.Seen.{Seen};

    ghost seen: { Self → Option (List Seen) };

    /// Waits until something is ready. The connections show what each wants: whether more is read of it and what
    /// waits to be written to it; and the peers what is read of them, what waits, and for how long the time says nothing.
    /// Nothing is promised of what is offered.
    fn ready(&mut self, connections: &[Option<Connection>], peers: &[Peer]) -> Ready
        ensures told { Tells (seen self.old) (seen self.new) (Seen.Offered result ∷ []) };

    /// Brings the next connection into the slot, and answers the number of the door through which it came. `None` means that
    /// none came after all.
    fn accept(&mut self, slot: usize) -> Option<u8>
        ensures told { Tells (seen self.old) (seen self.new) (Seen.Accepted slot result ∷ []) };

    /// Turns the next connection away.
    fn decline(&mut self)
        ensures told { Tells (seen self.old) (seen self.new) (Seen.Declined ∷ []) };

    /// Gives bytes that came of the connection in the slot, and answers how many. 0 means that none came for now.
    fn read(&mut self, slot: usize, buf: &mut [u8]) -> usize
        ensures bound { result ≤ length buf.new }
        ensures room { length buf.new ≡ length buf.old }
        ensures told { Tells (seen self.old) (seen self.new) (Seen.ReadFrom slot (length buf.old) (take result buf.new) ∷ []) };

    /// Takes a front of the bytes for the connection in the slot, and answers how many. 0 means none for now.
    fn write(&mut self, slot: usize, bytes: &[u8]) -> usize
        ensures bound { result ≤ length bytes.now }
        ensures told { Tells (seen self.old) (seen self.new) (Seen.WroteTo slot (length bytes.now) (take result bytes.now) ∷ []) };

    /// Ends the connection in the slot.
    fn close(&mut self, slot: usize)
        ensures told { Tells (seen self.old) (seen self.new) (Seen.Closed slot ∷ []) };

    /// Begins to call the peer. That it came through, or that it failed, is offered later.
    fn call_peer(&mut self, peer: usize)
        ensures told { Tells (seen self.old) (seen self.new) (Seen.CalledPeer peer ∷ []) };

    /// Ends the connection to the peer, or gives the call up.
    fn close_peer(&mut self, peer: usize)
        ensures told { Tells (seen self.old) (seen self.new) (Seen.ClosedPeer peer ∷ []) };

    /// Gives bytes that came of the peer, and answers how many. 0 means that none came for now.
    fn read_peer(&mut self, peer: usize, buf: &mut [u8]) -> usize
        ensures bound { result ≤ length buf.new }
        ensures room { length buf.new ≡ length buf.old }
        ensures told { Tells (seen self.old) (seen self.new) (Seen.ReadFromPeer peer (length buf.old) (take result buf.new) ∷ []) };

    /// Takes a front of the bytes for the peer, and answers how many. 0 means none for now.
    fn write_peer(&mut self, peer: usize, bytes: &[u8]) -> usize
        ensures bound { result ≤ length bytes.now }
        ensures told { Tells (seen self.old) (seen self.new) (Seen.WroteToPeer peer (length bytes.now) (take result bytes.now) ∷ []) };

    /// Is told the reply to a request that the hub asked itself, which goes to no connection; so it may tell somebody what it says.
    fn note_reply(&mut self, reply: &[u8])
        ensures told { Tells (seen self.old) (seen self.new) (Seen.NotedReply reply.now ∷ []) };

    /// Tells somebody why the exchange with the peer failed. The connection was closed before.
    fn tell_failure(&mut self, peer: usize, why: Failure)
        ensures told { Tells (seen self.old) (seen self.new) (Seen.ToldFailure peer why ∷ []) };
}
