//! The edge of a hub over sockets.

ghost use Rattle.std.specs.Prelude.{◌≡◌, ◌≤◌, ◌∷◌, [], None, length, take};

use crate::clocks::Stopwatch;
use crate::doors::{Door, is_passing};
use crate::idles::Idle;
use crate::lines::Line;
use crate::plugs::{Plug, Work};
use crate::rooms::{Held, Room, RoomPlan};
use crate::slots::Slots;
use crate::streams::Stream;
use crate::watches::{Holding, Watch};
use hub::{Connection, PeerNews, Ports, Ready, SLOTS};
use mio::{Events, Poll, Token};
use site_peers::{Failure, Peer};
use std::alloc::Global;
use std::io;
use std::net::Net;
use std::time::{Clock, Duration};
use talk_bytes::read_reply;
use tardis_base::Reply;

/// The name of the first door among the events of the system; those of the others follow, and then those of the peers. The connections
/// have their slots' numbers.
const FIRST_DOOR: usize = SLOTS;

/// So many events are taken at once. What is left comes the next time.
const MOST_EVENTS: usize = 1_024;

/// So many connections that find no room are told so at once. What is left comes in the next round.
const MOST_TURNED_AWAY: usize = 64;

/// What is offered now.
#[derive(Clone, Copy, PartialEq, Eq)]
enum Step {
    /// The doors.
    Admit,
    /// What may be read.
    Read,
    /// What may be read of peers, and what became of calls.
    Fetch,
    /// The time, to one peer of which it says something.
    Tick,
    /// What may be written, and what is over.
    Write,
    /// What may be written to peers.
    Ask,
}

/// The connections that came through doors, and those to peers, offered in rounds. A round begins with what the system tells by then. A
/// connection that waits at a door is offered first, of the doors one after another; then one read of each connection that may give bytes,
/// and one of each peer, or what became of its call; then the time to one peer of which it says something, of the peers one after another, so that
/// clients wait for the delivery of no more than one turn's items; and then one write to each connection and each peer for which bytes wait. So
/// what is answered in a round can be settled at once for all, and neither a connection nor a peer keeps the
/// others waiting for longer than a round. When a client has sent all, its connection ends once its replies are written. One that asked
/// nothing for too long, and took nothing of its replies, is offered as over.
///
/// A connection for which there is no slot is told so by one frame, and ended; it isn't offered, so nobody else sees it.
///
/// A round costs as much as there are connections with something to do. Those that ask nothing are looked at once a second at most, and
/// that only where one may ask nothing for too long.
///
/// It tells nothing of what it saw, but for what becomes of peers, and ends only where the system can't be waited for.
#[derive(Drop)]
pub struct SocketPorts<'a, R, W> {
    rt: &'a R,
    alloc: Global,
    poll: Poll,
    events: Events,
    doors: Vec<Door>,
    /// The door whose turn is next.
    turn: usize,
    /// So many connections may be there, and each has a slot.
    connections: u16,
    plugs: Vec<Option<Plug>>,
    /// How many connections there are.
    open: usize,
    /// The slots of the connections that may have something to do. The others have nothing to do, until the system tells of them.
    busy: Slots,
    step: Step,
    /// The place among the busy ones, or the peer, whose turn is next in this step.
    next: usize,
    lines: Vec<Line>,
    /// The peer that is told the time next, if that says something.
    due: usize,
    /// When a connection is over that asked nothing.
    idle: Option<Idle>,
    /// The slot of which a read was offered, and how many bytes waited to be written to it then.
    heard: Option<(usize, usize)>,
    clock: Stopwatch,
    /// What was told of how many states are kept, and of what keeps them from being collected.
    room: Room,
    watch: W,
}

impl<'a, R: Net + Clock, W: Watch + Drop> SocketPorts<'a, R, W> {
    /// The connections that will come through these doors, so many at once, and those to peers at these addresses. A connection that
    /// asked nothing for so many seconds is ended, within a second behind that. The room of the site is told of as `room` says.
    pub fn new(
        rt: &'a R,
        alloc: Global,
        doors: Vec<Door>,
        peers: Vec<String>,
        connections: u16,
        idle: Option<u32>,
        room: RoomPlan,
        watch: W,
    ) -> io::Result<SocketPorts<'a, R, W>> {
        let poll = Poll::new(rt)?;
        let events = Events::with_capacity(alloc, MOST_EVENTS)?;
        let mut doors = doors;
        let mut token = FIRST_DOOR;
        for door in doors.iter_mut() {
            door.register(poll.registry(), Token(token))?;
            token = token.saturating_add(1);
        }
        let mut lines = Vec::new(alloc);
        for address in peers {
            lines.push(Line::new(address, Token(token)))?;
            token = token.saturating_add(1);
        }
        let count = connections as usize;
        let mut plugs = Vec::with_capacity(alloc, count)?;
        for _ in 0..count {
            plugs.push(None)?;
        }
        let idle = match idle {
            Some(seconds) => Some(Idle::new(seconds)),
            None => None,
        };
        Ok(SocketPorts {
            rt,
            alloc,
            poll,
            events,
            doors,
            turn: 0,
            connections,
            plugs,
            open: 0,
            busy: Slots::new(alloc, count)?,
            step: Step::Admit,
            next: 0,
            lines,
            due: 0,
            idle,
            heard: None,
            clock: Stopwatch::new(rt)?,
            room: Room::new(room),
            watch,
        })
    }

    /// What is next in this round, if anything is left of it.
    fn offer(&mut self, connections: &[Option<Connection>], peers: &[Peer]) -> Option<Ready> {
        if self.step == Step::Admit {
            self.go_to(Step::Read);
            if self.is_knocked() && !self.is_full() {
                return Some(Ready::Accept);
            }
        }
        if self.step == Step::Read {
            if let Some(slot) = self.next_read(connections) {
                return Some(Ready::Read(slot));
            }
            self.go_to(Step::Fetch);
        }
        if let Some(offer) = self.offer_of_peers(peers) {
            return Some(offer);
        }
        if self.step == Step::Write {
            if let Some(offer) = self.next_end(connections) {
                return Some(offer);
            }
            self.go_to(Step::Ask);
        }
        self.next_ask(peers)
    }

    /// What is next of the peers, if it is their turn, but for what may be written to them.
    fn offer_of_peers(&mut self, peers: &[Peer]) -> Option<Ready> {
        if self.step == Step::Fetch {
            if let Some(offer) = self.next_news(peers) {
                return Some(offer);
            }
            self.go_to(Step::Tick);
        }
        if self.step == Step::Tick {
            self.go_to(Step::Write);
            if let Some(offer) = self.next_tick(peers) {
                return Some(offer);
            }
        }
        None
    }

    fn go_to(&mut self, step: Step) {
        self.step = step;
        self.next = 0;
    }

    /// Whether there is no slot for a further connection.
    fn is_full(&self) -> bool {
        self.open >= self.connections as usize
    }

    /// Whether a connection may wait at a door.
    fn is_knocked(&self) -> bool {
        self.doors.iter().any(|door| door.is_knocked())
    }

    /// Whether no slot is about to be free.
    fn is_none_ending(&self) -> bool {
        for place in 0..self.busy.len() {
            if let Some(slot) = self.busy.at(place) {
                if matches!(self.plugs.get(slot), Some(Some(plug)) if plug.is_ending()) {
                    return false;
                }
            }
        }
        true
    }

    /// Whether something is to be done at the doors.
    fn is_asked(&self) -> bool {
        self.is_knocked() && (!self.is_full() || self.is_none_ending())
    }

    /// Tells connections that wait that there is no room for them.
    fn turn_away(&mut self) {
        for _ in 0..MOST_TURNED_AWAY {
            match self.next_stream() {
                Some((stream, _)) => stream.turn_away(self.connections),
                None => return,
            }
        }
    }

    /// The next connection that waits, and the number of its door. The doors are asked in turn.
    fn next_stream(&mut self) -> Option<(Stream, u8)> {
        let count = self.doors.len();
        for _ in 0..count {
            let at = self.turn;
            let next = at.saturating_add(1);
            self.turn = if next < count { next } else { 0 };
            if let Some(door) = self.doors.get_mut(at) {
                if let Some(came) = door.next() {
                    return Some(came);
                }
            }
        }
        None
    }

    /// Notes that a connection may wait at each door.
    fn knock_all(&mut self) {
        for door in self.doors.iter_mut() {
            door.knock();
        }
    }

    /// The next connection that may give bytes.
    fn next_read(&mut self, connections: &[Option<Connection>]) -> Option<usize> {
        for place in self.next..self.busy.len() {
            if let Some(slot) = self.busy.at(place) {
                if self.may_read(connections, slot) {
                    self.next = place.saturating_add(1);
                    self.heard = Some((slot, waiting_for(connections, slot)));
                    return Some(slot);
                }
            }
        }
        None
    }

    /// The next connection that may take bytes, or that is over.
    fn next_end(&mut self, connections: &[Option<Connection>]) -> Option<Ready> {
        for place in self.next..self.busy.len() {
            if let Some(slot) = self.busy.at(place) {
                if let Some(work) = self.work(connections, slot) {
                    self.next = place.saturating_add(1);
                    return Some(match work {
                        Work::Write => Ready::Write(slot),
                        Work::Close => Ready::Close(slot),
                    });
                }
            }
        }
        self.next = self.busy.len();
        None
    }

    /// Whether the connection in the slot may give bytes.
    fn may_read(&self, connections: &[Option<Connection>], slot: usize) -> bool {
        match (self.plugs.get(slot), connections.get(slot)) {
            (Some(Some(plug)), Some(Some(connection))) => plug.may_read(connection),
            _ => false,
        }
    }

    /// What else there is to do for the connection in the slot.
    fn work(&self, connections: &[Option<Connection>], slot: usize) -> Option<Work> {
        match (self.plugs.get(slot), connections.get(slot)) {
            (Some(Some(plug)), Some(Some(connection))) => match plug.work(connection) {
                Some(work) => Some(work),
                None if self.is_idle(plug) => Some(Work::Close),
                None => None,
            },
            _ => None,
        }
    }

    /// Whether a connection asked nothing for too long.
    fn is_idle(&self, plug: &Plug) -> bool {
        match self.idle {
            Some(idle) => plug.rests_for(idle.after(), self.clock.now()) == 0,
            None => false,
        }
    }

    /// Notes that the connection that was read asked something, if it did: then more bytes wait to be written to it.
    fn note_asked(&mut self, connections: &[Option<Connection>]) {
        if let Some((slot, before)) = self.heard {
            self.heard = None;
            if before < waiting_for(connections, slot) {
                self.touch(slot);
            }
        }
    }

    /// Notes that the connection in the slot did something.
    fn touch(&mut self, slot: usize) {
        let now = self.clock.now();
        if let Some(Some(plug)) = self.plugs.get_mut(slot) {
            plug.touch(now);
        }
    }

    /// The next news of a peer.
    fn next_news(&mut self, peers: &[Peer]) -> Option<Ready> {
        for at in self.next..self.lines.len() {
            if let (Some(line), Some(peer)) = (self.lines.get_mut(at), peers.get(at)) {
                if let Some(news) = line.news(peer) {
                    self.next = at.saturating_add(1);
                    return Some(self.of_peer(at, news));
                }
            }
        }
        None
    }

    /// The time, to the next peer of which it says something.
    fn next_tick(&mut self, peers: &[Peer]) -> Option<Ready> {
        let (now, count) = (self.clock.now(), self.lines.len());
        for _ in 0..count {
            let at = self.due;
            let next = at.saturating_add(1);
            self.due = if next < count { next } else { 0 };
            if matches!(peers.get(at), Some(peer) if peer.rests_for(now) == 0) {
                return Some(self.of_peer(at, PeerNews::Time));
            }
        }
        None
    }

    /// The next peer that may take bytes.
    fn next_ask(&mut self, peers: &[Peer]) -> Option<Ready> {
        for at in self.next..self.lines.len() {
            if let (Some(line), Some(peer)) = (self.lines.get(at), peers.get(at)) {
                if line.may_write(peer) {
                    self.next = at.saturating_add(1);
                    return Some(self.of_peer(at, PeerNews::Write));
                }
            }
        }
        self.next = self.lines.len();
        None
    }

    /// News of a peer, as they are offered now.
    fn of_peer(&self, peer: usize, news: PeerNews) -> Ready {
        Ready::Peer {
            peer,
            now: self.clock.now(),
            news,
        }
    }

    /// Whether something is known to be left to do for a peer.
    fn is_peer_left(&self, peers: &[Peer]) -> bool {
        for at in 0..self.lines.len() {
            if let (Some(line), Some(peer)) = (self.lines.get(at), peers.get(at)) {
                if line.has_news(peer)
                    || line.may_write(peer)
                    || peer.rests_for(self.clock.now()) == 0
                {
                    return true;
                }
            }
        }
        false
    }

    /// Tells of the peers whose answers came since they were lost, or for the first time.
    fn tell_reached(&mut self, peers: &[Peer]) {
        for at in 0..self.lines.len() {
            if let (Some(line), Some(peer)) = (self.lines.get_mut(at), peers.get(at)) {
                line.tell_reached(peer, &mut self.watch);
            }
        }
    }

    /// For how long nothing is to be done, unless the system tells of something.
    fn longest_wait(&self, peers: &[Peer]) -> Option<Duration> {
        let now = self.clock.now();
        let mut least = u64::MAX;
        for at in 0..self.lines.len() {
            if let Some(peer) = peers.get(at) {
                least = least.min(peer.rests_for(now));
            }
        }
        if let Some(idle) = self.idle {
            if self.open > 0 {
                least = least.min(idle.rests_for(now));
            }
        }
        if least == u64::MAX {
            None
        } else {
            Some(Duration::from_millis(least))
        }
    }

    /// Looks at the clock.
    fn look(&mut self) {
        self.clock.look(self.rt);
    }

    /// What keeps most of the kept states from being collected, as it was told last.
    fn holding(&self) -> Holding {
        match self.room.held() {
            Held::Nothing => Holding::Unknown,
            Held::Session(number) => self.holding_session(number),
            Held::OtherSite { number, since } => Holding::OtherSite {
                number,
                seconds: self.clock.now().saturating_sub(since) / 1_000,
            },
            Held::Leaves(count) => Holding::Leaves { count },
        }
    }

    /// That the session with this number does; unknown where its connection is gone. The hub asks for the connection in a slot as the
    /// actor that is the slot's number and one, and that is its session.
    fn holding_session(&self, number: u16) -> Holding {
        let Some(slot) = number.checked_sub(1) else {
            return Holding::Unknown;
        };
        match self.plugs.get(slot as usize) {
            Some(Some(plug)) => Holding::Session {
                address: plug.stream().address(),
                seconds: plug.silent_for(self.clock.now()) / 1_000,
            },
            _ => Holding::Unknown,
        }
    }

    /// Passes over the connections that have nothing to do any more.
    fn sweep(&mut self, connections: &[Option<Connection>]) {
        for _ in 0..self.busy.len() {
            if let Some(slot) = self.busy.take() {
                if self.may_read(connections, slot) || self.work(connections, slot).is_some() {
                    self.busy.add(slot);
                }
            }
        }
    }

    /// Looks for connections that asked nothing for too long, if it is time for that: they have to be ended.
    fn look_for_idle(&mut self) {
        let now = self.clock.now();
        let Some(mut idle) = self.idle else {
            return;
        };
        if !idle.is_due(now) {
            return;
        }
        let mut least = idle.after();
        for slot in 0..self.plugs.len() {
            if let Some(Some(plug)) = self.plugs.get(slot) {
                match plug.rests_for(idle.after(), now) {
                    0 => self.busy.add(slot),
                    rest => least = least.min(rest),
                }
            }
        }
        idle.looked(now, least);
        self.idle = Some(idle);
    }

    /// Whether something is known to be left to do behind a round, so that the next one needn't be waited for.
    fn is_left(&self, peers: &[Peer]) -> bool {
        self.busy.len() > 0 || self.is_asked() || self.is_peer_left(peers)
    }

    /// Begins a round: notes what the system tells, once those are turned away who found no slot in the last one. Where nothing is left to do it is waited for.
    fn begin_round(
        &mut self,
        connections: &[Option<Connection>],
        peers: &[Peer],
    ) -> io::Result<()> {
        self.tell_reached(peers);
        self.sweep(connections);
        if self.is_full() && self.is_asked() {
            self.turn_away();
        }
        self.look();
        self.look_for_idle();
        let timeout = if self.is_left(peers) {
            Some(Duration::ZERO)
        } else {
            self.longest_wait(peers)
        };
        self.go_to(Step::Admit);
        self.poll.poll(&mut self.events, timeout)?;
        self.look();
        self.note_events();
        Ok(())
    }

    /// Notes what the system told.
    fn note_events(&mut self) {
        let first_peer = FIRST_DOOR.saturating_add(self.doors.len());
        for event in self.events.iter() {
            let Token(slot) = event.token();
            if slot >= first_peer {
                if let Some(line) = self.lines.get_mut(slot - first_peer) {
                    line.note(event, self.poll.registry());
                }
            } else if slot >= FIRST_DOOR {
                if let Some(door) = self.doors.get_mut(slot - FIRST_DOOR) {
                    door.knock();
                }
            } else if let Some(Some(plug)) = self.plugs.get_mut(slot) {
                plug.note(event, self.poll.registry());
                self.busy.add(slot);
            }
        }
    }

    /// Brings a connection into the slot, if one waits, and answers the number of its door.
    fn admit(&mut self, slot: usize) -> Option<u8> {
        let (stream, number) = self.next_stream()?;
        let now = self.clock.now();
        let Ok(plug) = Plug::new(stream, self.poll.registry(), Token(slot), now) else {
            return None;
        };
        match self.plugs.get_mut(slot) {
            Some(place) => *place = Some(plug),
            None => return None,
        }
        self.open = self.open.saturating_add(1);
        self.busy.add(slot);
        Some(number)
    }
}

/// How many bytes wait to be written to the connection in the slot.
fn waiting_for(connections: &[Option<Connection>], slot: usize) -> usize {
    match connections.get(slot) {
        Some(Some(connection)) => connection.to_write().len(),
        _ => 0,
    }
}

impl<R: Net + Clock, W: Watch + Drop> Ports for SocketPorts<'_, R, W> {
    ghost seen = { λ p. None };

    fn ready(&mut self, connections: &[Option<Connection>], peers: &[Peer]) -> Ready {
        self.note_asked(connections);
        for _ in 0..u64::MAX {
            if let Some(offer) = self.offer(connections, peers) {
                return offer;
            }
            match self.begin_round(connections, peers) {
                Ok(()) => {}
                Err(error) if is_passing(&error) => {}
                Err(_) => return Ready::Stop,
            }
        }
        Ready::Stop
    }

    fn accept(&mut self, slot: usize) -> Option<u8> {
        self.admit(slot)
    }

    fn decline(&mut self) {
        let _ = self.next_stream();
    }

    fn read(&mut self, slot: usize, buf: &mut [u8]) -> usize {
        match self.plugs.get_mut(slot) {
            Some(Some(plug)) => plug.read(buf),
            _ => 0,
        }
    }

    fn write(&mut self, slot: usize, bytes: &[u8]) -> usize {
        match self.plugs.get_mut(slot) {
            Some(Some(plug)) => {
                let count = plug.write(bytes, self.poll.registry());
                if count > 0 {
                    plug.touch(self.clock.now());
                }
                count
            }
            _ => 0,
        }
    }

    fn close(&mut self, slot: usize) {
        if let Some(place) = self.plugs.get_mut(slot) {
            *place = None;
        }
        self.open = self.open.saturating_sub(1);
        self.knock_all();
    }

    fn call_peer(&mut self, peer: usize) {
        if let Some(line) = self.lines.get_mut(peer) {
            line.call(self.rt, self.poll.registry());
        }
    }

    fn close_peer(&mut self, peer: usize) {
        if let Some(line) = self.lines.get_mut(peer) {
            line.close();
        }
    }

    fn read_peer(&mut self, peer: usize, buf: &mut [u8]) -> usize {
        match self.lines.get_mut(peer) {
            Some(line) => line.read(buf),
            None => 0,
        }
    }

    fn write_peer(&mut self, peer: usize, bytes: &[u8]) -> usize {
        match self.lines.get_mut(peer) {
            Some(line) => line.write(bytes, self.poll.registry()),
            None => 0,
        }
    }

    fn note_reply(&mut self, reply: &[u8]) {
        self.room.note_held(reply, self.clock.now());
        if let Ok(Reply::Stat { kept, .. }) = read_reply(self.alloc, reply) {
            if self.room.is_news(kept) {
                let holding = self.holding();
                self.watch.crowded(kept, self.room.most(), holding);
            }
        }
    }

    fn tell_failure(&mut self, peer: usize, why: Failure) {
        if let Some(line) = self.lines.get_mut(peer) {
            line.tell_failure(why, &mut self.watch);
        }
    }
}
