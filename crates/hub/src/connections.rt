//! A connection as the hub has it: what came of it and what waits to be written to it.

ghost use Rattle.std.specs.Prelude.{◌≡◌, ℕ, ◌<◌, ◌≤◌, ◌++◌, [], Some, None, true, false, length, drop, ◌⊎◌, IfOk, IfSome, IfNone, IsSome};
ghost use Rattle.hub.specs.Answering.{Serves};
ghost use Rattle.tardis_base.specs.Sizes.{piece};
ghost use Rattle.hub.specs.Connections.{connection_at, OthersStay, IsStopped};

use crate::answers::answer_held;
use crate::upkeeps::Tally;
use crate::waitings::Waiting;
use frame_cut::FrameCutter;
use rest_machine::Settling;
use std::alloc::Global;
use std::marker::Model;
use tardis_base::{NoMemory, PIECE, ReplyBuf};

/// A connection: the number of the door through which it came; its bytes, those that came and aren't answered and those that
/// wait to be written; and whether the frame that is next is too long. It is seen as these.
#[derive(Drop)]
pub struct Connection {
    door: u8,
    cutter: FrameCutter,
    waiting: Waiting,
    long: bool,
}

impl Model for Connection {
    ghost use Rattle.std.specs.Prelude.{◌≡◌, ◌≤◌, false, length};
    ghost use Rattle.tardis_base.specs.Sizes.{piece, longest_framed};
    ghost use Rattle.hub.specs.Connections.{ConnectionState};

    ghost Value = { ConnectionState };

    ghost view = { λ l. record { door = l.door; cutter = l.cutter; waiting = l.waiting; long = l.long } };

    ghost invariant = { λ l. l.long ≡ false → length l.waiting ≤ piece → length l.cutter ≤ longest_framed };
}

/// The room of a connection that may come.
#[derive(Drop)]
pub(crate) struct Room {
    cutter: FrameCutter,
    waiting: Waiting,
}

impl Room {
    /// All that a connection needs is reserved now, and none is taken later.
    pub(crate) fn new(alloc: Global) -> Result<Room, NoMemory>
        ensures { IfOk result (λ room. (room.cutter ≡ []) × (room.waiting ≡ [])) }
    {
        let cutter = FrameCutter::new(alloc)?;
        let waiting = Waiting::new(alloc)?;
        Ok(Room { cutter, waiting })
    }
}

impl Connection {
    /// A connection that came through the door, of which no bytes came yet.
    pub(crate) fn new(door: u8, room: Room) -> Connection
        requires came { room.cutter ≡ [] }
        requires waits { room.waiting ≡ [] }
        ensures { result ≡ record { door = door; cutter = []; waiting = []; long = false } }
    {
        let Room { cutter, waiting } = room;
        Connection {
            door,
            cutter,
            waiting,
            long: false,
        }
    }

    /// Whether more is read of the connection.
    pub fn wants_read(&self) -> bool
        ensures yes { result ≡ true → (self.now.long ≡ false) × (length self.now.waiting ≤ piece) }
        ensures no { result ≡ false → (self.now.long ≡ true) ⊎ (piece < length self.now.waiting) }
    {
        !self.long && self.waiting.len() <= PIECE
    }

    /// Takes a piece that came of the connection, and answers the requests that it completes.
    pub(crate) fn receive<M: Settling>(
        &mut self,
        machine: &mut M,
        actor: u16,
        bytes: &[u8],
        reply: &mut ReplyBuf,
        tally: &mut Tally<'_>,
    )
        requires short { self.old.long ≡ false }
        requires few { length self.old.waiting ≤ piece }
        requires size { length bytes.now ≤ piece }
        requires counts { tally.old.count ≤ 4294967295 }
        ensures served { Serves (M.through self.old.door) (M.stands machine.old) (M.stands machine.new) actor
            (self.old.cutter ++ bytes.now) self.new.cutter self.old.waiting self.new.waiting tally.old tally.new }
        ensures stopped { IsStopped self.new.long self.new.cutter self.new.waiting }
        ensures door { self.new.door ≡ self.old.door }
        ensures opening { M.opening machine.new ≡ M.opening machine.old }
    {
        let _ = self.cutter.feed(bytes);
        self.long = answer_held(
            machine,
            self.door,
            actor,
            &mut self.cutter,
            &mut self.waiting,
            reply,
            tally,
        );
    }

    /// Forgets bytes that were written to the connection, and answers requests that were held.
    pub(crate) fn sent<M: Settling>(
        &mut self,
        machine: &mut M,
        actor: u16,
        count: usize,
        reply: &mut ReplyBuf,
        tally: &mut Tally<'_>,
    )
        requires count { count ≤ length self.old.waiting }
        requires counts { tally.old.count ≤ 4294967295 }
        ensures served { Serves (M.through self.old.door) (M.stands machine.old) (M.stands machine.new) actor
            self.old.cutter self.new.cutter (drop count self.old.waiting) self.new.waiting tally.old tally.new }
        ensures stopped { IsStopped self.old.long self.old.cutter self.old.waiting → IsStopped self.new.long self.new.cutter self.new.waiting }
        ensures door { self.new.door ≡ self.old.door }
        ensures opening { M.opening machine.new ≡ M.opening machine.old }
    {
        self.waiting.pass(count);
        if self.long {
            return;
        }
        self.long = answer_held(
            machine,
            self.door,
            actor,
            &mut self.cutter,
            &mut self.waiting,
            reply,
            tally,
        );
    }

    /// The bytes that wait to be written.
    pub fn to_write(&self) -> &[u8]
        ensures { result.now ≡ self.now.waiting }
    {
        self.waiting.bytes()
    }

    /// Whether bytes wait to be written.
    pub fn has_to_write(&self) -> bool
        ensures yes { result ≡ true → 0 < length self.now.waiting }
        ensures no { result ≡ false → self.now.waiting ≡ [] }
    {
        !self.waiting.bytes().is_empty()
    }

    /// Whether it is to be ended: the frame that is next is too long, and nothing waits to be written.
    pub fn is_over(&self) -> bool
        ensures yes { result ≡ true → (self.now.long ≡ true) × (self.now.waiting ≡ []) }
        ensures no { result ≡ false → (self.now.long ≡ false) ⊎ (0 < length self.now.waiting) }
    {
        self.long && self.waiting.bytes().is_empty()
    }
}

/// A slot that no connection has, if there is one.
pub(crate) fn free_slot(connections: &[Option<Connection>]) -> Option<usize>
    ensures free { IfSome result (λ slot. (slot < length connections.now) × (connection_at connections.now slot ≡ None)) }
    ensures full { IfNone result ((n : ℕ) → n < length connections.now → IsSome (connection_at connections.now n)) }
{
    for slot in 0..connections.len() {
        if connections[slot].is_none() {
            return Some(slot);
        }
    }
    None
}

/// Takes the connection out of a slot, which is then free.
pub(crate) fn take_connection(
    connections: &mut [Option<Connection>],
    slot: usize,
) -> Option<Connection>
    ensures was { result ≡ connection_at connections.old slot }
    ensures others { OthersStay slot connections.old connections.new }
    ensures free { connection_at connections.new slot ≡ None }
    ensures within { IsSome result → slot < length connections.old }
    ensures slots { length connections.new ≡ length connections.old }
{
    if slot < connections.len() {
        connections[slot].take()
    } else {
        None
    }
}

/// Puts a connection into a slot.
pub(crate) fn put_connection(
    connections: &mut [Option<Connection>],
    slot: usize,
    connection: Connection,
)
    requires { slot < length connections.old }
    ensures others { OthersStay slot connections.old connections.new }
    ensures there { connection_at connections.new slot ≡ Some connection }
    ensures slots { length connections.new ≡ length connections.old }
{
    connections[slot] = Some(connection);
}
