//! The turns of a hub: what is done of what the edge offers.

ghost use Rattle.std.specs.Prelude.{◌≡◌, ◌<◌, ◌≤◌, ℕ, ◌+◌, true, false, [], ◌∷◌, length, OnOk, OnErr};
ghost use Rattle.tardis_base.specs.Sizes.{piece};
ghost use Rattle.hub.specs.Connections.{connection_at, slots};
ghost use Rattle.hub.specs.Runs.{close};
ghost use Rattle.hub.specs.Telling.{Tells};
ghost use Rattle.hub.specs.Settlings.{behind_doors};
ghost use Rattle.hub.specs.Keeping.{Settles, GoesOn, Turned, IsUnsettled, Waits};
ghost use Rattle.hub.specs.declared.ports.Seen.{Seen};
ghost use Rattle.hub.specs.Upkeeps.{TallyState};

use crate::answers::close_session;
use crate::connections::{Connection, Room, free_slot, put_connection, take_connection};
use crate::fetching::fetch;
use crate::ports::{Ports, Ready};
use crate::upkeeps::Tally;
use rest_machine::Settling;
use site_peers::Peer;
use std::alloc::Global;
use tardis_base::{NoMemory, ReplyBuf};
use tardis_io::Failed;

/// The most connections that may be there at once, each in a slot.
pub const SLOTS: usize = 4_096;

/// Lets a connection into a free slot. Where there is none it waits; where there is no memory it is turned away.
fn enter<M: Settling, P: Ports>(
    alloc: Global,
    machine: &mut M,
    connections: &mut [Option<Connection>],
    ports: &mut P,
)
    ensures turned { (tally : TallyState) → GoesOn (behind_doors M.plain M.through M.is_settled M.settled) (M.stands machine.old) (M.stands machine.new) connections.old connections.new Ready.Accept tally tally
        (P.seen ports.old) (P.seen ports.new) }
    ensures slots { length connections.new ≡ length connections.old }
    ensures opening { M.opening machine.new ≡ M.opening machine.old }
{
    match free_slot(connections) {
        Some(slot) => match Room::new(alloc) {
            Ok(room) => match ports.accept(slot) {
                Some(door) => put_connection(connections, slot, Connection::new(door, room)),
                None => {}
            },
            Err(NoMemory) => ports.decline(),
        },
        None => {} // it waits until one ends
    }
}

/// Reads of a connection and answers what came, unless much waits to be written to it or it is over.
fn hear<M: Settling, P: Ports>(
    machine: &mut M,
    connections: &mut [Option<Connection>],
    ports: &mut P,
    slot: usize,
    buf: &mut [u8],
    reply: &mut ReplyBuf,
    tally: &mut Tally<'_>,
)
    requires slots { length connections.old ≤ slots }
    requires room { length buf.old ≡ piece }
    requires counts { tally.old.count ≤ 4294967295 }
    ensures turned { GoesOn (behind_doors M.plain M.through M.is_settled M.settled) (M.stands machine.old) (M.stands machine.new) connections.old connections.new (Ready.Read slot) tally.old tally.new
        (P.seen ports.old) (P.seen ports.new) }
    ensures slots { length connections.new ≡ length connections.old }
    ensures room { length buf.new ≡ length buf.old }
    ensures opening { M.opening machine.new ≡ M.opening machine.old }
{
    match take_connection(connections, slot) {
        Some(mut connection) => {
            if connection.wants_read() {
                let count = ports.read(slot, buf);
                connection.receive(machine, slot as u16 + 1, &buf[..count], reply, tally);
                put_connection(connections, slot, connection);
            } else {
                put_connection(connections, slot, connection);
            }
        }
        None => {}
    }
}

/// Settles what the machine owes, if it owes anything.
pub(crate) fn settle_owed<M: Settling>(machine: &mut M) -> Result<(), Failed>
    ensures settled { OnOk result ((s : M.Plain) → M.stands machine.old s → Settles (behind_doors M.plain M.through M.is_settled M.settled) (M.stands machine.new) s) }
    ensures same { OnErr result ((s : M.Plain) → M.stands machine.old s → M.stands machine.new s) }
    ensures cause { OnErr result (0 < M.faults machine.new) }
    ensures opening { M.opening machine.new ≡ M.opening machine.old }
{
    if machine.owes() {
        machine.settle()
    } else {
        Ok(())
    }
}

/// Writes what waits to a connection, once all is settled, and answers what was held meanwhile. Answers whether it could be
/// settled; else nothing was written.
fn tell<M: Settling, P: Ports>(
    machine: &mut M,
    connections: &mut [Option<Connection>],
    ports: &mut P,
    slot: usize,
    reply: &mut ReplyBuf,
    tally: &mut Tally<'_>,
) -> bool
    requires slots { length connections.old ≤ slots }
    requires counts { tally.old.count ≤ 4294967295 }
    ensures turned { result ≡ true → GoesOn (behind_doors M.plain M.through M.is_settled M.settled) (M.stands machine.old) (M.stands machine.new)
        connections.old connections.new (Ready.Write slot) tally.old tally.new (P.seen ports.old) (P.seen ports.new) }
    ensures unsettled { result ≡ false → ((s : M.Plain) → M.stands machine.old s → M.stands machine.new s)
        × Waits (connection_at connections.old slot) × (ports.new ≡ ports.old) }
    ensures cause { result ≡ false → 0 < M.faults machine.new }
    ensures slots { length connections.new ≡ length connections.old }
    ensures opening { M.opening machine.new ≡ M.opening machine.old }
{
    match take_connection(connections, slot) {
        Some(mut connection) => {
            if connection.has_to_write() {
                match settle_owed(machine) {
                    Ok(()) => {
                        let count = ports.write(slot, connection.to_write());
                        connection.sent(machine, slot as u16 + 1, count, reply, tally);
                        put_connection(connections, slot, connection);
                        true
                    }
                    Err(Failed) => {
                        put_connection(connections, slot, connection);
                        false
                    }
                }
            } else {
                put_connection(connections, slot, connection);
                true
            }
        }
        None => true,
    }
}

/// Ends a connection, and closes its session.
fn leave<M: Settling, P: Ports>(
    machine: &mut M,
    connections: &mut [Option<Connection>],
    ports: &mut P,
    slot: usize,
    reply: &mut ReplyBuf,
)
    requires slots { length connections.old ≤ slots }
    requires sure { (n : ℕ) → n < slots → M.plain.is_sure (n + 1, close) ≡ true }
    ensures turned { (tally : TallyState) → GoesOn (behind_doors M.plain M.through M.is_settled M.settled) (M.stands machine.old) (M.stands machine.new) connections.old connections.new (Ready.Close slot) tally tally
        (P.seen ports.old) (P.seen ports.new) }
    ensures slots { length connections.new ≡ length connections.old }
    ensures opening { M.opening machine.new ≡ M.opening machine.old }
{
    match take_connection(connections, slot) {
        Some(_connection) => {
            ports.close(slot);
            close_session(machine, slot as u16 + 1, reply);
        }
        None => {}
    }
}

/// What became of a turn.
pub(crate) enum Outcome {
    /// The hub goes on.
    On,
    /// The edge said stop.
    Stopped,
    /// What was answered couldn't be settled.
    Unsettled,
}

/// Makes one turn: asks the edge what is ready, and does it.
pub(crate) fn turn<M: Settling, P: Ports>(
    alloc: Global,
    machine: &mut M,
    connections: &mut [Option<Connection>],
    peers: &mut [Peer],
    ports: &mut P,
    buf: &mut [u8],
    reply: &mut ReplyBuf,
    tally: &mut Tally<'_>,
) -> Outcome
    requires slots { length connections.old ≤ slots }
    requires room { length buf.old ≡ piece }
    requires sure { (n : ℕ) → n < slots → M.plain.is_sure (n + 1, close) ≡ true }
    requires counts { tally.old.count ≤ 4294967295 }
    ensures turned { result ≡ Outcome.On → Turned (behind_doors M.plain M.through M.is_settled M.settled) (M.stands machine.old) (M.stands machine.new)
        connections.old connections.new peers.old peers.new tally.old tally.new (P.seen ports.old) (P.seen ports.new) }
    ensures stopped { result ≡ Outcome.Stopped → (machine.new ≡ machine.old) × (connections.new ≡ connections.old) × (peers.new ≡ peers.old) × (tally.new ≡ tally.old)
        × Tells (P.seen ports.old) (P.seen ports.new) (Seen.Offered Ready.Stop ∷ []) }
    ensures unsettled { result ≡ Outcome.Unsettled
        → IsUnsettled (M.stands machine.old) (M.stands machine.new) connections.old peers.old (P.seen ports.old) (P.seen ports.new) }
    ensures cause { result ≡ Outcome.Unsettled → 0 < M.faults machine.new }
    ensures slots { length connections.new ≡ length connections.old }
    ensures room { length buf.new ≡ length buf.old }
    ensures opening { M.opening machine.new ≡ M.opening machine.old }
{
    match ports.ready(connections, peers) {
        Ready::Accept => {
            enter(alloc, machine, connections, ports);
            Outcome::On
        }
        Ready::Read(slot) => {
            hear(machine, connections, ports, slot, buf, reply, tally);
            Outcome::On
        }
        Ready::Write(slot) => {
            if tell(machine, connections, ports, slot, reply, tally) {
                Outcome::On
            } else {
                Outcome::Unsettled
            }
        }
        Ready::Close(slot) => {
            leave(machine, connections, ports, slot, reply);
            Outcome::On
        }
        Ready::Peer { peer, now, news } => {
            tally.tell_time(now);
            if fetch(
                alloc, machine, peers, ports, peer, now, news, buf, reply, tally,
            ) {
                Outcome::On
            } else {
                Outcome::Unsettled
            }
        }
        Ready::Stop => Outcome::Stopped,
    }
}
