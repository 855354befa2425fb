//! The turns of peers: what is done of what the edge offers of them.

ghost use Rattle.std.specs.Prelude.{◌≡◌, ◌*◌, ◌<◌, ◌≤◌, ℕ, true, false, List, [], length, slice_get, Some, IfOk};
ghost use Rattle.tardis_base.specs.Sizes.{piece};
ghost use Rattle.site_peers.specs.Moves.{News, fresh, waiting};
ghost use Rattle.hub.specs.declared.ports.PeerNews.{PeerNews};
ghost use Rattle.hub.specs.declared.ports.Ready.{Ready};
ghost use Rattle.hub.specs.Settlings.{behind_doors};
ghost use Rattle.hub.specs.Telling.{Tells};
ghost use Rattle.hub.specs.Upkeeps.{TallyState};
ghost use Rattle.hub.specs.Peers.{Asks, carried_out};
ghost use Rattle.hub.specs.Keeping.{FetchesOn, PeerTurned, PeerWaits, HasPeerWaiting};

use crate::noting::Noting;
use crate::ports::{PeerNews, Ports, Scope};
use crate::turns::settle_owed;
use crate::upkeeps::Tally;
use rest_machine::Settling;
use site_peers::{Deed, Peer, exchanges_are_whole};
use std::alloc::Global;
use tardis_base::{NoMemory, ReplyBuf};
use tardis_io::Failed;

/// The peers of a hub.
#[tactic(auto, using(crate::proofs::Goings::fresh_more))]
pub(crate) fn fresh_peers(alloc: Global, scope: Scope) -> Result<Vec<Peer>, NoMemory>
    ensures many { IfOk result (λ peers. length peers.items ≡ scope.peers) }
    ensures fresh { IfOk result (λ peers. (n : ℕ) → n < scope.peers → slice_get peers.items n ≡ Some (fresh (1000 * scope.seconds))) }
{
    let mut peers = Vec::with_capacity(alloc, scope.peers as usize)?;
    for _ in 0..scope.peers {
        peers.push(Peer::new(scope.seconds))?;
    }
    Ok(peers)
}

/// Does what the edge offers of a peer; where there is no such peer, nothing. Answers whether it could be settled what was owed,
/// if bytes were to be written; else nothing was written.
pub(crate) fn fetch<M: Settling, P: Ports>(
    alloc: Global,
    machine: &mut M,
    peers: &mut [Peer],
    ports: &mut P,
    peer: usize,
    now: u64,
    news: PeerNews,
    buf: &mut [u8],
    reply: &mut ReplyBuf,
    tally: &mut Tally<'_>,
) -> bool
    requires room { length buf.old ≡ piece }
    requires counts { tally.old.count ≤ 4294967295 }
    ensures turned { result ≡ true → FetchesOn (behind_doors M.plain M.through M.is_settled M.settled) (M.stands machine.old) (M.stands machine.new)
        peers.old peers.new (Ready.Peer peer now news) tally.old tally.new (P.seen ports.old) (P.seen ports.new) }
    ensures unsettled { result ≡ false → ((s : M.Plain) → M.stands machine.old s → M.stands machine.new s)
        × HasPeerWaiting peers.old (Ready.Peer peer now news) × (ports.new ≡ ports.old) }
    ensures cause { result ≡ false → 0 < M.faults machine.new }
    ensures room { length buf.new ≡ length buf.old }
    ensures opening { M.opening machine.new ≡ M.opening machine.old }
{
    if peer >= peers.len() {
        return true;
    }
    match news {
        PeerNews::Time => {
            tick(
                alloc,
                machine,
                &mut peers[peer],
                ports,
                peer,
                now,
                reply,
                tally,
            );
            true
        }
        PeerNews::Through => {
            connect(
                alloc,
                machine,
                &mut peers[peer],
                ports,
                peer,
                now,
                reply,
                tally,
            );
            true
        }
        PeerNews::Over => {
            end(machine, &mut peers[peer], ports, peer, now);
            true
        }
        PeerNews::Read => {
            hear(alloc, machine, &mut peers[peer], ports, peer, now, buf);
            true
        }
        PeerNews::Write => tell(machine, &mut peers[peer], ports, peer, now),
    }
}

/// Tells a peer the time, and carries out what it asks.
fn tick<M: Settling, P: Ports>(
    alloc: Global,
    machine: &mut M,
    at: &mut Peer,
    ports: &mut P,
    peer: usize,
    now: u64,
    reply: &mut ReplyBuf,
    tally: &mut Tally<'_>,
)
    requires counts { tally.old.count ≤ 4294967295 }
    ensures turned { PeerTurned (behind_doors M.plain M.through M.is_settled M.settled) (M.stands machine.old) (M.stands machine.new)
        peer at.old at.new now PeerNews.Time tally.old tally.new (P.seen ports.old) (P.seen ports.new) }
    ensures opening { M.opening machine.new ≡ M.opening machine.old }
{
    let deed = tick_noted(alloc, machine, at, now, reply, tally);
    carry_out(ports, peer, deed);
}

/// Tells a peer that its call came through, and carries out what it asks.
fn connect<M: Settling, P: Ports>(
    alloc: Global,
    machine: &mut M,
    at: &mut Peer,
    ports: &mut P,
    peer: usize,
    now: u64,
    reply: &mut ReplyBuf,
    tally: &mut Tally<'_>,
)
    requires counts { tally.old.count ≤ 4294967295 }
    ensures turned { PeerTurned (behind_doors M.plain M.through M.is_settled M.settled) (M.stands machine.old) (M.stands machine.new)
        peer at.old at.new now PeerNews.Through tally.old tally.new (P.seen ports.old) (P.seen ports.new) }
    ensures opening { M.opening machine.new ≡ M.opening machine.old }
{
    let deed = connect_noted(alloc, machine, at, now, reply, tally);
    carry_out(ports, peer, deed);
}

/// Tells a peer the time, and counts the replies to what is asked for it.
fn tick_noted<M: Settling>(
    alloc: Global,
    machine: &mut M,
    at: &mut Peer,
    now: u64,
    reply: &mut ReplyBuf,
    tally: &mut Tally<'_>,
) -> Deed
    requires counts { tally.old.count ≤ 4294967295 }
    ensures asked { Asks M.plain (M.stands machine.old) (M.stands machine.new) at.old News.Time now result at.new tally.old tally.new }
    ensures opening { M.opening machine.new ≡ M.opening machine.old }
{
    exchanges_are_whole();
    at.tick(alloc, &mut Noting { machine, tally }, now, reply)
}

/// Tells a peer that its call came through, and counts the replies to what is asked for it.
fn connect_noted<M: Settling>(
    alloc: Global,
    machine: &mut M,
    at: &mut Peer,
    now: u64,
    reply: &mut ReplyBuf,
    tally: &mut Tally<'_>,
) -> Deed
    requires counts { tally.old.count ≤ 4294967295 }
    ensures asked { Asks M.plain (M.stands machine.old) (M.stands machine.new) at.old News.Through now result at.new tally.old tally.new }
    ensures opening { M.opening machine.new ≡ M.opening machine.old }
{
    exchanges_are_whole();
    at.connected(alloc, &mut Noting { machine, tally }, now, reply)
}

/// Tells a peer that its call failed or its connection is over, and carries out what it asks.
fn end<M: Settling, P: Ports>(machine: &mut M, at: &mut Peer, ports: &mut P, peer: usize, now: u64)
    ensures turned { (tally : TallyState) → PeerTurned (behind_doors M.plain M.through M.is_settled M.settled) (M.stands machine.old) (M.stands machine.new)
        peer at.old at.new now PeerNews.Over tally tally (P.seen ports.old) (P.seen ports.new) }
    ensures opening { M.opening machine.new ≡ M.opening machine.old }
{
    let deed = at.over(now);
    carry_out(ports, peer, deed);
}

/// Reads of a peer, if bytes are read of it, and carries out what it asks.
fn hear<M: Settling, P: Ports>(
    alloc: Global,
    machine: &mut M,
    at: &mut Peer,
    ports: &mut P,
    peer: usize,
    now: u64,
    buf: &mut [u8],
)
    requires room { length buf.old ≡ piece }
    ensures turned { (tally : TallyState) → PeerTurned (behind_doors M.plain M.through M.is_settled M.settled) (M.stands machine.old) (M.stands machine.new)
        peer at.old at.new now PeerNews.Read tally tally (P.seen ports.old) (P.seen ports.new) }
    ensures room { length buf.new ≡ length buf.old }
    ensures opening { M.opening machine.new ≡ M.opening machine.old }
{
    if at.wants_read() {
        let count = ports.read_peer(peer, buf);
        let deed = at.receive(alloc, now, &buf[..count]);
        carry_out(ports, peer, deed);
    }
}

/// Writes what waits to a peer, once all is settled, and carries out what it asks. Answers whether it could be settled; else
/// nothing was written.
fn tell<M: Settling, P: Ports>(
    machine: &mut M,
    at: &mut Peer,
    ports: &mut P,
    peer: usize,
    now: u64,
) -> bool
    ensures turned { result ≡ true → (tally : TallyState) → PeerTurned (behind_doors M.plain M.through M.is_settled M.settled) (M.stands machine.old) (M.stands machine.new)
        peer at.old at.new now PeerNews.Write tally tally (P.seen ports.old) (P.seen ports.new) }
    ensures unsettled { result ≡ false → ((s : M.Plain) → M.stands machine.old s → M.stands machine.new s)
        × PeerWaits (Some at.old) × (ports.new ≡ ports.old) }
    ensures cause { result ≡ false → 0 < M.faults machine.new }
    ensures opening { M.opening machine.new ≡ M.opening machine.old }
{
    if has_to_write(at) {
        match settle_owed(machine) {
            Ok(()) => {
                let count = ports.write_peer(peer, at.to_write());
                let deed = at.sent(now, count);
                carry_out(ports, peer, deed);
                true
            }
            Err(Failed) => false,
        }
    } else {
        true
    }
}

/// Whether bytes wait to be written to a peer.
fn has_to_write(at: &Peer) -> bool
    ensures yes { result ≡ true → 0 < length (waiting at.now.moment) }
    ensures no { result ≡ false → waiting at.now.moment ≡ [] }
{
    !at.to_write().is_empty()
}

/// Does for a peer what it asks of the edge.
fn carry_out<P: Ports>(ports: &mut P, peer: usize, deed: Deed)
    ensures { Tells (P.seen ports.old) (P.seen ports.new) (carried_out peer deed) }
{
    match deed {
        Deed::Stay => {}
        Deed::Call => ports.call_peer(peer),
        Deed::Close => ports.close_peer(peer),
        Deed::Fail { why, told } => {
            ports.close_peer(peer);
            if told {
                ports.tell_failure(peer, why);
            }
        }
    }
}
