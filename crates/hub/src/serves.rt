//! The loop of a hub.

ghost use Rattle.std.specs.Prelude.{◌≡◌, ◌<◌, ◌≤◌, ℕ, ◌+◌, ◌*◌, true, Some, None, length, slice_get, option_map, IfOk, IfSome, OnErr};
ghost use Rattle.site_peers.specs.Moves.{fresh};
ghost use Rattle.tardis_base.specs.Sizes.{piece};
ghost use Rattle.hub.specs.Connections.{connection_at, slots};
ghost use Rattle.hub.specs.Settlings.{behind_doors};
ghost use Rattle.hub.specs.Upkeeps.{rule_of};
ghost use Rattle.hub.specs.Runs.{close, IsRun};

use crate::connections::Connection;
use crate::fetching::fresh_peers;
use crate::ports::{Ports, Scope};
use crate::turns::{Outcome, turn};
use crate::upkeeps::{Tally, Upkeep, keep_up};
use rest_machine::Settling;
use site_peers::Peer;
use std::alloc::Global;
use tardis_base::{NoMemory, PIECE, ReplyBuf};

/// Why a hub ended.
#[derive(Clone, Copy, PartialEq, Eq)]
pub enum End {
    /// The edge said so.
    Stopped,
    /// It made 18,446,744,073,709,551,615 turns, with those of the upkeep.
    Spent,
    /// What was answered couldn't be settled, so nothing more was told.
    Unsettled,
}

/// Serves the connections of an edge, as many at once as `scope` says: each in a slot, its requests those of the actor that is the
/// slot's number and one more. A request is answered by the machine as it is seen through the door through which its connection came; what
/// the hub asks itself, and the request that closes a session, come through no door. Frames hold requests without an actor, and a reply's frame answers each.
///
/// It makes one turn for each offer of the edge, until that says stop. All that came of a connection is answered in that
/// turn, unless more than 65,536 bytes wait to be written to it: then it isn't read from until they are fewer, which
/// costs the others nothing. When a connection ends its session is closed, whatever was open in it. The edge is shown the
/// connections at each turn, and has to end a connection whose frame that is next is too long.
///
/// Before bytes are written to a connection the machine settles what it owes, once for all that was answered meanwhile, so
/// an edge that offers all reads before the writes has one settling for them all. Where settling fails the hub ends at once,
/// and writes nothing more to anybody. Settling isn't counted as a turn.
///
/// It fetches from so many peers as `scope` says, each a `site_peers::Peer` that is fresh at first. What a peer asks of the machine
/// is asked by actor 0, through no door, and at most 64 requests in a turn; what is written to it waits for the settling as
/// all that is written. An offer for a number that no peer has is passed over.
///
/// An upkeep is made between two turns, as soon as it is due, and counts as a turn; `Upkeep` says when. Where it is due when
/// the edge would say stop, it is made before that is asked.
///
/// A turn's cost doesn't grow with the connections, nor with the slots, but for a search of these when a connection comes. The buffers of the hub
/// are taken first; without memory for them nothing is done. A connection's are taken when it comes, and one for which
/// there is no memory is turned away.
pub fn serve<M: Settling, P: Ports>(
    alloc: Global,
    machine: &mut M,
    ports: &mut P,
    upkeep: Option<Upkeep<'_>>,
    scope: Scope,
) -> Result<End, NoMemory>
    requires often { IfSome (option_map rule_of upkeep) (λ rule. (0 < rule.after) × (0 < rule.later) × (0 < rule.wait)) }
    requires most { scope.connections ≤ slots }
    requires sure { (n : ℕ) → n < slots → M.plain.is_sure (n + 1, close) ≡ true }
    ensures served { IfOk result (λ end. (s : M.Plain) → M.stands machine.old s
        → IsRun (behind_doors M.plain M.through M.is_settled M.settled) (option_map rule_of upkeep.entry) scope (M.stands machine.new) s end (P.seen ports.old) (P.seen ports.new)) }
    ensures unsettled { IfOk result (λ end. end ≡ End.Unsettled → 0 < M.faults machine.new) }
    ensures nothing { OnErr result ((machine.new ≡ machine.old) × (ports.new ≡ ports.old)) }
    ensures opening { M.opening machine.new ≡ M.opening machine.old }
{
    let mut connections = free_connections(alloc, scope.connections)?;
    let mut peers = fresh_peers(alloc, scope)?;
    let mut reply = ReplyBuf::new(alloc)?;
    match vec![in alloc; 0; PIECE] {
        Ok(mut buf) => Ok(serve_connections(
            alloc,
            machine,
            connections.as_mut_slice(),
            peers.as_mut_slice(),
            ports,
            upkeep,
            scope,
            buf.as_mut_slice(),
            &mut reply,
        )),
        Err(_) => Err(NoMemory),
    }
}

/// Makes turns until the edge says stop, and upkeep between them.
fn serve_connections<M: Settling, P: Ports>(
    alloc: Global,
    machine: &mut M,
    connections: &mut [Option<Connection>],
    peers: &mut [Peer],
    ports: &mut P,
    upkeep: Option<Upkeep<'_>>,
    scope: Scope,
    buf: &mut [u8],
    reply: &mut ReplyBuf,
) -> End
    requires often { IfSome (option_map rule_of upkeep) (λ rule. (0 < rule.after) × (0 < rule.later) × (0 < rule.wait)) }
    requires slots { length connections.old ≡ scope.connections }
    requires most { scope.connections ≤ slots }
    requires free { (n : ℕ) → connection_at connections.old n ≡ None }
    requires peers { length peers.old ≡ scope.peers }
    requires fresh { (n : ℕ) → n < scope.peers → slice_get peers.old n ≡ Some (fresh (1000 * scope.seconds)) }
    requires room { length buf.old ≡ piece }
    requires sure { (n : ℕ) → n < slots → M.plain.is_sure (n + 1, close) ≡ true }
    ensures served { (s : M.Plain) → M.stands machine.old s
        → IsRun (behind_doors M.plain M.through M.is_settled M.settled) (option_map rule_of upkeep.entry) scope (M.stands machine.new) s result (P.seen ports.old) (P.seen ports.new) }
    ensures unsettled { result ≡ End.Unsettled → 0 < M.faults machine.new }
    ensures opening { M.opening machine.new ≡ M.opening machine.old }
{
    let mut tally = Tally::new(upkeep);
    let mut turns: u64 = 0;
    while turns < u64::MAX {
        turns += 1;
        match tally.due() {
            Some(upkeep) => {
                let last = keep_up(machine, upkeep, tally.waited(), ports, reply);
                tally.pay(last);
            }
            None => match turn(
                alloc,
                machine,
                connections,
                peers,
                ports,
                buf,
                reply,
                &mut tally,
            ) {
                Outcome::On => tally.pass(),
                Outcome::Stopped => return End::Stopped,
                Outcome::Unsettled => return End::Unsettled,
            },
        }
    }
    End::Spent
}

/// So many slots, which no connection has.
#[tactic(auto, using(crate::proofs::Leading::free_more))]
fn free_connections(alloc: Global, count: u16) -> Result<Vec<Option<Connection>>, NoMemory>
    ensures slots { IfOk result (λ connections. length connections.items ≡ count) }
    ensures free { IfOk result (λ connections. (n : ℕ) → connection_at connections.items n ≡ None) }
{
    let mut connections = Vec::with_capacity(alloc, count as usize)?;
    for _ in 0..count {
        connections.push(None)?;
    }
    Ok(connections)
}
