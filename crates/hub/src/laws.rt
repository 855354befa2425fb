//! Laws of the runs of a hub.

ghost use Rattle.hub.specs.Settlings.{settling, in_memory, behind_doors};
ghost use Rattle.hub.specs.Doors.{DoorRules, seen_through};
ghost use Rattle.hub.specs.Laws.{IsSeenAs, OneTrail};
ghost use Rattle.hub.specs.PeerLaws.{FetchesAreWhole, PeersAreFair};
ghost use Rattle.hub.specs.DoorLaws.{IsSeenBehind, TrailBehindDoors};

use rest_machine::Settling;
use site_peers::exchanges_are_whole;
use tardis_base::Machine;

/// Over a machine in memory the turns of a run are one run of the plain machine over one trail: the requests of all
/// connections, each once, and of each connection in its order. This call does nothing.
pub fn one_trail<M: Machine>()
    ensures { OneTrail (in_memory M.plain) M.plain (λ s. s) }
{}

/// Over a machine that settles they are one run, over the same trail, of the machine that it is seen as. This call does
/// nothing.
pub fn one_trail_as_seen<M: Settling, N: Machine>()
    ensures { (shows : M.Plain → N.Plain) → IsSeenAs (settling M.plain M.is_settled M.settled) N.plain shows
        → OneTrail (settling M.plain M.is_settled M.settled) N.plain shows }
{}

/// Behind doors, over a machine in memory, the requests that were let in are one run of the plain machine, in order, with the
/// replies that were given to them; and each other one was answered at its door, from the state at its place. This call does
/// nothing.
pub fn one_trail_behind_doors<M: Machine>()
    ensures { (rules : DoorRules M.Plain) → TrailBehindDoors (behind_doors M.plain (seen_through M.plain rules) (λ s. Unit {0}) (λ s. s)) M.plain rules (λ s. s) }
{}

/// So they are over a machine that settles, by the machine that it is seen as behind these doors. This call does nothing.
pub fn one_trail_behind_doors_as_seen<M: Settling, N: Machine>()
    ensures { (rules : DoorRules N.Plain) (shows : M.Plain → N.Plain)
        → IsSeenBehind (behind_doors M.plain M.through M.is_settled M.settled) N.plain rules shows
        → TrailBehindDoors (behind_doors M.plain M.through M.is_settled M.settled) N.plain rules shows }
{}

/// In a run no turn of a peer asks more than 64 requests, so the edge is asked again behind at most 64 deliveries; and the exchanges
/// with each peer are whole, as `site_peers::exchanges_are_whole` says. This call does nothing.
pub fn fetches_are_whole()
    ensures fair { PeersAreFair }
    ensures whole { FetchesAreWhole }
{
    exchanges_are_whole();
}
