//! Serving at an address.

ghost use Rattle.std.specs.Prelude.{◌≡◌, ◌+◌, ◌≤◌, [], length};
ghost use Rattle.dag_lock.specs.Named.{lock_id, pieces_of, start_of};
ghost use Rattle.site_sync.specs.Asking.{TellsCounts};
ghost use Rattle.serve_run.specs.Serving.{ServesLinks, ServeOutcome, workload};

use crate::beside::serve_beside_rounds;
use crate::endings::{ServeEnd, Serving};
use crate::options::ServeOptions;
use dag_lock::{DagLock, Pass};
use std::alloc::Global;
use std::sync::Wait;
use std::thread::Threads;
use tardis_base::{Machine, NoMemory};
use tardis_io::{Dial, Failed, Gate, Sink};
use trail_log::Trailed;

/// Listens at the address and takes up to so many links, each served in a thread of its own by a session of its own, whose
/// number is the link's, from 1 on. Beside them, in one thread more, the rounds are made: in each, one exchange with each of
/// the peers, over a link of the dial, and then the collection, if one is wanted. When all links are over and all rounds are
/// made, it writes the trail on the output: the frames of all that was asked and answered, in order, as a run reads them.
/// The trail has at most `max_trail` bytes; what would go beyond is refused.
///
/// With no memory for the lock the machine is dropped and nobody is served. What a link's session or an exchange had no
/// memory for ends that link or that exchange alone. Without rounds the dial isn't used.
pub fn serve_links<M: Machine + Send, G: Gate, D: Dial + Send, O: Sink, R: Threads + Wait + Sync>(
    alloc: Global,
    rt: &R,
    machine: M,
    max_trail: u64,
    options: ServeOptions<'_>,
    gate: &mut G,
    dial: &mut D,
    output: &mut O,
) -> ServeEnd
    requires opening { M.stands machine (M.opening machine) }
    requires counts { TellsCounts M.plain (M.opening machine) }
    requires peers { length options.peers.now ≤ 15 }
    requires rounds { options.rounds ≤ 1000000 }
    ensures { ServeOutcome M.opening M.plain G.Link.left G.Link.given G.Link.take_faults G.Link.faults D.Link.left D.Link.given D.Link.take_faults D.Link.faults
        D.told D.faults (M.opening machine) max_trail G.told G.faults O.given O.faults
        (workload options.entry) gate.old gate.new dial.old dial.new output.old output.new result }
{
    match gate.bind(options.address) {
        Ok(()) => {}
        Err(Failed) => return ServeEnd::NotBound,
    }
    let trailed = Trailed::new(alloc, machine, max_trail);
    match DagLock::new(alloc, trailed, options.links as u32 + 2) {
        Ok((lock, pass)) => {
            ServeEnd::Served(serve_lock(alloc, rt, lock, pass, options, gate, dial, output))
        }
        Err(NoMemory) => ServeEnd::NotMade,
    }
}

/// Serves links and makes rounds over a lock that was made for them, and writes its trail.
fn serve_lock<M: Machine + Send, G: Gate, D: Dial + Send, O: Sink, R: Threads + Wait + Sync>(
    alloc: Global,
    rt: &R,
    lock: DagLock<M>,
    pass: Pass,
    options: ServeOptions<'_>,
    gate: &mut G,
    dial: &mut D,
    output: &mut O,
) -> Serving
    requires pass { pass ≡ record { lock = lock_id lock; seen = []; owned = []; pieces = options.links + 2 } }
    requires pieces { pieces_of lock ≡ options.links + 2 }
    requires counts { TellsCounts M.plain (M.opening (start_of lock).machine) }
    requires bound { G.is_bound gate.old }
    requires peers { length options.peers.now ≤ 15 }
    requires rounds { options.rounds ≤ 1000000 }
    ensures served { ServesLinks M.opening M.plain G.Link.left G.Link.given G.Link.take_faults G.Link.faults D.Link.left D.Link.given
        D.Link.take_faults D.Link.faults
        D.told D.faults (M.opening (start_of lock).machine) (start_of lock).max_trail (workload options.entry) (G.told gate.old) (G.told gate.new)
        (G.faults gate.old) (G.faults gate.new)
        dial.old dial.new (O.given output.old) (O.given output.new) (O.faults output.old) (O.faults output.new) result }
    ensures later { (G.faults gate.old ≤ G.faults gate.new) × (D.faults dial.old ≤ D.faults dial.new) }
{
    let (pass, served, rounds) = serve_beside_rounds(alloc, rt, &lock, pass, options, gate, dial);
    let trailed = lock.close(pass);
    let written = trailed.write_trail(output);
    Serving {
        unserved: served.unserved,
        gate: served.end,
        rounds,
        written,
    }
}
