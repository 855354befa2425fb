//! Serving links, and making rounds beside them.

ghost use Rattle.std.specs.Prelude.{◌≡◌, ◌+◌, ◌<◌, ◌≤◌, [], length, map, IfSome, IsSomeAnd};
ghost use Rattle.std.specs.String.{string_bytes};
ghost use denote.Param.Send.{IsSync, IsSend};
ghost use Rattle.dag_lock.specs.Named.{lock_id, start_of};
ghost use Rattle.site_sync.specs.Asking.{TellsCounts};
ghost use Rattle.serve_run.specs.Beside.{Pooled, Synced};
ghost use Rattle.serve_run.specs.Serving.{ServesBoth, workload};

use crate::options::ServeOptions;
use dag_lock::{DagLock, Pass};
use serve_pool::{Served, serve_all, servings_last};
use site_sync::{Rounds, run_rounds};
use std::alloc::Global;
use std::sync::Wait;
use std::thread::{Threads, join_mut};
use tardis_base::{Machine, NoMemory};
use tardis_io::{Dial, Gate};

/// Serves links, and makes the rounds in a thread beside them. Where that thread can't be started, they are made in this
/// one, after all links were served.
pub(crate) fn serve_beside_rounds<
    M: Machine + Send,
    G: Gate,
    D: Dial + Send,
    R: Threads + Wait + Sync,
>(
    alloc: Global,
    rt: &R,
    lock: &DagLock<M>,
    pass: Pass,
    options: ServeOptions<'_>,
    gate: &mut G,
    dial: &mut D,
) -> (Pass, Served, Result<Rounds, NoMemory>)
    requires pass { pass ≡ record { lock = lock_id lock.now; seen = []; owned = []; pieces = options.links + 2 } }
    requires counts { TellsCounts M.plain (M.opening (start_of lock.now).machine) }
    requires bound { G.is_bound gate.old }
    requires peers { length options.peers.now ≤ 15 }
    requires rounds { options.rounds ≤ 1000000 }
    ensures { ServesBoth M.opening M.plain G.Link.left G.Link.given G.Link.take_faults G.Link.faults D.Link.left D.Link.given D.Link.take_faults D.Link.faults
        D.told D.faults G.told G.faults (start_of lock.now) (workload options.entry) pass result.0 gate.old gate.new dial.old dial.new result.1 result.2 }
{
    let (kept, given) = lock.split(pass, 1);
    let mut mine = Some(given);
    let mut others = Some(kept);
    let (links, peers) = (options.links, options.peers);
    let (rounds, tidy) = (options.rounds, options.tidy);
    let (synced, pooled) = join_mut(
        rt,
        &mut || -> Option<(Pass, Result<Rounds, NoMemory>)>
            requires { IsSync R.row × IsSend M.row × IsSend D.row × IsSomeAnd mine (λ p. p.lock ≡ lock_id lock.now)
                × TellsCounts M.plain (M.opening (start_of lock.now).machine) × (length peers.now ≤ 15) × (rounds ≤ 1000000) }
            ensures { IfSome mine.entry (λ p. IsSomeAnd result (λ r. Synced M.opening M.plain D.Link.left D.Link.given D.Link.take_faults D.Link.faults
                D.told D.faults
                (start_of lock.entry.now) rounds (map (λ a. string_bytes a) peers.entry.now) tidy p r.0 dial.entry.now dial.exit.now r.1)) }
        {
            match mine.take() {
                Some(pass) => Some(run_rounds(alloc, rt, lock, pass, dial, peers, rounds, tidy)),
                None => unreachable!(),
            }
        },
        &mut || -> Option<(Pass, Served)>
            requires { IsSync R.row × IsSend M.row × IsSend G.Link.row × G.is_bound gate.now × (1 + links ≤ 65536)
                × IsSomeAnd others (λ p. (p.lock ≡ lock_id lock.now) × (links < p.pieces)) }
            ensures { IfSome others.entry (λ p. IsSomeAnd result (λ r. Pooled M.plain G.Link.left G.Link.given G.Link.take_faults G.Link.faults G.told G.faults
                (M.opening (start_of lock.entry.now).machine) (start_of lock.entry.now).max_trail links p r.0 gate.entry.now gate.exit.now r.1)) }
        {
            match others.take() {
                Some(pass) => Some(serve_all(alloc, rt, lock, pass, gate, 1, links)),
                None => unreachable!(),
            }
        },
    );
    servings_last::<M, G::Link>();
    match (synced, pooled) {
        (Some((done, made)), Some((pass, served))) => (lock.join(pass, done), served, made),
        _ => unreachable!(),
    }
}
