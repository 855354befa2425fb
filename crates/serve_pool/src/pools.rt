//! Serving many links.

ghost use Rattle.std.specs.Prelude.{◌≡◌, ◌+◌, ◌*◌, ◌<◌, ◌≤◌, ◌⊎◌, length, IfSome, IsSomeAnd};
ghost use denote.Param.Send.{IsSync, IsSend};
ghost use Rattle.tardis_io.specs.Faults.{Rose};
ghost use Rattle.dag_lock.specs.Known.{Known};
ghost use Rattle.dag_lock.specs.Named.{lock_id, start_of};
ghost use Rattle.serve_pool.specs.Rows.{HasNone};
ghost use Rattle.serve_pool.specs.Pools.{Serves, ServesOne, Pools, PoolsBeside};

use crate::ends::{PoolEnd, Served};
use dag_lock::{DagLock, Pass};
use session_serve::{SessionEnd, serve_session, sessions_last};
use std::alloc::Global;
use std::sync::Wait;
use std::thread::{Threads, join_mut};
use tardis_base::Machine;
use tardis_io::{Failed, Gate, Link};

/// Takes up to `links` links of the gate and serves each by a session of its own, in a thread of its own, while the next
/// ones are waited for. The sessions have the numbers `first`, `first + 1` and so on. Each link is put back when those
/// that were taken after it are. Where a thread can't be started, the link is served in this one, after those.
pub fn serve_all<M: Machine + Send, G: Gate, R: Threads + Wait + Sync>(
    alloc: Global,
    rt: &R,
    lock: &DagLock<M>,
    pass: Pass,
    gate: &mut G,
    first: u16,
    links: u16,
) -> (Pass, Served)
    requires lock { pass.lock ≡ lock_id lock.now }
    requires bound { G.is_bound gate.old }
    requires numbers { first + links ≤ 65536 }
    requires pieces { links < pass.pieces }
    ensures serves { Serves G.Link.left G.Link.given G.Link.take_faults G.Link.faults M.plain (M.opening (start_of lock.now).machine)
        (start_of lock.now).max_trail
        first pass result.0 (G.told gate.old) (G.told gate.new) result.1.taken result.1.unserved }
    ensures most { result.1.taken ≤ links }
    ensures done { result.1.end ≡ PoolEnd.Done → (result.1.taken ≡ links) ⊎ HasNone (G.told gate.new) }
    ensures fault { result.1.end ≡ PoolEnd.GateFault → (result.1.taken < links) × Rose (G.faults gate.old) (G.faults gate.new) }
    ensures later { G.faults gate.old ≤ G.faults gate.new }
{
    serve_from(alloc, rt, lock, pass, gate, first as u32, links)
}

/// The same, with numbers of which the last may be followed by none of a session.
#[cycle(links)]
fn serve_from<M: Machine + Send, G: Gate, R: Threads + Wait + Sync>(
    alloc: Global,
    rt: &R,
    lock: &DagLock<M>,
    pass: Pass,
    gate: &mut G,
    first: u32,
    links: u16,
) -> (Pass, Served)
    requires lock { pass.lock ≡ lock_id lock.now }
    requires bound { G.is_bound gate.old }
    requires numbers { first + links ≤ 65536 }
    requires pieces { links < pass.pieces }
    ensures { Pools G.Link.left G.Link.given G.Link.take_faults G.Link.faults M.plain (M.opening (start_of lock.now).machine) (start_of lock.now).max_trail
        G.told G.faults first links pass result.0 gate.old gate.new result.1 }
{
    if links == 0 {
        return (pass, Served::none(PoolEnd::Done));
    }
    match gate.next() {
        Ok(Some(mut link)) => {
            let (pass, served) = serve_beside(alloc, rt, lock, pass, gate, &mut link, first, links);
            gate.put_back(first as u16, link);
            (pass, served)
        }
        Ok(None) => (pass, Served::none(PoolEnd::Done)),
        Err(Failed) => (pass, Served::none(PoolEnd::GateFault)),
    }
}

/// Serves a link, and beside it those that are taken next.
#[cycle(links)]
fn serve_beside<M: Machine + Send, G: Gate, R: Threads + Wait + Sync>(
    alloc: Global,
    rt: &R,
    lock: &DagLock<M>,
    pass: Pass,
    gate: &mut G,
    link: &mut G::Link,
    first: u32,
    links: u16,
) -> (Pass, Served)
    requires lock { pass.lock ≡ lock_id lock.now }
    requires bound { G.is_bound gate.old }
    requires some { 0 < links }
    requires numbers { first + links ≤ 65536 }
    requires pieces { links < pass.pieces }
    ensures finished { G.Link.is_finished link.new }
    ensures pools { PoolsBeside G.Link.left G.Link.given G.Link.take_faults G.Link.faults M.plain (M.opening (start_of lock.now).machine)
        (start_of lock.now).max_trail
        G.told G.faults first links pass result.0 link.old link.new gate.old gate.new result.1 }
{
    let session = first as u16;
    let (next, left) = (first + 1, links - 1);
    let (kept, given) = lock.split(pass, 1);
    let mut mine = Some(given);
    let mut others = Some(kept);
    let (one, rest) = join_mut(
        rt,
        &mut || -> Option<(Pass, SessionEnd)>
            requires { IsSync R.row × IsSend M.row × IsSend G.Link.row × IsSomeAnd mine (λ p. p.lock ≡ lock_id lock.now) }
            ensures finished { G.Link.is_finished link.exit.now }
            ensures served { IfSome mine.entry (λ p. IsSomeAnd result (λ r. ServesOne G.Link.left G.Link.given G.Link.take_faults G.Link.faults M.plain
                (M.opening (start_of lock.entry.now).machine) (start_of lock.entry.now).max_trail
                p r.0 session link.entry.now link.exit.now r.1)) }
        {
            match mine.take() {
                Some(pass) => Some(serve_link(alloc, rt, lock, pass, session, link)),
                None => unreachable!(),
            }
        },
        &mut || -> Option<(Pass, Served)>
            requires { IsSync R.row × IsSend M.row × IsSend G.Link.row × G.is_bound gate.now × (next + left ≤ 65536)
                × IsSomeAnd others (λ p. (p.lock ≡ lock_id lock.now) × (left < p.pieces)) }
            ensures { IfSome others.entry (λ p. IsSomeAnd result (λ r. Pools G.Link.left G.Link.given G.Link.take_faults G.Link.faults M.plain
                (M.opening (start_of lock.entry.now).machine) (start_of lock.entry.now).max_trail
                G.told G.faults next left p r.0 gate.entry.now gate.exit.now r.1)) }
        {
            match others.take() {
                Some(pass) => Some(serve_from(alloc, rt, lock, pass, gate, next, left)),
                None => unreachable!(),
            }
        },
    );
    sessions_last::<M>();
    match (one, rest) {
        (Some((done, end)), Some((pass, served))) => (lock.join(pass, done), served.with(end)),
        _ => unreachable!(),
    }
}

/// Serves one link.
fn serve_link<M: Machine + Send, L: Link, R: Wait>(
    alloc: Global,
    rt: &R,
    lock: &DagLock<M>,
    pass: Pass,
    session: u16,
    link: &mut L,
) -> (Pass, SessionEnd)
    requires lock { pass.lock ≡ lock_id lock.now }
    ensures served { ServesOne L.left L.given L.take_faults L.faults M.plain (M.opening (start_of lock.now).machine) (start_of lock.now).max_trail
        pass result.0 session link.old link.new result.1 }
    ensures finished { L.is_finished link.new }
{
    serve_session(alloc, rt, lock, pass, session, link)
}
