//! A site behind a lock, with the trail of what it is asked.

ghost use Rattle.std.specs.Prelude.{◌≡◌, ◌≤◌, IsTrue};
ghost use Rattle.tardis_base.specs.Valid.{are_limits};
ghost use Rattle.plain_site.specs.Site.{opening};
ghost use Rattle.session_core.specs.Machine.{SiteStands, opened_with};
ghost use Rattle.dag_lock.specs.Named.{lock_id, pieces_of, start_of};

use dag_lock::{DagLock, Pass};
use memory_io::MemorySink;
use session_core::SiteCore;
use std::alloc::Global;
use std::hash::RandomState;
use std::process::Abort;
use tardis_base::Limits;
use trail_log::Trailed;

/// Site 1 of a place with these limits, which opens.
fn opened(rt: &impl Abort, alloc: Global, keys: RandomState, limits: Limits) -> SiteCore
    requires limits { IsTrue (are_limits limits) }
    requires first { 1 ≤ limits.sites }
    ensures stands { SiteStands result (opened_with result) }
    ensures opened { opened_with result ≡ opening limits 1 }
{
    match SiteCore::new(alloc, keys, limits, 1) {
        Ok(site) => site,
        Err(_) => panic!(rt; "room"),
    }
}

/// It, behind a lock, and the one pass.
pub(crate) fn locked(
    rt: &impl Abort,
    alloc: Global,
    keys: RandomState,
    limits: Limits,
) -> (DagLock<SiteCore>, Pass)
    requires limits { IsTrue (are_limits limits) }
    requires first { 1 ≤ limits.sites }
    ensures pass { (result.1.lock ≡ lock_id result.0) × (result.1.pieces ≡ pieces_of result.0) }
    ensures opened { opened_with (start_of result.0).machine ≡ opening limits 1 }
{
    let site = opened(rt, alloc, keys, limits);
    let trail = Trailed::new(alloc, site, limits.max_trail);
    DagLock::new(alloc, trail, 1).expect(rt, "room")
}

/// What is written of the trail.
fn written(rt: &impl Abort, alloc: Global, trail: &Trailed<SiteCore>) -> Vec<u8> {
    let mut sink = MemorySink::new(alloc, 1_000, 1_000, &[]).expect(rt, "room");
    trail.write_trail(&mut sink).expect(rt, "a trail that fits");
    let bytes = Vec::from_slice(alloc, sink.bytes()).expect(rt, "room");
    drop(sink);
    bytes
}

/// Takes the lock apart: the entries of its trail.
pub(crate) fn entries(
    rt: &impl Abort,
    alloc: Global,
    lock: DagLock<SiteCore>,
    pass: Pass,
) -> Vec<u8>
    requires lock { pass.lock ≡ lock_id lock }
    requires whole { pass.pieces ≡ pieces_of lock }
{
    let trail = lock.close(pass);
    let bytes = written(rt, alloc, &trail);
    drop(trail);
    bytes
}
