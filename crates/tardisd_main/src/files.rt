//! One site that is kept in a file, over the connections of an edge.

ghost use Rattle.std.specs.Prelude.{◌≡◌, ◌⊎◌, ◌<◌, ◌+◌, ◌≤◌, ℕ, List, true, false, length};
ghost use Rattle.tardis_io.specs.Faults.{Rose};
ghost use Rattle.daemon_words.specs.Daemons.{daemon_of};
ghost use Rattle.daemon_words.specs.Capacity.{IsCapacity};
ghost use Rattle.command_words.specs.Places.{IsPlace};
ghost use Rattle.log_groups.specs.Items.{IsFront};
ghost use Rattle.log_groups.specs.declared.fronts.LogFront.{LogFront};
ghost use Rattle.site_lives.specs.Acquainted.{Acquainted};
ghost use Rattle.rest_site.specs.Stands.{AcquaintedStands, opened_alone};
ghost use Rattle.site_log.specs.Kept.{starts};
ghost use Rattle.site_log.specs.Images.{Mark};
ghost use Rattle.site_log.specs.Stood.{Stands};
ghost use Rattle.site_doors.specs.Kept.{resting};
ghost use Rattle.tardisd_main.specs.Sites.{opens_at};
ghost use Rattle.tardisd_main.specs.Files.{front_at, not_opened, IsRefused};
ghost use Rattle.tardisd_main.specs.Stores.{KeepsAs, GoesOn, ServedFrom, ServedOver};

use crate::doors::{Doors, FoundSite};
use crate::endings::{DaemonEnd, FileFault, ending_of};
use crate::sites::serve_alive;
use command_words::Place;
use daemon_words::DaemonPlan;
use disk_store::{BytewiseDisk, Store};
use hub::Ports;
use log_groups::LogFront;
use rest_site::RestSite;
use site_doors::AskedLog;
use site_log::{FoundLog, LONG, Logged, NotOpened, OpenEnd, OpenedLog, open_log};
use std::alloc::Global;
use std::hash::RandomState;
use tardis_base::NoMemory;
use tardis_io::Failed;

/// Serves the site at the plan's place, which is kept in the file at a path, over the connections at the plan's doors. The file is
/// opened first, and the site read from it; where it is long it is told shorter; then the edge is opened. Nobody is told of what isn't in the file yet. Where the file is
/// new it gets this life: 16 bytes that no other file of the site has; and a site that has no life yet begins it before it is served. The
/// cost of the start grows with the file.
///
/// The disk goes back to the store at the end, whatever this is.
pub fn serve_file<D: Doors, K: BytewiseDisk, S: Store<Disk = K>>(
    alloc: Global,
    keys: RandomState,
    life: [u8; 16],
    plan: &DaemonPlan<'_>,
    path: &str,
    doors: &mut D,
    store: &mut S,
) -> DaemonEnd
    requires place { IsPlace plan.now.place }
    requires capacity { IsCapacity plan.now.capacity }
    requires few { length plan.now.peers.items ≤ 15 }
    ensures { KeepsAs D.opens D.Ports.seen S.Store K.Disk life (daemon_of plan.now) path.now doors.old doors.new store.old store.new result }
{
    match RestSite::new(alloc, keys, plan.limits(), plan.place.site) {
        Ok(site) => serve_stored(alloc, site, life, plan, path, doors, store),
        Err(NoMemory) => DaemonEnd::NoMemory,
    }
}

/// Opens the disk at a path, and serves the site from it.
#[tactic(auto, using(crate::proofs::Stores::out_now))]
fn serve_stored<D: Doors, K: BytewiseDisk, S: Store<Disk = K>>(
    alloc: Global,
    site: RestSite,
    life: [u8; 16],
    plan: &DaemonPlan<'_>,
    path: &str,
    doors: &mut D,
    store: &mut S,
) -> DaemonEnd
    requires place { IsPlace plan.now.place }
    requires capacity { IsCapacity plan.now.capacity }
    requires few { length plan.now.peers.items ≤ 15 }
    requires opens { AcquaintedStands site (opens_at (daemon_of plan.now)) }
    requires alone { opened_alone site ≡ opens_at (daemon_of plan.now) }
    ensures { KeepsAs D.opens D.Ports.seen S.Store K.Disk life (daemon_of plan.now) path.now doors.old doors.new store.old store.new result }
{
    match store.open_file(path) {
        Ok(disk) => {
            let (end, disk) = serve_from(alloc, site, disk, life, plan, doors);
            store.put_back(disk);
            end
        }
        Err(Failed) => {
            drop(site);
            DaemonEnd::File(unopened(store))
        }
    }
}

/// Why a store gave no disk.
pub(crate) fn unopened<S: Store>(store: &S) -> FileFault
    ensures { ((result ≡ FileFault.InUse) × (S.locked store.now ≡ true)) ⊎ ((result ≡ FileFault.Refused) × (S.locked store.now ≡ false)) }
{
    if store.is_locked() {
        FileFault::InUse
    } else {
        FileFault::Refused
    }
}

/// Reads the site from a disk, and serves it.
fn serve_from<D: Doors, K: BytewiseDisk>(
    alloc: Global,
    site: RestSite,
    disk: K,
    life: [u8; 16],
    plan: &DaemonPlan<'_>,
    doors: &mut D,
) -> (DaemonEnd, K)
    requires place { IsPlace plan.now.place }
    requires capacity { IsCapacity plan.now.capacity }
    requires few { length plan.now.peers.items ≤ 15 }
    requires opens { AcquaintedStands site (opens_at (daemon_of plan.now)) }
    requires alone { opened_alone site ≡ opens_at (daemon_of plan.now) }
    ensures { (IsRefused K.Disk (daemon_of plan.now) life disk result.1 result.0 × (doors.new ≡ doors.old))
        ⊎ ServedFrom D.opens D.Ports.seen K.Disk (daemon_of plan.now) life result.0 disk result.1 }
{
    match open_log(alloc, site, disk, &front_of(plan, life)) {
        Ok(opened) => {
            let OpenedLog { log, found } = opened;
            let told = found_site(log.machine(), &found);
            serve_log(alloc, log, told, life, plan, doors)
        }
        Err(refused) => {
            let NotOpened { end, disk } = refused;
            (end_of(end), disk)
        }
    }
}

/// Tells the log shorter, where it is long; then opens the edge, and serves the site with its log over the connections that come. The
/// disk comes back with the end.
fn serve_log<D: Doors, K: BytewiseDisk>(
    alloc: Global,
    log: Logged<RestSite, K>,
    found: FoundSite,
    life: [u8; 16],
    plan: &DaemonPlan<'_>,
    doors: &mut D,
) -> (DaemonEnd, K)
    requires capacity { IsCapacity plan.now.capacity }
    requires few { length plan.now.peers.items ≤ 15 }
    requires opening { opened_alone log.machine ≡ opens_at (daemon_of plan.now) }
    ensures { (bodies : List (List ℕ)) (site : Acquainted) (marks : List Mark) → Stands resting K.Disk log (starts site bodies) marks
        → GoesOn D.opens D.Ports.seen K.Disk (daemon_of plan.now) life result.0 log.file.front bodies site result.1 }
{
    let mut log = log;
    // whatever comes of it, the log goes on, unless it failed: then nothing is settled any more, and the server ends
    let _ = log.shorten_beyond(LONG);
    match doors.open(plan) {
        Ok(ports) => {
            doors.announce(plan, Some(found));
            serve_ports(alloc, log, life, plan, ports)
        }
        Err(fault) => (DaemonEnd::Gate(fault), log.close()),
    }
}

/// Serves the site with its log over the connections of an edge, which then end.
fn serve_ports<P: Ports + Drop, K: BytewiseDisk>(
    alloc: Global,
    log: Logged<RestSite, K>,
    life: [u8; 16],
    plan: &DaemonPlan<'_>,
    ports: P,
) -> (DaemonEnd, K)
    requires capacity { IsCapacity plan.now.capacity }
    requires few { length plan.now.peers.items ≤ 15 }
    requires opening { opened_alone log.machine ≡ opens_at (daemon_of plan.now) }
    ensures { (bodies : List (List ℕ)) (site : Acquainted) (marks : List Mark) → Stands resting K.Disk log (starts site bodies) marks
        → ServedOver P.seen K.Disk (daemon_of plan.now) life result.0 log.file.front bodies site result.1 ports }
{
    let (mut asked, mut ports) = (AskedLog { alloc, log }, ports);
    match serve_alive(alloc, &mut asked, life, plan, &mut ports) {
        Ok(end) => (ending_of(end), asked.log.close()),
        Err(NoMemory) => (DaemonEnd::NoMemory, asked.log.close()),
    }
}

/// What the file of the site that is asked for says first.
fn front_of(plan: &DaemonPlan<'_>, life: [u8; 16]) -> LogFront
    requires place { IsPlace plan.now.place }
    requires capacity { IsCapacity plan.now.capacity }
    ensures front { result ≡ front_at (daemon_of plan.now) life }
    ensures fits { IsFront result }
{
    let limits = plan.limits();
    LogFront {
        sites: limits.sites,
        own: plan.place.site,
        max_kept: limits.max_kept,
        max_path: limits.max_path,
        max_sessions: limits.max_sessions,
        life,
    }
}

/// What is told of a site that was found in a file.
fn found_site(site: &RestSite, found: &FoundLog) -> FoundSite {
    FoundSite {
        known: site.known(),
        kept: site.kept(),
        groups: found.groups,
        bytes: found.bytes,
        is_torn: found.is_torn,
        is_new: found.is_new,
    }
}

/// How a server ends whose log isn't opened.
pub(crate) fn end_of(end: OpenEnd) -> DaemonEnd
    ensures { result ≡ not_opened end }
{
    let fault = match end {
        OpenEnd::NoMemory => return DaemonEnd::NoMemory,
        OpenEnd::Disk => FileFault::Disk,
        OpenEnd::NotALog => FileFault::NotALog,
        OpenEnd::OtherVersion(version) => FileFault::OtherVersion(version),
        OpenEnd::BadFront => FileFault::BadFront,
        OpenEnd::OtherSite(front) => FileFault::OtherSite(Place {
            sites: front.sites,
            site: front.own,
        }),
        OpenEnd::OtherLimits(front) => FileFault::OtherLimits {
            states: front.max_kept,
            sessions: front.max_sessions,
        },
        OpenEnd::Damaged(place) => FileFault::Damaged(place),
        OpenEnd::Unfit(place) => FileFault::Unfit(place),
    };
    DaemonEnd::File(fault)
}
