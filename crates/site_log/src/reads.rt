//! Reading a log, in memory.

ghost use Rattle.std.specs.Prelude.{◌≡◌, ◌≤◌, ◌++◌, [], ℕ, List, length, drop, IfOk, IfErr};
ghost use Rattle.log_groups.specs.Items.{IsFront};
ghost use Rattle.site_log.specs.Files.{text_of};
ghost use Rattle.site_log.specs.Replays.{Replayed};
ghost use Rattle.site_log.specs.Reads.{IsWanted, Compares, Refuses, WantedEnd};

use crate::ends::OpenEnd;
use crate::replays::{Found, take_groups};
use log_groups::{FirstItem, LogFront, read_front};
use rest_machine::Resting;
use std::alloc::Global;
use tardis_base::NoMemory;

/// Reads a log from all bytes of its file, and has a machine take back the bodies of its groups, in order. The log has to be the
/// wanted site's, of whatever life, with none of its limits larger than the wanted one. After a refusal the machine may have taken some
/// of the bodies. The cost grows with the bytes; at most about 2 MiB of memory are taken, for one item.
pub fn read_log<M: Resting>(
    alloc: Global,
    machine: &mut M,
    bytes: &[u8],
    wanted: &LogFront,
) -> Result<Found, OpenEnd>
    ensures taken { IfOk result (λ found. (bodies : List (List ℕ)) × Replayed M.Resting machine.old machine.new bytes.now found bodies) }
    ensures wanted { IfOk result (λ found. IsWanted found.front wanted.now) }
    ensures refused { IfErr result (λ end. Refuses M.Resting machine.old bytes.now wanted.now end) }
    ensures opening { M.opening machine.new ≡ M.opening machine.old }
{
    let mut item = Vec::new(alloc);
    match read_front(bytes, &mut item, alloc) {
        Ok(FirstItem::Front(front, size)) => {
            take_wanted(machine, bytes, &front, size, &mut item, wanted)
        }
        Ok(FirstItem::NotALog) => Err(OpenEnd::NotALog),
        Ok(FirstItem::OtherVersion(version)) => Err(OpenEnd::OtherVersion(version)),
        Ok(FirstItem::BadFront) => Err(OpenEnd::BadFront),
        Err(NoMemory) => Err(OpenEnd::NoMemory),
    }
}

/// Has a machine take back the groups of a log whose front was read, where it is the wanted one.
fn take_wanted<M: Resting>(
    machine: &mut M,
    bytes: &[u8],
    front: &LogFront,
    start: usize,
    item: &mut Vec<u8>,
    wanted: &LogFront,
) -> Result<Found, OpenEnd>
    requires front { IsFront front.now }
    requires at { start ≡ length (text_of front.now []) }
    requires begins { bytes.now ≡ text_of front.now [] ++ drop start bytes.now }
    requires within { start ≤ length bytes.now }
    ensures taken { IfOk result (λ found. (bodies : List (List ℕ)) × Replayed M.Resting machine.old machine.new bytes.now found bodies) }
    ensures wanted { IfOk result (λ found. IsWanted found.front wanted.now) }
    ensures refused { IfErr result (λ end. WantedEnd M.Resting machine.old bytes.now front.now wanted.now end) }
    ensures opening { M.opening machine.new ≡ M.opening machine.old }
{
    match compare(front, wanted) {
        Ok(()) => take_groups(machine, bytes, front, start, item),
        Err(end) => Err(end),
    }
}

/// Whether a log is the wanted one: of this site, with limits that are no larger.
fn compare(front: &LogFront, wanted: &LogFront) -> Result<(), OpenEnd>
    ensures { Compares front.now wanted.now result }
{
    if front.sites != wanted.sites {
        return Err(OpenEnd::OtherSite(*front));
    }
    if front.own != wanted.own {
        return Err(OpenEnd::OtherSite(*front));
    }
    if front.max_kept > wanted.max_kept {
        return Err(OpenEnd::OtherLimits(*front));
    }
    if front.max_path > wanted.max_path {
        return Err(OpenEnd::OtherLimits(*front));
    }
    if front.max_sessions > wanted.max_sessions {
        return Err(OpenEnd::OtherLimits(*front));
    }
    Ok(())
}
