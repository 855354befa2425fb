//! The groups of a log, which a machine takes back.

ghost use Rattle.std.specs.Prelude.{◌≡◌, ◌≤◌, ◌++◌, [], ℕ, List, length, drop, IfOk, IfErr};
ghost use Rattle.log_groups.specs.Items.{IsFront};
ghost use Rattle.site_log.specs.Files.{text_of};
ghost use Rattle.site_log.specs.Replays.{Replayed, GroupsEnd};

use crate::ends::OpenEnd;
use log_groups::{Ending, GROUP_HEAD, LogFront, NextGroup, group_laws, read_group};
use rest_machine::Resting;
use tardis_base::NoMemory;

/// What was found of a log: what it says first, how many groups it has, the place behind them, and whether it ends as a crash may
/// leave it. Where it doesn't, there are only zeros.
#[derive(Clone, Copy)]
pub struct Found {
    pub front: LogFront,
    pub number: u64,
    pub place: usize,
    pub torn: bool,
}

/// Has a machine take back the bodies of a log's groups, in order. The first group would begin at `start`, behind the front. `item`
/// is room for one group, and what it holds isn't said. After a refusal the machine may have taken some of them. The cost grows with
/// the bytes.
pub(crate) fn take_groups<M: Resting>(
    machine: &mut M,
    bytes: &[u8],
    front: &LogFront,
    start: usize,
    item: &mut Vec<u8>,
) -> Result<Found, OpenEnd>
    requires front { IsFront front.now }
    requires at { start ≡ length (text_of front.now []) }
    requires begins { bytes.now ≡ text_of front.now [] ++ drop start bytes.now }
    requires within { start ≤ length bytes.now }
    ensures taken { IfOk result (λ found. (bodies : List (List ℕ)) × Replayed M.Resting machine.old machine.new bytes.now found bodies) }
    ensures front { IfOk result (λ found. found.front ≡ front.now) }
    ensures refused { IfErr result (λ end. GroupsEnd M.Resting machine.old bytes.now front.now end) }
    ensures opening { M.opening machine.new ≡ M.opening machine.old }
{
    group_laws(); // for the proof alone
    let mut place = start;
    let mut number = 0;
    loop {
        match read_group(&bytes[place..], &front.life, number, item) {
            Ok(NextGroup::Group(size)) => {
                match machine.take_back(body_of(item.as_slice())) {
                    Ok(true) => {}
                    Ok(false) => return Err(OpenEnd::Unfit(place as u64)),
                    Err(NoMemory) => return Err(OpenEnd::NoMemory),
                }
                place += size;
                number += 1;
            }
            Ok(NextGroup::End(Ending::Damaged)) => return Err(OpenEnd::Damaged(place as u64)),
            Ok(NextGroup::End(Ending::Torn)) => {
                return Ok(Found {
                    front: *front,
                    number,
                    place,
                    torn: true,
                });
            }
            Ok(NextGroup::End(Ending::Whole)) => {
                return Ok(Found {
                    front: *front,
                    number,
                    place,
                    torn: false,
                });
            }
            Err(NoMemory) => return Err(OpenEnd::NoMemory),
        }
    }
}

/// The body of a group's item.
fn body_of(item: &[u8]) -> &[u8]
    ensures { result.now ≡ drop 16 item.now }
{
    if item.len() < GROUP_HEAD {
        return &item[item.len()..];
    }
    &item[GROUP_HEAD..]
}
