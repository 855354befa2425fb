//! What the words of the server ask for.

ghost use Rattle.std.specs.Prelude.{◌≡◌, ◌⊎◌, ◌≤◌, None, Some, length, map, IfOk, IfErr};
ghost use Rattle.std.specs.String.{string_bytes};
ghost use Rattle.command_words.specs.Settings.{settings};
ghost use Rattle.daemon_words.specs.Daemons.{Daemon, daemon, daemon_of};
ghost use Rattle.daemon_words.specs.Capacity.{IsCapacity};
ghost use Rattle.command_words.specs.Places.{IsPlace};

use crate::endings::DaemonEnd;
use command_words::WordsFault;
use daemon_words::{DaemonPlan, read_daemon};
use std::alloc::Global;

/// The plan that the words name. Words without the form are `Usage`; where they have it, there may be no memory for the lists
/// of doors and peers.
pub fn plan_of(alloc: Global, words: &[String]) -> Result<DaemonPlan<'_>, DaemonEnd>
    ensures plan { IfOk result (λ plan. daemon (settings (map (λ w. string_bytes w) words.now)) ≡ Some (daemon_of plan)) }
    ensures place { IfOk result (λ plan. IsPlace plan.place) }
    ensures capacity { IfOk result (λ plan. IsCapacity plan.capacity) }
    ensures peers { IfOk result (λ plan. length plan.peers.items ≤ 15) }
    ensures refused { IfErr result (λ end.
        ((end ≡ DaemonEnd.Usage) × (daemon (settings (map (λ w. string_bytes w) words.now)) ≡ None))
        ⊎ ((end ≡ DaemonEnd.NoMemory) × (asked : Daemon) × (daemon (settings (map (λ w. string_bytes w) words.now)) ≡ Some asked))) }
{
    match read_daemon(alloc, words) {
        Ok(plan) => Ok(plan),
        Err(WordsFault::Usage) => Err(DaemonEnd::Usage),
        Err(WordsFault::NoMemory) => Err(DaemonEnd::NoMemory),
    }
}
