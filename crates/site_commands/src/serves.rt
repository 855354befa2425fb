//! A site that links reach.

ghost use Rattle.std.specs.Prelude.{◌≡◌, ◌≤◌, IsTrue, length};
ghost use Rattle.tardis_base.specs.Valid.{are_limits};
ghost use Rattle.plain_site.specs.Site.{opening};
ghost use Rattle.plain_site.specs.Step.{site_machine};
ghost use Rattle.serve_run.specs.Serving.{ServeOutcome, workload};
ghost use Rattle.site_commands.specs.Ends.{CausedBy, ServerEnds, has_dial_fault, rounds_lack_memory, status_after, status_served};

use crate::counts::sites_tell_counts;
use any_site::{AnySite, SiteMachine};
use serve_pool::PoolEnd;
use serve_run::{ServeEnd, ServeOptions, serve_links};
use site_sync::Rounds;
use std::alloc::Global;
use std::hash::RandomState;
use std::sync::Wait;
use std::thread::Threads;
use tardis_base::{Limits, NoMemory};
use tardis_io::{Dial, Gate, Sink, Status, WriteFault};

/// Listens at the address, serves up to so many links by the site of this number, with these limits, makes the rounds beside
/// them, and writes the trail of all that was asked. Each link is served in a thread of its own, and the rounds are made in
/// one more.
///
/// Keys are found by hashing with this seed.
pub fn serve<A: AnySite + Send, O: Sink, G: Gate, D: Dial + Send, R: Threads + Wait + Sync>(
    alloc: Global,
    rt: &R,
    keys: RandomState,
    limits: Limits,
    own: u16,
    options: ServeOptions<'_>,
    gate: &mut G,
    dial: &mut D,
    output: &mut O,
) -> Status
    requires limits { IsTrue (are_limits limits) }
    requires first { 1 ≤ own }
    requires last { own ≤ limits.sites }
    requires peers { length options.peers.now ≤ 15 }
    requires rounds { options.rounds ≤ 1000000 }
    ensures ends { ServerEnds A.opened G.Gate G.Link.Duplex.own G.Link.Sink D.Dial D.Link.Duplex.own D.Link.Sink O.Sink gate.old gate.new dial.old dial.new output.old output.new
        (opening limits own) limits.max_trail (workload options.entry) result }
    ensures write { CausedBy Status.WriteFault (O.faults output.old) (O.faults output.new) result }
    ensures gate { CausedBy Status.GateFault (G.faults gate.old) (G.faults gate.new) result }
    ensures dial { CausedBy Status.DialFault (D.faults dial.old) (D.faults dial.new) result }
{
    status_of(serve_site::<A, _, _, _, _>(
        alloc, rt, keys, limits, own, options, gate, dial, output,
    ))
}

/// The same, up to its end. The site is made before the gate is asked to listen.
fn serve_site<A: AnySite + Send, O: Sink, G: Gate, D: Dial + Send, R: Threads + Wait + Sync>(
    alloc: Global,
    rt: &R,
    keys: RandomState,
    limits: Limits,
    own: u16,
    options: ServeOptions<'_>,
    gate: &mut G,
    dial: &mut D,
    output: &mut O,
) -> ServeEnd
    requires limits { IsTrue (are_limits limits) }
    requires first { 1 ≤ own }
    requires last { own ≤ limits.sites }
    requires peers { length options.peers.now ≤ 15 }
    requires rounds { options.rounds ≤ 1000000 }
    ensures { ServeOutcome A.opened site_machine G.Link.left G.Link.given G.Link.take_faults G.Link.faults
        D.Link.left D.Link.given D.Link.take_faults D.Link.faults D.told D.faults (opening limits own) limits.max_trail
        G.told G.faults O.given O.faults (workload options.entry) gate.old gate.new dial.old dial.new output.old output.new result }
{
    sites_tell_counts();
    match SiteMachine::<A>::open(alloc, keys, limits, own) {
        Ok(site) => serve_links(
            alloc,
            rt,
            site,
            limits.max_trail,
            options,
            gate,
            dial,
            output,
        ),
        Err(NoMemory) => ServeEnd::NotMade,
    }
}

/// The status of a server that ended so.
fn status_of(end: ServeEnd) -> Status
    ensures { result ≡ status_after end }
{
    match end {
        ServeEnd::NotBound => Status::GateFault,
        ServeEnd::NotMade => Status::NoMemory,
        ServeEnd::Served(served) => {
            if served.unserved > 0 || rounds_lack_memory(served.rounds) {
                Status::NoMemory
            } else {
                status_of_served(served.gate, served.written, has_dial_fault(served.rounds))
            }
        }
    }
}

/// Whether memory was wanting for the rounds.
fn rounds_lack_memory(rounds: Result<Rounds, NoMemory>) -> bool
    ensures { result ≡ rounds_lack_memory rounds }
{
    match rounds {
        Ok(made) => made.memory > 0,
        Err(NoMemory) => true,
    }
}

/// Whether the dial had no link to a peer.
fn has_dial_fault(rounds: Result<Rounds, NoMemory>) -> bool
    ensures { result ≡ has_dial_fault rounds }
{
    match rounds {
        Ok(made) => made.dial > 0,
        Err(NoMemory) => false,
    }
}

/// The status where there was memory for all.
fn status_of_served(gate: PoolEnd, written: Result<(), WriteFault>, not_called: bool) -> Status
    ensures { result ≡ status_served gate written not_called }
{
    match (gate, written) {
        (PoolEnd::GateFault, _) => Status::GateFault,
        (PoolEnd::Done, Err(WriteFault)) => Status::WriteFault,
        (PoolEnd::Done, Ok(())) => {
            if not_called {
                Status::DialFault
            } else {
                Status::Ok
            }
        }
    }
}
