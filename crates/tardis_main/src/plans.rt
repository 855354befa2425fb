//! Plans of `serve`.

ghost use Rattle.std.specs.Prelude.{◌≡◌, ◌≤◌, length};
ghost use Rattle.command_words.specs.Commands.{serving_of};
ghost use Rattle.command_words.specs.Places.{IsPlace, program_limits};
ghost use Rattle.site_commands.specs.Ends.{CausedBy, ServerEnds};
ghost use Rattle.tardis_main.specs.Program.{site_at, work_of};

use command_words::ServePlan;
use serve_run::ServeOptions;
use site_commands::serve;
use std::alloc::Global;
use std::hash::RandomState;
use std::sync::Wait;
use std::thread::Threads;
use stored_site::StoredSite;
use tardis_io::{Dial, Gate, Sink, Status};

/// Serves links and makes rounds as a plan says.
pub(crate) fn serve_plan<
    A: StoredSite + Send,
    O: Sink,
    G: Gate,
    D: Dial + Send,
    R: Threads + Wait + Sync,
>(
    alloc: Global,
    rt: &R,
    keys: RandomState,
    plan: &ServePlan,
    gate: &mut G,
    dial: &mut D,
    output: &mut O,
) -> Status
    requires place { IsPlace plan.now.place }
    requires peers { length plan.now.peers.items ≤ 15 }
    requires rounds { plan.now.rounds ≤ 1000000 }
    ensures ends { ServerEnds A.opened G.Gate G.Link.Duplex.own G.Link.Sink D.Dial D.Link.Duplex.own D.Link.Sink O.Sink gate.old gate.new dial.old dial.new output.old output.new
        (site_at plan.now.place) (program_limits plan.now.place.sites).max_trail (work_of (serving_of plan.now)) result }
    ensures write { CausedBy Status.WriteFault (O.faults output.old) (O.faults output.new) result }
    ensures gate { CausedBy Status.GateFault (G.faults gate.old) (G.faults gate.new) result }
    ensures dial { CausedBy Status.DialFault (D.faults dial.old) (D.faults dial.new) result }
{
    let place = plan.place;
    let peers = plan.peers.as_slice();
    let options = ServeOptions {
        address: plan.listen.as_str(),
        links: plan.links,
        peers,
        rounds: plan.rounds,
        tidy: plan.tidy,
    };
    serve::<A, O, G, D, R>(
        alloc,
        rt,
        keys,
        place.limits(),
        place.site,
        options,
        gate,
        dial,
        output,
    )
}
