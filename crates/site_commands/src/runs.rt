//! A site that is asked in frames.

ghost use Rattle.std.specs.Prelude.{◌≤◌, IsTrue};
ghost use Rattle.tardis_base.specs.Valid.{are_limits};
ghost use Rattle.plain_site.specs.Site.{opening};
ghost use Rattle.site_commands.specs.Runs.{RunFrom};
ghost use Rattle.site_commands.specs.Ends.{CausedBy, FramesEnd};

use any_site::{AnySite, SiteMachine};
use site_run::run_site;
use std::alloc::Global;
use std::hash::RandomState;
use std::mem;
use tardis_base::{Limits, NoMemory};
use tardis_io::{Sink, Source, Status};

/// Answers frames of requests by frames of the replies of the site of this number, with these limits.
///
/// Keys are found by hashing with this seed. The site's memory isn't given back piece by piece: a program that ran one ends then.
pub fn run<A: AnySite, I: Source, O: Sink>(
    alloc: Global,
    keys: RandomState,
    limits: Limits,
    own: u16,
    input: &mut I,
    output: &mut O,
) -> Status
    requires limits { IsTrue (are_limits limits) }
    requires first { 1 ≤ own }
    requires last { own ≤ limits.sites }
    ensures ends { FramesEnd I.left I.faults O.faults input.old input.new output.old output.new
        (RunFrom (opening limits own) result (O.given output.old) (O.given output.new)) result }
    ensures read { CausedBy Status.ReadFault (I.faults input.old) (I.faults input.new) result }
    ensures write { CausedBy Status.WriteFault (O.faults output.old) (O.faults output.new) result }
{
    match SiteMachine::<A>::open(alloc, keys, limits, own) {
        Ok(mut site) => {
            let status = run_site(alloc, &mut site, input, output);
            mem::forget(site); // the program ends, and gives all memory back at once
            status
        }
        Err(NoMemory) => Status::NoMemory,
    }
}
