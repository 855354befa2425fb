//! Sites that are asked, or told of, in lines.

ghost use Rattle.std.specs.Prelude.{◌≤◌, IsTrue};
ghost use Rattle.tardis_base.specs.Valid.{are_limits};
ghost use Rattle.plain_site.specs.Site.{opening};
ghost use Rattle.site_commands.specs.Ends.{CausedBy, FramesEnd, LinesEnd};
ghost use Rattle.site_commands.specs.Runs.{AuditFrom, ShellFrom};

use any_site::{AnySite, SiteMachine};
use shell_run::{audit, run_shell};
use std::alloc::Global;
use std::hash::RandomState;
use tardis_base::{Limits, NoMemory};
use tardis_io::{Sink, Source, Status};

/// Answers lines of requests by lines of the replies of the site of this number, with these limits.
pub fn shell<A: AnySite, I: Source, O: Sink>(
    alloc: Global,
    keys: RandomState,
    limits: Limits,
    own: u16,
    input: &mut I,
    output: &mut O,
) -> Status
    requires limits { IsTrue (are_limits limits) }
    requires first { 1 ≤ own }
    requires last { own ≤ limits.sites }
    ensures ends { LinesEnd I.left I.faults O.faults input.old input.new output.old output.new
        (ShellFrom (opening limits own) result (O.given output.old) (O.given output.new)) result }
    ensures read { CausedBy Status.ReadFault (I.faults input.old) (I.faults input.new) result }
    ensures write { CausedBy Status.WriteFault (O.faults output.old) (O.faults output.new) result }
{
    match SiteMachine::<A>::open(alloc, keys, limits, own) {
        Ok(mut site) => run_shell(alloc, &mut site, input, output),
        Err(NoMemory) => Status::NoMemory,
    }
}

/// Tells, in a line each, what frames ask and what the site of this number, with these limits, replies.
pub fn audit_frames<A: AnySite, I: Source, O: Sink>(
    alloc: Global,
    keys: RandomState,
    limits: Limits,
    own: u16,
    input: &mut I,
    output: &mut O,
) -> Status
    requires limits { IsTrue (are_limits limits) }
    requires first { 1 ≤ own }
    requires last { own ≤ limits.sites }
    ensures ends { FramesEnd I.left I.faults O.faults input.old input.new output.old output.new
        (AuditFrom (opening limits own) result (O.given output.old) (O.given output.new)) result }
    ensures read { CausedBy Status.ReadFault (I.faults input.old) (I.faults input.new) result }
    ensures write { CausedBy Status.WriteFault (O.faults output.old) (O.faults output.new) result }
{
    match SiteMachine::<A>::open(alloc, keys, limits, own) {
        Ok(mut site) => audit(alloc, &mut site, input, output),
        Err(NoMemory) => Status::NoMemory,
    }
}
