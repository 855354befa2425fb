//! The command `auto`.

ghost use Rattle.std.specs.Prelude.{◌≤◌, IsTrue};
ghost use Rattle.tardis_base.specs.Valid.{are_limits};
ghost use Rattle.plain_site.specs.Site.{opening};
ghost use Rattle.site_commands.specs.Ends.{CausedBy, LinesEnd};
ghost use Rattle.auto_run.specs.Outcomes.{AutoFrom};

use crate::ruled_sites::RuledSite;
use crate::runs::run_auto;
use rule_list::RuleList;
use std::alloc::Global;
use std::hash::RandomState;
use stored_site::StoredSite;
use tardis_base::{Limits, NoMemory};
use tardis_io::{Sink, Source, Status};

/// Answers lines as `run_auto` does, by these rules, for the site of this number, with these limits.
///
/// Keys are found by hashing with this seed.
pub fn auto<A: StoredSite, I: Source, O: Sink>(
    alloc: Global,
    keys: RandomState,
    limits: Limits,
    own: u16,
    rules: RuleList,
    input: &mut I,
    output: &mut O,
) -> Status
    requires limits { IsTrue (are_limits limits) }
    requires first { 1 ≤ own }
    requires last { own ≤ limits.sites }
    ensures ends { LinesEnd I.left I.faults O.faults input.old input.new output.old output.new
        (AutoFrom (opening limits own) rules result (O.given output.old) (O.given output.new)) result }
    ensures read { CausedBy Status.ReadFault (I.faults input.old) (I.faults input.new) result }
    ensures write { CausedBy Status.WriteFault (O.faults output.old) (O.faults output.new) result }
{
    match A::open(alloc, keys, limits, own) {
        Ok(core) => {
            let mut site = RuledSite::new(core, rules);
            run_auto(alloc, &mut site, input, output)
        }
        Err(NoMemory) => Status::NoMemory,
    }
}
