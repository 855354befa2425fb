//! What lines are answered by where auto steps are asked for too.

ghost use Rattle.std.specs.Prelude.{◌≡◌, ◌+◌, ◌≤◌, [], length};
ghost use Rattle.plain_site.specs.Site.{Site};
ghost use Rattle.site_run.specs.Responses.{Responded};
ghost use Rattle.shell_run.specs.Outcomes.{longest_shell_line};
ghost use Rattle.merge_rules.specs.Auto.{auto_step};
ghost use Rattle.auto_run.specs.Answers.{StepAnswers};
ghost use Rattle.auto_run.specs.RuledCores.{StandsForSite};

use crate::auto_lines::auto_actor;
use crate::end_lines::EndLines;
use crate::ruled_sites::RuledSite;
use merge_rules::auto_step;
use rule_list::RuleList;
use shell_run::{MAX_SHELL_LINE, ShellReplies};
use site_run::{Gathered, Responder};
use std::alloc::Global;
use stored_site::StoredSite;
use tardis_base::NoMemory;

/// Answers a line `N auto` by the line of the auto step of the actor N, and each other line as a shell does. Its buffers are
/// taken once.
#[derive(Drop)]
pub(crate) struct AutoReplies {
    alloc: Global,
    shell: ShellReplies,
    ends: EndLines,
}

impl AutoReplies {
    pub(crate) fn new(alloc: Global) -> Result<AutoReplies, NoMemory> {
        let shell = ShellReplies::new(alloc)?;
        let ends = EndLines::new(alloc)?;
        Ok(AutoReplies { alloc, shell, ends })
    }
}

/// Does the actor's auto step, and puts the line of how it ended behind what was gathered.
fn put_step<A: StoredSite>(
    alloc: Global,
    core: &mut A,
    actor: u16,
    rules: &RuleList,
    ends: &mut EndLines,
    out: &mut Gathered,
)
    requires stands { StandsForSite (A.stands core.old) }
    requires room { length out.old.bytes + longest_shell_line ≤ out.old.room }
    ensures answer { (site : Site) → A.stands core.old site
        → Responded (StepAnswers actor rules.now) (A.stands core.new) site [] out.old.bytes out.new.bytes }
    ensures room { out.new.room ≡ out.old.room }
    ensures opening { A.opened core.new ≡ A.opened core.old }
{
    match auto_step(alloc, core, actor, rules) {
        Ok(end) => ends.put(end, out),
        Err(NoMemory) => out.put(b"nomemory\n"),
    }
}

impl<A: StoredSite> Responder<RuledSite<A>> for AutoReplies {
    ghost use Rattle.auto_run.specs.Ruled.{Ruled, RuledStands, RuledMay};

    ghost State = { Ruled };

    ghost stands = { RuledStands A.stands };

    ghost may = { RuledMay };

    ghost opening = { λ t. record { site = A.opened t.core; rules = t.rules } };

    ghost MOST = { longest_shell_line };

    const MOST: usize = MAX_SHELL_LINE;

    fn respond(&mut self, subject: &mut RuledSite<A>, body: &[u8], out: &mut Gathered) {
        match auto_actor(body) {
            Some(actor) => {
                let core = &mut subject.core;
                put_step(
                    self.alloc,
                    &mut core.site,
                    actor,
                    &subject.rules,
                    &mut self.ends,
                    out,
                )
            }
            None => self.shell.respond(&mut subject.core, body, out),
        }
    }
}
