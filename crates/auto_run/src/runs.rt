//! Runs of a shell with auto steps.

ghost use Rattle.std.specs.Prelude.{◌≡◌, ◌<◌, ◌≤◌, ℕ, List, length};
ghost use Rattle.tardis_io.specs.Told.{WhileTold};
ghost use Rattle.tardis_io.specs.Faults.{Rose};
ghost use Rattle.line_cut.specs.Lines.{IsCut as AreLines};
ghost use Rattle.site_run.specs.Prompt.{EachTake};
ghost use Rattle.site_run.specs.Endings.{most_taken};
ghost use Rattle.site_run.specs.Endings.{IsLineEnd, LinesEndAs};
ghost use Rattle.shell_run.specs.Answers.{over_lines};
ghost use Rattle.plain_site.specs.Step.{site_machine};
ghost use Rattle.auto_run.specs.Outcomes.{AutoOutcome, AutoIsPrompt};

use crate::replies::AutoReplies;
use crate::ruled_sites::RuledSite;
use site_run::answer_lines;
use std::alloc::Global;
use stored_site::StoredSite;
use tardis_base::NoMemory;
use tardis_io::{Duplex, Pair, Sink, Source, Status};

/// Answers the lines of an input: `N auto` by the line of the auto step of the actor N by the site's rules, any other line as
/// `run_shell` does. All buffers are taken first; where they aren't had, the answer is `Status::NoMemory`, and nothing was read.
///
/// Where no memory is found for an auto step, the site is as before, and the line says so; the run goes on.
pub fn run_auto<A: StoredSite, I: Source, O: Sink>(
    alloc: Global,
    site: &mut RuledSite<A>,
    input: &mut I,
    output: &mut O,
) -> Status
    ensures outcome { WhileTold (I.left input.old) (I.left input.new)
        (AutoOutcome (over_lines site_machine) site.old.rules result (A.stands site.old.core) (A.stands site.new.core) (O.given output.old)
        (O.given output.new)) }
    ensures exact { WhileTold (I.left input.old) (I.left input.new) (λ first left. (all : List (List ℕ)) (rest : List ℕ)
        → AreLines first all rest → length first < most_taken
        → (Rose (I.faults input.old) (I.faults input.new) → ⊥) → (Rose (O.faults output.old) (O.faults output.new) → ⊥)
        → LinesEndAs rest result) }
    ensures status { IsLineEnd result }
    ensures read_later { I.faults input.old ≤ I.faults input.new }
    ensures write_later { O.faults output.old ≤ O.faults output.new }
    ensures read { result ≡ Status.ReadFault → Rose (I.faults input.old) (I.faults input.new) }
    ensures write { result ≡ Status.WriteFault → Rose (O.faults output.old) (O.faults output.new) }
    ensures nothing { result ≡ Status.NoMemory → (input.new ≡ input.old) × (output.new ≡ output.old) × (site.new ≡ site.old) }
    ensures opening { A.opened site.new.core ≡ A.opened site.old.core }
    ensures rules { site.new.rules ≡ site.old.rules }
{
    run_auto_device(alloc, site, &mut Pair { input, output })
}

/// The same over one device. Before each take all lines whose line feed was taken were answered, and all answers given.
pub fn run_auto_device<A: StoredSite, D: Duplex>(
    alloc: Global,
    site: &mut RuledSite<A>,
    device: &mut D,
) -> Status
    ensures outcome { WhileTold (D.left device.old) (D.left device.new)
        (AutoOutcome (over_lines site_machine) site.old.rules result (A.stands site.old.core) (A.stands site.new.core) (D.given device.old)
        (D.given device.new)) }
    ensures prompt { EachTake (D.takes device.old) (D.takes device.new) (λ moment. WhileTold (D.left device.old) moment.left
        (AutoIsPrompt (over_lines site_machine) site.old.rules (A.stands site.old.core) (D.given device.old) moment.given)) }
    ensures exact { WhileTold (D.left device.old) (D.left device.new) (λ first left. (all : List (List ℕ)) (rest : List ℕ)
        → AreLines first all rest → length first < most_taken
        → (Rose (D.take_faults device.old) (D.take_faults device.new) → ⊥) → (Rose (D.faults device.old) (D.faults device.new) → ⊥)
        → LinesEndAs rest result) }
    ensures status { IsLineEnd result }
    ensures read_later { D.take_faults device.old ≤ D.take_faults device.new }
    ensures write_later { D.faults device.old ≤ D.faults device.new }
    ensures read { result ≡ Status.ReadFault → Rose (D.take_faults device.old) (D.take_faults device.new) }
    ensures write { result ≡ Status.WriteFault → Rose (D.faults device.old) (D.faults device.new) }
    ensures nothing { result ≡ Status.NoMemory → (device.new ≡ device.old) × (site.new ≡ site.old) }
    ensures opening { A.opened site.new.core ≡ A.opened site.old.core }
    ensures rules { site.new.rules ≡ site.old.rules }
    ensures parts { D.parts device.new ≡ D.parts device.old }
{
    match AutoReplies::new(alloc) {
        Ok(mut lines) => answer_lines(alloc, &mut lines, site, device),
        Err(NoMemory) => Status::NoMemory,
    }
}
