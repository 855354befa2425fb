//! Runs of a shell and of an audit.

ghost use Rattle.std.specs.Prelude.{◌≡◌, ◌<◌, ◌≤◌, ℕ, List, length};
ghost use Rattle.tardis_io.specs.Told.{WhileTold};
ghost use Rattle.tardis_io.specs.Faults.{Rose};
ghost use Rattle.frame_cut.specs.Frames.{IsCut};
ghost use Rattle.line_cut.specs.Lines.{IsCut as AreLines};
ghost use Rattle.site_run.specs.Prompt.{EachTake};
ghost use Rattle.site_run.specs.Endings.{EndsAs, IsRunEnd, most_taken};
ghost use Rattle.site_run.specs.Endings.{IsLineEnd, LinesEndAs};
ghost use Rattle.shell_run.specs.Answers.{over_lines};
ghost use Rattle.shell_run.specs.Outcomes.{ShellOutcome, ShellIsPrompt, AuditOutcome, AuditIsPrompt};

use crate::audits::AuditLines;
use crate::shells::ShellReplies;
use site_run::{answer_frames, answer_lines};
use std::alloc::Global;
use tardis_base::{Machine, NoMemory};
use tardis_io::{Duplex, Pair, Sink, Source, Status};

/// Answers the lines of an input by the lines of a machine's replies, the last one too where no line feed ends it. All
/// buffers are taken first; where they aren't had, the answer is `Status::NoMemory`, and nothing was read.
///
/// A line that is no request's is answered by `refused malformed`, and the machine isn't asked. Where no memory is found for a
/// request, the machine is as before, and the line says so; the run goes on. A line of more than 1,048,576 bytes ends the run
/// with `Status::LongFrame` and the length 1,048,577.
pub fn run_shell<M: Machine, I: Source, O: Sink>(
    alloc: Global,
    machine: &mut M,
    input: &mut I,
    output: &mut O,
) -> Status
    ensures outcome { WhileTold (I.left input.old) (I.left input.new)
        (ShellOutcome (over_lines M.plain) result (M.stands machine.old) (M.stands machine.new) (O.given output.old) (O.given output.new)) }
    ensures exact { WhileTold (I.left input.old) (I.left input.new) (λ first left. (all : List (List ℕ)) (rest : List ℕ)
        → AreLines first all rest → length first < most_taken
        → (Rose (I.faults input.old) (I.faults input.new) → ⊥) → (Rose (O.faults output.old) (O.faults output.new) → ⊥)
        → LinesEndAs rest result) }
    ensures status { IsLineEnd result }
    ensures read_later { I.faults input.old ≤ I.faults input.new }
    ensures write_later { O.faults output.old ≤ O.faults output.new }
    ensures read { result ≡ Status.ReadFault → Rose (I.faults input.old) (I.faults input.new) }
    ensures write { result ≡ Status.WriteFault → Rose (O.faults output.old) (O.faults output.new) }
    ensures nothing { result ≡ Status.NoMemory → (input.new ≡ input.old) × (output.new ≡ output.old) × (machine.new ≡ machine.old) }
    ensures opening { M.opening machine.new ≡ M.opening machine.old }
{
    run_shell_device(alloc, machine, &mut Pair { input, output })
}

/// The same over one device. Before each take all lines whose line feed was taken were answered, and all answers given.
pub fn run_shell_device<M: Machine, D: Duplex>(
    alloc: Global,
    machine: &mut M,
    device: &mut D,
) -> Status
    ensures outcome { WhileTold (D.left device.old) (D.left device.new)
        (ShellOutcome (over_lines M.plain) result (M.stands machine.old) (M.stands machine.new) (D.given device.old) (D.given device.new)) }
    ensures prompt { EachTake (D.takes device.old) (D.takes device.new) (λ moment.
        WhileTold (D.left device.old) moment.left (ShellIsPrompt (over_lines M.plain) (M.stands machine.old) (D.given device.old) moment.given)) }
    ensures exact { WhileTold (D.left device.old) (D.left device.new) (λ first left. (all : List (List ℕ)) (rest : List ℕ)
        → AreLines first all rest → length first < most_taken
        → (Rose (D.take_faults device.old) (D.take_faults device.new) → ⊥) → (Rose (D.faults device.old) (D.faults device.new) → ⊥)
        → LinesEndAs rest result) }
    ensures status { IsLineEnd result }
    ensures read_later { D.take_faults device.old ≤ D.take_faults device.new }
    ensures write_later { D.faults device.old ≤ D.faults device.new }
    ensures read { result ≡ Status.ReadFault → Rose (D.take_faults device.old) (D.take_faults device.new) }
    ensures write { result ≡ Status.WriteFault → Rose (D.faults device.old) (D.faults device.new) }
    ensures nothing { result ≡ Status.NoMemory → (device.new ≡ device.old) × (machine.new ≡ machine.old) }
    ensures opening { M.opening machine.new ≡ M.opening machine.old }
    ensures parts { D.parts device.new ≡ D.parts device.old }
{
    match ShellReplies::new(alloc) {
        Ok(mut lines) => answer_lines(alloc, &mut lines, machine, device),
        Err(NoMemory) => Status::NoMemory,
    }
}

/// Asks a machine what the frames of an input ask, and writes a line for each: what it asks, ` -> `, and the reply. A request
/// that is malformed is told as the actor and the word `malformed`. All buffers are taken first; where they aren't had, the
/// answer is `Status::NoMemory`, and nothing was read.
pub fn audit<M: Machine, I: Source, O: Sink>(
    alloc: Global,
    machine: &mut M,
    input: &mut I,
    output: &mut O,
) -> Status
    ensures outcome { WhileTold (I.left input.old) (I.left input.new)
        (AuditOutcome M.plain result (M.stands machine.old) (M.stands machine.new) (O.given output.old) (O.given output.new)) }
    ensures exact { WhileTold (I.left input.old) (I.left input.new) (λ first left. (all : List (List ℕ)) (rest : List ℕ)
        → IsCut first all rest → length first < most_taken
        → (Rose (I.faults input.old) (I.faults input.new) → ⊥) → (Rose (O.faults output.old) (O.faults output.new) → ⊥)
        → EndsAs rest result) }
    ensures status { IsRunEnd result }
    ensures read_later { I.faults input.old ≤ I.faults input.new }
    ensures write_later { O.faults output.old ≤ O.faults output.new }
    ensures read { result ≡ Status.ReadFault → Rose (I.faults input.old) (I.faults input.new) }
    ensures write { result ≡ Status.WriteFault → Rose (O.faults output.old) (O.faults output.new) }
    ensures nothing { result ≡ Status.NoMemory → (input.new ≡ input.old) × (output.new ≡ output.old) × (machine.new ≡ machine.old) }
    ensures opening { M.opening machine.new ≡ M.opening machine.old }
{
    audit_device(alloc, machine, &mut Pair { input, output })
}

/// The same over one device. Before each take all frames in the bytes taken so far were answered, and all lines given.
pub fn audit_device<M: Machine, D: Duplex>(alloc: Global, machine: &mut M, device: &mut D) -> Status
    ensures outcome { WhileTold (D.left device.old) (D.left device.new)
        (AuditOutcome M.plain result (M.stands machine.old) (M.stands machine.new) (D.given device.old) (D.given device.new)) }
    ensures prompt { EachTake (D.takes device.old) (D.takes device.new) (λ moment.
        WhileTold (D.left device.old) moment.left (AuditIsPrompt M.plain (M.stands machine.old) (D.given device.old) moment.given)) }
    ensures exact { WhileTold (D.left device.old) (D.left device.new) (λ first left. (all : List (List ℕ)) (rest : List ℕ)
        → IsCut first all rest → length first < most_taken
        → (Rose (D.take_faults device.old) (D.take_faults device.new) → ⊥) → (Rose (D.faults device.old) (D.faults device.new) → ⊥)
        → EndsAs rest result) }
    ensures status { IsRunEnd result }
    ensures read_later { D.take_faults device.old ≤ D.take_faults device.new }
    ensures write_later { D.faults device.old ≤ D.faults device.new }
    ensures read { result ≡ Status.ReadFault → Rose (D.take_faults device.old) (D.take_faults device.new) }
    ensures write { result ≡ Status.WriteFault → Rose (D.faults device.old) (D.faults device.new) }
    ensures nothing { result ≡ Status.NoMemory → (device.new ≡ device.old) × (machine.new ≡ machine.old) }
    ensures opening { M.opening machine.new ≡ M.opening machine.old }
    ensures parts { D.parts device.new ≡ D.parts device.old }
{
    match AuditLines::new(alloc) {
        Ok(mut lines) => answer_frames(alloc, &mut lines, machine, device),
        Err(NoMemory) => Status::NoMemory,
    }
}
