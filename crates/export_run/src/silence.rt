//! A machine that is asked, and whose replies are forgotten.

ghost use Rattle.std.specs.Prelude.{◌≡◌, ◌+◌, ◌<◌, ◌≤◌, [], List, ℕ, Some, length, map, IfOk};
ghost use Rattle.tardis_io.specs.Told.{WhileTold, Gives};
ghost use Rattle.tardis_io.specs.Faults.{HasCause, Rose};
ghost use Rattle.frame_cut.specs.Frames.{IsCut};
ghost use Rattle.frame_cut.specs.Events.{event_of};
ghost use Rattle.site_run.specs.Endings.{Outcome, EndsAs, IsRunEnd, most_taken};
ghost use Rattle.export_run.specs.Silence.{SilentMay, Led};

use frame_cut::event;
use site_run::{Gathered, Responder, answer_frames};
use std::alloc::Global;
use tardis_base::{Machine, NO_MEMORY, NoMemory, ReplyBuf};
use tardis_io::{Failed, Pair, Sink, Source, Status};

/// Answers each body by no bytes; where the machine finds no memory, by the reply that says so.
#[derive(Drop)]
struct Silence {
    reply: ReplyBuf,
}

impl<M: Machine> Responder<M> for Silence {
    ghost State = { M.Plain };

    ghost stands = { M.stands };

    ghost may = { SilentMay M.plain };

    ghost opening = { M.opening };

    ghost MOST = { 1 };

    const MOST: usize = 1;

    fn respond(&mut self, subject: &mut M, body: &[u8], out: &mut Gathered) {
        let (actor, request) = event(body);
        match subject.act(actor, request, &mut self.reply) {
            Ok(()) => {}
            Err(NoMemory) => out.put(&NO_MEMORY),
        }
    }
}

/// Takes no bytes: each give fails, and is counted.
#[derive(Drop)]
struct Refusal {
    faults: u64,
}

impl Sink for Refusal {
    ghost given = { λ _. Some [] };

    ghost faults = { λ r. r.faults };

    ghost Kept = { Unit {0} };

    ghost kept = { λ _. tt };

    fn give(&mut self, bytes: &[u8]) -> Result<usize, Failed> {
        let _ = bytes;
        self.faults = self.faults.saturating_add(1);
        Err(Failed)
    }
}

/// Asks a machine what the frames of an input ask, and forgets its replies. `Status::WriteFault` says that it found no memory
/// for a frame; then no more is read, behind the piece of at most 65,536 bytes in which that frame ended.
pub(crate) fn ask_silently<M: Machine, I: Source>(
    alloc: Global,
    machine: &mut M,
    input: &mut I,
) -> Status
    ensures outcome { WhileTold (I.left input.old) (I.left input.new)
        (Outcome result (M.stands machine.old) (λ s bodies. Led M.plain result (M.stands machine.new) s (map event_of bodies))) }
    ensures exact { WhileTold (I.left input.old) (I.left input.new) (λ first left. (all : List (List ℕ)) (rest : List ℕ)
        → IsCut first all rest → length first < most_taken
        → (Rose (I.faults input.old) (I.faults input.new) → ⊥) → (result ≡ Status.WriteFault → ⊥) → EndsAs rest result) }
    ensures status { IsRunEnd result }
    ensures later { I.faults input.old ≤ I.faults input.new }
    ensures read { result ≡ Status.ReadFault → Rose (I.faults input.old) (I.faults input.new) }
    ensures nothing { result ≡ Status.NoMemory → (input.new ≡ input.old) × (machine.new ≡ machine.old) }
    ensures opening { M.opening machine.new ≡ M.opening machine.old }
{
    let Ok(reply) = ReplyBuf::new(alloc) else {
        return Status::NoMemory;
    };
    let mut silence = Silence { reply };
    let mut refusal = Refusal { faults: 0 };
    answer_frames(
        alloc,
        &mut silence,
        machine,
        &mut Pair {
            input,
            output: &mut refusal,
        },
    )
}
