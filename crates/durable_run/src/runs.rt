//! The run over the pieces of an input.

ghost use Rattle.std.specs.Prelude.{◌≡◌, ◌⊎◌, ◌+◌, ◌<◌, ◌≤◌, ◌++◌, [], ℕ, List, length, IfOk, IfErr, ◌==◌, if◌then◌else◌};
ghost use Rattle.tardis_base.specs.Sizes.{longest_trail, piece as piece_size};
ghost use Rattle.tardis_io.specs.Told.{WhileTold};
ghost use Rattle.tardis_io.specs.Moments.{with_take};
ghost use Rattle.tardis_io.specs.Faults.{Rose};
ghost use Rattle.frame_cut.specs.Frames.{IsCut};
ghost use Rattle.disk_store.specs.Disks.{AsHonest};
ghost use Rattle.site_run.specs.Endings.{EndsAs, IsRunEnd, most_taken};
ghost use Rattle.durable_run.specs.Buffering.{AreFresh};
ghost use Rattle.durable_run.specs.Groups.{Start, Grouping, Taking};
ghost use Rattle.durable_run.specs.Prompt.{IsPrompt};
ghost use Rattle.durable_run.specs.Turns.{Went, AreReady, Ended, EndsSo};
ghost use Rattle.durable_run.specs.Ends.{RanOn, RanPromptly, NotOpened, source_of};

use crate::buffers::Buffers;
use crate::groups::DeviceFault;
use crate::pieces::{Remainder, answer_piece};
use disk_store::Disk;
use frame_cut::FrameCutter;
use site_journal::{Journaled, OpenEnd, open_on};
use site_run::take_front;
use std::alloc::Global;
use tardis_base::{Machine, NoMemory, PIECE};
use tardis_io::{Duplex, Failed, Pair, Sink, Source, Status};

/// How many bytes are taken at most: 1 TiB.
const MOST_TAKEN: u64 = 1_099_511_627_776;

/// Opens the journal on a disk, and answers the frames of an input by the frames of the machine's replies, each once its
/// entry is on the disk. The disk comes back with the status, whatever it is. The journal may have at most `max_trail` bytes;
/// where a request's entry would be more, the reply says that the journal is full, and the run goes on.
///
/// The requests whose frames end in one piece of the input, of at most 65,536 bytes, are a group: their entries go to the disk
/// together, with two syncs, and their replies are written after that. A group ends earlier where more than a mebibyte of
/// entries or of answers has come together.
pub fn run_durable<M: Machine, K: Disk, I: Source, O: Sink>(
    alloc: Global,
    machine: M,
    disk: K,
    max_trail: u64,
    input: &mut I,
    output: &mut O,
) -> (Status, K)
    requires opening { M.stands machine (M.opening machine) }
    requires most { max_trail ≤ longest_trail }
    ensures outcome { NotOpened M.plain K.Disk I.Source O.Sink result.0 disk result.1 input.old input.new
        output.old output.new
        ⊎ RanOn M.plain K.Disk I.Source O.Sink (M.opening machine) max_trail result.0 disk result.1 input.old
        input.new output.old output.new }
    ensures exact { WhileTold (I.left input.old) (I.left input.new) (λ first left. (all : List (List ℕ)) (rest : List ℕ)
        → IsCut first all rest → length first < most_taken → (Rose (K.faults disk) (K.faults result.1) → ⊥)
        → (Rose (I.faults input.old) (I.faults input.new) → ⊥) → (Rose (O.faults output.old) (O.faults output.new) → ⊥)
        → EndsAs rest result.0) }
    ensures ended { Ended K.Disk I.Source O.Sink disk result.1 input.old input.new output.old output.new result.0 }
    ensures read_later { I.faults input.old ≤ I.faults input.new }
    ensures write_later { O.faults output.old ≤ O.faults output.new }
    ensures nothing { result.0 ≡ Status.NoMemory → (input.new ≡ input.old) × (output.new ≡ output.old) }
{
    run_durable_device(alloc, machine, disk, max_trail, &mut Pair { input, output })
}

/// The same over one device. Before each take all frames in the bytes taken so far were answered, and all answers given.
pub fn run_durable_device<M: Machine, K: Disk, D: Duplex>(
    alloc: Global,
    machine: M,
    disk: K,
    max_trail: u64,
    device: &mut D,
) -> (Status, K)
    requires opening { M.stands machine (M.opening machine) }
    requires most { max_trail ≤ longest_trail }
    ensures outcome { NotOpened M.plain K.Disk (source_of D.Duplex.own) D.Sink result.0 disk result.1 device.old device.new device.old device.new
        ⊎ RanPromptly M.plain K.Disk D.Duplex.own D.Sink (M.opening machine) max_trail result.0 disk result.1 device.old device.new }
    ensures exact { WhileTold (D.left device.old) (D.left device.new) (λ first left. (all : List (List ℕ)) (rest : List ℕ)
        → IsCut first all rest → length first < most_taken → (Rose (K.faults disk) (K.faults result.1) → ⊥)
        → (Rose (D.take_faults device.old) (D.take_faults device.new) → ⊥) → (Rose (D.faults device.old) (D.faults device.new) → ⊥)
        → EndsAs rest result.0) }
    ensures ended { Ended K.Disk (source_of D.Duplex.own) D.Sink disk result.1 device.old device.new device.old device.new result.0 }
    ensures read_later { D.take_faults device.old ≤ D.take_faults device.new }
    ensures write_later { D.faults device.old ≤ D.faults device.new }
    ensures nothing { result.0 ≡ Status.NoMemory → device.new ≡ device.old }
    ensures parts { D.parts device.new ≡ D.parts device.old }
{
    let Ok(mut buffers) = Buffers::new(alloc) else {
        return (Status::NoMemory, disk);
    };
    let Ok(mut piece) = vec![in alloc; 0; PIECE] else {
        return (Status::NoMemory, disk);
    };
    match open_on(alloc, machine, disk, max_trail) {
        Ok((journal, _)) => { answer_input(&mut buffers, piece.as_mut_slice(), journal, device) }
        Err(OpenEnd::DiskFault(disk)) => (Status::DiskFault, disk),
        Err(OpenEnd::NoMemory(disk)) => (Status::NoMemory, disk),
    }
}

/// Answers the frames of an input, piece by piece.
fn answer_input<M: Machine, K: Disk, D: Duplex>(
    buffers: &mut Buffers,
    piece: &mut [u8],
    journal: Journaled<M, K>,
    device: &mut D,
) -> (Status, K)
    requires fresh { AreFresh buffers.old }
    requires room { length piece.old ≡ piece_size }
    requires group { (at : Start M.Plain K) × Grouping M.Machine K.Disk at journal
        (D.given device.old) [] [] }
    ensures outcome { (at : Start M.Plain K) → Grouping M.Machine K.Disk at journal
        (D.given device.old) [] []
        → WhileTold (D.left device.old) (D.left device.new)
        (EndsSo M.plain K.Disk at result.0 result.1 (D.given device.new)) }
    ensures ended { Ended K.Disk (source_of D.Duplex.own) D.Sink journal.disk result.1 device.old device.new device.old device.new result.0 }
    ensures read_later { D.take_faults device.old ≤ D.take_faults device.new }
    ensures write_later { D.faults device.old ≤ D.faults device.new }
    ensures prompt { (at : Start M.Plain K) → Grouping M.Machine K.Disk at journal (D.given device.old) [] []
        → at.given ≡ D.given device.old → IsPrompt M.plain D.Duplex.own D.Sink at.state at.most at.entries device.old device.new }
    ensures memory { result.0 ≡ Status.NoMemory → ⊥ }
    ensures parts { D.parts device.new ≡ D.parts device.old }
{
    let mut journal = journal;
    let mut taken: u64 = 0;
    while taken < MOST_TAKEN {
        let size = PIECE.min((MOST_TAKEN - taken) as usize);
        match turn(buffers, piece, journal, size, device) {
            Ok((answered, count)) => {
                journal = answered;
                taken += count as u64;
            }
            Err(end) => return end,
        }
    }
    (Status::Spent, journal.close().1)
}

/// Takes a piece of at most so many bytes, and answers the frames that it completes.
fn turn<M: Machine, K: Disk, D: Duplex>(
    buffers: &mut Buffers,
    piece: &mut [u8],
    journal: Journaled<M, K>,
    size: usize,
    device: &mut D,
) -> Result<(Journaled<M, K>, usize), (Status, K)>
    requires ready { AreReady buffers.old }
    requires room { length piece.old ≡ piece_size }
    requires some { 0 < size }
    requires within { size ≤ piece_size }
    requires group { (at : Start M.Plain K) × ((bodies : List (List ℕ))
        × Grouping M.Machine K.Disk at journal (D.given device.old) [] bodies) }
    ensures turned { IfOk result (λ on. WhileTold (D.left device.old) (D.left device.new) (λ before after. (at : Start M.Plain K) (taken : ℕ) (first : List ℕ)
        → Taking M.Machine K.Disk at taken journal (D.given device.old) buffers.old.cutter
        first before
        → Taking M.Machine K.Disk at (taken + on.1) on.0 (D.given device.new)
        buffers.new.cutter first after)) }
    ensures outcome { IfErr result (λ end. WhileTold (D.left device.old) (D.left device.new) (λ before after. (at : Start M.Plain K) (taken : ℕ) (first : List ℕ)
        → Taking M.Machine K.Disk at taken journal (D.given device.old) buffers.old.cutter
        first before
        → taken + size ≤ most_taken → EndsSo M.plain K.Disk at end.0 end.1 (D.given device.new) first after)) }
    ensures grouped { (at : Start M.Plain K) (bodies : List (List ℕ))
        → Grouping M.Machine K.Disk at journal (D.given device.old) [] bodies
        → IfOk result (λ on. (more : List (List ℕ))
        × Grouping M.Machine K.Disk at on.0 (D.given device.new) [] (bodies ++ more)) }
    ensures ready { IfOk result (λ on. AreReady buffers.new) }
    ensures room { length piece.new ≡ piece_size }
    ensures count { IfOk result (λ on. (0 < on.1) × (on.1 ≤ size)) }
    ensures went { IfOk result (λ on. Went K.Disk journal.disk on.0.disk) }
    ensures ended { IfErr result (λ end. Ended K.Disk (source_of D.Duplex.own) D.Sink journal.disk end.1 device.old device.new device.old device.new end.0) }
    ensures memory { IfErr result (λ end. end.0 ≡ Status.NoMemory → ⊥) }
    ensures told { D.takes device.new ≡ with_take (D.takes device.old) (D.left device.old) (D.given device.old) }
    ensures parts { D.parts device.new ≡ D.parts device.old }
    ensures read_later { D.take_faults device.old ≤ D.take_faults device.new }
    ensures write_later { D.faults device.old ≤ D.faults device.new }
{
    let Buffers {
        cutter,
        reply,
        gathered,
    } = buffers;
    match take_front(device, piece, size) {
        Ok(0) => Err((end_of(cutter), journal.close().1)),
        Ok(count) => {
            match answer_piece(journal, cutter, reply, gathered, device, &piece[..count]) {
                Ok((journal, next)) => match next {
                    Remainder::Part => Ok((journal, count)),
                    Remainder::Long(len) => Err((Status::LongFrame { len }, journal.close().1)),
                },
                Err(DeviceFault::Disk(disk)) => Err((Status::DiskFault, disk)),
                Err(DeviceFault::Output(disk)) => Err((Status::WriteFault, disk)),
            }
        }
        Err(Failed) => Err((Status::ReadFault, journal.close().1)),
    }
}

/// The end of a run whose input has ended: a frame may have been cut short.
fn end_of(cutter: &FrameCutter) -> Status
    ensures { result ≡ (if length cutter.now == 0 then Status.Ok else Status.Cut) }
{
    if cutter.holds_any() {
        Status::Cut
    } else {
        Status::Ok
    }
}
