//! Runs: the loop over the pieces of an input, and what its pieces are answered by.

ghost use Rattle.std.specs.Prelude.{◌≡◌, ◌+◌, ◌≤◌, ◌<◌, [], List, ℕ, length, map, IfOk};
ghost use Rattle.tardis_base.specs.Sizes.{longest_frame};
ghost use Rattle.tardis_io.specs.Told.{WhileTold, Takes};
ghost use Rattle.tardis_io.specs.Moments.{with_take};
ghost use Rattle.tardis_io.specs.Faults.{Rose, HasCause};
ghost use Rattle.frame_cut.specs.Frames.{IsCut};
ghost use Rattle.line_cut.specs.Lines.{IsCut as AreLines};
ghost use Rattle.frame_cut.specs.Events.{event_of};
ghost use Rattle.site_run.specs.Responses.{AnsweredBy, Whole};
ghost use Rattle.site_run.specs.Machines.{Answered};
ghost use Rattle.site_run.specs.Buffering.{IsFresh};
ghost use Rattle.site_run.specs.Forms.{IsLawful};
ghost use Rattle.site_run.specs.Prompt.{EachTake, AllSoFar, UpToDate, UpToDateLines};
ghost use Rattle.site_run.specs.Endings.{RunOutcome, Outcome, LineOutcome, RunEndsAs, EndsAs, LinesEndAs, IsEndOf, IsRunEnd, IsLineEnd};
ghost use Rattle.site_run.specs.Endings.{shape_of, shape_within, most_taken};

use crate::answers::{Behind, InputEnd, answer_last, answer_piece};
use crate::cutting::Cutter;
use crate::gathered::Gathered;
use crate::responders::{MachineReplies, Responder};
use frame_cut::FrameCutter;
use line_cut::LineCutter;
use std::alloc::Global;
use tardis_base::{MAX_FRAME, Machine, NoMemory, PIECE};
use tardis_io::{Duplex, Failed, Pair, Sink, Source, Status, WriteFault};

/// Answers the frames of an input by the frames of a machine's replies. All buffers are taken first; where they aren't
/// had, the answer is `Status::NoMemory`, and nothing was read.
///
/// A machine that finds no memory for a request is as before, and the reply says so; the run goes on.
pub fn run_site<M: Machine, I: Source, O: Sink>(
    alloc: Global,
    machine: &mut M,
    input: &mut I,
    output: &mut O,
) -> Status
    ensures outcome { WhileTold (I.left input.old) (I.left input.new) (λ first left. Outcome result (M.stands machine.old)
        (λ s bodies. Answered M.plain (shape_of result) (M.stands machine.new) (O.given output.old) (O.given output.new) s (map event_of bodies)) first left) }
    ensures exact { WhileTold (I.left input.old) (I.left input.new) (λ first left. (all : List (List ℕ)) (rest : List ℕ)
        → IsCut first all rest → length first < most_taken
        → (Rose (I.faults input.old) (I.faults input.new) → ⊥) → (Rose (O.faults output.old) (O.faults output.new) → ⊥)
        → EndsAs rest result) }
    ensures status { IsRunEnd result }
    ensures read_later { I.faults input.old ≤ I.faults input.new }
    ensures write_later { O.faults output.old ≤ O.faults output.new }
    ensures read { result ≡ Status.ReadFault → Rose (I.faults input.old) (I.faults input.new) }
    ensures write { result ≡ Status.WriteFault → Rose (O.faults output.old) (O.faults output.new) }
    ensures nothing { result ≡ Status.NoMemory → (input.new ≡ input.old) × (output.new ≡ output.old) × (machine.new ≡ machine.old) }
    ensures opening { M.opening machine.new ≡ M.opening machine.old }
{
    run_device(alloc, machine, &mut Pair { input, output })
}

/// The same over one device. Before each take all frames in the bytes taken so far were answered, and all answers given.
pub fn run_device<M: Machine, D: Duplex>(alloc: Global, machine: &mut M, device: &mut D) -> Status
    ensures outcome { WhileTold (D.left device.old) (D.left device.new) (λ first left. Outcome result (M.stands machine.old)
        (λ s bodies. Answered M.plain (shape_of result) (M.stands machine.new) (D.given device.old) (D.given device.new) s (map event_of bodies)) first left) }
    ensures prompt { EachTake (D.takes device.old) (D.takes device.new) (λ moment. WhileTold (D.left device.old) moment.left (UpToDate (M.stands machine.old)
        (λ s bodies. Answered M.plain Whole (λ _. Unit {0}) (D.given device.old) moment.given s (map event_of bodies)))) }
    ensures exact { WhileTold (D.left device.old) (D.left device.new) (λ first left. (all : List (List ℕ)) (rest : List ℕ)
        → IsCut first all rest → length first < most_taken
        → (Rose (D.take_faults device.old) (D.take_faults device.new) → ⊥) → (Rose (D.faults device.old) (D.faults device.new) → ⊥)
        → EndsAs rest result) }
    ensures status { IsRunEnd result }
    ensures read_later { D.take_faults device.old ≤ D.take_faults device.new }
    ensures write_later { D.faults device.old ≤ D.faults device.new }
    ensures read { result ≡ Status.ReadFault → Rose (D.take_faults device.old) (D.take_faults device.new) }
    ensures write { result ≡ Status.WriteFault → Rose (D.faults device.old) (D.faults device.new) }
    ensures nothing { result ≡ Status.NoMemory → (device.new ≡ device.old) × (machine.new ≡ machine.old) }
    ensures opening { M.opening machine.new ≡ M.opening machine.old }
    ensures parts { D.parts device.new ≡ D.parts device.old }
{
    match MachineReplies::new(alloc) {
        Ok(mut replies) => answer_frames(alloc, &mut replies, machine, device),
        Err(NoMemory) => Status::NoMemory,
    }
}

/// Answers the bodies of the frames of an input, one after another, and writes the answers. All buffers are taken
/// first; where they aren't had, nothing is read.
///
/// The input is taken in pieces of at most 65,536 bytes. The answers of the frames that end in one piece are written
/// together before the next take, and before that only where more than a mebibyte of them is gathered.
pub fn answer_frames<T, R: Responder<T>, D: Duplex>(
    alloc: Global,
    responder: &mut R,
    subject: &mut T,
    device: &mut D,
) -> Status
    ensures outcome { WhileTold (D.left device.old) (D.left device.new) (λ first left. Outcome result (R.stands subject.old)
        (λ s bodies. AnsweredBy R.may (shape_within (longest_frame + R.MOST) result) (R.stands subject.new)
        (D.given device.old) (D.given device.new) [] [] s bodies) first left) }
    ensures prompt { EachTake (D.takes device.old) (D.takes device.new) (λ moment. WhileTold (D.left device.old) moment.left (UpToDate (R.stands subject.old)
        (λ s bodies. AnsweredBy R.may Whole (λ _. Unit {0}) (D.given device.old) moment.given [] [] s bodies))) }
    ensures exact { WhileTold (D.left device.old) (D.left device.new) (λ first left. (all : List (List ℕ)) (rest : List ℕ)
        → IsCut first all rest → length first < most_taken
        → (Rose (D.take_faults device.old) (D.take_faults device.new) → ⊥) → (Rose (D.faults device.old) (D.faults device.new) → ⊥)
        → EndsAs rest result) }
    ensures status { IsRunEnd result }
    ensures read_later { D.take_faults device.old ≤ D.take_faults device.new }
    ensures write_later { D.faults device.old ≤ D.faults device.new }
    ensures read { result ≡ Status.ReadFault → Rose (D.take_faults device.old) (D.take_faults device.new) }
    ensures write { result ≡ Status.WriteFault → Rose (D.faults device.old) (D.faults device.new) }
    ensures nothing { result ≡ Status.NoMemory → (device.new ≡ device.old) × (subject.new ≡ subject.old) }
    ensures opening { R.opening subject.new ≡ R.opening subject.old }
    ensures parts { D.parts device.new ≡ D.parts device.old }
{
    answer_bodies::<T, FrameCutter, R, D>(alloc, responder, subject, device)
}

/// Answers the lines of an input, one after another, and writes the answers: the last line too, where no line feed ends
/// it and it isn't empty. All buffers are taken first; where they aren't had, nothing is read.
///
/// The input is taken in pieces of at most 65,536 bytes. The answers of the lines whose line feed is in one piece are
/// written together before the next take, and before that only where more than a mebibyte of them is gathered. A line of
/// more than 1,048,576 bytes ends the run with `Status::LongFrame` and the length 1,048,577.
pub fn answer_lines<T, R: Responder<T>, D: Duplex>(
    alloc: Global,
    responder: &mut R,
    subject: &mut T,
    device: &mut D,
) -> Status
    ensures outcome { WhileTold (D.left device.old) (D.left device.new) (λ first left. LineOutcome result (R.stands subject.old)
        (λ s lines. AnsweredBy R.may (shape_within (longest_frame + R.MOST) result) (R.stands subject.new)
        (D.given device.old) (D.given device.new) [] [] s lines) first left) }
    ensures prompt { EachTake (D.takes device.old) (D.takes device.new) (λ moment.
        WhileTold (D.left device.old) moment.left (UpToDateLines (R.stands subject.old)
        (λ s lines. AnsweredBy R.may Whole (λ _. Unit {0}) (D.given device.old) moment.given [] [] s lines))) }
    ensures exact { WhileTold (D.left device.old) (D.left device.new) (λ first left. (all : List (List ℕ)) (rest : List ℕ)
        → AreLines first all rest → length first < most_taken
        → (Rose (D.take_faults device.old) (D.take_faults device.new) → ⊥) → (Rose (D.faults device.old) (D.faults device.new) → ⊥)
        → LinesEndAs rest result) }
    ensures status { IsLineEnd result }
    ensures read_later { D.take_faults device.old ≤ D.take_faults device.new }
    ensures write_later { D.faults device.old ≤ D.faults device.new }
    ensures read { result ≡ Status.ReadFault → Rose (D.take_faults device.old) (D.take_faults device.new) }
    ensures write { result ≡ Status.WriteFault → Rose (D.faults device.old) (D.faults device.new) }
    ensures nothing { result ≡ Status.NoMemory → (device.new ≡ device.old) × (subject.new ≡ subject.old) }
    ensures opening { R.opening subject.new ≡ R.opening subject.old }
    ensures parts { D.parts device.new ≡ D.parts device.old }
{
    answer_bodies::<T, LineCutter, R, D>(alloc, responder, subject, device)
}

/// How many bytes are taken at most: 1 TiB.
const MOST_TAKEN: u64 = 1_099_511_627_776;

/// How many bytes of answers may be gathered before they are written.
const GATHERED: usize = MAX_FRAME;

/// The buffers of a loop.
#[derive(Drop)]
struct Buffers<C> {
    piece: Vec<u8>,
    cutter: C,
    gathered: Gathered,
}

/// All buffers of a loop in which an answer has at most `most` bytes.
fn new_buffers<C: Cutter>(alloc: Global, most: usize) -> Result<Buffers<C>, NoMemory>
    ensures { IfOk result (λ b. IsFresh C.held b most) }
{
    let Ok(piece) = vec![in alloc; 0; PIECE] else {
        return Err(NoMemory);
    };
    let cutter = C::new(alloc)?;
    let gathered = Gathered::new(alloc, most.saturating_add(GATHERED))?;
    Ok(Buffers {
        piece,
        cutter,
        gathered,
    })
}

/// Answers the bodies that this way of cutting finds in an input.
fn answer_bodies<T, C: Cutter, R: Responder<T>, D: Duplex>(
    alloc: Global,
    responder: &mut R,
    subject: &mut T,
    device: &mut D,
) -> Status
    requires { IsLawful C.form }
    ensures outcome { WhileTold (D.left device.old) (D.left device.new) (λ first left. RunOutcome C.form result (R.stands subject.old)
        (λ s bodies. AnsweredBy R.may (shape_within (longest_frame + R.MOST) result) (R.stands subject.new)
        (D.given device.old) (D.given device.new) [] [] s bodies) first left) }
    ensures prompt { EachTake (D.takes device.old) (D.takes device.new) (λ moment. WhileTold (D.left device.old) moment.left (AllSoFar C.form (R.stands subject.old)
        (λ s bodies. AnsweredBy R.may Whole (λ _. Unit {0}) (D.given device.old) moment.given [] [] s bodies))) }
    ensures exact { WhileTold (D.left device.old) (D.left device.new) (λ first left. (all : List (List ℕ)) (rest : List ℕ)
        → C.form.IsCut first all rest → length first < most_taken
        → (Rose (D.take_faults device.old) (D.take_faults device.new) → ⊥) → (Rose (D.faults device.old) (D.faults device.new) → ⊥)
        → RunEndsAs C.form rest result) }
    ensures status { IsEndOf C.form result }
    ensures read_later { D.take_faults device.old ≤ D.take_faults device.new }
    ensures write_later { D.faults device.old ≤ D.faults device.new }
    ensures read { result ≡ Status.ReadFault → Rose (D.take_faults device.old) (D.take_faults device.new) }
    ensures write { result ≡ Status.WriteFault → Rose (D.faults device.old) (D.faults device.new) }
    ensures nothing { result ≡ Status.NoMemory → (device.new ≡ device.old) × (subject.new ≡ subject.old) }
    ensures opening { R.opening subject.new ≡ R.opening subject.old }
    ensures parts { D.parts device.new ≡ D.parts device.old }
{
    match new_buffers::<C>(alloc, R::MOST) {
        Ok(mut buffers) => answer_input(&mut buffers, responder, subject, device),
        Err(NoMemory) => Status::NoMemory,
    }
}

/// Answers the bodies of an input with fresh buffers.
fn answer_input<T, C: Cutter, R: Responder<T>, D: Duplex>(
    buffers: &mut Buffers<C>,
    responder: &mut R,
    subject: &mut T,
    device: &mut D,
) -> Status
    requires laws { IsLawful C.form }
    requires fresh { IsFresh C.held buffers.old R.MOST }
    ensures outcome { WhileTold (D.left device.old) (D.left device.new) (λ first left. RunOutcome C.form result (R.stands subject.old)
        (λ s bodies. AnsweredBy R.may (shape_within (longest_frame + R.MOST) result) (R.stands subject.new)
        (D.given device.old) (D.given device.new) [] [] s bodies) first left) }
    ensures prompt { EachTake (D.takes device.old) (D.takes device.new) (λ moment. WhileTold (D.left device.old) moment.left (AllSoFar C.form (R.stands subject.old)
        (λ s bodies. AnsweredBy R.may Whole (λ _. Unit {0}) (D.given device.old) moment.given [] [] s bodies))) }
    ensures status { IsEndOf C.form result }
    ensures read_later { D.take_faults device.old ≤ D.take_faults device.new }
    ensures write_later { D.faults device.old ≤ D.faults device.new }
    ensures read { result ≡ Status.ReadFault → Rose (D.take_faults device.old) (D.take_faults device.new) }
    ensures write { result ≡ Status.WriteFault → Rose (D.faults device.old) (D.faults device.new) }
    ensures some { result ≡ Status.NoMemory → ⊥ }
    ensures opening { R.opening subject.new ≡ R.opening subject.old }
    ensures parts { D.parts device.new ≡ D.parts device.old }
{
    let Buffers {
        piece,
        cutter,
        gathered,
    } = buffers;
    let piece = piece.as_mut_slice();
    let mut taken = 0;
    while taken < MOST_TAKEN {
        let size = PIECE.min((MOST_TAKEN - taken) as usize);
        match take_front(device, piece, size) {
            Ok(0) => match answer_last(responder, subject, cutter, gathered, device) {
                Ok(end) => match end {
                    InputEnd::All => return Status::Ok,
                    InputEnd::CutOff => return Status::Cut,
                },
                Err(WriteFault) => return Status::WriteFault,
            },
            Ok(count) => {
                taken += count as u64;
                let new = &piece[..count];
                match answer_piece(responder, subject, cutter, gathered, device, new) {
                    Ok(behind) => match behind {
                        Behind::Part => {}
                        Behind::Long(len) => return Status::LongFrame { len },
                    },
                    Err(WriteFault) => return Status::WriteFault,
                }
            }
            Err(Failed) => return Status::ReadFault,
        }
    }
    Status::Spent
}

/// Takes at most so many bytes into the front of a buffer.
pub fn take_front<D: Duplex>(device: &mut D, buf: &mut [u8], most: usize) -> Result<usize, Failed>
    requires some { 0 < most }
    requires room { most ≤ length buf.old }
    ensures bound { IfOk result (λ n. n ≤ most) }
    ensures bytes { WhileTold (D.left device.old) (D.left device.new) (λ before after. Takes before after result buf.new) }
    ensures cause { HasCause (D.take_faults device.old) (D.take_faults device.new) result }
    ensures told { D.takes device.new ≡ with_take (D.takes device.old) (D.left device.old) (D.given device.old) }
    ensures given { D.given device.new ≡ D.given device.old }
    ensures faults { D.faults device.new ≡ D.faults device.old }
    ensures parts { D.parts device.new ≡ D.parts device.old }
    ensures room { length buf.new ≡ length buf.old }
{
    device.take(&mut buf[..most])
}
