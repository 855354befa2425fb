//! The answers of the bodies that a piece of the input completes, and of the last.

ghost use Rattle.std.specs.Prelude.{◌≡◌, ◌+◌, ◌≤◌, ◌++◌, [], ◌∷◌, ℕ, List, length, IfOk, OnOk, OnErr};
ghost use Rattle.tardis_base.specs.Sizes.{longest_frame, piece as longest_piece};
ghost use Rattle.tardis_io.specs.Faults.{HasCause};
ghost use Rattle.site_run.specs.Responses.{AnsweredBy, Serves, Whole, Front};
ghost use Rattle.site_run.specs.Forms.{IsLawful};
ghost use Rattle.site_run.specs.Nexts.{IsBehind};
ghost use Rattle.site_run.specs.Ended.{EndIs};

use crate::cutting::{Cutter, Last, Next};
use crate::gathered::Gathered;
use crate::responders::Responder;
use tardis_io::{Sink, WriteFault};

/// What stands behind the bodies that were answered.
#[derive(Clone, Copy)]
pub(crate) enum Behind {
    /// Nothing, or bytes that more may make a body.
    Part,
    /// More than a body may have, which is told by this length.
    Long(u32),
}

/// Answers all bodies that end in this piece, and writes all answers.
pub(crate) fn answer_piece<T, C: Cutter, R: Responder<T>, O: Sink>(
    responder: &mut R,
    subject: &mut T,
    cutter: &mut C,
    gathered: &mut Gathered,
    output: &mut O,
    piece: &[u8],
) -> Result<Behind, WriteFault>
    requires laws { IsLawful C.form }
    requires part { C.form.IsPart (C.held cutter.old) }
    requires size { length piece.now ≤ longest_piece }
    requires none { gathered.old.bytes ≡ [] }
    requires room { R.MOST ≤ gathered.old.room }
    ensures served { IfOk result (λ behind. IsBehind C.form behind (C.held cutter.new)
        × Serves C.form R.may Whole (R.stands subject.old) (R.stands subject.new)
        (O.given output.old) (O.given output.new) [] [] (C.held cutter.old ++ piece.now) (C.held cutter.new)) }
    ensures broken { OnErr result ((rest : List ℕ)
        × Serves C.form R.may (Front gathered.old.room) (R.stands subject.old) (R.stands subject.new)
        (O.given output.old) (O.given output.new) [] [] (C.held cutter.old ++ piece.now) rest) }
    ensures none { OnOk result (gathered.new.bytes ≡ []) }
    ensures room { gathered.new.room ≡ gathered.old.room }
    ensures cause { HasCause (O.faults output.old) (O.faults output.new) result }
    ensures kept { O.kept output.new ≡ O.kept output.old }
    ensures opening { R.opening subject.new ≡ R.opening subject.old }
{
    cutter.feed(piece);
    let behind = answer_held(responder, subject, cutter, gathered, output)?;
    gathered.write_to(output)?;
    Ok(behind)
}

/// Answers all bodies that are held.
pub(crate) fn answer_held<T, C: Cutter, R: Responder<T>, O: Sink>(
    responder: &mut R,
    subject: &mut T,
    cutter: &mut C,
    gathered: &mut Gathered,
    output: &mut O,
) -> Result<Behind, WriteFault>
    requires laws { IsLawful C.form }
    requires room { length gathered.old.bytes + R.MOST ≤ gathered.old.room }
    ensures served { IfOk result (λ behind. IsBehind C.form behind (C.held cutter.new)
        × Serves C.form R.may Whole (R.stands subject.old) (R.stands subject.new)
        (O.given output.old) (O.given output.new) gathered.old.bytes gathered.new.bytes (C.held cutter.old) (C.held cutter.new)) }
    ensures broken { OnErr result ((rest : List ℕ)
        × Serves C.form R.may (Front gathered.old.room) (R.stands subject.old) (R.stands subject.new)
        (O.given output.old) (O.given output.new) gathered.old.bytes [] (C.held cutter.old) rest) }
    ensures room { gathered.new.room ≡ gathered.old.room }
    ensures cause { HasCause (O.faults output.old) (O.faults output.new) result }
    ensures kept { O.kept output.new ≡ O.kept output.old }
    ensures opening { R.opening subject.new ≡ R.opening subject.old }
{
    loop {
        match cutter.next() {
            Next::Body(body) => answer_body(responder, subject, body, gathered, output)?,
            Next::Part => return Ok(Behind::Part),
            Next::Long(len) => return Ok(Behind::Long(len)),
        }
    }
}

/// Answers a body. The answer is gathered, and what was gathered is written where a further answer may find no room.
pub(crate) fn answer_body<T, R: Responder<T>, O: Sink>(
    responder: &mut R,
    subject: &mut T,
    body: &[u8],
    gathered: &mut Gathered,
    output: &mut O,
) -> Result<(), WriteFault>
    requires body { length body.now ≤ longest_frame }
    requires room { length gathered.old.bytes + R.MOST ≤ gathered.old.room }
    ensures answered { OnOk result ((s : R.State) → R.stands subject.old s
        → AnsweredBy R.may Whole (R.stands subject.new) (O.given output.old) (O.given output.new) gathered.old.bytes gathered.new.bytes s (body.now ∷ [])) }
    ensures broken { OnErr result ((s : R.State) → R.stands subject.old s
        → AnsweredBy R.may (Front gathered.old.room) (R.stands subject.new) (O.given output.old) (O.given output.new) gathered.old.bytes [] s (body.now ∷ [])) }
    ensures fits { OnOk result (length gathered.new.bytes + R.MOST ≤ gathered.new.room) }
    ensures room { gathered.new.room ≡ gathered.old.room }
    ensures cause { HasCause (O.faults output.old) (O.faults output.new) result }
    ensures kept { O.kept output.new ≡ O.kept output.old }
    ensures opening { R.opening subject.new ≡ R.opening subject.old }
{
    responder.respond(subject, body, gathered);
    if gathered.has_room(R::MOST) {
        Ok(())
    } else {
        gathered.write_to(output)
    }
}

/// How the input ended.
#[derive(Clone, Copy)]
pub(crate) enum InputEnd {
    /// All bodies were answered.
    All,
    /// The last body is cut off.
    CutOff,
}

/// Answers the body that the end of the input ends, if there is one, and writes the answer.
pub(crate) fn answer_last<T, C: Cutter, R: Responder<T>, O: Sink>(
    responder: &mut R,
    subject: &mut T,
    cutter: &C,
    gathered: &mut Gathered,
    output: &mut O,
) -> Result<InputEnd, WriteFault>
    requires part { C.form.IsPart (C.held cutter.now) }
    requires none { gathered.old.bytes ≡ [] }
    requires room { R.MOST ≤ gathered.old.room }
    ensures answered { IfOk result (λ end. EndIs C.form end (C.held cutter.now) (λ bodies. (s : R.State) → R.stands subject.old s
        → AnsweredBy R.may Whole (R.stands subject.new) (O.given output.old) (O.given output.new) [] [] s bodies)) }
    ensures broken { OnErr result (C.form.IsEnd (C.held cutter.now) × ((s : R.State) → R.stands subject.old s
        → AnsweredBy R.may (Front gathered.old.room) (R.stands subject.new) (O.given output.old) (O.given output.new) [] [] s (C.form.last (C.held cutter.now)))) }
    ensures cause { HasCause (O.faults output.old) (O.faults output.new) result }
    ensures kept { O.kept output.new ≡ O.kept output.old }
    ensures opening { R.opening subject.new ≡ R.opening subject.old }
{
    match cutter.last() {
        Last::Nothing => Ok(InputEnd::All),
        Last::CutOff => Ok(InputEnd::CutOff),
        Last::OneMore(body) => {
            answer_body(responder, subject, body, gathered, output)?;
            gathered.write_to(output)?;
            Ok(InputEnd::All)
        }
    }
}
