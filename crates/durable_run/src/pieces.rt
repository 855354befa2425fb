//! The frames that a piece of the input completes.

ghost use Rattle.std.specs.Prelude.{◌≡◌, ◌+◌, ◌≤◌, ◌++◌, [], ◌∷◌, ℕ, List, length, IfOk, IfErr, OnOk};
ghost use Rattle.tardis_base.specs.Sizes.{longest_frame, piece as piece_size};
ghost use Rattle.frame_cut.specs.Frames.{IsPartial, Cuts};
ghost use Rattle.durable_run.specs.Buffering.{most_gathered};
ghost use Rattle.durable_run.specs.Groups.{Start, Grouping};
ghost use Rattle.durable_run.specs.Turns.{Went, Stopped, IsStop, IsBehind};

use crate::groups::{DeviceFault, answer_body, make_room, settle};
use disk_store::Disk;
use frame_cut::{Cut, FrameCutter};
use site_journal::Journaled;
use site_run::Gathered;
use tardis_base::{Machine, ReplyBuf};
use tardis_io::Sink;

/// What stands behind the frames that were answered.
#[derive(Clone, Copy)]
pub(crate) enum Remainder {
    /// No bytes, or a proper prefix of a frame.
    Part,
    /// A length word above 1,048,576.
    Long(u32),
}

/// Answers a body, with room for it in the group.
fn answer_frame<M: Machine, K: Disk, O: Sink>(
    journal: Journaled<M, K>,
    body: &[u8],
    reply: &mut ReplyBuf,
    gathered: &mut Gathered,
    output: &mut O,
) -> Result<Journaled<M, K>, DeviceFault<K>>
    requires body { length body.now ≤ longest_frame }
    requires room { gathered.old.room ≡ most_gathered }
    requires group { (at : Start M.Plain K) × ((bodies : List (List ℕ))
        × Grouping M.Machine K.Disk at journal (O.given output.old) gathered.old.bytes bodies) }
    ensures grouped { (at : Start M.Plain K) (bodies : List (List ℕ))
        → Grouping M.Machine K.Disk at journal (O.given output.old) gathered.old.bytes bodies
        → IfOk result (λ j. Grouping M.Machine K.Disk at j (O.given output.new)
        gathered.new.bytes (bodies ++ body.now ∷ [])) }
    ensures stopped { (at : Start M.Plain K) (bodies : List (List ℕ))
        → Grouping M.Machine K.Disk at journal (O.given output.old) gathered.old.bytes bodies
        → IfErr result (λ stop. IsStop M.plain K.Disk at stop (O.given output.new) bodies) }
    ensures room { gathered.new.room ≡ gathered.old.room }
    ensures went { IfOk result (λ j. Went K.Disk journal.disk j.disk) }
    ensures fault { IfErr result (λ stop. Stopped K.Disk O.Sink journal.disk output.old output.new stop) }
    ensures write_later { O.faults output.old ≤ O.faults output.new }
    ensures kept { O.kept output.new ≡ O.kept output.old }
{
    match make_room(journal, gathered, output) {
        Ok(mut journal) => {
            answer_body(&mut journal, body, reply, gathered);
            Ok(journal)
        }
        Err(stop) => Err(stop),
    }
}

/// Answers the bodies of all frames that are held.
fn answer_held<M: Machine, K: Disk, O: Sink>(
    journal: Journaled<M, K>,
    cutter: &mut FrameCutter,
    reply: &mut ReplyBuf,
    gathered: &mut Gathered,
    output: &mut O,
) -> Result<(Journaled<M, K>, Remainder), DeviceFault<K>>
    requires room { gathered.old.room ≡ most_gathered }
    requires group { (at : Start M.Plain K) × ((bodies : List (List ℕ))
        × Grouping M.Machine K.Disk at journal (O.given output.old) gathered.old.bytes bodies) }
    ensures grouped { (at : Start M.Plain K) (bodies : List (List ℕ))
        → Grouping M.Machine K.Disk at journal (O.given output.old) gathered.old.bytes bodies
        → IfOk result (λ held. (more : List (List ℕ)) × (Cuts cutter.old more cutter.new
        × Grouping M.Machine K.Disk at held.0 (O.given output.new) gathered.new.bytes
        (bodies ++ more))) }
    ensures stopped { (at : Start M.Plain K) (bodies : List (List ℕ))
        → Grouping M.Machine K.Disk at journal (O.given output.old) gathered.old.bytes bodies
        → IfErr result (λ stop. (more : List (List ℕ)) × ((rest : List ℕ) × (Cuts cutter.old more rest
        × IsStop M.plain K.Disk at stop (O.given output.new) (bodies ++ more)))) }
    ensures behind { IfOk result (λ held. IsBehind held.1 cutter.new) }
    ensures room { gathered.new.room ≡ gathered.old.room }
    ensures went { IfOk result (λ held. Went K.Disk journal.disk held.0.disk) }
    ensures fault { IfErr result (λ stop. Stopped K.Disk O.Sink journal.disk output.old output.new stop) }
    ensures write_later { O.faults output.old ≤ O.faults output.new }
    ensures kept { O.kept output.new ≡ O.kept output.old }
{
    let mut journal = journal;
    loop {
        match cutter.next() {
            Cut::Frame(body) => match answer_frame(journal, body, reply, gathered, output) {
                Ok(answered) => journal = answered,
                Err(stop) => return Err(stop),
            },
            Cut::NeedMore => return Ok((journal, Remainder::Part)),
            Cut::Long { len } => return Ok((journal, Remainder::Long(len))),
        }
    }
}

/// Answers the bodies of all frames that end in this piece, and settles their group.
pub(crate) fn answer_piece<M: Machine, K: Disk, O: Sink>(
    journal: Journaled<M, K>,
    cutter: &mut FrameCutter,
    reply: &mut ReplyBuf,
    gathered: &mut Gathered,
    output: &mut O,
    piece: &[u8],
) -> Result<(Journaled<M, K>, Remainder), DeviceFault<K>>
    requires partial { IsPartial cutter.old }
    requires size { length piece.now ≤ piece_size }
    requires none { gathered.old.bytes ≡ [] }
    requires room { gathered.old.room ≡ most_gathered }
    requires group { (at : Start M.Plain K) × ((bodies : List (List ℕ))
        × Grouping M.Machine K.Disk at journal (O.given output.old) [] bodies) }
    ensures grouped { (at : Start M.Plain K) (bodies : List (List ℕ))
        → Grouping M.Machine K.Disk at journal (O.given output.old) [] bodies
        → IfOk result (λ held. (more : List (List ℕ)) × (Cuts (cutter.old ++ piece.now) more cutter.new
        × Grouping M.Machine K.Disk at held.0 (O.given output.new) [] (bodies ++ more))) }
    ensures stopped { (at : Start M.Plain K) (bodies : List (List ℕ))
        → Grouping M.Machine K.Disk at journal (O.given output.old) [] bodies
        → IfErr result (λ stop. (more : List (List ℕ)) × ((rest : List ℕ) × (Cuts (cutter.old ++ piece.now) more rest
        × IsStop M.plain K.Disk at stop (O.given output.new) (bodies ++ more)))) }
    ensures behind { IfOk result (λ held. IsBehind held.1 cutter.new) }
    ensures none { OnOk result (gathered.new.bytes ≡ []) }
    ensures room { gathered.new.room ≡ gathered.old.room }
    ensures went { IfOk result (λ held. Went K.Disk journal.disk held.0.disk) }
    ensures fault { IfErr result (λ stop. Stopped K.Disk O.Sink journal.disk output.old output.new stop) }
    ensures write_later { O.faults output.old ≤ O.faults output.new }
    ensures kept { O.kept output.new ≡ O.kept output.old }
{
    let _ = cutter.feed(piece);
    match answer_held(journal, cutter, reply, gathered, output) {
        Ok((journal, next)) => match settle(journal, gathered, output) {
            Ok(settled) => Ok((settled, next)),
            Err(stop) => Err(stop),
        },
        Err(stop) => Err(stop),
    }
}
