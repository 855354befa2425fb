//! Groups: requests whose entries go to the disk at once, and whose answers are written after that.

ghost use Rattle.std.specs.Prelude.{◌≡◌, ◌+◌, ◌≤◌, ◌++◌, [], ◌∷◌, ℕ, List, Option, length, IfOk, IfErr, OnOk};
ghost use Rattle.tardis_base.specs.Sizes.{longest_frame, longest_framed};
ghost use Rattle.durable_run.specs.Replies.{reply_of};
ghost use Rattle.durable_run.specs.Buffering.{most_gathered};
ghost use Rattle.durable_run.specs.Groups.{Start, Grouping};
ghost use Rattle.durable_run.specs.Turns.{Went, Stopped, IsStop};
ghost use Rattle.site_journal.specs.Opened.{HasRoom};

use disk_store::Disk;
use frame_cut::event;
use site_journal::{Journaled, Staged};
use site_run::{Gathered, put_reply};
use talk_bytes::write_reply;
use tardis_base::{MAX_FRAMED, Machine, Refusal, Reply, ReplyBuf};
use tardis_io::{Sink, WriteFault};

/// What stopped a run in its midst. The disk is handed back.
#[derive(Drop)]
pub(crate) enum DeviceFault<K: Disk> {
    Disk(K),
    Output(K),
}

/// Answers a body: stages its entry, where it has one, and gathers its answer.
pub(crate) fn answer_body<M: Machine, K: Disk>(
    journal: &mut Journaled<M, K>,
    body: &[u8],
    reply: &mut ReplyBuf,
    gathered: &mut Gathered,
)
    requires body { length body.now ≤ longest_frame }
    requires staged { HasRoom journal.old }
    requires room { length gathered.old.bytes + longest_framed ≤ gathered.old.room }
    requires group { (at : Start M.Plain K) × ((given : Option (List ℕ))
        × ((bodies : List (List ℕ)) × Grouping M.Machine K.Disk at journal.old given
        gathered.old.bytes bodies)) }
    ensures grouped { (at : Start M.Plain K) (given : Option (List ℕ)) (bodies : List (List ℕ))
        → Grouping M.Machine K.Disk at journal.old given gathered.old.bytes bodies
        → Grouping M.Machine K.Disk at journal.new given gathered.new.bytes
        (bodies ++ body.now ∷ []) }
    ensures room { gathered.new.room ≡ gathered.old.room }
    ensures disk { journal.new.disk ≡ journal.old.disk }
{
    let (actor, request) = event(body);
    let staged = journal.stage(actor, request, reply);
    spell(staged, reply);
    put_reply(reply.bytes(), gathered);
}

/// Makes the buffer the reply to a request, which is in it where the request was answered.
fn spell(staged: Staged, reply: &mut ReplyBuf)
    ensures { reply.new ≡ reply_of staged reply.old }
{
    match staged {
        Staged::Done => {}
        Staged::TrailFull { bytes } => {
            reply.clear();
            let refusal = Refusal::TrailFull { bytes };
            write_reply(&Reply::Refused { refusal }, reply);
        }
        Staged::NoMemory => {
            reply.clear();
            write_reply(&Reply::NoMemory, reply);
        }
    }
}

/// Puts the entries of the group on the disk, and then writes its answers.
pub(crate) fn settle<M: Machine, K: Disk, O: Sink>(
    journal: Journaled<M, K>,
    gathered: &mut Gathered,
    output: &mut O,
) -> Result<Journaled<M, K>, DeviceFault<K>>
    requires room { gathered.old.room ≡ most_gathered }
    requires group { (at : Start M.Plain K) × ((bodies : List (List ℕ))
        × Grouping M.Machine K.Disk at journal (O.given output.old) gathered.old.bytes bodies) }
    ensures grouped { (at : Start M.Plain K) (bodies : List (List ℕ))
        → Grouping M.Machine K.Disk at journal (O.given output.old) gathered.old.bytes bodies
        → IfOk result (λ j. Grouping M.Machine K.Disk at j (O.given output.new)
        gathered.new.bytes bodies) }
    ensures stopped { (at : Start M.Plain K) (bodies : List (List ℕ))
        → Grouping M.Machine K.Disk at journal (O.given output.old) gathered.old.bytes bodies
        → IfErr result (λ stop. IsStop M.plain K.Disk at stop (O.given output.new) bodies) }
    ensures none { OnOk result (gathered.new.bytes ≡ []) }
    ensures staged { IfOk result (λ j. j.staged ≡ []) }
    ensures room { gathered.new.room ≡ gathered.old.room }
    ensures went { IfOk result (λ j. Went K.Disk journal.disk j.disk) }
    ensures fault { IfErr result (λ stop. Stopped K.Disk O.Sink journal.disk output.old output.new stop) }
    ensures write_later { O.faults output.old ≤ O.faults output.new }
    ensures kept { O.kept output.new ≡ O.kept output.old }
{
    match journal.commit() {
        Ok(journal) => match gathered.write_to(output) {
            Ok(()) => Ok(journal),
            Err(WriteFault) => Err(DeviceFault::Output(journal.close().1)),
        },
        Err(disk) => Err(DeviceFault::Disk(disk)),
    }
}

/// Settles the group where one more request, or its answer, may find no room in it.
pub(crate) fn make_room<M: Machine, K: Disk, O: Sink>(
    journal: Journaled<M, K>,
    gathered: &mut Gathered,
    output: &mut O,
) -> Result<Journaled<M, K>, DeviceFault<K>>
    requires room { gathered.old.room ≡ most_gathered }
    requires group { (at : Start M.Plain K) × ((bodies : List (List ℕ))
        × Grouping M.Machine K.Disk at journal (O.given output.old) gathered.old.bytes bodies) }
    ensures grouped { (at : Start M.Plain K) (bodies : List (List ℕ))
        → Grouping M.Machine K.Disk at journal (O.given output.old) gathered.old.bytes bodies
        → IfOk result (λ j. Grouping M.Machine K.Disk at j (O.given output.new)
        gathered.new.bytes bodies) }
    ensures stopped { (at : Start M.Plain K) (bodies : List (List ℕ))
        → Grouping M.Machine K.Disk at journal (O.given output.old) gathered.old.bytes bodies
        → IfErr result (λ stop. IsStop M.plain K.Disk at stop (O.given output.new) bodies) }
    ensures staged { IfOk result (λ j. HasRoom j) }
    ensures gathered { OnOk result (length gathered.new.bytes + longest_framed ≤ gathered.new.room) }
    ensures room { gathered.new.room ≡ gathered.old.room }
    ensures went { IfOk result (λ j. Went K.Disk journal.disk j.disk) }
    ensures fault { IfErr result (λ stop. Stopped K.Disk O.Sink journal.disk output.old output.new stop) }
    ensures write_later { O.faults output.old ≤ O.faults output.new }
    ensures kept { O.kept output.new ≡ O.kept output.old }
{
    if journal.has_room() && gathered.has_room(MAX_FRAMED) {
        Ok(journal)
    } else {
        settle(journal, gathered, output)
    }
}
