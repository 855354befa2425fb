//! What is told, by how a request ended: as a reply, or written from what it tells into an empty buffer, which takes no
//! memory.
//!
//! A `Reply` is as large as the fields of all replies together, and whatever makes one writes them all.

ghost use Rattle.std.specs.Prelude.{◌≡◌, ◌≤◌, [], Some, length, IsTrue, IfOk};
ghost use Rattle.tardis_base.specs.declared.replies.Reply.{Reply};
ghost use Rattle.tardis_base.specs.Ids.{root};
ghost use Rattle.tardis_base.specs.Sizes.{longest_frame};
ghost use Rattle.version_list.specs.Reads.{found};
ghost use Rattle.wire_talk.specs.Spellings.{reply_spelling};
ghost use Rattle.wire_talk.specs.Valid.{is_refusal, is_reply};
ghost use Rattle.plain_site.specs.Answers.{found as reply_to};
ghost use Rattle.site_answers.specs.Stops.{refusal_of};
ghost use Rattle.site_answers.specs.Told.{commit_reply, parents_told, ToldAs, consent_reply, TakenAs, is_applied, UntakenAs};

use crate::stops::Stop;
use ceiling_book::{ConsentEnd, RaiseFault};
use state_dag::RowFault;
use talk_bytes::{
    write_absent, write_committed, write_deleted, write_ended, write_refused, write_reply,
    write_value_reply,
};
use tardis_base::{Found, NoMemory, Refusal, Reply, ReplyBuf, StateId, StateList, Write};

/// How a transaction ended that was to commit.
#[derive(Drop)]
pub enum CommitEnd {
    /// It made this state, below these.
    Committed { id: StateId, parents: StateList },
    /// It wrote nothing, and read this state.
    Ended { state: StateId },
}

/// What was found; a value from the store's own bytes.
pub fn give_found(what: Found<'_>, out: &mut ReplyBuf)
    requires empty { out.old ≡ [] }
    requires valid { IsTrue (is_reply (reply_to (found what))) }
    requires short { length (reply_spelling (reply_to (found what))) ≤ longest_frame }
    ensures { out.new ≡ reply_spelling (reply_to (found what.entry)) }
{
    match what {
        Found::Value { writer, value } => write_value_reply(writer, value, out),
        Found::Deleted { writer } => write_deleted(writer, out),
        Found::Absent => write_absent(out),
    }
}

/// How a transaction ended.
pub fn give_end(end: &CommitEnd, out: &mut ReplyBuf)
    requires empty { out.old ≡ [] }
    requires valid { IsTrue (is_reply (commit_reply end.now)) }
    requires short { length (reply_spelling (commit_reply end.now)) ≤ longest_frame }
    ensures { out.new ≡ reply_spelling (commit_reply end.now) }
{
    match end {
        CommitEnd::Committed { id, parents } => write_committed(*id, parents, out),
        CommitEnd::Ended { state } => write_ended(*state, out),
    }
}

/// That it is refused.
pub fn give_refused(refusal: Refusal, out: &mut ReplyBuf)
    requires empty { out.old ≡ [] }
    requires valid { IsTrue (is_refusal refusal) }
    requires short { length (reply_spelling (Reply.Refused refusal)) ≤ longest_frame }
    ensures { out.new ≡ reply_spelling (Reply.Refused refusal) }
{
    write_refused(&refusal, out);
    drop(refusal);
}

/// Keeps the memory of the parents that were told.
pub fn keep_room(told: &mut StateList, end: CommitEnd)
    ensures { told.new ≡ parents_told end told.old }
{
    match end {
        CommitEnd::Committed { parents, .. } => *told = parents,
        CommitEnd::Ended { .. } => {},
    }
}

/// Writes the reply into the empty buffer.
pub fn give(reply: &Reply, out: &mut ReplyBuf)
    requires empty { out.old ≡ [] }
    requires valid { IsTrue (is_reply reply.now) }
    requires short { length (reply_spelling reply.now) ≤ longest_frame }
    ensures { out.new ≡ reply_spelling reply.now }
{
    write_reply(reply, out);
}

/// What is found where a transaction itself has written.
pub fn own_write(write: &Write) -> Found<'_>
    ensures { found result ≡ Some (root, write.now) }
{
    match write {
        Write::Put(value) => Found::Value {
            writer: StateId::ROOT,
            value,
        },
        Write::Delete => Found::Deleted {
            writer: StateId::ROOT,
        },
    }
}

/// The reply to a read. The value is a copy.
pub fn reply_of(what: Found<'_>) -> Result<Reply, NoMemory>
    ensures { IfOk result (λ reply. reply ≡ reply_to (found what.entry)) }
{
    match what {
        Found::Value { writer, value } => Ok(Reply::Value {
            writer,
            value: value.copy()?,
        }),
        Found::Deleted { writer } => Ok(Reply::Deleted { writer }),
        Found::Absent => Ok(Reply::Absent),
    }
}

/// The reply to a commit.
pub fn commit_reply(end: CommitEnd) -> Reply
    ensures { result ≡ commit_reply end }
{
    match end {
        CommitEnd::Committed { id, parents } => Reply::Committed { id, parents },
        CommitEnd::Ended { state } => Reply::Ended { state },
    }
}

/// A refusal is a reply.
pub fn told(outcome: Result<Reply, Stop>) -> Result<Reply, NoMemory>
    ensures { ToldAs outcome result }
{
    match outcome {
        Ok(reply) => Ok(reply),
        Err(Stop::Refused(refusal)) => Ok(Reply::Refused { refusal }),
        Err(Stop::NoMemory) => Err(NoMemory),
    }
}

/// What is answered where the floor does not move.
pub fn raise_refusal(fault: RaiseFault) -> Refusal
    ensures { result ≡ refusal_of fault }
{
    match fault {
        RaiseFault::FloorBack { floor } => Refusal::FloorBack { floor },
        RaiseFault::Held { session, ceiling } => Refusal::Held { session, ceiling },
        RaiseFault::SeqEnd => Refusal::SeqEnd,
    }
}

/// What is answered to a consent, by what became of it.
pub fn consent_reply(end: ConsentEnd) -> Result<Reply, Stop>
    ensures { result ≡ consent_reply end }
{
    match end {
        ConsentEnd::Applied => Ok(Reply::Applied),
        ConsentEnd::Known => Ok(Reply::Known),
        ConsentEnd::Early { have } => Ok(Reply::Early { have }),
        ConsentEnd::Refused(refusal) => Err(Stop::Refused(refusal)),
    }
}

/// Whether the consent was taken.
pub fn is_applied(end: &ConsentEnd) -> bool
    ensures { result ≡ is_applied end.now }
{
    match end {
        ConsentEnd::Applied => true,
        _ => false,
    }
}

/// Whether a record that is welcome was added.
pub fn taken(outcome: Result<Reply, Stop>) -> Result<bool, NoMemory>
    ensures { TakenAs outcome result }
{
    match outcome {
        Ok(reply) => {
            drop(reply);
            Ok(true)
        },
        Err(Stop::Refused(refusal)) => {
            drop(refusal);
            Ok(false)
        },
        Err(Stop::NoMemory) => Err(NoMemory),
    }
}

/// What is told of a row that did not arrive.
pub fn untaken(fault: RowFault) -> Result<bool, NoMemory>
    ensures { UntakenAs fault result }
{
    match fault {
        RowFault::NoMemory => Err(NoMemory),
        _ => Ok(false),
    }
}
