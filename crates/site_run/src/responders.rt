//! What answers bodies, and what a loop may rely on of it.

ghost use Rattle.std.specs.Prelude.{◌≡◌, ◌+◌, ◌≤◌, ◌++◌, ℕ, List, length};
ghost use Rattle.tardis_base.specs.Sizes.{longest_frame, longest_framed};
ghost use Rattle.frame_cut.specs.Frames.{frame};
ghost use Rattle.site_run.specs.Responses.{Responded};
ghost use Rattle.site_run.specs.Machines.{MachineMay};

use crate::gathered::Gathered;
use frame_cut::{event, put_frame};
use std::alloc::Global;
use tardis_base::{MAX_FRAMED, Machine, NO_MEMORY, NoMemory, ReplyBuf};

/// A way to answer the bodies of frames, one after another, each by some bytes: over a subject that each body may
/// change. The buffers that this takes are the responder's own.
pub trait Responder<T> {
    ghost State: { Type 0 };

    // the subject stands for this state
    ghost stands: { T → State → Type 0 };

    // at a state, a body may be answered by these bytes, and then the state is that
    ghost may: { State → List ℕ → List ℕ → State → Type 0 };

    // what no answer changes
    ghost opening: { T → State };

    // the most bytes of one answer
    ghost MOST: { ℕ };

    /// The most bytes of one answer.
    const MOST: usize;

    /// Answers a body: puts the answer's bytes behind those that were gathered.
    fn respond(&mut self, subject: &mut T, body: &[u8], out: &mut Gathered)
        requires body { length body.now ≤ longest_frame }
        requires room { length out.old.bytes + MOST ≤ out.old.room }
        ensures answer { (s : State) → stands subject.old s → Responded may (stands subject.new) s body.now out.old.bytes out.new.bytes }
        ensures room { out.new.room ≡ out.old.room }
        ensures opening { opening subject.new ≡ opening subject.old };
}

/// Answers each body by the frame of the machine's reply to the body's event. Where the machine finds no memory, it is
/// the frame of the reply that says so.
#[derive(Drop)]
pub struct MachineReplies {
    reply: ReplyBuf,
}

impl MachineReplies {
    pub fn new(alloc: Global) -> Result<MachineReplies, NoMemory> {
        let reply = ReplyBuf::new(alloc)?;
        Ok(MachineReplies { reply })
    }
}

impl<M: Machine> Responder<M> for MachineReplies {
    ghost State = { M.Plain };

    ghost stands = { M.stands };

    ghost may = { MachineMay M.plain };

    ghost opening = { M.opening };

    ghost MOST = { longest_framed };

    const MOST: usize = MAX_FRAMED;

    fn respond(&mut self, subject: &mut M, body: &[u8], out: &mut Gathered) {
        let (actor, request) = event(body);
        match subject.act(actor, request, &mut self.reply) {
            Ok(()) => put_reply(self.reply.bytes(), out),
            Err(NoMemory) => put_reply(&NO_MEMORY, out),
        }
    }
}

/// Puts the frame of a reply behind what was gathered.
pub fn put_reply(reply: &[u8], out: &mut Gathered)
    requires reply { length reply.now ≤ longest_frame }
    requires room { length out.old.bytes + longest_framed ≤ out.old.room }
    ensures bytes { out.new.bytes ≡ out.old.bytes ++ frame reply.now }
    ensures room { out.new.room ≡ out.old.room }
{
    let mut head = [0; 4];
    put_frame(reply, &mut head);
    out.put(&head);
    out.put(reply);
}
