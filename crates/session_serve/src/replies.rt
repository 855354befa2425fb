//! The answers to a session's frames.

ghost use Rattle.std.specs.Prelude.{◌≡◌, ◌≤◌, length};
ghost use Rattle.tardis_base.specs.Sizes.{longest_framed, longest_request};
ghost use Rattle.session_serve.specs.Replies.{request_in, reply_without};
ghost use Rattle.session_serve.specs.Asking.{Asked};

use crate::askers::Asks;
use site_run::{Gathered, Responder, put_reply};
use std::alloc::Global;
use talk_bytes::write_reply;
use tardis_base::{MAX_FRAMED, MAX_REQUEST, NoMemory, Refusal, Reply, ReplyBuf};
use trail_log::Acted;

/// Answers each body by the frame of the reply to its request.
#[derive(Drop)]
pub(crate) struct SessionReplies {
    pub(crate) reply: ReplyBuf,
}

impl SessionReplies {
    pub(crate) fn new(alloc: Global) -> Result<SessionReplies, NoMemory> {
        let reply = ReplyBuf::new(alloc)?;
        Ok(SessionReplies { reply })
    }
}

impl<A: Asks> Responder<A> for SessionReplies {
    ghost State = { A };

    ghost stands = { λ a s. a ≡ s };

    ghost may = { Asked A.asks };

    ghost opening = { A.opening };

    ghost MOST = { longest_framed };

    const MOST: usize = MAX_FRAMED;

    fn respond(&mut self, subject: &mut A, body: &[u8], out: &mut Gathered) {
        let acted = subject.ask(request_of(body), &mut self.reply);
        spell(acted, &mut self.reply);
        put_reply(self.reply.bytes(), out);
    }
}

/// The request in a body. One of more bytes spells none, as the empty one does.
fn request_of(body: &[u8]) -> &[u8]
    ensures same { result.now ≡ request_in body.now }
    ensures fits { length result.now ≤ longest_request }
{
    if body.len() <= MAX_REQUEST { body } else { &[] }
}

/// Makes the buffer the reply to a request, which is in it where the request was answered.
fn spell(acted: Acted, reply: &mut ReplyBuf)
    ensures { reply.new ≡ reply_without acted reply.old }
{
    match acted {
        Acted::Done => {}
        Acted::TrailFull { bytes } => {
            reply.clear();
            let refusal = Refusal::TrailFull { bytes };
            write_reply(&Reply::Refused { refusal }, reply);
        }
        Acted::NoMemory => {
            reply.clear();
            write_reply(&Reply::NoMemory, reply);
        }
    }
}
