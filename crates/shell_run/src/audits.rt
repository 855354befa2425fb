//! What frames ask, and what a machine replies, as lines.

ghost use Rattle.std.specs.Prelude.{◌≡◌, ◌+◌, ◌≤◌, ◌++◌, ◌∷◌, [], length};
ghost use Rattle.tardis_base.specs.Sizes.{longest_frame};
ghost use Rattle.shell_run.specs.Answers.{AuditMay, told_line};
ghost use Rattle.shell_run.specs.Outcomes.{longest_audit_line};

use crate::MAX_AUDIT_LINE;
use crate::asked_lines::put_line;
use frame_cut::event;
use shell_text::{LineBuf, put_request_line};
use site_run::{Gathered, Responder};
use std::alloc::Global;
use tardis_base::{Machine, NO_MEMORY, NoMemory, ReplyBuf};

/// Answers each body by a line that tells what the body asks, as the line of its request, and the line of the machine's
/// reply, with ` -> ` between, and a line feed. Its buffers are taken once.
#[derive(Drop)]
pub struct AuditLines {
    reply: ReplyBuf,
    line: LineBuf,
}

impl AuditLines {
    pub fn new(alloc: Global) -> Result<AuditLines, NoMemory> {
        let reply = ReplyBuf::new(alloc)?;
        let line = LineBuf::new(alloc)?;
        Ok(AuditLines { reply, line })
    }
}

impl<M: Machine> Responder<M> for AuditLines {
    ghost State = { M.Plain };

    ghost stands = { M.stands };

    ghost may = { AuditMay M.plain };

    ghost opening = { M.opening };

    ghost MOST = { longest_audit_line };

    const MOST: usize = MAX_AUDIT_LINE;

    fn respond(&mut self, subject: &mut M, body: &[u8], out: &mut Gathered) {
        let (actor, request) = event(body);
        match subject.act(actor, request, &mut self.reply) {
            Ok(()) => put_told(actor, request, self.reply.bytes(), &mut self.line, out),
            Err(NoMemory) => put_told(actor, request, &NO_MEMORY, &mut self.line, out),
        }
    }
}

/// Puts the line of a request and of the reply, and a line feed, behind what was gathered.
fn put_told(actor: u16, request: &[u8], reply: &[u8], line: &mut LineBuf, out: &mut Gathered)
    requires request { length request.now ≤ longest_frame }
    requires reply { length reply.now ≤ longest_frame }
    requires room { length out.old.bytes + longest_audit_line ≤ out.old.room }
    ensures bytes { out.new.bytes ≡ out.old.bytes ++ (told_line actor request.now reply.now ++ 10 ∷ []) }
    ensures room { out.new.room ≡ out.old.room }
{
    put_request_line(actor, request, line);
    out.put(line.bytes());
    out.put(b" -> ");
    put_line(reply, line, out);
}
