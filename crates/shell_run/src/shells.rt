//! A machine's replies as lines, to lines of requests.

ghost use Rattle.shell_run.specs.Answers.{ShellMay, over_lines};
ghost use Rattle.shell_run.specs.Outcomes.{longest_shell_line};

use crate::asked_lines::{put_line, read_event};
use crate::{MALFORMED, MAX_SHELL_LINE};
use shell_text::LineBuf;
use site_run::{Gathered, Responder};
use std::alloc::Global;
use tardis_base::{Machine, NO_MEMORY, NoMemory, ReadFault, ReplyBuf};

/// Answers each line by the line of the machine's reply to the request of the line, and a line feed; a line that is no
/// request's by `refused malformed`. Where no memory is found, the line says so. Its buffers are taken once; what is taken for a
/// request is what its fields need.
#[derive(Drop)]
pub struct ShellReplies {
    alloc: Global,
    request: ReplyBuf,
    reply: ReplyBuf,
    line: LineBuf,
}

impl ShellReplies {
    pub fn new(alloc: Global) -> Result<ShellReplies, NoMemory> {
        let request = ReplyBuf::new(alloc)?;
        let reply = ReplyBuf::new(alloc)?;
        let line = LineBuf::new(alloc)?;
        Ok(ShellReplies {
            alloc,
            request,
            reply,
            line,
        })
    }
}

impl<M: Machine> Responder<M> for ShellReplies {
    ghost State = { M.Plain };

    ghost stands = { M.stands };

    ghost may = { ShellMay (over_lines M.plain) };

    ghost opening = { M.opening };

    ghost MOST = { longest_shell_line };

    const MOST: usize = MAX_SHELL_LINE;

    fn respond(&mut self, subject: &mut M, body: &[u8], out: &mut Gathered) {
        match read_event(self.alloc, body, &mut self.request) {
            Ok(actor) => match subject.act(actor, self.request.bytes(), &mut self.reply) {
                Ok(()) => put_line(self.reply.bytes(), &mut self.line, out),
                Err(NoMemory) => put_line(&NO_MEMORY, &mut self.line, out),
            },
            Err(ReadFault::Malformed) => put_line(&MALFORMED, &mut self.line, out),
            Err(ReadFault::NoMemory) => put_line(&NO_MEMORY, &mut self.line, out),
        }
    }
}
