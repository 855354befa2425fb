//! What lines ask, and lines that are gathered.

ghost use Rattle.std.specs.Prelude.{◌≡◌, ◌+◌, ◌≤◌, ◌++◌, ◌∷◌, [], Some, None, Err, length, IfOk};
ghost use Rattle.tardis_base.specs.Sizes.{longest_frame};
ghost use Rattle.shell_text.specs.Spelled.{reply_line_of};
ghost use Rattle.shell_run.specs.Answers.{event_of_line};
ghost use Rattle.shell_run.specs.Outcomes.{longest_shell_line};
ghost use Rattle.shell_run.specs.Wanting.{WantsMemory};

use crate::laws::requests_fit_a_frame;
use shell_text::{LineBuf, lines_have_one_reading, put_reply_line, read_line};
use site_run::Gathered;
use std::alloc::Global;
use talk_bytes::write_request;
use tardis_base::{ReadFault, ReplyBuf};
use wire_talk::talk_has_one_spelling;

/// The actor of a line, and its request's spelling in `out`, whose bytes from before are gone.
pub(crate) fn read_event(alloc: Global, line: &[u8], out: &mut ReplyBuf) -> Result<u16, ReadFault>
    ensures read { IfOk result (λ actor. event_of_line line.now ≡ Some (actor, out.new)) }
    ensures malformed { result ≡ Err ReadFault.Malformed → event_of_line line.now ≡ None }
    ensures memory { result ≡ Err ReadFault.NoMemory → WantsMemory line.now }
{
    lines_have_one_reading();
    talk_has_one_spelling();
    requests_fit_a_frame();
    match read_line(alloc, line) {
        Ok((actor, request)) => {
            out.clear();
            write_request(&request, out);
            Ok(actor)
        }
        Err(fault) => Err(fault),
    }
}

/// Puts the line of a reply, and a line feed, behind what was gathered.
pub(crate) fn put_line(reply: &[u8], line: &mut LineBuf, out: &mut Gathered)
    requires reply { length reply.now ≤ longest_frame }
    requires room { length out.old.bytes + longest_shell_line ≤ out.old.room }
    ensures bytes { out.new.bytes ≡ out.old.bytes ++ (reply_line_of reply.now ++ 10 ∷ []) }
    ensures room { out.new.room ≡ out.old.room }
{
    put_reply_line(reply, line);
    out.put(line.bytes());
    out.put(b"\n");
}
