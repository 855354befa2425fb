//! Writing the lines that tell how an auto step ended. It takes no memory.

ghost use Rattle.std.specs.Prelude.{◌≡◌, ◌+◌, ◌≤◌, ◌++◌, ◌∷◌, [], length, IsTrue};
ghost use Rattle.merge_rules.specs.declared.steps.AutoEnd.TheVariants.{Merged as MergedAs, Refused as RefusedAs, Single as SingleAs, Unmerged as UnmergedAs};
ghost use Rattle.merge_rules.specs.declared.steps.AutoEnd.TheVariants.{Wide as WideAs};
ghost use Rattle.wire_talk.specs.Valid.{is_refusal};
ghost use Rattle.shell_run.specs.Outcomes.{longest_shell_line};
ghost use Rattle.auto_run.specs.AutoLines.{end_line};
ghost use Rattle.auto_run.specs.Telling.{CanBeTold};

use merge_rules::AutoEnd;
use shell_text::{LineBuf, lines_fit_their_room, put_reply_line};
use site_run::Gathered;
use std::alloc::Global;
use talk_bytes::write_reply;
use tardis_base::{Key, NoMemory, Refusal, Reply, ReplyBuf, StateId};
use text_words::Unread;
use wire_talk::talk_has_one_spelling;

/// The buffers for the lines of auto steps: one for the bytes of a refusal, one for a line.
#[derive(Drop)]
pub(crate) struct EndLines {
    reply: ReplyBuf,
    line: LineBuf,
}

impl EndLines {
    pub(crate) fn new(alloc: Global) -> Result<EndLines, NoMemory> {
        let reply = ReplyBuf::new(alloc)?;
        let line = LineBuf::new(alloc)?;
        Ok(EndLines { reply, line })
    }

    /// Puts the line of how an auto step ended, and a line feed, behind what was gathered.
    pub(crate) fn put(&mut self, end: AutoEnd, out: &mut Gathered)
        requires told { CanBeTold end }
        requires room { length out.old.bytes + longest_shell_line ≤ out.old.room }
        ensures bytes { out.new.bytes ≡ out.old.bytes ++ (end_line end ++ 10 ∷ []) }
        ensures room { out.new.room ≡ out.old.room }
    {
        match end {
            AutoEnd::Single => put_single(&mut self.line),
            AutoEnd::Refused(refusal) => put_refused(refusal, &mut self.reply, &mut self.line),
            AutoEnd::Wide { keys } => put_wide(keys, &mut self.line),
            AutoEnd::Unmerged(key) => put_unmerged(&key, &mut self.line),
            AutoEnd::Merged(id) => put_merged(id, &mut self.line),
        }
        out.put(self.line.bytes());
        out.put(b"\n");
    }
}

/// The line that there is one leaf.
fn put_single(out: &mut LineBuf)
    ensures { out.new ≡ end_line SingleAs }
{
    out.clear();
    let _ = out.push(b"auto none");
}

/// The line of a refusal, whose bytes are written into the buffer of replies.
fn put_refused(refusal: Refusal, reply: &mut ReplyBuf, out: &mut LineBuf)
    requires { IsTrue (is_refusal refusal) }
    ensures { out.new ≡ end_line (RefusedAs refusal) }
{
    talk_has_one_spelling();
    reply.clear();
    write_reply(&Reply::Refused { refusal }, reply);
    put_reply_line(reply.bytes(), out);
}

/// The line of too many conflict keys.
fn put_wide(keys: u32, out: &mut LineBuf)
    ensures { out.new ≡ end_line (WideAs keys) }
{
    out.clear();
    let mut unread = Unread::new(b"");
    unread.say_digits(b"auto wide ", u64::from(keys), out);
}

/// The line of a key that has no value.
fn put_unmerged(key: &Key, out: &mut LineBuf)
    ensures { out.new ≡ end_line (UnmergedAs key.now) }
{
    lines_fit_their_room();
    out.clear();
    let mut unread = Unread::new(b"");
    unread.say(b"auto refused", out);
    unread.say_bytes(key.as_slice(), out);
}

/// The line of a merge.
fn put_merged(id: StateId, out: &mut LineBuf)
    ensures { out.new ≡ end_line (MergedAs id) }
{
    out.clear();
    let mut unread = Unread::new(b"");
    unread.say_digits(b"auto ", u64::from(id.site), out);
    unread.say_digits(b".", u64::from(id.sequence), out);
}
