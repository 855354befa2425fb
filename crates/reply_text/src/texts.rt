//! Lines in memory of their own.

ghost use Rattle.std.specs.Prelude.{◌≡◌, ◌≤◌, length, IfOk, IsTrue};
ghost use Rattle.shell_text.specs.ReplyLines.{reply_line};
ghost use Rattle.shell_text.specs.RequestLines.{request_line};
ghost use Rattle.tardis_base.specs.Sizes.{longest_frame};
ghost use Rattle.wire_talk.specs.Spellings.{reply_spelling, request_spelling};
ghost use Rattle.wire_talk.specs.Valid.{is_reply, is_request};

use shell_text::{LineBuf, put_reply_line, put_request_line};
use std::alloc::Global;
use std::marker::Model;
use talk_bytes::{write_reply, write_request};
use tardis_base::{NoMemory, Reply, ReplyBuf, Request};

/// The bytes of a line, without a line feed.
#[derive(Drop)]
pub struct Text {
    bytes: Vec<u8>,
}

impl Model for Text {
    ghost use Rattle.std.specs.Prelude.{List, ℕ};

    ghost Value = { List ℕ };

    ghost view = { λ t. t.bytes.items };
}

impl Text {
    /// The bytes of the line.
    pub fn as_slice(&self) -> &[u8]
        ensures { result.now ≡ self.now }
    {
        self.bytes.as_slice()
    }
}

/// The line of an actor's request. Beside the line, the room of a frame and that of a line are taken and given back.
pub fn line_of(alloc: Global, actor: u16, request: &Request) -> Result<Text, NoMemory>
    requires valid { IsTrue (is_request request.now) }
    requires fits { length (request_spelling request.now) ≤ longest_frame }
    ensures { IfOk result (λ text. text ≡ request_line (actor, request.now)) }
{
    let mut spelling = ReplyBuf::new(alloc)?;
    let mut line = LineBuf::new(alloc)?;
    write_request(request, &mut spelling);
    put_request_line(actor, spelling.bytes(), &mut line);
    text_of(alloc, &line)
}

/// The line of a reply. Beside the line, the room of a frame and that of a line are taken and given back.
pub fn reply_line(alloc: Global, reply: &Reply) -> Result<Text, NoMemory>
    requires valid { IsTrue (is_reply reply.now) }
    requires fits { length (reply_spelling reply.now) ≤ longest_frame }
    ensures { IfOk result (λ text. text ≡ reply_line reply.now) }
{
    let mut spelling = ReplyBuf::new(alloc)?;
    let mut line = LineBuf::new(alloc)?;
    write_reply(reply, &mut spelling);
    put_reply_line(spelling.bytes(), &mut line);
    text_of(alloc, &line)
}

fn text_of(alloc: Global, line: &LineBuf) -> Result<Text, NoMemory>
    ensures { IfOk result (λ text. text ≡ line.now) }
{
    let bytes = Vec::from_slice(alloc, line.bytes())?;
    Ok(Text { bytes })
}
