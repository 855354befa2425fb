//! Reading the lines of replies.
//!
//! How replies are written as lines is stated in `docs/FORMATS.md`. The cost grows with the number of bytes.

ghost use Rattle.std.specs.Prelude.{◌≡◌, drop, Err, IfOk, IsFalse, IsTrue, None, Some, codes};
ghost use Rattle.reply_text.specs.Answers.{IsReply, is_batch_line};
ghost use Rattle.shell_text.specs.ReplyTexts.{line_reply_of, reply_text, reply_text_rows};
ghost use Rattle.tardis_base.specs.declared.replies.Reply.{Reply};
ghost use Rattle.text_words.specs.Texts.{behind, by_prefix};
ghost use Rattle.wire_item.specs.Fronts.{whole};
ghost use Rattle.wire_talk.specs.Memory.{reply_takes_no_memory};

use crate::reply_word_readers::{
    read_batch_word, read_begun, read_committed, read_deleted, read_early, read_ended, read_keys,
    read_merging, read_opened, read_raised, read_refused, read_shown, read_states, read_statistics,
    read_tidied, read_value, sure_reply,
};
use shell_text::alone;
use std::alloc::Global;
use tardis_base::{ReadFault, Reply};
use text_words::Words;

/// The reply whose line this is. A reply with no key, no value, no batch and no list but that of site lines takes no
/// memory. The bytes of a batch are put into memory before they are looked at: where that is wanting, a line whose first
/// word is `batch` is answered by NoMemory, whether it is one of a batch or not.
pub fn read_reply_line(alloc: Global, line: &[u8]) -> Result<Reply, ReadFault>
    ensures read { IfOk result (λ reply. line_reply_of line.now ≡ Some reply) }
    ensures malformed { result ≡ Err ReadFault.Malformed → line_reply_of line.now ≡ None }
    ensures none { line_reply_of line.now ≡ None → IsFalse (is_batch_line line.now) → result ≡ Err ReadFault.Malformed }
    ensures sure { (reply : Reply) → line_reply_of line.now ≡ Some reply → IsTrue (reply_takes_no_memory reply) → result ≡ Err ReadFault.NoMemory → ⊥ }
{
    let words = Words::new(line);
    match words.behind(b"batch ") {
        Some(left) => read_batch_word(alloc, &left),
        None => read_reply(alloc, &words),
    }
}

/// The reply of words of which the first isn't `batch`.
fn read_reply(alloc: Global, words: &Words) -> Result<Reply, ReadFault>
    requires { behind (codes "batch ") words.now ≡ None }
    ensures { IsReply (whole reply_text words.now) result }
{
    if let Some(left) = words.behind(b"opened ") {
        return sure_reply(read_opened(&left));
    }
    if let Some(left) = words.behind(b"begun ") {
        return sure_reply(read_begun(&left));
    }
    if let Some(left) = words.behind(b"merging ") {
        return read_merging(alloc, &left);
    }
    if let Some(left) = words.behind(b"value ") {
        return read_value(alloc, &left);
    }
    read_done_reply(alloc, words)
}

/// One of the replies to what was done in a transaction, or one whose name stands behind those.
fn read_done_reply(alloc: Global, words: &Words) -> Result<Reply, ReadFault>
    requires { behind (codes "batch ") words.now ≡ None }
    ensures { IsReply (whole (by_prefix (drop 4 reply_text_rows)) words.now) result }
{
    if let Some(left) = words.behind(b"deleted ") {
        return sure_reply(read_deleted(&left));
    }
    if let Some(left) = words.behind(b"absent ") {
        return sure_reply(alone(Reply::Absent, &left));
    }
    if let Some(left) = words.behind(b"done ") {
        return sure_reply(alone(Reply::Done, &left));
    }
    if let Some(left) = words.behind(b"committed ") {
        return read_committed(alloc, &left);
    }
    if let Some(left) = words.behind(b"ended ") {
        return sure_reply(read_ended(&left));
    }
    read_list_reply(alloc, words)
}

/// One of the replies that are lists or numbers, or one whose name stands behind those.
fn read_list_reply(alloc: Global, words: &Words) -> Result<Reply, ReadFault>
    requires { behind (codes "batch ") words.now ≡ None }
    ensures { IsReply (whole (by_prefix (drop 9 reply_text_rows)) words.now) result }
{
    if let Some(left) = words.behind(b"states ") {
        return read_states(alloc, &left);
    }
    if let Some(left) = words.behind(b"keys ") {
        return read_keys(alloc, &left);
    }
    if let Some(left) = words.behind(b"raised ") {
        return sure_reply(read_raised(&left));
    }
    if let Some(left) = words.behind(b"tidied ") {
        return sure_reply(read_tidied(&left));
    }
    read_shown_reply(alloc, words)
}

/// One of the replies that show what is kept, or one whose name stands behind those.
fn read_shown_reply(alloc: Global, words: &Words) -> Result<Reply, ReadFault>
    requires { behind (codes "batch ") words.now ≡ None }
    ensures { IsReply (whole (by_prefix (drop 13 reply_text_rows)) words.now) result }
{
    if let Some(left) = words.behind(b"stat known ") {
        return sure_reply(read_statistics(&left));
    }
    if let Some(left) = words.behind(b"shown ") {
        return read_shown(alloc, &left);
    }
    read_other_reply(alloc, words)
}

/// One of the replies whose names stand behind all of those.
fn read_other_reply(alloc: Global, words: &Words) -> Result<Reply, ReadFault>
    ensures { IsReply (whole (by_prefix (drop 16 reply_text_rows)) words.now) result }
{
    if let Some(left) = words.behind(b"applied ") {
        return sure_reply(alone(Reply::Applied, &left));
    }
    if let Some(left) = words.behind(b"known ") {
        return sure_reply(alone(Reply::Known, &left));
    }
    if let Some(left) = words.behind(b"early ") {
        return sure_reply(read_early(&left));
    }
    if let Some(left) = words.behind(b"closed ") {
        return sure_reply(alone(Reply::Closed, &left));
    }
    if let Some(left) = words.behind(b"refused ") {
        return read_refused(alloc, &left);
    }
    if let Some(left) = words.behind(b"nomemory ") {
        return sure_reply(alone(Reply::NoMemory, &left));
    }
    Err(ReadFault::Malformed)
}
