//! Writing the lines of replies from the bytes that spell them. It takes no memory.
//!
//! How lines are written is stated in `docs/FORMATS.md`. The cost grows with the number of bytes.

ghost use Rattle.std.specs.Prelude.{◌≡◌, ◌+◌, ◌<◌, ◌≤◌, [], ◌∷◌, ◌++◌, codes, length};
ghost use Rattle.shell_text.specs.Spelled.{reply_line_of};
ghost use Rattle.tardis_base.specs.Sizes.{longest_frame};
ghost use Rattle.shell_text.specs.ReplyLines.{pair_word, refusal_words, reply_line, site_line_word};
ghost use Rattle.text_words.specs.Puts.{putting, puts, spaced, texts};
ghost use Rattle.text_words.specs.Words.{byte_word, id_word, line, number_word};
ghost use Rattle.wire_item.specs.Fronts.{both, front_of_code};
ghost use Rattle.wire_item.specs.Readings.{id_front, parents_front, u16_front, u32_front, u64_front};
ghost use Rattle.wire_talk.specs.ReplyReadings.{children_front, first_ids_front, first_keys_front, path_front, refusal_front, reply_rows, site_lines_front};
ghost use Rattle.wire_talk.specs.declared.reply_codes.TheConstants.{BATCH, RAISED};

use crate::field_words::{put_id, put_id_and_u32, put_id_and_value, put_u16, put_u32, put_u64};
use crate::list_fields::{
    put_children, put_first_ids, put_first_keys, put_parents, put_path, put_sites,
};
use crate::passing::pass_batch;
use crate::refusal_lines::put_refusal;
use item_bytes::Reader;
use text_words::{LineBuf, Unread};
use wire_talk::reply_codes::{self, BATCH};

/// Writes the line of the reply that the bytes spell, and nothing where they spell none. What the buffer held is forgotten.
pub fn put_reply_line(reply: &[u8], out: &mut LineBuf)
    requires { length reply.now ≤ longest_frame }
    ensures { out.new ≡ reply_line_of reply.now }
{
    out.clear();
    if let Some((code, fields)) = reply.split_first() {
        if *code == BATCH {
            put_batch_line(fields, out);
        } else {
            put_fields_line(*code, fields, out);
        }
    }
}

/// The line of the reply with the code, which isn't that of a batch.
fn put_fields_line(code: u8, fields: &[u8], out: &mut LineBuf)
    requires other { code ≡ BATCH → ⊥ }
    requires empty { out.old ≡ [] }
    requires fits { length fields.now + 1 ≤ longest_frame }
    ensures { out.new ≡ reply_line_of (code ∷ fields.now) }
{
    let mut unread = Unread::new(fields);
    put_coded_reply(code, &mut unread, out);
    if !unread.is_read() {
        out.clear();
    }
}

/// The line of the reply with a batch.
fn put_batch_line(batch: &[u8], out: &mut LineBuf)
    requires empty { out.old ≡ [] }
    requires fits { length batch.now + 1 ≤ longest_frame }
    ensures { out.new ≡ reply_line_of (BATCH ∷ batch.now) }
{
    let mut reader = Reader::new(batch);
    if pass_batch(&mut reader) {
        if reader.is_done() {
            let mut unread = Unread::new(b"");
            unread.say_hex(b"batch ", batch, out);
        }
    }
}

/// The reply of the code, which isn't that of a batch.
fn put_coded_reply(code: u8, unread: &mut Unread, out: &mut LineBuf)
    requires { code ≡ BATCH → ⊥ }
    ensures { putting unread.new out.new ≡ puts (front_of_code code reply_rows) reply_line (putting unread.old out.old) }
{
    if code < reply_codes::RAISED {
        put_low_reply(code, unread, out);
    } else {
        put_high_reply(code, unread, out);
    }
}

/// The reply of a code below that of a raised floor.
fn put_low_reply(code: u8, unread: &mut Unread, out: &mut LineBuf)
    requires { code < RAISED }
    ensures { putting unread.new out.new ≡ puts (front_of_code code reply_rows) reply_line (putting unread.old out.old) }
{
    match code {
        reply_codes::OPENED => put_id(b"opened", unread, out),
        reply_codes::BEGUN => put_id(b"begun", unread, out),
        reply_codes::MERGING => put_parents(b"merging", unread, out),
        reply_codes::VALUE => put_id_and_value(b"value", unread, out),
        reply_codes::DELETED => put_id(b"deleted", unread, out),
        reply_codes::ABSENT => unread.say(b"absent", out),
        reply_codes::DONE => unread.say(b"done", out),
        reply_codes::COMMITTED => put_committed(unread, out),
        reply_codes::ENDED => put_id(b"ended", unread, out),
        reply_codes::STATES => put_states(unread, out),
        reply_codes::KEYS => put_keys(unread, out),
        _ => unread.lose(),
    }
}

/// The reply of a code from that of a raised floor on, which isn't that of a batch.
fn put_high_reply(code: u8, unread: &mut Unread, out: &mut LineBuf)
    requires from { RAISED ≤ code }
    requires other { code ≡ BATCH → ⊥ }
    ensures { putting unread.new out.new ≡ puts (front_of_code code reply_rows) reply_line (putting unread.old out.old) }
{
    match code {
        reply_codes::RAISED => put_id_and_u32(b"raised", unread, out),
        reply_codes::TIDIED => put_u32(b"tidied", unread, out),
        reply_codes::STAT => put_statistics(unread, out),
        reply_codes::SHOWN => put_shown(unread, out),
        reply_codes::APPLIED => unread.say(b"applied", out),
        reply_codes::KNOWN => unread.say(b"known", out),
        reply_codes::EARLY => put_u32(b"early", unread, out),
        reply_codes::CLOSED => unread.say(b"closed", out),
        reply_codes::REFUSED => put_refused(unread, out),
        reply_codes::NO_MEMORY => unread.say(b"nomemory", out),
        _ => unread.lose(),
    }
}

fn put_refused(unread: &mut Unread, out: &mut LineBuf)
    ensures { putting unread.new out.new ≡ puts refusal_front (λ r. codes "refused" ++ spaced (line (refusal_words r))) (putting unread.old out.old) }
{
    unread.say(b"refused", out);
    put_refusal(unread, out);
}

fn put_committed(unread: &mut Unread, out: &mut LineBuf)
    ensures { putting unread.new out.new
        ≡ puts (both id_front parents_front) (λ p. (codes "committed" ++ spaced (id_word p.0)) ++ texts (codes " from") (λ x. spaced (id_word x)) p.1)
        (putting unread.old out.old) }
{
    put_id(b"committed", unread, out);
    put_parents(b" from", unread, out);
}

fn put_states(unread: &mut Unread, out: &mut LineBuf)
    ensures { putting unread.new out.new
        ≡ puts first_ids_front (λ p. texts (codes "states" ++ spaced (number_word p.0)) (λ x. spaced (id_word x)) p.1) (putting unread.old out.old) }
{
    match unread.u32() {
        Some(total) => put_first_ids(total, unread, out),
        None => {},
    }
}

fn put_keys(unread: &mut Unread, out: &mut LineBuf)
    ensures { putting unread.new out.new
        ≡ puts first_keys_front (λ p. texts (codes "keys" ++ spaced (number_word p.0)) (λ k. spaced (byte_word k)) p.1) (putting unread.old out.old) }
{
    match unread.u32() {
        Some(total) => put_first_keys(total, unread, out),
        None => {},
    }
}

fn put_statistics(unread: &mut Unread, out: &mut LineBuf)
    ensures { putting unread.new out.new
        ≡ puts (both (both (both (both u64_front u32_front) u32_front) u16_front) site_lines_front)
        (λ p. ((((codes "stat known" ++ spaced (number_word p.0.0.0.0)) ++ (codes " kept" ++ spaced (number_word p.0.0.0.1)))
        ++ (codes " leaves" ++ spaced (number_word p.0.0.1))) ++ (codes " sessions" ++ spaced (number_word p.0.1)))
        ++ texts (codes " sites" ++ spaced (number_word (length p.1))) (λ l. spaced (site_line_word l)) p.1)
        (putting unread.old out.old) }
{
    put_u64(b"stat known", unread, out);
    put_u32(b" kept", unread, out);
    put_u32(b" leaves", unread, out);
    put_u16(b" sessions", unread, out);
    put_sites(unread, out);
}

fn put_shown(unread: &mut Unread, out: &mut LineBuf)
    ensures { putting unread.new out.new
        ≡ puts (both (both u64_front children_front) path_front)
        (λ p. ((codes "shown" ++ spaced (number_word p.0.0))
        ++ texts (codes " children" ++ spaced (number_word (length p.0.1))) (λ x. spaced (id_word x)) p.0.1)
        ++ texts (codes " path" ++ spaced (number_word (length p.1))) (λ q. spaced (pair_word q)) p.1)
        (putting unread.old out.old) }
{
    put_u64(b"shown", unread, out);
    put_children(unread, out);
    put_path(unread, out);
}
