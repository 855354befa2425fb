//! Writing the lines of requests from the bytes that spell them. It takes no memory.
//!
//! How lines are written is stated in `docs/FORMATS.md`. The cost grows with the number of bytes.

ghost use Rattle.std.specs.Prelude.{◌≡◌, ◌+◌, ◌<◌, ◌≤◌, [], ◌∷◌, ◌++◌, codes, is_some, length};
ghost use Rattle.wire_item.specs.Readings.{item_of};
ghost use Rattle.shell_text.specs.Spelled.{malformed_line, request_line_of};
ghost use Rattle.shell_text.specs.RequestLines.{request_words};
ghost use Rattle.tardis_base.specs.Sizes.{longest_frame};
ghost use Rattle.text_words.specs.Puts.{putting, puts, spaced};
ghost use Rattle.text_words.specs.Words.{line};
ghost use Rattle.wire_item.specs.Fronts.{front_of_code};
ghost use Rattle.wire_talk.specs.RequestReadings.{request_rows};
ghost use Rattle.wire_talk.specs.declared.request_codes.TheConstants.{CEILING, DELIVER};

use crate::field_words::{put_id, put_key, put_key_and_id, put_key_and_value, put_u16};
use crate::passing::pass_item;
use crate::request_fields::{put_begin, put_commit, put_conflicts, put_merge, put_open, put_pull};
use item_bytes::Reader;
use text_words::{LineBuf, Unread};
use wire_talk::request_codes::{self, DELIVER};

/// Writes the line of the actor's request that the bytes spell, and the actor and `malformed` where they spell none. What
/// the buffer held is forgotten.
pub fn put_request_line(actor: u16, request: &[u8], out: &mut LineBuf)
    requires { length request.now ≤ longest_frame }
    ensures { out.new ≡ request_line_of actor request.now }
{
    match request.split_first() {
        Some((code, fields)) => {
            if *code == DELIVER {
                put_deliver_line(actor, fields, out);
            } else {
                put_fields_line(actor, *code, fields, out);
            }
        },
        None => put_malformed_line(actor, out),
    }
}

/// The line of the request with the code, which isn't that of an item.
fn put_fields_line(actor: u16, code: u8, fields: &[u8], out: &mut LineBuf)
    requires other { code ≡ DELIVER → ⊥ }
    requires fits { length fields.now + 1 ≤ longest_frame }
    ensures { out.new ≡ request_line_of actor (code ∷ fields.now) }
{
    out.clear();
    let mut unread = Unread::new(fields);
    unread.say_digits(b"", u64::from(actor), out);
    put_coded_request(code, &mut unread, out);
    if !unread.is_read() {
        put_malformed_line(actor, out);
    }
}

/// The line of the request with an item.
fn put_deliver_line(actor: u16, item: &[u8], out: &mut LineBuf)
    requires fits { length item.now + 1 ≤ longest_frame }
    ensures { out.new ≡ request_line_of actor (DELIVER ∷ item.now) }
{
    if spells_item(item) {
        out.clear();
        let mut unread = Unread::new(b"");
        unread.say_digits(b"", u64::from(actor), out);
        unread.say_hex(b" deliver ", item, out);
    } else {
        put_malformed_line(actor, out);
    }
}

fn spells_item(bytes: &[u8]) -> bool
    ensures { result ≡ is_some (item_of bytes.now) }
{
    let mut reader = Reader::new(bytes);
    if pass_item(&mut reader) {
        reader.is_done()
    } else {
        false
    }
}

fn put_malformed_line(actor: u16, out: &mut LineBuf)
    ensures { out.new ≡ malformed_line actor }
{
    out.clear();
    let mut unread = Unread::new(b"");
    unread.say_digits(b"", u64::from(actor), out);
    unread.say(b" malformed", out);
}

/// The words of the request of the code, which isn't that of an item, with a space before each.
fn put_coded_request(code: u8, unread: &mut Unread, out: &mut LineBuf)
    requires { code ≡ DELIVER → ⊥ }
    ensures { putting unread.new out.new ≡ puts (front_of_code code request_rows) (λ r. spaced (line (request_words r))) (putting unread.old out.old) }
{
    if code < request_codes::CEILING {
        put_low_request(code, unread, out);
    } else {
        put_high_request(code, unread, out);
    }
}

/// The request of a code below that of a ceiling.
fn put_low_request(code: u8, unread: &mut Unread, out: &mut LineBuf)
    requires { code < CEILING }
    ensures { putting unread.new out.new ≡ puts (front_of_code code request_rows) (λ r. spaced (line (request_words r))) (putting unread.old out.old) }
{
    match code {
        request_codes::OPEN => put_open(unread, out),
        request_codes::BEGIN => put_begin(unread, out),
        request_codes::GET => put_key(b" get", unread, out),
        request_codes::PUT => put_key_and_value(b" put", unread, out),
        request_codes::DELETE => put_key(b" del", unread, out),
        request_codes::COMMIT => put_commit(unread, out),
        request_codes::ABORT => unread.say(b" abort", out),
        request_codes::BEGIN_MERGE => put_merge(unread, out),
        request_codes::FORK_POINTS => unread.say(b" forks", out),
        request_codes::CONFLICTS => put_conflicts(unread, out),
        request_codes::GET_FOR => put_key_and_id(b" getfor", unread, out),
        _ => unread.lose(),
    }
}

/// The request of a code from that of a ceiling on, which isn't that of an item.
fn put_high_request(code: u8, unread: &mut Unread, out: &mut LineBuf)
    requires from { CEILING ≤ code }
    requires other { code ≡ DELIVER → ⊥ }
    ensures { putting unread.new out.new ≡ puts (front_of_code code request_rows) (λ r. spaced (line (request_words r))) (putting unread.old out.old) }
{
    match code {
        request_codes::CEILING => put_id(b" ceiling", unread, out),
        request_codes::RAISE => put_id(b" raise", unread, out),
        request_codes::RAISE_AUTO => unread.say(b" raise auto", out),
        request_codes::TIDY => put_u16(b" tidy", unread, out),
        request_codes::STAT => unread.say(b" stat", out),
        request_codes::SHOW => put_id(b" show", unread, out),
        request_codes::LEAVES => unread.say(b" leaves", out),
        request_codes::PULL => put_pull(unread, out),
        request_codes::CLOSE => unread.say(b" close", out),
        request_codes::SETTLE => unread.say(b" settle", out),
        _ => unread.lose(),
    }
}
