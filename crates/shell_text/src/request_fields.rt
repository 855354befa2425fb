//! Writing the fields of requests from the bytes of a spelling.

ghost use Rattle.std.specs.Prelude.{◌≡◌, ◌<◌, ◌∷◌, ◌++◌, codes, map, nat_le};
ghost use Rattle.shell_text.specs.RequestLines.{after_words, begin_words, flags_word, merge_words, name_if};
ghost use Rattle.tardis_base.specs.Sizes.{longest_key};
ghost use Rattle.text_words.specs.Puts.{putting, puts, says, spaced};
ghost use Rattle.text_words.specs.Words.{line, number_word};
ghost use Rattle.wire_talk.specs.RequestReadings.{after_front, begin_front, commit_front, counts_front, flag_front, merge_of_front};
ghost use Rattle.wire_talk.specs.Valid.{is_commit};

use crate::field_words::put_id;
use crate::list_fields::is_site_count;
use crate::list_lines::{put_ids, put_numbers};
use tardis_base::{EndFlags, MAX_KEY};
use text_words::{LineBuf, Unread};

pub fn put_open(unread: &mut Unread, out: &mut LineBuf)
    ensures { putting unread.new out.new ≡ puts flag_front (λ f. spaced (line (codes "open" ∷ name_if f (codes "follow")))) (putting unread.old out.old) }
{
    let flag = match unread.u8() {
        Some(flag) => flag,
        None => return,
    };
    match flag {
        0 => unread.say(b" open", out),
        1 => unread.say(b" open follow", out),
        _ => unread.lose(),
    }
}

pub fn put_begin(unread: &mut Unread, out: &mut LineBuf)
    ensures { putting unread.new out.new ≡ puts begin_front (λ b. spaced (line (codes "begin" ∷ begin_words b))) (putting unread.old out.old) }
{
    let kind = match unread.u8() {
        Some(kind) => kind,
        None => return,
    };
    match kind {
        0 => unread.say(b" begin any", out),
        1 => unread.say(b" begin ancestor", out),
        2 => unread.say(b" begin parent", out),
        3 => put_id(b" begin at", unread, out),
        _ => unread.lose(),
    }
}

pub fn put_commit(unread: &mut Unread, out: &mut LineBuf)
    ensures { putting unread.new out.new ≡ puts commit_front (λ p. codes " commit" ++ spaced (flags_word (record { 0 = p.0 }) p.1))
        (putting unread.old out.old) }
{
    let flags = match unread.u8() {
        Some(flags) => flags,
        None => return,
    };
    let k = match unread.u16() {
        Some(k) => k,
        None => return,
    };
    if is_commit(flags, k) {
        unread.say(b" commit", out);
        say_flags(flags, k, unread, out);
    } else {
        unread.lose();
    }
}

/// The names of four flags, with the number of branches behind the last.
fn say_flags(flags: u8, k: u16, unread: &mut Unread, out: &mut LineBuf)
    requires { flags < 16 }
    ensures { putting unread.new out.new ≡ says (spaced (flags_word (record { 0 = flags }) k)) (putting unread.old out.old) }
{
    let text: &[u8] = match flags {
        0 => b" -",
        1 => b" ser",
        2 => b" si",
        3 => b" ser+si",
        4 => b" nb",
        5 => b" ser+nb",
        6 => b" si+nb",
        7 => b" ser+si+nb",
        8 => b" kb:",
        9 => b" ser+kb:",
        10 => b" si+kb:",
        11 => b" ser+si+kb:",
        12 => b" nb+kb:",
        13 => b" ser+nb+kb:",
        14 => b" si+nb+kb:",
        _ => b" ser+si+nb+kb:",
    };
    if flags < 8 {
        unread.say(text, out);
    } else {
        unread.say_digits(text, u64::from(k), out);
    }
}

pub fn put_merge(unread: &mut Unread, out: &mut LineBuf)
    ensures { putting unread.new out.new ≡ puts merge_of_front (λ of. spaced (line (codes "merge" ∷ merge_words of))) (putting unread.old out.old) }
{
    let count = match unread.u8() {
        Some(count) => count,
        None => return,
    };
    if count == 0 {
        unread.say(b" merge leaves", out);
    } else {
        put_ids(b" merge", u32::from(count), unread, out);
    }
}

pub fn put_conflicts(unread: &mut Unread, out: &mut LineBuf)
    ensures { putting unread.new out.new ≡ puts after_front (λ after. spaced (line (codes "conflicts" ∷ after_words after))) (putting unread.old out.old) }
{
    let count = match unread.u8() {
        Some(count) => count,
        None => return,
    };
    let after = match unread.counted_bytes(count) {
        Some(after) => after,
        None => return,
    };
    if !is_after_length(count) {
        unread.lose();
        return;
    }
    unread.say(b" conflicts", out);
    if !after.is_empty() {
        unread.say_bytes(after, out);
    }
}

pub fn put_pull(unread: &mut Unread, out: &mut LineBuf)
    ensures { putting unread.new out.new ≡ puts counts_front (λ ns. spaced (line (codes "pull" ∷ map number_word ns))) (putting unread.old out.old) }
{
    let count = match unread.u8() {
        Some(count) => count,
        None => return,
    };
    if is_site_count(count) {
        put_numbers(b" pull", count, unread, out);
    } else {
        unread.lose();
    }
}

fn is_commit(flags: u8, k: u16) -> bool
    ensures { result ≡ is_commit (record { 0 = flags }) k }
{
    let is_counted = flags & EndFlags::KB.0 == EndFlags::KB.0;
    flags < 16 && (if is_counted { k >= 1 } else { k == 0 })
}

fn is_after_length(count: u8) -> bool
    ensures { result ≡ nat_le count longest_key }
{
    usize::from(count) <= MAX_KEY
}
