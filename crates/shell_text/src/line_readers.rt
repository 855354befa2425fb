//! Reading the lines of requests.
//!
//! How requests are written as lines is stated in `docs/FORMATS.md`. The cost grows with the number of bytes.

ghost use Rattle.std.specs.Prelude.{◌≡◌, ◌↔◌, ℕ, drop, None, Some, Err, IfOk, IsTrue};
ghost use Rattle.shell_text.specs.Answers.{IsAnswer};
ghost use Rattle.shell_text.specs.RequestTexts.{asked_of, request_text, request_text_rows};
ghost use Rattle.tardis_base.specs.declared.requests.Request.{Request};
ghost use Rattle.text_words.specs.Texts.{by_prefix};
ghost use Rattle.wire_item.specs.Fronts.{whole};
ghost use Rattle.wire_talk.specs.Memory.{takes_no_memory};

use crate::line_field_readers::{
    read_begin_merge, read_conflicts, read_delete, read_deliver, read_get, read_get_for, read_pull,
    read_put, sure,
};
use crate::line_word_readers::{
    alone, read_begin, read_ceiling, read_commit, read_open, read_raise, read_show, read_tidy,
};
use std::alloc::Global;
use tardis_base::{ReadFault, Request};
use text_words::Words;

/// The actor and the request whose line this is. A request with no key, no value, no list and no item takes no memory.
pub fn read_line(alloc: Global, line: &[u8]) -> Result<(u16, Request), ReadFault>
    ensures read { IfOk result (λ asked. asked_of line.now ≡ Some asked) }
    ensures malformed { (result ≡ Err ReadFault.Malformed) ↔ (asked_of line.now ≡ None) }
    ensures sure { (asked : ℕ × Request) → asked_of line.now ≡ Some asked → IsTrue (takes_no_memory asked.1) → result ≡ Err ReadFault.NoMemory → ⊥ }
{
    let words = Words::new(line);
    match words.u16(b' ') {
        Some((actor, left)) => match read_request(alloc, &left) {
            Ok(request) => Ok((actor, request)),
            Err(fault) => Err(fault),
        },
        None => Err(ReadFault::Malformed),
    }
}

/// The request behind the actor's number.
fn read_request(alloc: Global, words: &Words) -> Result<Request, ReadFault>
    ensures { IsAnswer (whole request_text words.now) result }
{
    if let Some(left) = words.behind(b"open ") {
        return sure(read_open(&left));
    }
    if let Some(left) = words.behind(b"begin ") {
        return sure(read_begin(&left));
    }
    if let Some(left) = words.behind(b"get ") {
        return read_get(alloc, &left);
    }
    if let Some(left) = words.behind(b"put ") {
        return read_put(alloc, &left);
    }
    if let Some(left) = words.behind(b"del ") {
        return read_delete(alloc, &left);
    }
    read_end_request(alloc, words)
}

/// One of the requests that end a transaction or merge states, or one whose name stands behind those.
fn read_end_request(alloc: Global, words: &Words) -> Result<Request, ReadFault>
    ensures { IsAnswer (whole (by_prefix (drop 5 request_text_rows)) words.now) result }
{
    if let Some(left) = words.behind(b"commit ") {
        return sure(read_commit(&left));
    }
    if let Some(left) = words.behind(b"abort ") {
        return sure(alone(Request::Abort, &left));
    }
    if let Some(left) = words.behind(b"merge ") {
        return read_begin_merge(alloc, &left);
    }
    if let Some(left) = words.behind(b"forks ") {
        return sure(alone(Request::ForkPoints, &left));
    }
    if let Some(left) = words.behind(b"conflicts ") {
        return read_conflicts(alloc, &left);
    }
    read_state_request(alloc, words)
}

/// One of the requests of states and what is kept of them, or one whose name stands behind those.
fn read_state_request(alloc: Global, words: &Words) -> Result<Request, ReadFault>
    ensures { IsAnswer (whole (by_prefix (drop 10 request_text_rows)) words.now) result }
{
    if let Some(left) = words.behind(b"getfor ") {
        return read_get_for(alloc, &left);
    }
    if let Some(left) = words.behind(b"ceiling ") {
        return sure(read_ceiling(&left));
    }
    if let Some(left) = words.behind(b"raise ") {
        return sure(read_raise(&left));
    }
    if let Some(left) = words.behind(b"tidy ") {
        return sure(read_tidy(&left));
    }
    read_other_request(alloc, words)
}

/// One of the requests of a site, or one whose name stands behind those.
fn read_other_request(alloc: Global, words: &Words) -> Result<Request, ReadFault>
    ensures { IsAnswer (whole (by_prefix (drop 14 request_text_rows)) words.now) result }
{
    if let Some(left) = words.behind(b"stat ") {
        return sure(alone(Request::Stat, &left));
    }
    if let Some(left) = words.behind(b"show ") {
        return sure(read_show(&left));
    }
    if let Some(left) = words.behind(b"leaves ") {
        return sure(alone(Request::Leaves, &left));
    }
    if let Some(left) = words.behind(b"pull ") {
        return read_pull(alloc, &left);
    }
    if let Some(left) = words.behind(b"deliver ") {
        return read_deliver(alloc, &left);
    }
    sure(read_last_request(words))
}

/// One of the requests whose names stand behind all of those.
fn read_last_request(words: &Words) -> Option<Request>
    ensures { result ≡ whole (by_prefix (drop 19 request_text_rows)) words.now }
{
    if let Some(left) = words.behind(b"close ") {
        return alone(Request::Close, &left);
    }
    if let Some(left) = words.behind(b"settle ") {
        return alone(Request::Settle, &left);
    }
    None
}
