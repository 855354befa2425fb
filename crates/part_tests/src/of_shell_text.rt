//! What no clause says: that there is memory for requests and replies, and lines from outside.

use crate::letters::letter;
use reply_text::{Text, line_of, read_reply_line, reply_line};
use shell_text::read_line;
use std::alloc::Global;
use std::process::Abort;
use tardis_base::{Reply, Request};

/// Lines of requests, and the letters of what is answered.
const REQUESTS: [(&[u8], u8); 17] = [
    (b"10 open follow", b'r'),
    (b"1 begin at 1.2", b'r'),
    (b"1 put #20 #", b'r'),
    (b"1 commit ser+kb:3", b'r'),
    (b"1 merge 1.1 2.1", b'r'),
    (b"1 conflicts", b'r'),
    (b"7 getfor x 1.2", b'r'),
    (b"0 pull 3 0", b'r'),
    (b"0 deliver 02000200000001000200000003 00000003", b'm'),
    (b"0 deliver 0200020000000100020000000300000003", b'r'),
    (b"01 open", b'm'),
    (b"1  open", b'm'),
    (b"1 open ", b'm'),
    (b"1 get #0A", b'm'),
    (b"1 get #78", b'm'),
    (b"1 commit si+ser", b'm'),
    (b"0 pull 10000000000", b'm'),
];

/// The same of replies.
const REPLIES: [(&[u8], u8); 25] = [
    (b"merging 1.2 1.3", b'r'),
    (b"merging 1.3 1.2", b'm'),
    (b"value 1.1 #", b'r'),
    (b"value 1.1", b'm'),
    (b"committed 1.1 from 0.0", b'r'),
    (b"committed 1.1 from", b'm'),
    (b"states 2 1.2 1.3", b'r'),
    (b"states 3 1.2 1.3", b'm'),
    (b"keys 2 x y", b'r'),
    (b"keys 2 y x", b'm'),
    (b"keys 1 #78", b'm'),
    (
        b"stat known 1 kept 1 leaves 1 sessions 0 sites 1 0:0.0:0",
        b'r',
    ),
    (b"shown 1 children 1 1.2 path 1 1.1:2", b'r'),
    (b"shown 1 children 1 1.2 path 2 1.1:2", b'm'),
    (b"batch 000000", b'r'),
    (b"batch 00000", b'm'),
    (b"batch 0000", b'm'),
    (b"refused toomany reads 257", b'r'),
    (b"refused toomany reads  257", b'm'),
    (b"refused conflictkey #0a", b'r'),
    (b"refused conflictkey #0A", b'm'),
    (b"refused branches kb 1.1 01", b'm'),
    (b"refused trailfull 18446744073709551615", b'r'),
    (b"refused trailfull 18446744073709551616", b'm'),
    (b"nomemory ", b'm'),
];

/// The letter of a line of a request.
fn asked(alloc: Global, line: &[u8]) -> u8 {
    letter(read_line(alloc, line))
}

/// The letter of a line of a reply.
fn answered(alloc: Global, line: &[u8]) -> u8 {
    letter(read_reply_line(alloc, line))
}

fn check_requests(rt: &impl Abort, alloc: Global) {
    for (line, want) in &REQUESTS {
        assert!(rt; asked(alloc, line) == *want);
    }
}

#[test]
fn lines_of_requests_are_read(rt: HostRuntime) {
    check_requests(&rt, rt.alloc());
}

fn check_replies(rt: &impl Abort, alloc: Global) {
    for (line, want) in &REPLIES {
        assert!(rt; answered(alloc, line) == *want);
    }
}

#[test]
fn lines_of_replies_are_read(rt: HostRuntime) {
    check_replies(&rt, rt.alloc());
}

/// The line of an abort of the actor 7.
fn request_text(rt: &impl Abort, alloc: Global) -> Text {
    line_of(alloc, 7, &Request::Abort).expect(rt, "room")
}

/// The line of a reply that something is done.
fn reply_text(rt: &impl Abort, alloc: Global) -> Text {
    reply_line(alloc, &Reply::Done).expect(rt, "room")
}

#[test]
fn lines_have_memory(rt: HostRuntime) {
    let asked = request_text(&rt, rt.alloc());
    assert!(rt; asked.as_slice() == b"7 abort".as_slice());
    drop(asked);
    let answered = reply_text(&rt, rt.alloc());
    assert!(rt; answered.as_slice() == b"done".as_slice());
    drop(answered);
}
