//! A session's requests, the replies that they are to get, and the journal that they leave.

use crate::talks::{put, put_frame};
use std::alloc::Global;
use std::process::Abort;

/// The body of a request's frame, which begins with the actor, and that of its reply's.
#[derive(Drop)]
struct Row {
    asked: &'static [u8],
    told: &'static [u8],
}

/// A session opens, puts a key, commits, and gets it.
const TALK: [Row; 6] = [
    Row {
        asked: b"\0\x01\x01\0",
        told: b"\x01\0\0\0\0\0\0",
    },
    Row {
        asked: b"\0\x01\x02\0",
        told: b"\x02\0\0\0\0\0\0",
    },
    Row {
        asked: b"\0\x01\x04\x01x\0\x011",
        told: b"\x07",
    },
    Row {
        asked: b"\0\x01\x06\x01\0\0",
        told: b"\x08\0\x01\0\0\0\x01\x01\0\0\0\0\0\0",
    },
    Row {
        asked: b"\0\x01\x02\0",
        told: b"\x02\0\x01\0\0\0\x01",
    },
    Row {
        asked: b"\0\x01\x03\x01x",
        told: b"\x04\0\x01\0\0\0\x01\0\x011",
    },
];

/// The frames of the requests.
fn requests(rt: &impl Abort, alloc: Global, rows: &[Row]) -> Vec<u8> {
    let mut frames = Vec::new(alloc);
    for row in rows {
        put_frame(rt, &mut frames, &[], row.asked);
    }
    frames
}

/// The frames of the replies.
fn replies(rt: &impl Abort, alloc: Global, rows: &[Row]) -> Vec<u8> {
    let mut frames = Vec::new(alloc);
    for row in rows {
        put_frame(rt, &mut frames, &[], row.told);
    }
    frames
}

/// The journal with the requests.
fn journal(rt: &impl Abort, alloc: Global, rows: &[Row]) -> Vec<u8> {
    let mut text = Vec::new(alloc);
    for row in rows {
        put(rt, &mut text, &[1]);
        put_frame(rt, &mut text, &[], row.asked);
    }
    put(rt, &mut text, &[0]);
    text
}

/// The frames of the requests from this one on.
pub(crate) fn requests_from(rt: &impl Abort, alloc: Global, first: usize) -> Vec<u8> {
    requests(rt, alloc, &TALK[first.min(6)..])
}

/// The frames of the replies to the requests from this one on.
pub(crate) fn replies_from(rt: &impl Abort, alloc: Global, first: usize) -> Vec<u8> {
    replies(rt, alloc, &TALK[first.min(6)..])
}

/// The frames of the replies to so many requests.
pub(crate) fn replies_to(rt: &impl Abort, alloc: Global, count: usize) -> Vec<u8> {
    replies(rt, alloc, &TALK[..count.min(6)])
}

/// The journal with so many requests.
pub(crate) fn journal_of(rt: &impl Abort, alloc: Global, count: usize) -> Vec<u8> {
    journal(rt, alloc, &TALK[..count.min(6)])
}
