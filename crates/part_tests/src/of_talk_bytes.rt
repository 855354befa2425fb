//! What no clause says: that memory suffices, and spellings from outside.

use crate::letters::letter;
use std::alloc::Global;
use std::process::Abort;
use talk_bytes::{read_reply, read_request};

/// One request of each kind, as it is spelled. What is delivered is state 2.1 below the root, which puts 1 to the key a.
const REQUESTS: [&[u8]; 26] = [
    &[1, 0],
    &[1, 1],
    &[2, 0],
    &[2, 3, 0, 1, 0, 0, 0, 2],
    &[3, 1, 120],
    &[4, 1, 120, 0, 1, 49],
    &[5, 1, 120],
    &[6, 1, 0, 0],
    &[6, 9, 0, 2],
    &[7],
    &[8, 0],
    &[8, 2, 0, 1, 0, 0, 0, 2, 0, 1, 0, 0, 0, 1],
    &[9],
    &[10, 2, 97, 98],
    &[11, 1, 120, 0, 1, 0, 0, 0, 1],
    &[12, 0, 0, 0, 0, 0, 0],
    &[13, 0, 1, 0, 0, 0, 5],
    &[14],
    &[15, 0, 255],
    &[16],
    &[17, 0, 1, 0, 0, 0, 9],
    &[18],
    &[19, 2, 0, 0, 0, 3, 0, 0, 0, 0],
    &[
        20, 1, 0, 2, 0, 0, 0, 1, 1, 0, 0, 0, 0, 0, 0, 1, 1, 97, 1, 0, 1, 49,
    ],
    &[21],
    &[22],
];

/// Bytes that spell no request.
const NO_REQUESTS: [&[u8]; 12] = [
    &[],
    &[0],
    &[23],
    &[255],
    &[1, 2],
    &[2, 4],
    &[2, 1, 0],
    &[3, 0],
    &[6, 1, 0, 1],
    &[6, 8, 0, 0],
    &[7, 0],
    &[19, 0],
];

/// One reply of each kind, as it is spelled, but for Refused.
const REPLIES: [&[u8]; 22] = [
    &[1, 0, 0, 0, 0, 0, 0],
    &[2, 0, 1, 0, 0, 0, 1],
    &[3, 2, 0, 1, 0, 0, 0, 2, 0, 2, 0, 0, 0, 1],
    &[4, 0, 1, 0, 0, 0, 1, 0, 1, 49],
    &[5, 0, 0, 0, 0, 0, 0],
    &[6],
    &[7],
    &[8, 0, 1, 0, 0, 0, 2, 1, 0, 1, 0, 0, 0, 1],
    &[9, 0, 1, 0, 0, 0, 2],
    &[10, 0, 0, 0, 2, 0, 2, 0, 2, 0, 0, 0, 1, 0, 1, 0, 0, 0, 1],
    &[11, 0, 0, 0, 2, 0, 2, 1, 97, 2, 97, 98],
    &[11, 0, 0, 0, 0, 0, 0],
    &[12, 0, 1, 0, 0, 0, 1, 0, 0, 0, 7],
    &[13, 0, 0, 0, 3],
    &[
        14, 0, 0, 0, 0, 0, 0, 0, 5, 0, 0, 0, 4, 0, 0, 0, 2, 0, 1, 1, 0, 0, 0, 4, 0, 1, 0, 0, 0, 1,
        0, 0, 0, 1,
    ],
    &[
        15, 0, 0, 0, 0, 0, 0, 0, 5, 0, 0, 0, 1, 0, 1, 0, 0, 0, 3, 0, 0, 0, 1, 0, 1, 0, 0, 0, 1, 0,
        0, 0, 1,
    ],
    &[
        16, 0, 1, 0, 2, 0, 0, 0, 1, 1, 0, 0, 0, 0, 0, 0, 1, 1, 97, 1, 0, 1, 49, 1, 0, 2, 0, 0, 0,
        1, 0, 2, 0, 0, 0, 1, 0, 0, 0, 1,
    ],
    &[17],
    &[18],
    &[19, 0, 0, 0, 4],
    &[20],
    &[22],
];

/// One refusal of each kind, as the reply that brings it is spelled.
const REFUSALS: [&[u8]; 29] = [
    &[21, 1],
    &[21, 2],
    &[21, 3],
    &[21, 4, 1, 0],
    &[21, 5],
    &[21, 6],
    &[21, 7],
    &[21, 8, 2, 0, 0, 1, 1],
    &[21, 9, 0, 1, 0, 0, 0, 9],
    &[21, 10, 0, 1, 0, 0, 0, 1, 0, 1, 0, 0, 0, 2],
    &[21, 11, 0, 2, 0, 0, 0, 1, 0, 1, 0, 0, 0, 1],
    &[21, 12, 0, 1, 0, 0, 0, 1],
    &[21, 13, 1, 120],
    &[21, 14, 2, 120, 121],
    &[21, 15, 4, 0, 1, 0, 0, 0, 1, 0, 0, 0, 2],
    &[21, 16, 0, 1, 0, 0, 0, 1],
    &[21, 17, 0, 0, 0, 0, 0, 0],
    &[21, 18, 0, 7, 0, 1, 0, 0, 0, 1],
    &[21, 19, 0, 1, 0, 0, 0, 1],
    &[21, 20, 0, 0, 0, 8],
    &[21, 21, 0, 1, 0, 0, 0, 1, 0, 0, 1, 0],
    &[21, 22],
    &[21, 23, 0, 3],
    &[21, 24, 0, 1, 0, 0, 0, 1],
    &[21, 25, 0, 1, 0, 0, 0, 5],
    &[21, 26, 0, 0, 0, 1, 0, 0, 0, 0],
    &[21, 27, 200],
    &[21, 28, 0, 0, 0, 1],
    &[21, 29, 0, 0, 4, 0],
];

/// Bytes that spell no reply: none, no such code, a field that is cut, a byte that is left over, ids that don't ascend,
/// none of them, a number that isn't the lesser of the total and 256, keys that don't ascend or are one twice, no site
/// line, no such refusal, no such kind of too many, no such constraint.
const NO_REPLIES: [&[u8]; 21] = [
    &[],
    &[0],
    &[23],
    &[255],
    &[1],
    &[1, 0, 0, 0, 0, 0],
    &[1, 0, 1, 0, 0, 0, 0],
    &[18, 0],
    &[22, 0],
    &[3, 2, 0, 2, 0, 0, 0, 1, 0, 1, 0, 0, 0, 2],
    &[3, 0],
    &[8, 0, 1, 0, 0, 0, 2, 2, 0, 1, 0, 0, 0, 1, 0, 1, 0, 0, 0, 1],
    &[10, 0, 0, 0, 1, 0, 0],
    &[10, 0, 0, 0, 0, 0, 1, 0, 1, 0, 0, 0, 1],
    &[11, 0, 0, 0, 2, 0, 2, 2, 97, 98, 1, 97],
    &[11, 0, 0, 0, 2, 0, 2, 1, 97, 1, 97],
    &[14, 0, 0, 0, 0, 0, 0, 0, 5, 0, 0, 0, 4, 0, 0, 0, 2, 0, 1, 0],
    &[21, 0],
    &[21, 30],
    &[21, 8, 4, 0, 0, 0, 1],
    &[21, 15, 1, 0, 1, 0, 0, 0, 1, 0, 0, 0, 2],
];

/// The letter of a request.
fn request(alloc: Global, bytes: &[u8]) -> u8 {
    letter(read_request(alloc, bytes))
}

/// The letter of a reply.
fn reply(alloc: Global, bytes: &[u8]) -> u8 {
    letter(read_reply(alloc, bytes))
}

fn check_requests(rt: &impl Abort, alloc: Global, rows: &[&[u8]], want: u8) {
    for bytes in rows {
        assert!(rt; request(alloc, bytes) == want);
    }
}

#[test]
fn requests_are_read(rt: HostRuntime) {
    check_requests(&rt, rt.alloc(), &REQUESTS, b'r');
    check_requests(&rt, rt.alloc(), &NO_REQUESTS, b'm');
}

fn check_replies(rt: &impl Abort, alloc: Global, rows: &[&[u8]], want: u8) {
    for bytes in rows {
        assert!(rt; reply(alloc, bytes) == want);
    }
}

#[test]
fn replies_are_read(rt: HostRuntime) {
    check_replies(&rt, rt.alloc(), &REPLIES, b'r');
    check_replies(&rt, rt.alloc(), &REFUSALS, b'r');
    check_replies(&rt, rt.alloc(), &NO_REPLIES, b'm');
}
