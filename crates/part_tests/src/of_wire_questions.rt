//! What no clause says: that memory suffices, and spellings from outside.

use std::alloc::Global;
use std::process::Abort;
use wire_questions::read_question;

/// One question of each kind, as it is spelled; sessions behind one, and all.
const QUESTIONS: [&[u8]; 8] = [
    &[64, 0, 1, 0, 0, 0, 2, 1, 100],
    &[65, 0, 1, 0, 0, 0, 1, 0, 1, 100],
    &[66, 0, 0, 0, 0, 0, 0, 2, 97, 98, 0],
    &[67, 0, 1, 0, 0, 0, 1],
    &[68, 2, 0, 1, 0, 0, 0, 3, 0, 1, 0, 0, 0, 2, 1, 100],
    &[69, 0],
    &[69, 1, 0, 1],
    &[70],
];

/// Bytes that spell no question: none, no such code, a request, no key, no states, a field that is cut, a byte that is left
/// over.
const NO_QUESTIONS: [&[u8]; 9] = [
    &[],
    &[63],
    &[71],
    &[16],
    &[64, 0, 1, 0, 0, 0, 2, 0],
    &[68, 0, 1, 100],
    &[67, 0, 1, 0, 0, 0],
    &[69, 2],
    &[70, 0],
];

/// What is read of the bytes: q for a question, n for none, m where memory is wanting.
fn read(alloc: Global, bytes: &[u8]) -> u8 {
    match read_question(alloc, bytes) {
        Ok(Some(_)) => b'q',
        Ok(None) => b'n',
        Err(_) => b'm',
    }
}

fn check_questions(rt: &impl Abort, alloc: Global, rows: &[&[u8]], want: u8) {
    for bytes in rows {
        assert!(rt; read(alloc, bytes) == want);
    }
}

#[test]
fn questions_are_read(rt: HostRuntime) {
    check_questions(&rt, rt.alloc(), &QUESTIONS, b'q');
    check_questions(&rt, rt.alloc(), &NO_QUESTIONS, b'n');
}
