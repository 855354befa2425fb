//! Branches are joined by merges.

use crate::merge_rows::{
    APART, BRANCHED, CART, JOINED, MERGED_TWICE, NINE_LEAVES, ONE_STATE, PAST_MERGES, STEP_ONE,
    STEP_TWO, WIDE_BEGUN, WIDE_FIRST, WIDE_OPEN, WIDE_SECOND,
};
use crate::sites::{LIMITS, answers, are_answered, keys};
use crate::talks::{Talk, copied, put};
use std::alloc::Global;
use std::process::Abort;

/// Tables of rows that are asked one after another.
const TALKS: [&[&str]; 6] = [
    &[CART],
    &[BRANCHED, JOINED, APART],
    &[BRANCHED, MERGED_TWICE],
    &[BRANCHED, ONE_STATE],
    &[PAST_MERGES],
    &[NINE_LEAVES],
];

#[test]
fn merges_answer_as_told(rt: HostRuntime) {
    let keys = keys(&rt);
    for tables in TALKS {
        assert!(rt; are_answered(&rt, rt.alloc(), keys, LIMITS, 1, tables));
    }
}

/// The actor puts an empty value to each of the 64 keys of two bytes, the first of them this one.
fn note_puts(rt: &impl Abort, talk: &mut Talk, actor: u16, first: u8) {
    for second in 0..64u8 {
        talk.ask_as(rt, actor, &[4, 2, first, second, 0, 0], &[7]);
    }
}

/// Puts those 64 keys behind these bytes.
fn put_keys(rt: &impl Abort, bytes: &mut Vec<u8>, first: u8) {
    for second in 0..64u8 {
        put(rt, bytes, &[2, first, second]);
    }
}

/// The conflict keys are the 64 keys that begin so, for each of these bytes.
fn note_conflicts(rt: &impl Abort, alloc: Global, talk: &mut Talk, firsts: &[u8]) {
    let count = u8::try_from(firsts.len().saturating_mul(64)).unwrap_or(u8::MAX);
    let mut told = copied(rt, alloc, &[11, 0, 0, 0, count, 0, count]);
    for first in firsts {
        put_keys(rt, &mut told, *first);
    }
    talk.ask(rt, &[10, 0], told.as_slice());
}

/// Two branches of two states. The first states write the same 64 keys, and the second ones 64 others.
fn branches(rt: &impl Abort, alloc: Global) -> Talk {
    let mut talk = Talk::of(rt, alloc, &[WIDE_BEGUN]);
    note_puts(rt, &mut talk, 1, 0);
    note_puts(rt, &mut talk, 2, 0);
    talk.note_all(rt, WIDE_FIRST);
    note_puts(rt, &mut talk, 1, 1);
    note_puts(rt, &mut talk, 2, 1);
    talk.note_all(rt, WIDE_SECOND);
    talk
}

/// They are merged at once.
fn merged_at_once(rt: &impl Abort, alloc: Global) -> Talk {
    let mut talk = branches(rt, alloc);
    talk.ask(rt, &[8, 0], &[3, 2, 0, 1, 0, 0, 0, 3, 0, 1, 0, 0, 0, 4]);
    note_conflicts(rt, alloc, &mut talk, &[0, 1]);
    talk.note_all(rt, WIDE_OPEN);
    talk
}

#[test]
fn a_merge_of_128_conflict_keys_stays_open(rt: HostRuntime) {
    let talk = merged_at_once(&rt, rt.alloc());
    assert!(rt; answers(&rt, rt.alloc(), keys(&rt), LIMITS, 1, &talk));
    drop(talk);
}

/// Their first states are merged first.
fn merged_in_steps(rt: &impl Abort, alloc: Global) -> Talk {
    let mut talk = branches(rt, alloc);
    talk.ask(
        rt,
        &[8, 2, 0, 1, 0, 0, 0, 1, 0, 1, 0, 0, 0, 2],
        &[3, 2, 0, 1, 0, 0, 0, 1, 0, 1, 0, 0, 0, 2],
    );
    note_conflicts(rt, alloc, &mut talk, &[0]);
    note_puts(rt, &mut talk, 1, 0);
    talk.note_all(rt, STEP_ONE);
    note_conflicts(rt, alloc, &mut talk, &[1]);
    note_puts(rt, &mut talk, 1, 1);
    talk.note_all(rt, STEP_TWO);
    talk
}

#[test]
fn three_merges_join_wide_branches(rt: HostRuntime) {
    let talk = merged_in_steps(&rt, rt.alloc());
    assert!(rt; answers(&rt, rt.alloc(), keys(&rt), LIMITS, 1, &talk));
    drop(talk);
}
