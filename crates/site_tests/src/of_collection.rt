//! Worked rows of collection, through the top call and through the site's step, and a long chain that stays small.

use crate::collection_rows::{FORK_OF_THREE, GROWN_TOGETHER, ROOM_AGAIN};
use crate::floor_rows::{COLLECTED_CHAIN, RAISED_CHAIN};
use crate::merge_rows::{BRANCHED, JOINED};
use crate::of_limits::THREE_STATES;
use crate::of_steps::are_steps;
use crate::sites::{LIMITS, answers, are_answered, keys};
use crate::talks::{Talk, copied, put};
use std::alloc::Global;
use std::process::Abort;

/// Tables of rows that are asked one after another.
const TALKS: [&[&str]; 3] = [
    &[RAISED_CHAIN, COLLECTED_CHAIN],
    &[BRANCHED, JOINED, GROWN_TOGETHER],
    &[FORK_OF_THREE],
];

#[test]
fn closed_states_are_collected(rt: HostRuntime) {
    let keys = keys(&rt);
    for tables in TALKS {
        assert!(rt; are_answered(&rt, rt.alloc(), keys, LIMITS, 1, tables));
        assert!(rt; are_steps(&rt, rt.alloc(), keys, LIMITS, tables));
    }
    assert!(rt; are_answered(&rt, rt.alloc(), keys, THREE_STATES, 1, &[ROOM_AGAIN]));
}

/// Puts the rows of the n-th commit of a chain behind the others: it is made below the one before it, or the root.
fn note_commit(rt: &impl Abort, talk: &mut Talk, n: u32) {
    let [a, b, c, d] = n.to_be_bytes();
    let [e, f, g, h] = n.saturating_sub(1).to_be_bytes();
    let site = if n > 1 { 1 } else { 0 };
    talk.ask(rt, &[2, 0], &[2, 0, site, e, f, g, h]);
    talk.ask(rt, &[4, 1, 107, 0, 1, 49], &[7]);
    talk.ask(
        rt,
        &[6, 1, 0, 0],
        &[8, 0, 1, a, b, c, d, 1, 0, site, e, f, g, h],
    );
}

/// Puts the rows behind the others by which the floor goes to the n-th commit, and 64 states go.
fn note_tidy(rt: &impl Abort, talk: &mut Talk, n: u32) {
    let [a, b, c, d] = n.to_be_bytes();
    let [e, f, g, h] = (n / 64).to_be_bytes();
    talk.ask(rt, &[14], &[12, 0, 1, a, b, c, d, e, f, g, h]);
    talk.ask(rt, &[15, 0, 64], &[13, 0, 0, 0, 64]);
}

/// Of 40,001 states one is kept.
fn note_stat(rt: &impl Abort, alloc: Global, talk: &mut Talk) {
    let mut told = copied(
        rt,
        alloc,
        &[
            14, 0, 0, 0, 0, 0, 0, 156, 65, 0, 0, 0, 1, 0, 0, 0, 1, 0, 1, 1,
        ],
    );
    put(
        rt,
        &mut told,
        &[0, 0, 156, 64, 0, 1, 0, 0, 156, 64, 0, 0, 2, 113],
    );
    talk.ask(rt, &[16], told.as_slice());
}

/// 40,000 commits, of which 64 at a time are collected.
fn long_chain(rt: &impl Abort, alloc: Global) -> Talk {
    let mut talk = Talk::new(alloc);
    talk.ask(rt, &[1, 1], &[1, 0, 0, 0, 0, 0, 0]);
    for n in 1..=40_000u32 {
        note_commit(rt, &mut talk, n);
        if n % 64 == 0 {
            note_tidy(rt, &mut talk, n);
        }
    }
    note_stat(rt, alloc, &mut talk);
    talk
}

/// It is longer than the 16,384 states for which the store has room.
#[test]
fn a_long_chain_stays_small(rt: HostRuntime) {
    let talk = long_chain(&rt, rt.alloc());
    assert!(rt; answers(&rt, rt.alloc(), keys(&rt), LIMITS, 1, &talk));
    drop(talk);
}
