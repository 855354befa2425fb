//! Worked rows of what sites give each other, through the top call and through the site's step.

use crate::exchange_rows::{
    CONSENTS, IN_ORDER, LYING_PEERS, NEWS, NO_PATH, NO_ROOM, NONE_WAITS, SETTLED, TWO_RECORDS,
};
use crate::of_steps::are_steps;
use crate::sites::{LIMITS, answers, are_answered, keys};
use crate::talks::{Talk, copied, put};
use std::alloc::Global;
use std::process::Abort;
use tardis_base::Limits;

pub(crate) const TWO_SITES: Limits = Limits { sites: 2, ..LIMITS };

pub(crate) const TWO_STATES: Limits = Limits {
    sites: 2,
    max_kept: 2,
    ..LIMITS
};

const ONE_PAIR: Limits = Limits {
    sites: 2,
    max_path: 1,
    ..LIMITS
};

/// Tables of rows that are asked one after another.
const TALKS: [&[&str]; 5] = [
    &[TWO_RECORDS, IN_ORDER],
    &[TWO_RECORDS, CONSENTS],
    &[TWO_RECORDS, LYING_PEERS],
    &[TWO_RECORDS, NEWS],
    &[SETTLED],
];

#[test]
fn what_sites_give_each_other_is_answered(rt: HostRuntime) {
    let keys = keys(&rt);
    for tables in TALKS {
        assert!(rt; are_answered(&rt, rt.alloc(), keys, TWO_SITES, 1, tables));
        assert!(rt; are_steps(&rt, rt.alloc(), keys, TWO_SITES, tables));
    }
    assert!(rt; are_answered(&rt, rt.alloc(), keys, LIMITS, 1, &[NONE_WAITS]));
}

#[test]
fn records_of_others_have_room_too(rt: HostRuntime) {
    let keys = keys(&rt);
    for (limits, table) in [(TWO_STATES, NO_ROOM), (ONE_PAIR, NO_PATH)] {
        assert!(rt; are_answered(&rt, rt.alloc(), keys, limits, 1, &[table]));
    }
}

/// The record of this sequence of site 2, below 2.1, comes early.
fn note_early(rt: &impl Abort, alloc: Global, talk: &mut Talk, sequence: u32) {
    let mut asked = copied(rt, alloc, b"\x14\x01\0\x02");
    put(rt, &mut asked, &sequence.to_be_bytes());
    put(rt, &mut asked, b"\x01\0\x02\0\0\0\x01\0");
    talk.ask_as(rt, 0, asked.as_slice(), b"\x13\0\0\0\0");
}

/// 2.2 is the first of 257 early records, and goes: it isn't settled once 2.1 has come.
fn crowded(rt: &impl Abort, alloc: Global) -> Talk {
    let mut talk = Talk::new(alloc);
    for sequence in 2..259u32 {
        note_early(rt, alloc, &mut talk, sequence);
    }
    talk.note_all(rt, NONE_WAITS);
    talk.ask_as(
        rt,
        0,
        b"\x14\x01\0\x02\0\0\0\x01\x01\0\0\0\0\0\0\0",
        b"\x11",
    );
    talk.note_all(rt, NONE_WAITS);
    talk
}

#[test]
fn the_257th_early_record_pushes_the_first_out(rt: HostRuntime) {
    let talk = crowded(&rt, rt.alloc());
    assert!(rt; answers(&rt, rt.alloc(), keys(&rt), TWO_SITES, 1, &talk));
    drop(talk);
}
