//! Worked rows of sites with other limits, and the bounds of transactions, keys, values and chains.

use crate::rows::{
    BEGUN, FULL_SITE, LONG_PATH, LOOKING_BACK, ONE_OF_16, PAST_LIMITS, SECOND_SESSION, TALK,
};
use crate::sites::{LIMITS, answers, are_answered, keys};
use crate::talks::{Talk, copied, put};
use std::alloc::Global;
use std::process::Abort;
use tardis_base::Limits;

pub(crate) const THREE_STATES: Limits = Limits {
    max_kept: 3,
    ..LIMITS
};

pub(crate) const ONE_SESSION: Limits = Limits {
    max_sessions: 1,
    ..LIMITS
};

pub(crate) const ONE_PAIR: Limits = Limits {
    max_path: 1,
    ..LIMITS
};

pub(crate) const SIXTEEN_SITES: Limits = Limits {
    sites: 16,
    ..LIMITS
};

/// Limits, and the rows of a site that has them.
const ROWS: [(Limits, &str); 4] = [
    (LIMITS, TALK),
    (THREE_STATES, FULL_SITE),
    (ONE_SESSION, SECOND_SESSION),
    (ONE_PAIR, LONG_PATH),
];

#[test]
fn a_site_stays_within_its_limits(rt: HostRuntime) {
    let keys = keys(&rt);
    for (limits, table) in ROWS {
        assert!(rt; are_answered(&rt, rt.alloc(), keys, limits, 1, &[table]));
    }
}

#[test]
fn a_site_of_many_makes_states_of_its_own(rt: HostRuntime) {
    let keys = keys(&rt);
    assert!(rt; are_answered(&rt, rt.alloc(), keys, SIXTEEN_SITES, 3, &[ONE_OF_16]));
}

/// Reads each key of one byte, and writes 64 of them.
fn use_up(rt: &impl Abort, talk: &mut Talk) {
    for key in 0..=255u8 {
        talk.ask(rt, &[3, 1, key], &[6]);
    }
    for key in 0..64u8 {
        talk.ask(rt, &[4, 1, key, 0, 1, 0x31], &[7]);
    }
}

/// A transaction that reads and writes as much as it may, and then more.
fn used_up(rt: &impl Abort, alloc: Global) -> Talk {
    let mut talk = Talk::of(rt, alloc, &[BEGUN]);
    use_up(rt, &mut talk);
    talk.note_all(rt, PAST_LIMITS);
    talk
}

#[test]
fn a_transaction_has_at_most_64_writes_and_256_reads(rt: HostRuntime) {
    let talk = used_up(&rt, rt.alloc());
    assert!(rt; answers(&rt, rt.alloc(), keys(&rt), LIMITS, 1, &talk));
    drop(talk);
}

/// Puts so many of a byte behind these.
fn put_many(rt: &impl Abort, alloc: Global, bytes: &mut Vec<u8>, byte: u8, count: usize) {
    let many = vec![in alloc; byte; count].expect(rt, "room");
    put(rt, bytes, many.as_slice());
}

/// These bytes, and then a key of so many bytes.
fn with_key(rt: &impl Abort, alloc: Global, bytes: &[u8], length: u8) -> Vec<u8> {
    let mut spelled = copied(rt, alloc, bytes);
    put(rt, &mut spelled, &[length]);
    put_many(rt, alloc, &mut spelled, 0x6b, usize::from(length));
    spelled
}

/// These bytes, and then a value of so many bytes.
fn with_value(rt: &impl Abort, alloc: Global, bytes: &[u8], length: u16) -> Vec<u8> {
    let mut spelled = copied(rt, alloc, bytes);
    put(rt, &mut spelled, &length.to_be_bytes());
    put_many(rt, alloc, &mut spelled, 0x76, usize::from(length));
    spelled
}

/// A Put of a key and a value of so many bytes, and what it is answered.
fn note_put(rt: &impl Abort, alloc: Global, talk: &mut Talk, key: u8, value: u16, told: &[u8]) {
    let spelled = with_key(rt, alloc, &[4], key);
    let asked = with_value(rt, alloc, spelled.as_slice(), value);
    talk.ask(rt, asked.as_slice(), told);
}

/// A Get of a key of so many bytes, answered by a value of so many that the transaction wrote.
fn note_get(rt: &impl Abort, alloc: Global, talk: &mut Talk, key: u8, value: u16) {
    let asked = with_key(rt, alloc, &[3], key);
    let told = with_value(rt, alloc, &[4, 0, 0, 0, 0, 0, 0], value);
    talk.ask(rt, asked.as_slice(), told.as_slice());
}

/// Puts of the longest key and value and of the shortest, of others that are too long or too short, and a Get.
fn stretched(rt: &impl Abort, alloc: Global) -> Talk {
    let mut talk = Talk::of(rt, alloc, &[BEGUN]);
    for (key, value) in [(128, 4_096), (1, 0)] {
        note_put(rt, alloc, &mut talk, key, value, &[7]);
    }
    for (key, value) in [(129, 1), (0, 1), (1, 4_097)] {
        note_put(rt, alloc, &mut talk, key, value, &[0x15, 1]);
    }
    note_get(rt, alloc, &mut talk, 128, 4_096);
    talk
}

#[test]
fn keys_and_values_have_their_lengths(rt: HostRuntime) {
    let talk = stretched(&rt, rt.alloc());
    assert!(rt; answers(&rt, rt.alloc(), keys(&rt), LIMITS, 1, &talk));
    drop(talk);
}

/// The bytes of the id of the state behind so many commits of site 1.
pub(crate) fn id_behind(commits: u8) -> [u8; 6] {
    [0, commits.min(1), 0, 0, 0, commits]
}

/// Puts a number, in decimal digits, to `k`.
fn note_number(rt: &impl Abort, alloc: Global, talk: &mut Talk, number: u8) {
    let digits = format!(in alloc; "{number}").expect(rt, "room");
    let length = u8::try_from(digits.len()).unwrap_or(0);
    let mut asked = copied(rt, alloc, &[4, 1, 0x6b, 0, length]);
    put(rt, &mut asked, digits.as_bytes());
    talk.ask(rt, asked.as_slice(), &[7]);
}

/// Makes the commit of this number, with the number as the value of `k`.
fn note_commit(rt: &impl Abort, alloc: Global, talk: &mut Talk, n: u8) {
    let [a, b, c, d, e, f] = id_behind(n.saturating_sub(1));
    talk.ask(rt, &[2, 0], &[2, a, b, c, d, e, f]);
    note_number(rt, alloc, talk, n);
    talk.ask(
        rt,
        &[6, 1, 0, 0],
        &[8, 0, 1, 0, 0, 0, n, 1, a, b, c, d, e, f],
    );
}

/// A session that commits 200 times, and looks back at what its states hold.
pub(crate) fn chained(rt: &impl Abort, alloc: Global) -> Talk {
    let mut talk = Talk::new(alloc);
    talk.ask(rt, &[1, 0], &[1, 0, 0, 0, 0, 0, 0]);
    for n in 1..=200u8 {
        note_commit(rt, alloc, &mut talk, n);
    }
    talk.note_all(rt, LOOKING_BACK);
    talk
}

#[test]
fn each_of_200_states_keeps_its_value(rt: HostRuntime) {
    let talk = chained(&rt, rt.alloc());
    assert!(rt; answers(&rt, rt.alloc(), keys(&rt), LIMITS, 1, &talk));
    drop(talk);
}
