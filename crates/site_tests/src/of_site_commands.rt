//! Worked rows as lines, through the loop of a shell.

use crate::collection_rows::{FORK_OF_THREE, GROWN_TOGETHER, ROOM_AGAIN};
use crate::exchange_rows::{CONSENTS, IN_ORDER, LYING_PEERS, NEWS, NO_ROOM, SETTLED, TWO_RECORDS};
use crate::floor_rows::{BESIDE, CEILINGS, COLLECTED_CHAIN, FOLLOWED, RAISED_CHAIN};
use crate::lines::Lines;
use crate::merge_rows::{
    APART, BRANCHED, CART, JOINED, MERGED_TWICE, NINE_LEAVES, ONE_STATE, PAST_MERGES,
};
use crate::of_exchange::{TWO_SITES, TWO_STATES};
use crate::of_limits::{ONE_PAIR, ONE_SESSION, THREE_STATES};
use crate::rows::{
    ANY_AFTER, AT_AFTER, BEHIND, COUNTED, FULL_SITE, LAST_COMMITS, LONG_PATH, NB_REFUSES, NO_STATE,
    RIPPLE, SECOND_SESSION, SER_FORKS, SI_PASSES, SKEWED,
};
use crate::sites::{LIMITS, an_input, an_output, keys};
use memory_io::{MemorySink, MemorySource};
use session_core::SiteCore;
use site_commands::shell;
use std::alloc::Global;
use std::hash::RandomState;
use std::process::Abort;
use tardis_base::Limits;
use tardis_io::Status;

/// How the shell of a site with these limits ends over these streams.
fn ends(
    rt: &impl Abort,
    alloc: Global,
    keys: RandomState,
    limits: Limits,
    source: &mut MemorySource,
    sink: &mut MemorySink,
) -> Status {
    assert!(rt; limits.valid());
    assert!(rt; 1 <= limits.sites);
    shell::<SiteCore, _, _>(alloc, keys, limits, 1, source, sink)
}

/// Whether the shell answers the lines so.
fn answers(
    rt: &impl Abort,
    alloc: Global,
    keys: RandomState,
    limits: Limits,
    lines: &Lines,
) -> bool {
    let room = u32::try_from(lines.told.len()).unwrap_or(u32::MAX);
    let mut source = an_input(rt, alloc, lines.asked.as_slice(), 4_096, &[]);
    let mut sink = an_output(rt, alloc, room, 4_096);
    let ended = ends(rt, alloc, keys, limits, &mut source, &mut sink);
    ended == Status::Ok && sink.bytes() == lines.told.as_slice()
}

/// Whether it answers the lines of the rows of these tables so.
fn are_answered(
    rt: &impl Abort,
    alloc: Global,
    keys: RandomState,
    limits: Limits,
    tables: &[&str],
) -> bool {
    let lines = Lines::of_rows(rt, alloc, tables);
    let are_so = answers(rt, alloc, keys, limits, &lines);
    drop(lines);
    are_so
}

/// Rows of transactions: tables that are asked one after another.
const TRANSACTIONS: [&[&str]; 9] = [
    &[RIPPLE],
    &[COUNTED],
    &[LAST_COMMITS],
    &[NO_STATE],
    &[SKEWED, SER_FORKS],
    &[SKEWED, SI_PASSES],
    &[SKEWED, NB_REFUSES],
    &[BEHIND, ANY_AFTER],
    &[BEHIND, AT_AFTER],
];

/// Rows of merges.
const MERGES: [&[&str]; 6] = [
    &[CART],
    &[PAST_MERGES],
    &[NINE_LEAVES],
    &[BRANCHED, MERGED_TWICE],
    &[BRANCHED, ONE_STATE],
    &[BRANCHED, JOINED, APART],
];

/// Rows of ceilings, floors and collection.
const FLOORS: [&[&str]; 6] = [
    &[CEILINGS],
    &[FOLLOWED],
    &[BESIDE],
    &[FORK_OF_THREE],
    &[RAISED_CHAIN, COLLECTED_CHAIN],
    &[BRANCHED, JOINED, GROWN_TOGETHER],
];

#[test]
fn a_shell_answers_transactions_in_lines(rt: HostRuntime) {
    let keys = keys(&rt);
    for (place, tables) in TRANSACTIONS.iter().enumerate() {
        assert!(rt;
            are_answered(&rt, rt.alloc(), keys, LIMITS, tables),
            "talk {place}"
        );
    }
}

#[test]
fn a_shell_answers_merges_in_lines(rt: HostRuntime) {
    let keys = keys(&rt);
    for (place, tables) in MERGES.iter().enumerate() {
        assert!(rt;
            are_answered(&rt, rt.alloc(), keys, LIMITS, tables),
            "talk {place}"
        );
    }
}

#[test]
fn a_shell_answers_floors_in_lines(rt: HostRuntime) {
    let keys = keys(&rt);
    for (place, tables) in FLOORS.iter().enumerate() {
        assert!(rt;
            are_answered(&rt, rt.alloc(), keys, LIMITS, tables),
            "talk {place}"
        );
    }
}

/// Limits, and tables of rows that are asked one after another of a site that has them.
const LIMITED: [(Limits, &[&str]); 8] = [
    (THREE_STATES, &[FULL_SITE]),
    (THREE_STATES, &[ROOM_AGAIN]),
    (ONE_SESSION, &[SECOND_SESSION]),
    (ONE_PAIR, &[LONG_PATH]),
    (TWO_SITES, &[TWO_RECORDS, IN_ORDER, CONSENTS]),
    (TWO_SITES, &[TWO_RECORDS, NEWS, LYING_PEERS]),
    (TWO_SITES, &[SETTLED]),
    (TWO_STATES, &[NO_ROOM]),
];

#[test]
fn a_shell_of_a_site_with_limits_does(rt: HostRuntime) {
    let keys = keys(&rt);
    for (place, (limits, tables)) in LIMITED.iter().enumerate() {
        assert!(rt;
            are_answered(&rt, rt.alloc(), keys, *limits, tables),
            "talk {place}"
        );
    }
}
