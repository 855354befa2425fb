//! Worked lines through the command.

use crate::auto_rows::{
    BOTH_BEGIN, BOTH_COMMIT, BOTH_GO_ON, CHANGED_SETS, FORK, LETTERS, MERGED, MERGED_TWICE,
    MORE_ARE_WIDE, MOST_ARE_MERGED, NO_AUTO_LINES, NO_SET_BEFORE, SETS, SHOP, SHOPPING,
};
use crate::lines::Lines;
use crate::sites::{LIMITS, an_input, an_output, keys};
use auto_run::auto;
use memory_io::{MemorySink, MemorySource};
use rule_list::{RuleList, read_rules};
use session_core::SiteCore;
use std::alloc::Global;
use std::hash::RandomState;
use std::process::Abort;
use tardis_io::Status;

/// The lines of these tables.
fn lines_of(rt: &impl Abort, alloc: Global, tables: &[&str]) -> Lines {
    let mut lines = Lines::new(alloc);
    for table in tables {
        lines.note_all(rt, table);
    }
    lines
}

/// Puts the lines behind the others in which both actors write each key of one byte from the first to the last.
fn write_both(rt: &impl Abort, lines: &mut Lines, first: u8, last: u8) {
    for key in first..=last {
        lines.note(
            rt,
            &[b'1', b' ', b'p', b'u', b't', b' ', key, b' ', b'1'],
            b"done",
        );
        lines.note(
            rt,
            &[b'2', b' ', b'p', b'u', b't', b' ', key, b' ', b'2'],
            b"done",
        );
    }
}

/// The rules that this text writes.
fn rules_of(rt: &impl Abort, alloc: Global, text: &str) -> RuleList {
    match read_rules(alloc, text) {
        Ok(rules) => rules,
        Err(_) => panic!(rt; "no rules"),
    }
}

/// How the command with these rules ends over these streams.
fn ends(
    alloc: Global,
    keys: RandomState,
    rules: RuleList,
    source: &mut MemorySource,
    sink: &mut MemorySink,
) -> Status {
    auto::<SiteCore, _, _>(alloc, keys, LIMITS, 1, rules, source, sink)
}

/// Whether the command with these rules answers the lines so.
fn answers(rt: &impl Abort, alloc: Global, keys: RandomState, rules: &str, lines: &Lines) -> bool {
    let rules = rules_of(rt, alloc, rules);
    let mut source = an_input(rt, alloc, lines.asked.as_slice(), 4_096, &[]);
    let mut sink = an_output(rt, alloc, 8_192, 65_536);
    let ended = ends(alloc, keys, rules, &mut source, &mut sink);
    ended == Status::Ok && sink.bytes() == lines.told.as_slice()
}

/// Whether it answers those of these tables so.
fn are_answered(
    rt: &impl Abort,
    alloc: Global,
    keys: RandomState,
    rules: &str,
    tables: &[&str],
) -> bool {
    let lines = lines_of(rt, alloc, tables);
    answers(rt, alloc, keys, rules, &lines)
}

/// Rules, and the tables of lines that are asked one after the other.
const TALKS: [(&str, [&str; 2]); 5] = [
    (LETTERS, [FORK, MERGED]),
    (LETTERS, [FORK, MERGED_TWICE]),
    (SETS, [CHANGED_SETS, NO_SET_BEFORE]),
    (SETS, [FORK, MERGED_TWICE]),
    (SHOP, [NO_AUTO_LINES, SHOPPING]),
];

#[test]
fn two_leaves_are_merged_by_rules(rt: HostRuntime) {
    let keys = keys(&rt);
    for (rules, tables) in TALKS {
        assert!(rt; are_answered(&rt, rt.alloc(), keys, rules, &tables));
    }
}

/// Two branches that wrote the same 64 keys.
fn wide(rt: &impl Abort, alloc: Global) -> Lines {
    let mut lines = lines_of(rt, alloc, &[BOTH_BEGIN]);
    write_both(rt, &mut lines, b'0', b'o');
    lines.note_all(rt, BOTH_COMMIT);
    lines
}

/// They are merged.
fn merged(rt: &impl Abort, alloc: Global) -> Lines {
    let mut lines = wide(rt, alloc);
    lines.note_all(rt, MOST_ARE_MERGED);
    lines
}

/// They write one key more, and aren't merged.
fn wider(rt: &impl Abort, alloc: Global) -> Lines {
    let mut lines = wide(rt, alloc);
    lines.note_all(rt, BOTH_GO_ON);
    write_both(rt, &mut lines, b'p', b'p');
    lines.note_all(rt, MORE_ARE_WIDE);
    lines
}

#[test]
fn at_most_64_keys_are_merged(rt: HostRuntime) {
    let keys = keys(&rt);
    let lines = merged(&rt, rt.alloc());
    assert!(rt; answers(&rt, rt.alloc(), keys, "=last", &lines));
    drop(lines);
    let lines = wider(&rt, rt.alloc());
    assert!(rt; answers(&rt, rt.alloc(), keys, "=last", &lines));
    drop(lines);
}
