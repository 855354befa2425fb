//! The texts of faults, which no clause says.

use begin_rule::{BeginFault, MergeFault};
use ceiling_book::{CeilingBack, OpenFault, RaiseFault};
use end_rule::Branches;
use merge_txn::TxnFault;
use state_dag::RowFault;
use std::alloc::Global;
use std::fmt::Display;
use std::process::Abort;
use tardis_base::{AddFault, BytesFault, EndFlags, Excess, NoMemory, ReadFault, StateId};

const FIRST: StateId = StateId {
    site: 1,
    sequence: 1,
};

const SECOND: StateId = StateId {
    site: 1,
    sequence: 2,
};

/// Whether the fault says this.
fn says(rt: &impl Abort, alloc: Global, fault: &impl Display, text: &str) -> bool {
    format!(in alloc; "{fault}").expect(rt, "room").as_str() == text
}

/// Why a transaction or a merge doesn't begin.
fn check_begins(rt: &impl Abort, alloc: Global) {
    let unknown = BeginFault::Unknown { state: FIRST };
    assert!(rt; says(rt, alloc, &unknown, "the state 1.1 has not arrived here"));
    let below = MergeFault::Below {
        state: StateId::ROOT,
        ceiling: FIRST,
    };
    let text =
        "the state 0.0 is above the session's ceiling 1.1: begin at the ceiling, or at a state that is not above it";
    assert!(rt; says(rt, alloc, &below, text));
    let comparable = MergeFault::Comparable {
        a: StateId::ROOT,
        b: SECOND,
    };
    let text = "of the states 0.0 and 1.2 one is at or above the other: merge without one of them";
    assert!(rt; says(rt, alloc, &comparable, text));
}

/// Why a session doesn't open, and why its ceiling or the floor doesn't move.
fn check_floors(rt: &impl Abort, alloc: Global) {
    let full = OpenFault::SessionsFull { n: 3 };
    assert!(rt;
        says(
            rt,
            alloc,
            &full,
            "3 sessions are open, as many as may be: close one"
        )
    );
    let back = CeilingBack { ceiling: FIRST };
    let text = "the session's ceiling 1.1 is not at or above the state: ceilings only go down";
    assert!(rt; says(rt, alloc, &back, text));
    let held = RaiseFault::Held {
        session: 3,
        ceiling: FIRST,
    };
    let text =
        "session 3 has its ceiling 1.1 above or beside the state: move its ceiling, or close it";
    assert!(rt; says(rt, alloc, &held, text));
}

/// Why a transaction takes no more, or doesn't end.
fn check_ends(rt: &impl Abort, alloc: Global) {
    let many = TxnFault::TooMany {
        what: Excess::WrittenKeys,
        n: 65,
    };
    let text = "the transaction would write 65 keys, one more than it may";
    assert!(rt; says(rt, alloc, &many, text));
    let branches = Branches {
        constraint: EndFlags::NB.0,
        state: FIRST,
        children: 2,
    };
    let text = "state 1.1 has 2 children, too many for the end constraint NB";
    assert!(rt; says(rt, alloc, &branches, text));
}

/// Why a row of states doesn't arrive.
fn check_rows(rt: &impl Abort, alloc: Global) {
    let text = "there is no site of that number: they are numbered from 1 to the limit";
    assert!(rt; says(rt, alloc, &RowFault::BadSite, text));
    assert!(rt; says(rt, alloc, &RowFault::Empty, "there is no state in the row"));
    let text = "the row would go on past the site's last sequence number";
    assert!(rt; says(rt, alloc, &RowFault::SeqEnd, text));
}

/// That memory is wanting, which each fault that may be it says alike.
fn check_memory(rt: &impl Abort, alloc: Global) {
    let text = "out of memory";
    assert!(rt; says(rt, alloc, &NoMemory, text));
    assert!(rt; says(rt, alloc, &BytesFault::NoMemory, text));
    assert!(rt; says(rt, alloc, &ReadFault::NoMemory, text));
    assert!(rt; says(rt, alloc, &AddFault::NoMemory, text));
    assert!(rt; says(rt, alloc, &MergeFault::NoMemory, text));
    assert!(rt; says(rt, alloc, &OpenFault::NoMemory, text));
    assert!(rt; says(rt, alloc, &TxnFault::NoMemory, text));
    assert!(rt; says(rt, alloc, &RowFault::NoMemory, text));
}

#[test]
fn faults_say_what_to_do(rt: HostRuntime) {
    check_begins(&rt, rt.alloc());
    check_floors(&rt, rt.alloc());
    check_ends(&rt, rt.alloc());
    check_rows(&rt, rt.alloc());
    check_memory(&rt, rt.alloc());
}
