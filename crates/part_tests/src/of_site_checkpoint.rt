//! A checkpoint in memory takes parts that fit, and ends with floors that do: what no clause says, that memory suffices.

use item_bytes::read_record;
use site_checkpoint::{Checkpoint, ToldFloor};
use std::alloc::Global;
use std::hash::RandomState;
use std::process::Abort;
use tardis_base::{Limits, StateId};

const LIMITS: Limits = Limits {
    sites: 3,
    max_kept: 8,
    max_path: 8,
    max_sessions: 1,
    max_trail: 0,
};

/// State 2.1 below the root, which puts 1 to the key a.
const FORK: [u8; 20] = [0, 2, 0, 0, 0, 1, 1, 0, 0, 0, 0, 0, 0, 1, 1, 97, 1, 0, 1, 49];

/// State 1.1 below the root, which deletes the key a.
const BESIDE: [u8; 17] = [0, 1, 0, 0, 0, 1, 1, 0, 0, 0, 0, 0, 0, 1, 1, 97, 0];

/// State 3.1 below 1.3 and 2.1, which deletes the key a.
const MERGE: [u8; 23] = [
    0, 3, 0, 0, 0, 1, 2, 0, 1, 0, 0, 0, 3, 0, 2, 0, 0, 0, 1, 1, 1, 97, 0,
];

/// State 3.1 below 1.3 and 2.1, which writes nothing.
const OPEN: [u8; 20] = [0, 3, 0, 0, 0, 1, 2, 0, 1, 0, 0, 0, 3, 0, 2, 0, 0, 0, 1, 0];

/// The floor at the merge.
const AT_MERGE: ToldFloor = ToldFloor {
    state: StateId {
        site: 3,
        sequence: 1,
    },
    number: 1,
    stated: 1,
};

/// The floor at 1.3, which is gone.
const AT_GONE: ToldFloor = ToldFloor {
    state: StateId {
        site: 1,
        sequence: 3,
    },
    number: 1,
    stated: 1,
};

/// The floor at the root, of which 1.3 is no proper ancestor.
const AT_ROOT: ToldFloor = ToldFloor {
    state: StateId {
        site: 0,
        sequence: 0,
    },
    number: 0,
    stated: 0,
};

/// The floor at the merge, with two states stated.
const OVERSTATED: ToldFloor = ToldFloor {
    state: StateId {
        site: 3,
        sequence: 1,
    },
    number: 1,
    stated: 2,
};

/// Floors of three sites, of which the first made three states and the others one each, and whether they fit.
const ENDS: [(&[ToldFloor], bool); 6] = [
    (&[AT_MERGE, AT_MERGE, AT_MERGE], true),
    (&[OVERSTATED, AT_MERGE, AT_MERGE], true),
    (&[AT_MERGE, AT_MERGE, OVERSTATED], false),
    (&[AT_MERGE, AT_GONE, AT_MERGE], false),
    (&[AT_MERGE, AT_ROOT, AT_MERGE], false),
    (&[AT_MERGE, AT_MERGE], false),
];

/// Whether the state of the record that the bytes spell is taken.
fn takes_state(rt: &impl Abort, alloc: Global, checkpoint: &mut Checkpoint, bytes: &[u8]) -> bool {
    match read_record(alloc, bytes) {
        Ok(rec) => checkpoint.take_state(rec).expect(rt, "room"),
        Err(_) => false,
    }
}

fn gone(checkpoint: &mut Checkpoint, site: u16, sequence: u32) -> bool {
    checkpoint.take_gone(StateId { site, sequence })
}

/// Whether floors at the state that arrived last, and at the root's stand-in, close all that is collected.
fn closed(checkpoint: &Checkpoint) -> (bool, bool) {
    let last = [checkpoint.store().dag().last()];
    let first = [checkpoint.root()];
    (checkpoint.has_closed(&last), checkpoint.has_closed(&first))
}

fn tell_fork(rt: &impl Abort, alloc: Global, checkpoint: &mut Checkpoint) {
    assert!(rt; takes_state(rt, alloc, checkpoint, &FORK));
    assert!(rt; takes_state(rt, alloc, checkpoint, &BESIDE));
    assert!(rt; !takes_state(rt, alloc, checkpoint, &BESIDE));
    assert!(rt; checkpoint.take_line(1, 2).expect(rt, "room"));
    assert!(rt; !checkpoint.take_line(4, 2).expect(rt, "room"));
    assert!(rt; !takes_state(rt, alloc, checkpoint, &OPEN));
    assert!(rt; takes_state(rt, alloc, checkpoint, &MERGE));
}

fn tell_gone(rt: &impl Abort, checkpoint: &mut Checkpoint) {
    assert!(rt; !gone(checkpoint, 0, 0));
    assert!(rt; gone(checkpoint, 1, 3));
    assert!(rt; gone(checkpoint, 2, 1));
    assert!(rt; closed(checkpoint) == (true, false));
}

fn tell_root_gone(rt: &impl Abort, checkpoint: &mut Checkpoint) {
    assert!(rt; gone(checkpoint, 0, 0));
    assert!(rt; !gone(checkpoint, 0, 0));
    assert!(rt; closed(checkpoint) == (true, true));
    assert!(rt; checkpoint.root() == checkpoint.store().dag().last());
    assert!(rt; checkpoint.store().dag().kept() == 1);
}

fn told(rt: &impl Abort, alloc: Global, keys: RandomState) -> Checkpoint {
    let mut checkpoint = Checkpoint::new(alloc, keys, &LIMITS).expect(rt, "room");
    tell_fork(rt, alloc, &mut checkpoint);
    tell_gone(rt, &mut checkpoint);
    checkpoint
}

/// Whether the checkpoint tells site 1 with these floors.
fn ends(rt: &impl Abort, checkpoint: Checkpoint, floors: &[ToldFloor]) -> bool {
    assert!(rt; 1 <= checkpoint.store().dag().limits().sites);
    checkpoint.end(1, floors).expect(rt, "room").is_some()
}

#[test]
fn a_fork_is_told(rt: HostRuntime) {
    let alloc = rt.alloc();
    let keys = RandomState::new(&rt).expect(&rt, "random bytes");
    let mut checkpoint = told(&rt, alloc, keys);
    tell_root_gone(&rt, &mut checkpoint);
    drop(checkpoint);
}

#[test]
fn floors_end_it(rt: HostRuntime) {
    let alloc = rt.alloc();
    for (floors, fits) in &ENDS {
        let keys = RandomState::new(&rt).expect(&rt, "random bytes");
        let told = told(&rt, alloc, keys);
        assert!(rt; ends(&rt, told, floors) == *fits);
    }
}
