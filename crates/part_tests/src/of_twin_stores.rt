//! That a row of states leaves what the same states leave that come and go one by one; and what tells two stores apart.

use record_store::RecordStore;
use std::alloc::Global;
use std::hash::RandomState;
use std::process::Abort;
use tardis_base::{Key, Limits, StateId, Write, WriteSet};
use twin_stores::are_twins;

const LIMITS: Limits = Limits {
    sites: 1,
    max_kept: 8,
    max_path: 8,
    max_sessions: 1,
    max_trail: 0,
};

fn opened(rt: &impl Abort, alloc: Global, keys: RandomState) -> RecordStore {
    RecordStore::new(alloc, keys, &LIMITS).expect(rt, "room")
}

/// That this key is deleted; or nothing, where it is empty.
fn deleted(rt: &impl Abort, alloc: Global, key: &[u8]) -> WriteSet {
    let mut writes = WriteSet::new(alloc);
    if let Ok(key) = Key::new(alloc, key) {
        writes.insert(key, Write::Delete).expect(rt, "room");
    }
    writes
}

/// Adds the next state of site 1 below the one that arrived last.
fn lengthen(rt: &impl Abort, store: &mut RecordStore, writes: &WriteSet) {
    assert!(rt; 1 <= store.dag().limits().sites);
    let sequence = store.dag().count(1).checked_add(1).expect(rt, "a number");
    let parent = store.dag().last();
    let id = StateId { site: 1, sequence };
    store.add_state(id, &[parent], writes).expect(rt, "room");
}

/// Collects the kept state that arrived first, if all its children stand in one.
fn collect_first(store: &mut RecordStore) {
    let Some(slot) = store.dag().kept_after(None) else {
        return;
    };
    if store.dag().shared_stand_in(slot).is_some() {
        store.collect(slot);
    }
}

/// Five states that write nothing come one by one, and go but for the last.
fn come_and_go(rt: &impl Abort, alloc: Global, store: &mut RecordStore) {
    for _ in 0..5u8 {
        lengthen(rt, store, &WriteSet::new(alloc));
        collect_first(store);
    }
}

#[test]
fn a_row_leaves_what_its_states_leave(rt: HostRuntime) {
    let alloc = rt.alloc();
    let keys = RandomState::new(&rt).expect(&rt, "random bytes");
    let mut one = opened(&rt, alloc, keys);
    let mut other = opened(&rt, alloc, keys);
    come_and_go(&rt, alloc, &mut one);
    other.advance(1, 4).expect(&rt, "room");
    assert!(rt; !are_twins(&one, &other));
    other.advance(1, 1).expect(&rt, "room");
    assert!(rt; are_twins(&one, &other));
    lengthen(&rt, &mut one, &deleted(&rt, alloc, b"k"));
    lengthen(&rt, &mut other, &deleted(&rt, alloc, b""));
    assert!(rt; !are_twins(&one, &other));
    drop(one);
    drop(other);
}
