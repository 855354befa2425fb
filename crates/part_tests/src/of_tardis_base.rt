//! What no clause says: that each call which takes memory gets it, and a few rows from outside.

use std::alloc::Global;
use std::process::Abort;
use tardis_base::*;

fn key(rt: &impl Abort, alloc: Global, bytes: &[u8]) -> Key {
    Key::new(alloc, bytes).expect(rt, "a key")
}

fn value(rt: &impl Abort, alloc: Global, bytes: &[u8]) -> Value {
    Value::new(alloc, bytes).expect(rt, "a value")
}

/// Puts these bytes, or deletes where there are none.
fn write(rt: &impl Abort, alloc: Global, bytes: Option<&[u8]>) -> Write {
    match bytes {
        Some(bytes) => Write::Put(value(rt, alloc, bytes)),
        None => Write::Delete,
    }
}

/// Writes this to the key.
fn add(rt: &impl Abort, writes: &mut WriteSet, key: Key, write: Write) {
    writes.insert(key, write).expect(rt, "room");
}

/// The writes a=1, ab deleted and b=2.
fn three_writes(rt: &impl Abort, alloc: Global) -> WriteSet {
    let mut writes = WriteSet::new(alloc);
    for (bytes, value) in [
        (b"b".as_slice(), Some(b"0".as_slice())),
        (b"a", Some(b"1")),
        (b"ab", None),
        (b"b", Some(b"2")),
    ] {
        let write = write(rt, alloc, value);
        add(rt, &mut writes, key(rt, alloc, bytes), write);
    }
    writes
}

/// A state below the root, with three writes.
fn item(rt: &impl Abort, alloc: Global) -> Item {
    let parents = Vec::from_slice(alloc, &[StateId::ROOT]).expect(rt, "room");
    Item::State(Record {
        id: StateId {
            site: 1,
            sequence: 1,
        },
        parents: ListOf::from_vec(parents),
        writes: three_writes(rt, alloc),
    })
}

fn copied(rt: &impl Abort, item: &Item) -> Item {
    item.copy().expect(rt, "room")
}

#[test]
fn an_item_is_copied(rt: HostRuntime) {
    let item = item(&rt, rt.alloc());
    let copy = copied(&rt, &item);
    assert!(rt; copy == item);
    drop(copy);
    drop(item);
}

#[test]
fn faults_say_what_is_wrong(rt: HostRuntime) {
    let state = StateId {
        site: 2,
        sequence: 15,
    };
    let fault = AddFault::PathFull { state, pairs: 9 };
    let text = format!(in rt.alloc(); "{fault}").expect(&rt, "room");
    assert!(rt; text.as_str() == "the fork path of state 2.15 would have 9 pairs, too many");
    drop(text);
}

/// Every size, as `docs/FORMATS.md` and `docs/MODEL.md` tell it. The definitions take these constants from the code, so that no
/// proof would be refused by another number.
#[test]
fn sizes_are_as_they_are_told(rt: HostRuntime) {
    for (size, told) in [
        (MAX_KEY as u64, 128),
        (MAX_VALUE as u64, 4_096),
        (MAX_WRITES as u64, 64),
        (MAX_READS as u64, 256),
        (MAX_PARENTS as u64, 8),
        (MAX_FRAME as u64, 1_048_576),
        (MAX_FRAMED as u64, 1_048_580),
        (MAX_REQUEST as u64, 1_048_574),
        (PIECE as u64, 65_536),
        (MAX_NEWS as u64, 786_432),
        (MAX_NAMED as u64, 256),
        (MAX_WAITING as u64, 256),
        (u64::from(MAX_SITES), 16),
        (u64::from(MAX_KEPT), 65_000),
        (u64::from(USUAL_KEPT), 16_384),
        (u64::from(MAX_PATH), 65_000),
        (u64::from(USUAL_PATH), 4_096),
        (u64::from(MAX_SESSIONS), 4_096),
        (u64::from(USUAL_SESSIONS), 256),
        (MAX_TRAIL, 1_073_741_824),
    ] {
        assert_eq!(rt; size, told);
    }
}
