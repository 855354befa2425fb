//! That a log of groups is read back up to its end, and that a torn end, a changed byte, a group of another log and a front that
//! is none are told apart.

use log_groups::{
    Ending, FirstItem, LogFront, NextGroup, put_front, put_group, read_front, read_group,
};
use log_text::read_entry;
use std::alloc::Global;
use std::process::Abort;

const LIFE: [u8; 16] = [0, 1, 2, 3, 4, 5, 6, 7, 8, 9, 10, 11, 12, 13, 14, 15];

const OTHER_LIFE: [u8; 16] = [9; 16];

const FRONT: LogFront = LogFront {
    sites: 3,
    own: 2,
    max_kept: 64,
    max_path: 32,
    max_sessions: 8,
    life: LIFE,
};

/// The front, and the groups of `abc` and of nothing, as Python's `struct` and `hashlib` make them.
const ITEMS: [&[u8]; 3] = [
    b"tardislg\x00\x01\x00\x03\x00\x02\x00\x00\x00@\x00\x00\x00 \x00\x08\x00\x01\x02\x03\x04\x05\x06\x07\x08\x09\x0a\x0b\x0c\x0d\x0e\x0f\xab\x77\x81\x81\xdb\x1f\xae\xd0",
    b"\x00\x00\x00\x00\x00\x00\x00\x00\x3d\x1a\x1d\x1c\xa6\xa5\xfc\x43abc",
    b"\x00\x00\x00\x00\x00\x00\x00\x01\x11\x2a\xc2\x80\xcd\xa0\x1f\x4c",
];

/// A log of these two groups, of which the second is of this life, and 40 zeros. Its entries have 49, 20 and 17 bytes.
fn two_groups(rt: &impl Abort, alloc: Global, second_life: &[u8; 16]) -> Vec<u8> {
    let mut log = Vec::new(alloc);
    put_front(&mut log, &FRONT, alloc).expect(rt, "room");
    put_group(&mut log, &LIFE, 0, b"abc").expect(rt, "room");
    put_group(&mut log, second_life, 1, b"").expect(rt, "room");
    log.extend_from_slice(&[0; 40]).expect(rt, "room");
    log
}

/// How a log ends: a letter, how many groups it has, and where the end is.
type Found = (u8, u64, usize);

fn letter(ending: Ending) -> u8 {
    match ending {
        Ending::Whole => b'w',
        Ending::Torn => b't',
        Ending::Damaged => b'd',
    }
}

/// How the groups end that begin at this place.
fn groups_from(
    rt: &impl Abort,
    alloc: Global,
    bytes: &[u8],
    start: usize,
    life: &[u8; 16],
) -> Found {
    let mut item = Vec::new(alloc);
    let mut found = (b'?', 0, start);
    for number in 0..3 {
        let rest = bytes.get(found.2..).expect(rt, "a place");
        match read_group(rest, life, number, &mut item).expect(rt, "room") {
            NextGroup::Group(size) => found = (b'?', number + 1, found.2.saturating_add(size)),
            NextGroup::End(ending) => return (letter(ending), found.1, found.2),
        }
    }
    found
}

fn log_end(rt: &impl Abort, alloc: Global, bytes: &[u8]) -> Found {
    let mut item = Vec::new(alloc);
    match read_front(bytes, &mut item, alloc).expect(rt, "room") {
        FirstItem::Front(front, size) => groups_from(rt, alloc, bytes, size, &front.life),
        FirstItem::NotALog => (b'n', 0, 0),
        FirstItem::OtherVersion(_) => (b'v', 0, 0),
        FirstItem::BadFront => (b'b', 0, 0),
    }
}

/// A place, the byte that comes to stand there, and how the log ends then.
const CHANGES: [(usize, u8, Found); 9] = [
    // nothing is changed
    (125, 0, (b'w', 2, 86)),
    // bytes of an entry that isn't whole: the third, and the second
    (90, 7, (b't', 2, 86)),
    (80, 0, (b't', 1, 69)),
    // a byte of the first body, and one that is gone
    (65, 120, (b'd', 0, 49)),
    (65, 0, (b'd', 0, 49)),
    // a byte of the second check
    (80, 1, (b'd', 1, 69)),
    // the name, the version, and how many sites there are
    (0, 120, (b'n', 0, 0)),
    (9, 2, (b'v', 0, 0)),
    (11, 4, (b'b', 0, 0)),
];

#[test]
fn a_log_is_read_up_to_its_end(rt: HostRuntime) {
    let alloc = rt.alloc();
    let log = two_groups(&rt, alloc, &LIFE);
    let mut item = Vec::new(alloc);
    let mut rest = log.as_slice();
    for wanted in ITEMS {
        let size = read_entry(rest, &mut item)
            .expect(&rt, "room")
            .expect(&rt, "an entry");
        assert!(rt; item.as_slice() == wanted);
        rest = &rest[size..];
    }
    for (place, byte, wanted) in CHANGES {
        let mut changed = two_groups(&rt, alloc, &LIFE);
        *changed.as_mut_slice().get_mut(place).expect(&rt, "a byte") = byte;
        assert!(rt; log_end(&rt, alloc, changed.as_slice()) == wanted);
    }
    let mixed = two_groups(&rt, alloc, &OTHER_LIFE);
    assert!(rt; log_end(&rt, alloc, mixed.as_slice()) == (b'd', 1, 69));
}
