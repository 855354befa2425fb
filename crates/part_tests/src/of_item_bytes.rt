//! What no clause says: that memory suffices, and a few spellings from outside.

use crate::letters::letter;
use item_bytes::{read_batch, read_item, read_record};
use std::alloc::Global;
use std::process::Abort;

/// State 2.1 below the root, which puts 1 to the key a.
const RECORD: [u8; 20] = [0, 2, 0, 0, 0, 1, 1, 0, 0, 0, 0, 0, 0, 1, 1, 97, 1, 0, 1, 49];

/// No records, and the consents 1 of site 1 and of site 2.
const BATCH: [u8; 35] = [
    0, 0, 2, 0, 1, 0, 0, 0, 1, 0, 2, 0, 0, 0, 3, 0, 0, 0, 0, 0, 2, 0, 0, 0, 1, 0, 2, 0, 0, 0, 3, 0,
    0, 0, 3,
];

/// Consent 1 of site 2, as an item.
const ITEM: [u8; 17] = [2, 0, 2, 0, 0, 0, 1, 0, 2, 0, 0, 0, 3, 0, 0, 0, 3];

/// Bytes that spell no record.
const OTHERS: [&[u8]; 10] = [
    // nothing
    &[],
    // the root
    &[0, 0, 0, 0, 0, 0, 1, 0, 0, 0, 0, 0, 0, 0],
    // no parents
    &[0, 1, 0, 0, 0, 1, 0, 0],
    // a site without a sequence
    &[0, 1, 0, 0, 0, 0, 1, 0, 0, 0, 0, 0, 0, 0],
    // parents in descending order
    &[0, 1, 0, 0, 0, 2, 2, 0, 1, 0, 0, 0, 1, 0, 0, 0, 0, 0, 0, 0],
    // keys in descending order
    &[0, 1, 0, 0, 0, 1, 1, 0, 0, 0, 0, 0, 0, 2, 1, 98, 0, 1, 97, 0],
    // one key twice
    &[0, 1, 0, 0, 0, 1, 1, 0, 0, 0, 0, 0, 0, 2, 1, 97, 0, 1, 97, 0],
    // a write of kind 2
    &[0, 1, 0, 0, 0, 1, 1, 0, 0, 0, 0, 0, 0, 1, 1, 97, 2],
    // a byte too few, and one too many
    &[0, 1, 0, 0, 0, 1, 1, 0, 0, 0, 0, 0, 0],
    &[0, 1, 0, 0, 0, 1, 1, 0, 0, 0, 0, 0, 0, 0, 0],
];

/// The letter of a record.
fn record(alloc: Global, bytes: &[u8]) -> u8 {
    letter(read_record(alloc, bytes))
}

/// The letter of an item.
fn item(alloc: Global, bytes: &[u8]) -> u8 {
    letter(read_item(alloc, bytes))
}

/// The letter of a batch.
fn batch(alloc: Global, bytes: &[u8]) -> u8 {
    letter(read_batch(alloc, bytes))
}

fn check_others(rt: &impl Abort, alloc: Global) {
    for bytes in &OTHERS {
        assert!(rt; record(alloc, bytes) == b'm');
    }
}

#[test]
fn things_are_read(rt: HostRuntime) {
    let alloc = rt.alloc();
    assert!(rt; record(alloc, &RECORD) == b'r');
    assert!(rt; item(alloc, &ITEM) == b'r');
    assert!(rt; batch(alloc, &BATCH) == b'r');
    check_others(&rt, alloc);
}
