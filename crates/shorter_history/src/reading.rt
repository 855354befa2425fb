//! What is read of a log's things for a shorter history: which states arrived, below which, and what those with several parents write.

use crate::past::Past;
use item_bytes::Reader;
use site_lives::thing_codes::{COLLECTION, END, GONE, LIFE, LINE, PROMISE, ROW, STATE, TOLD};
use std::alloc::Global;
use tardis_base::{MAX_PARENTS, NoMemory, StateId};

/// How many bytes a life has.
const LIFE_BYTES: usize = 16;

/// What is read of one record.
#[derive(Drop)]
struct Arrival {
    parents: Vec<usize>,
    keys: Vec<u8>,
}

/// Notes the states that arrive by these things, one behind another.
pub(crate) fn note_all(alloc: Global, past: &mut Past, bytes: &[u8]) -> Result<(), NoMemory> {
    let mut reader = Reader::new(bytes);
    let mut arrival = Arrival {
        parents: Vec::new(alloc),
        keys: Vec::new(alloc),
    };
    for _thing in 0..bytes.len() {
        if reader.is_done() || past.is_lost() {
            return Ok(());
        }
        match note_thing(past, &mut reader, &mut arrival) {
            Some(noted) => noted?,
            None => past.lose(),
        }
    }
    Ok(())
}

/// Notes the thing at the front of the bytes.
fn note_thing(
    past: &mut Past,
    reader: &mut Reader<'_>,
    arrival: &mut Arrival,
) -> Option<Result<(), NoMemory>> {
    match reader.u8()? {
        STATE | TOLD => note_record(past, reader, arrival),
        PROMISE => {
            let _ = reader.bytes(16)?;
            Some(Ok(()))
        },
        COLLECTION => {
            let _ = reader.u32()?;
            Some(Ok(()))
        },
        LIFE => {
            let _ = reader.bytes(2 + LIFE_BYTES)?;
            Some(Ok(()))
        },
        ROW => {
            let site = reader.u16()?;
            let count = reader.u32()?;
            Some(past.arrive_in_row(site, count))
        },
        LINE => {
            let site = reader.u16()?;
            let count = reader.u32()?;
            Some(past.arrive_in_line(site, count))
        },
        GONE => {
            let _ = reader.id()?;
            Some(Ok(()))
        },
        END => {
            let floors = reader.u8()?;
            let _ = reader.bytes(usize::from(floors) * 14)?;
            Some(Ok(()))
        },
        _ => None,
    }
}

/// Notes a state and its parents, and of one with several parents the keys that it writes.
fn note_record(
    past: &mut Past,
    reader: &mut Reader<'_>,
    arrival: &mut Arrival,
) -> Option<Result<(), NoMemory>> {
    let id = reader.id()?;
    arrival.parents.clear();
    arrival.keys.clear();
    let parents = usize::from(reader.u8()?);
    for _parent in 0..parents.min(MAX_PARENTS) {
        let parent = past.node_of(reader.id()?)?;
        if arrival.parents.push(parent).is_err() {
            return Some(Err(NoMemory));
        }
    }
    let writes = usize::from(reader.u8()?);
    for _write in 0..writes {
        let key = read_write(reader)?;
        if parents > 1 && put_key(key, &mut arrival.keys).is_err() {
            return Some(Err(NoMemory));
        }
    }
    Some(past.arrive(id, arrival.parents.as_slice(), arrival.keys.as_slice()))
}

/// Puts the key behind these, behind its length.
fn put_key(key: &[u8], keys: &mut Vec<u8>) -> Result<(), NoMemory> {
    keys.push(u8::try_from(key.len()).unwrap_or(u8::MAX))?;
    keys.extend_from_slice(key)?;
    Ok(())
}

/// The key of what is written; the value is passed.
fn read_write<'a>(reader: &mut Reader<'a>) -> Option<&'a [u8]> {
    let key = reader.key()?;
    if reader.u8()? == 1 {
        let _ = reader.value()?;
    }
    Some(key)
}
