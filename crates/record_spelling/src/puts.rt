//! Numbers, ids, keys and values behind the bytes of a row that has room for them.

ghost use Rattle.std.specs.Prelude.{◌≡◌, ◌+◌, ◌≤◌, ◌<◌, ◌*◌, ◌++◌, length, flat_map, vec_len, vec_capacity};
ghost use Rattle.wire_item.specs.Spellings.{u8_spelling, u16_spelling, u32_spelling, id_spelling, key_spelling, value_spelling, consent_spelling};
ghost use Rattle.wire_item.specs.Spellings.{parents_spelling};
ghost use Rattle.record_store.specs.Answers.{write_found};
ghost use Rattle.version_list.specs.Reads.{found};
ghost use Rattle.record_spelling.specs.Newest.{read_spelling};

use tardis_base::{Consent, Found, Key, StateId, Value};

/// Puts the bytes behind the others, as a whole.
fn put(log: &mut Vec<u8>, bytes: &[u8])
    requires { vec_len log.old + length bytes.now ≤ vec_capacity log.old }
    ensures items { log.new.items ≡ log.old.items ++ bytes.now }
    ensures len { vec_len log.new ≡ vec_len log.old + length bytes.now }
    ensures capacity { vec_capacity log.old ≤ vec_capacity log.new }
{
    match log.extend_from_slice(bytes) {
        Ok(()) => {},
        Err(_) => unreachable!(),
    }
}

pub fn put_u8(number: u8, log: &mut Vec<u8>)
    requires { vec_len log.old < vec_capacity log.old }
    ensures items { log.new.items ≡ log.old.items ++ u8_spelling number }
    ensures len { vec_len log.new ≡ vec_len log.old + 1 }
    ensures capacity { vec_capacity log.old ≤ vec_capacity log.new }
{
    log.push_reserved(number);
}

fn put_u16(number: u16, log: &mut Vec<u8>)
    requires { vec_len log.old + 2 ≤ vec_capacity log.old }
    ensures items { log.new.items ≡ log.old.items ++ u16_spelling number }
    ensures len { vec_len log.new ≡ vec_len log.old + 2 }
    ensures capacity { vec_capacity log.old ≤ vec_capacity log.new }
{
    put(log, &number.to_be_bytes());
}

pub fn put_u32(number: u32, log: &mut Vec<u8>)
    requires { vec_len log.old + 4 ≤ vec_capacity log.old }
    ensures items { log.new.items ≡ log.old.items ++ u32_spelling number }
    ensures len { vec_len log.new ≡ vec_len log.old + 4 }
    ensures capacity { vec_capacity log.old ≤ vec_capacity log.new }
{
    put(log, &number.to_be_bytes());
}

fn put_id(id: StateId, log: &mut Vec<u8>)
    requires { vec_len log.old + 6 ≤ vec_capacity log.old }
    ensures items { log.new.items ≡ log.old.items ++ id_spelling id }
    ensures len { vec_len log.new ≡ vec_len log.old + 6 }
    ensures capacity { vec_capacity log.old ≤ vec_capacity log.new }
{
    put_u16(id.site, log);
    put_u32(id.sequence, log);
}

fn put_ids(ids: &[StateId], log: &mut Vec<u8>)
    requires { vec_len log.old + 6 * length ids.now ≤ vec_capacity log.old }
    ensures items { log.new.items ≡ log.old.items ++ flat_map id_spelling ids.now }
    ensures len { vec_len log.new ≡ vec_len log.old + 6 * length ids.now }
    ensures capacity { vec_capacity log.old ≤ vec_capacity log.new }
{
    for id in ids {
        put_id(*id, log);
    }
}

/// Puts the id of a state and its parents behind the others.
pub(crate) fn put_head(id: StateId, parents: &[StateId], log: &mut Vec<u8>)
    requires few { length parents.now ≤ 8 }
    requires room { vec_len log.old + 7 + 6 * length parents.now ≤ vec_capacity log.old }
    ensures items { log.new.items ≡ log.old.items ++ (id_spelling id ++ parents_spelling parents.now) }
    ensures len { vec_len log.new ≡ vec_len log.old + 7 + 6 * length parents.now }
    ensures capacity { vec_capacity log.old ≤ vec_capacity log.new }
{
    put_id(id, log);
    put_u8(parents.len() as u8, log);
    put_ids(parents, log);
}

fn put_key(key: &Key, log: &mut Vec<u8>)
    requires { vec_len log.old + length (key_spelling key.now) ≤ vec_capacity log.old }
    ensures items { log.new.items ≡ log.old.items ++ key_spelling key.now }
    ensures len { vec_len log.new ≡ vec_len log.old + length (key_spelling key.now) }
    ensures capacity { vec_capacity log.old ≤ vec_capacity log.new }
{
    let bytes = key.as_slice();
    put_u8(bytes.len() as u8, log);
    put(log, bytes);
}

fn put_value(value: &Value, log: &mut Vec<u8>)
    requires { vec_len log.old + length (value_spelling value.now) ≤ vec_capacity log.old }
    ensures items { log.new.items ≡ log.old.items ++ value_spelling value.now }
    ensures len { vec_len log.new ≡ vec_len log.old + length (value_spelling value.now) }
    ensures capacity { vec_capacity log.old ≤ vec_capacity log.new }
{
    let bytes = value.as_slice();
    put_u16(bytes.len() as u16, log);
    put(log, bytes);
}

/// Puts the key, and what was found of it, behind the others; where nothing was, it puts nothing.
pub(crate) fn put_read(key: &Key, read: Found<'_>, log: &mut Vec<u8>)
    requires { vec_len log.old + length (read_spelling key.now (write_found (found read))) ≤ vec_capacity log.old }
    ensures items { log.new.items ≡ log.old.items ++ read_spelling key.now (write_found (found read.entry)) }
    ensures len { vec_len log.new ≡ vec_len log.old + length (read_spelling key.now (write_found (found read.entry))) }
    ensures capacity { vec_capacity log.old ≤ vec_capacity log.new }
{
    match read {
        Found::Value { value, .. } => {
            put_key(key, log);
            put_u8(1, log);
            put_value(value, log);
        },
        Found::Deleted { .. } => {
            put_key(key, log);
            put_u8(0, log);
        },
        Found::Absent => {},
    }
}

/// Puts the consent's spelling behind the others.
pub fn put_consent(promise: &Consent, log: &mut Vec<u8>)
    requires { vec_len log.old + 16 ≤ vec_capacity log.old }
    ensures items { log.new.items ≡ log.old.items ++ consent_spelling promise.now }
    ensures len { vec_len log.new ≡ vec_len log.old + 16 }
    ensures capacity { vec_capacity log.old ≤ vec_capacity log.new }
{
    put_u16(promise.site, log);
    put_u32(promise.number, log);
    put_id(promise.floor, log);
    put_u32(promise.count, log);
}
