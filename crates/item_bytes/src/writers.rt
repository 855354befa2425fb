//! Writing records, consents, items and batches behind the bytes of a buffer.
//!
//! No call takes memory: the buffer has its room.

ghost use Rattle.std.specs.Prelude.{◌≡◌, ◌+◌, ◌≤◌, ◌++◌, flat_map, length, sum_by, IsTrue};
ghost use Rattle.std.specs.List.{list_all};
ghost use Rattle.tardis_base.specs.Sizes.{longest_frame, most_writes};
ghost use Rattle.tardis_base.specs.Valid.{are_parents, are_writes, is_record};
ghost use Rattle.wire_item.specs.Lengths.{key_write_length};
ghost use Rattle.wire_item.specs.Spellings.{batch_spelling, consent_spelling, consents_spelling, id_spelling, item_spelling, key_spelling};
ghost use Rattle.wire_item.specs.Spellings.{key_write_spelling, parents_spelling, record_spelling, records_spelling, u16_spelling, u32_spelling};
ghost use Rattle.wire_item.specs.Spellings.{u64_spelling, u8_spelling, value_spelling, write_spelling, writes_spelling};
ghost use Rattle.wire_item.specs.Valid.{is_batch, is_consent, is_item};

use tardis_base::{
    Batch, Consent, Item, Key, Record, ReplyBuf, StateId, StateList, Value, Write, WriteSet,
};

pub fn write_u8(number: u8, out: &mut ReplyBuf)
    requires { length out.old + length (u8_spelling number) ≤ longest_frame }
    ensures { out.new ≡ out.old ++ u8_spelling number }
{
    out.push_byte(number);
}

pub fn write_u16(number: u16, out: &mut ReplyBuf)
    requires { length out.old + length (u16_spelling number) ≤ longest_frame }
    ensures { out.new ≡ out.old ++ u16_spelling number }
{
    out.push(&number.to_be_bytes());
}

pub fn write_u32(number: u32, out: &mut ReplyBuf)
    requires { length out.old + length (u32_spelling number) ≤ longest_frame }
    ensures { out.new ≡ out.old ++ u32_spelling number }
{
    out.push(&number.to_be_bytes());
}

pub fn write_u64(number: u64, out: &mut ReplyBuf)
    requires { length out.old + length (u64_spelling number) ≤ longest_frame }
    ensures { out.new ≡ out.old ++ u64_spelling number }
{
    out.push(&number.to_be_bytes());
}

pub fn write_id(id: StateId, out: &mut ReplyBuf)
    requires { length out.old + length (id_spelling id) ≤ longest_frame }
    ensures { out.new ≡ out.old ++ id_spelling id }
{
    write_u16(id.site, out);
    write_u32(id.sequence, out);
}

pub fn write_ids(ids: &[StateId], out: &mut ReplyBuf)
    requires { length out.old + length (flat_map id_spelling ids.now) ≤ longest_frame }
    ensures { out.new ≡ out.old ++ flat_map id_spelling ids.now }
{
    for id in ids {
        write_id(*id, out);
    }
}

pub fn write_key(key: &Key, out: &mut ReplyBuf)
    requires { length out.old + length (key_spelling key.now) ≤ longest_frame }
    ensures { out.new ≡ out.old ++ key_spelling key.now }
{
    let bytes = key.as_slice();
    write_u8(bytes.len() as u8, out);
    out.push(bytes);
}

fn write_write(write: &Write, out: &mut ReplyBuf)
    requires { length out.old + length (write_spelling write.now) ≤ longest_frame }
    ensures { out.new ≡ out.old ++ write_spelling write.now }
{
    match write {
        Write::Put(value) => {
            write_u8(1, out);
            write_value(value, out);
        },
        Write::Delete => write_u8(0, out),
    }
}

pub fn write_value(value: &Value, out: &mut ReplyBuf)
    requires { length out.old + length (value_spelling value.now) ≤ longest_frame }
    ensures { out.new ≡ out.old ++ value_spelling value.now }
{
    let bytes = value.as_slice();
    write_u16(bytes.len() as u16, out);
    out.push(bytes);
}

fn write_key_writes(writes: &[(Key, Write)], out: &mut ReplyBuf)
    requires { length out.old + length (flat_map key_write_spelling writes.now) ≤ longest_frame }
    ensures { out.new ≡ out.old ++ flat_map key_write_spelling writes.now }
{
    for pair in writes {
        write_key_write(pair, out);
    }
}

fn write_key_write(pair: &(Key, Write), out: &mut ReplyBuf)
    requires { length out.old + length (key_write_spelling pair.now) ≤ longest_frame }
    ensures { out.new ≡ out.old ++ key_write_spelling pair.now }
{
    write_key(&pair.0, out);
    write_write(&pair.1, out);
}

/// The parents of a state, or other states of which there are 1 to 8 in ascending order.
pub fn write_parents(parents: &StateList, out: &mut ReplyBuf)
    requires valid { IsTrue (are_parents parents.now) }
    requires room { length out.old + length (parents_spelling parents.now) ≤ longest_frame }
    ensures { out.new ≡ out.old ++ parents_spelling parents.now }
{
    write_u8(parents.len() as u8, out);
    write_ids(parents.as_slice(), out);
}

fn write_writes(writes: &WriteSet, out: &mut ReplyBuf)
    requires valid { IsTrue (are_writes writes.now) }
    requires room { length out.old + length (writes_spelling writes.now) ≤ longest_frame }
    ensures { out.new ≡ out.old ++ writes_spelling writes.now }
{
    write_u8(writes.len() as u8, out);
    write_key_writes(writes.as_slice(), out);
}

/// Writes the record's spelling.
pub fn write_record(rec: &Record, out: &mut ReplyBuf)
    requires valid { IsTrue (is_record rec.now) }
    requires room { length out.old + length (record_spelling rec.now) ≤ longest_frame }
    ensures { out.new ≡ out.old ++ record_spelling rec.now }
{
    write_id(rec.id, out);
    write_parents(&rec.parents, out);
    write_writes(&rec.writes, out);
}

/// Writes the consent's spelling.
pub fn write_consent(promise: &Consent, out: &mut ReplyBuf)
    requires valid { IsTrue (is_consent promise.now) }
    requires room { length out.old + length (consent_spelling promise.now) ≤ longest_frame }
    ensures { out.new ≡ out.old ++ consent_spelling promise.now }
{
    write_u16(promise.site, out);
    write_u32(promise.number, out);
    write_id(promise.floor, out);
    write_u32(promise.count, out);
}

/// Writes the item's spelling.
pub fn write_item(item: &Item, out: &mut ReplyBuf)
    requires valid { IsTrue (is_item item.now) }
    requires room { length out.old + length (item_spelling item.now) ≤ longest_frame }
    ensures { out.new ≡ out.old ++ item_spelling item.now }
{
    match item {
        Item::State(state) => {
            write_u8(1, out);
            write_record(state, out);
        },
        Item::Promise(promise) => {
            write_u8(2, out);
            write_consent(promise, out);
        },
    }
}

/// Writes the batch's spelling.
pub fn write_batch(batch: &Batch, out: &mut ReplyBuf)
    requires valid { IsTrue (is_batch batch.now) }
    requires room { length out.old + length (batch_spelling batch.now) ≤ longest_frame }
    ensures { out.new ≡ out.old ++ batch_spelling batch.now }
{
    write_u16(batch.records.len() as u16, out);
    write_records(batch.records.as_slice(), out);
    write_u8(batch.consents.len() as u8, out);
    write_consents(batch.consents.as_slice(), out);
}

fn write_records(records: &[Record], out: &mut ReplyBuf)
    requires valid { IsTrue (list_all is_record records.now) }
    requires room { length out.old + length (flat_map record_spelling records.now) ≤ longest_frame }
    ensures { out.new ≡ out.old ++ flat_map record_spelling records.now }
{
    for rec in records {
        write_record(rec, out);
    }
}

fn write_consents(consents: &[Consent], out: &mut ReplyBuf)
    requires valid { IsTrue (list_all is_consent consents.now) }
    requires room { length out.old + length (flat_map consent_spelling consents.now) ≤ longest_frame }
    ensures { out.new ≡ out.old ++ flat_map consent_spelling consents.now }
{
    for promise in consents {
        write_consent(promise, out);
    }
}

/// How many bytes the record's spelling has.
pub fn record_len(rec: &Record) -> u32
    requires { IsTrue (is_record rec.now) }
    ensures { result ≡ length (record_spelling rec.now) }
{
    8 + 6 * rec.parents.len() as u32 + writes_len(rec.writes.as_slice())
}

fn writes_len(writes: &[(Key, Write)]) -> u32
    requires { length writes.now ≤ most_writes }
    ensures { result ≡ sum_by key_write_length writes.now }
{
    let mut total = 0;
    for pair in writes {
        total += key_write_len(pair);
    }
    total
}

/// How many bytes the key and what is written to it take in the spelling of a record.
pub fn key_write_len(pair: &(Key, Write)) -> u32
    ensures count { result ≡ key_write_length pair.now }
    ensures bound { result ≤ 4228 }
{
    let key = pair.0.as_slice().len() as u32;
    match pair.1.value() {
        Some(value) => 4 + key + value.as_slice().len() as u32,
        None => 2 + key,
    }
}
