//! Reading the fields of replies from the front of bytes.
//!
//! Whether bytes are a spelling doesn't depend on memory: where memory is wanting for a field, the reader goes on behind
//! it all the same.

ghost use Rattle.std.specs.Prelude.{◌≡◌, ℕ, List, Some, Err, IfOk, IsErr, OnErr, IsTrue};
ghost use Rattle.tardis_base.specs.declared.faults.NoMemory.{NoMemory};
ghost use Rattle.tardis_base.specs.declared.ids.StateId.{StateId};
ghost use Rattle.tardis_base.specs.declared.records.Batch.{Batch};
ghost use Rattle.tardis_base.specs.declared.replies.Refusal.{Refusal};
ghost use Rattle.tardis_base.specs.declared.replies.Reply.{Reply};
ghost use Rattle.wire_item.specs.Fronts.{both, counted, made, only_if, times};
ghost use Rattle.wire_item.specs.Readings.{batch_front, id_front, key_front, parents_front, u16_front, u32_front, u64_front, value_front};
ghost use Rattle.wire_item.specs.Takings.{Makes, Takes};
ghost use Rattle.wire_talk.specs.Memory.{refusal_takes_no_memory};
ghost use Rattle.wire_talk.specs.ReplyReadings.{children_front, first_ids_front, first_keys_front, path_front, refusal_front, site_lines_front};
ghost use Rattle.wire_talk.specs.Valid.{are_first_ids, are_first_keys, is_first_of};

use crate::list_readers::{ids, is_count_of_sites, keys, pairs, site_lines};
use crate::refusal_readers::{new_value, refusal};
use item_bytes::Reader;
use std::alloc::Global;
use tardis_base::{
    Batch, KeyList, MAX_NAMED, NoMemory, PathList, Refusal, Reply, SiteLines, StateId, StateList,
};

pub fn read_merging(alloc: Global, reader: &mut Reader) -> Option<Result<Reply, NoMemory>>
    ensures { Makes (made Reply.Merging parents_front) reader.old result reader.new }
{
    let states = reader.parents(alloc)?;
    Some(merging(states))
}

pub fn read_value(alloc: Global, reader: &mut Reader) -> Option<Result<Reply, NoMemory>>
    ensures { Makes (made (λ p. Reply.Value p.0 p.1) (both id_front value_front)) reader.old result reader.new }
{
    let writer = reader.id()?;
    let value = reader.value()?;
    Some(value_of(alloc, writer, value))
}

pub fn read_committed(alloc: Global, reader: &mut Reader) -> Option<Result<Reply, NoMemory>>
    ensures { Makes (made (λ p. Reply.Committed p.0 p.1) (both id_front parents_front)) reader.old result reader.new }
{
    let id = reader.id()?;
    let parents = reader.parents(alloc)?;
    Some(committed(id, parents))
}

pub fn read_states(alloc: Global, reader: &mut Reader) -> Option<Result<Reply, NoMemory>>
    ensures { Makes (made (λ p. Reply.States p.0 p.1) first_ids_front) reader.old result reader.new }
{
    let total = reader.u32()?;
    let first = first_ids(alloc, total, reader)?;
    Some(states(total, first))
}

pub fn read_keys(alloc: Global, reader: &mut Reader) -> Option<Result<Reply, NoMemory>>
    ensures { Makes (made (λ p. Reply.Keys p.0 p.1) first_keys_front) reader.old result reader.new }
{
    let total = reader.u32()?;
    let first = first_keys(alloc, total, reader)?;
    Some(keys_of(total, first))
}

pub fn read_statistics(reader: &mut Reader) -> Option<Reply>
    ensures { Takes (made (λ p. Reply.Stat p.0.0.0.0 p.0.0.0.1 p.0.0.1 p.0.1 p.1)
        (both (both (both (both u64_front u32_front) u32_front) u16_front) site_lines_front)) reader.old result reader.new }
{
    let known = reader.u64()?;
    let kept = reader.u32()?;
    let leaves = reader.u32()?;
    let sessions = reader.u16()?;
    let sites = lines_of_sites(reader)?;
    Some(Reply::Stat {
        known,
        kept,
        leaves,
        sessions,
        sites,
    })
}

pub fn read_shown(alloc: Global, reader: &mut Reader) -> Option<Result<Reply, NoMemory>>
    ensures { Makes (made (λ p. Reply.Shown p.0.0 p.0.1 p.1) (both (both u64_front children_front) path_front)) reader.old result reader.new }
{
    let arrival = reader.u64()?;
    let children = children(alloc, reader)?;
    let path = path(alloc, reader)?;
    Some(shown(arrival, children, path))
}

pub fn read_batch(alloc: Global, reader: &mut Reader) -> Option<Result<Reply, NoMemory>>
    ensures { Makes (made Reply.Batch batch_front) reader.old result reader.new }
{
    let batch = reader.batch(alloc)?;
    Some(batch_of(batch))
}

pub fn read_refused(alloc: Global, reader: &mut Reader) -> Option<Result<Reply, NoMemory>>
    ensures makes { Makes (made Reply.Refused refusal_front) reader.old result reader.new }
    ensures sure { (x : Refusal) (rest : List ℕ) (e : NoMemory) → refusal_front reader.old ≡ Some (x, rest)
        → IsTrue (refusal_takes_no_memory x) → result ≡ Some (Err e) → ⊥ }
{
    let refusal = refusal(reader, alloc)?;
    Some(refused(refusal))
}

/// The first ids of so many.
fn first_ids(alloc: Global, total: u32, reader: &mut Reader) -> Option<Result<StateList, NoMemory>>
    ensures { Makes (only_if (are_first_ids total) (counted u16_front (times id_front))) reader.old result reader.new }
{
    let count = reader.u16()?;
    if is_first_of(total, count) {
        ids(alloc, u32::from(count), reader)
    } else {
        None
    }
}

/// The first keys of so many.
fn first_keys(alloc: Global, total: u32, reader: &mut Reader) -> Option<Result<KeyList, NoMemory>>
    ensures { Makes (only_if (are_first_keys total) (counted u16_front (times key_front))) reader.old result reader.new }
{
    let count = reader.u16()?;
    if is_first_of(total, count) {
        keys(alloc, count, reader)
    } else {
        None
    }
}

fn lines_of_sites(reader: &mut Reader) -> Option<SiteLines>
    ensures { Takes site_lines_front reader.old result reader.new }
{
    let count = reader.u8()?;
    if is_count_of_sites(count) {
        site_lines(count, reader)
    } else {
        None
    }
}

fn children(alloc: Global, reader: &mut Reader) -> Option<Result<StateList, NoMemory>>
    ensures { Makes children_front reader.old result reader.new }
{
    let count = reader.u32()?;
    ids(alloc, count, reader)
}

fn path(alloc: Global, reader: &mut Reader) -> Option<Result<PathList, NoMemory>>
    ensures { Makes path_front reader.old result reader.new }
{
    let count = reader.u32()?;
    pairs(alloc, count, reader)
}

fn is_first_of(total: u32, count: u16) -> bool
    ensures { result ≡ is_first_of total count }
{
    usize::from(count) == (total as usize).min(MAX_NAMED)
}

fn merging(states: Result<StateList, NoMemory>) -> Result<Reply, NoMemory>
    ensures { (xs : List StateId) → IfOk states (λ l. l ≡ xs) → IfOk result (λ r. r ≡ Reply.Merging xs) }
{
    Ok(Reply::Merging { states: states? })
}

fn value_of(alloc: Global, writer: StateId, value: &[u8]) -> Result<Reply, NoMemory>
    ensures { IfOk result (λ r. r ≡ Reply.Value writer value.now) }
{
    let value = new_value(alloc, value)?;
    Ok(Reply::Value { writer, value })
}

fn committed(id: StateId, parents: Result<StateList, NoMemory>) -> Result<Reply, NoMemory>
    ensures { (xs : List StateId) → IfOk parents (λ l. l ≡ xs) → IfOk result (λ r. r ≡ Reply.Committed id xs) }
{
    Ok(Reply::Committed {
        id,
        parents: parents?,
    })
}

fn states(total: u32, first: Result<StateList, NoMemory>) -> Result<Reply, NoMemory>
    ensures { (xs : List StateId) → IfOk first (λ l. l ≡ xs) → IfOk result (λ r. r ≡ Reply.States total xs) }
{
    Ok(Reply::States {
        total,
        first: first?,
    })
}

fn keys_of(total: u32, first: Result<KeyList, NoMemory>) -> Result<Reply, NoMemory>
    ensures { (ks : List (List ℕ)) → IfOk first (λ l. l ≡ ks) → IfOk result (λ r. r ≡ Reply.Keys total ks) }
{
    Ok(Reply::Keys {
        total,
        first: first?,
    })
}

fn shown(
    arrival: u64,
    children: Result<StateList, NoMemory>,
    path: Result<PathList, NoMemory>,
) -> Result<Reply, NoMemory>
    ensures { (xs : List StateId) (ps : List (StateId × ℕ)) → IfOk children (λ l. l ≡ xs) → IfOk path (λ l. l ≡ ps)
        → IfOk result (λ r. r ≡ Reply.Shown arrival xs ps) }
{
    Ok(Reply::Shown {
        arrival,
        children: children?,
        path: path?,
    })
}

fn batch_of(batch: Result<Batch, NoMemory>) -> Result<Reply, NoMemory>
    ensures { (b : Batch) → IfOk batch (λ x. x ≡ b) → IfOk result (λ r. r ≡ Reply.Batch b) }
{
    Ok(Reply::Batch { batch: batch? })
}

fn refused(refusal: Result<Refusal, NoMemory>) -> Result<Reply, NoMemory>
    ensures made { (x : Refusal) → IfOk refusal (λ r. r ≡ x) → IfOk result (λ r. r ≡ Reply.Refused x) }
    ensures same { OnErr result (IsErr refusal) }
{
    Ok(Reply::Refused { refusal: refusal? })
}
