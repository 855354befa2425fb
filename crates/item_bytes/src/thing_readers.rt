//! Reading records, consents, items and batches from the front of bytes.
//!
//! Whether bytes are a spelling doesn't depend on memory: where memory is wanting for a thing, the reader goes on behind
//! it all the same.

ghost use Rattle.std.specs.Prelude.{◌≡◌, ℕ, ◌==◌, ◌&&◌, ◌++◌, [], ◌∷◌, ◌⊎◌, List, Ok, true, not, nat_le, nat_lt, IfOk, IsErr, OnErr};
ghost use Rattle.std.specs.Option.{option_map_or};
ghost use Rattle.tardis_base.specs.Ids.{are_ascending, is_before, root, same_id};
ghost use Rattle.tardis_base.specs.Keys.{are_ascending_keys, keys_of, with_write};
ghost use Rattle.tardis_base.specs.Sizes.{most_parents, most_writes};
ghost use Rattle.tardis_base.specs.Valid.{is_within};
ghost use Rattle.tardis_base.specs.declared.ids.StateId.{StateId};
ghost use Rattle.tardis_base.specs.declared.records.Write.{Write};
ghost use Rattle.wire_item.specs.Fronts.{both, only_if, times};
ghost use Rattle.wire_item.specs.Readings.{batch_front, consent_front, consents_front, id_front, item_front, key_front, parents_front, record_front};
ghost use Rattle.wire_item.specs.Readings.{records_front, write_front, writes_front};
ghost use Rattle.wire_item.specs.Takings.{Makes, Takes};

use crate::readers::Reader;
use std::alloc::Global;
use tardis_base::{
    Consent, Key, MAX_PARENTS, MAX_WRITES, NoMemory, Record, StateId, StateList, Value, Write,
    WriteSet, key_follows, pushed,
};

impl<'a> Reader<'a> {
    /// What is written to a key.
    pub fn write(&mut self, alloc: Global) -> Option<Result<Write, NoMemory>>
        ensures { Makes write_front self.old result self.new }
    {
        let kind = self.u8()?;
        if kind == 0 {
            return Some(Ok(Write::Delete));
        }
        if kind != 1 {
            return None;
        }
        let value = self.value()?;
        Some(put(alloc, value))
    }

    /// The parents of a state, or other states of which there are 1 to 8 in ascending order.
    pub fn parents(&mut self, alloc: Global) -> Option<Result<StateList, NoMemory>>
        ensures { Makes parents_front self.old result self.new }
    {
        let count = self.u8()?;
        if is_parent_count(count) {
            self.ascending_ids(alloc, count)
        } else {
            None
        }
    }

    fn ascending_ids(&mut self, alloc: Global, count: u8) -> Option<Result<StateList, NoMemory>>
        ensures { Makes (only_if are_ascending (times id_front count)) self.old result self.new }
    {
        let mut ids = Ok(StateList::new(alloc));
        let mut last = None;
        for _place in 0..count {
            let id = self.id()?;
            if !follows(last, id) {
                return None;
            }
            ids = pushed(ids, Ok(id));
            last = Some(id);
        }
        Some(ids)
    }

    /// The writes of a state.
    pub fn writes(&mut self, alloc: Global) -> Option<Result<WriteSet, NoMemory>>
        ensures { Makes writes_front self.old result self.new }
    {
        let count = self.u8()?;
        if is_write_count(count) {
            self.ascending_writes(alloc, count)
        } else {
            None
        }
    }

    fn ascending_writes(&mut self, alloc: Global, count: u8) -> Option<Result<WriteSet, NoMemory>>
        ensures { Makes (only_if (λ ws. are_ascending_keys (keys_of ws)) (times (both key_front write_front) count)) self.old result self.new }
    {
        let mut writes = Ok(WriteSet::new(alloc));
        let mut last = None;
        for _place in 0..count {
            let key = self.key()?;
            if !key_follows(last, key) {
                return None;
            }
            let write = self.write(alloc)?;
            writes = inserted(alloc, writes, key, write);
            last = Some(key);
        }
        Some(writes)
    }

    pub fn record(&mut self, alloc: Global) -> Option<Result<Record, NoMemory>>
        ensures { Makes record_front self.old result self.new }
    {
        let id = self.id()?;
        if is_root(id) {
            return None;
        }
        let parents = self.parents(alloc)?;
        let writes = self.writes(alloc)?;
        Some(record_of_parts(id, parents, writes))
    }

    pub fn consent(&mut self) -> Option<Consent>
        ensures { Takes consent_front self.old result self.new }
    {
        let site = self.u16()?;
        let number = self.u32()?;
        let floor = self.id()?;
        let count = self.u32()?;
        if is_numbered(site, number) {
            Some(Consent {
                site,
                number,
                floor,
                count,
            })
        } else {
            None
        }
    }
}

fn is_parent_count(count: u8) -> bool
    ensures { result ≡ is_within 1 most_parents count }
{
    (1..=MAX_PARENTS).contains(&usize::from(count))
}

fn is_write_count(count: u8) -> bool
    ensures { result ≡ nat_le count most_writes }
{
    usize::from(count) <= MAX_WRITES
}

fn is_root(id: StateId) -> bool
    ensures { result ≡ same_id id root }
{
    id.site == 0 && id.sequence == 0
}

fn is_numbered(site: u16, number: u32) -> bool
    ensures { result ≡ (nat_le 1 site && nat_le 1 number) }
{
    site >= 1 && number >= 1
}

/// Whether the id may stand behind this one in ascending order.
fn follows(last: Option<StateId>, id: StateId) -> bool
    ensures { result ≡ option_map_or (λ before. is_before before id) last true }
{
    match last {
        Some(before) => {
            before.site < id.site || before.site == id.site && before.sequence < id.sequence
        },
        None => true,
    }
}

fn put(alloc: Global, value: &[u8]) -> Result<Write, NoMemory>
    ensures { IfOk result (λ write. write ≡ Write.Put value.now) }
{
    match Value::new(alloc, value) {
        Ok(value) => Ok(Write::Put(value)),
        Err(_) => Err(NoMemory),
    }
}

/// The writes with one more, where there was memory for both.
fn inserted(
    alloc: Global,
    writes: Result<WriteSet, NoMemory>,
    key: &[u8],
    write: Result<Write, NoMemory>,
) -> Result<WriteSet, NoMemory>
    ensures { (ws : List (List ℕ × Write)) (w : Write) → IfOk writes (λ s. s ≡ ws) → IfOk write (λ v. v ≡ w) → IfOk result (λ s. s ≡ with_write key.now w ws) }
{
    let (mut writes, write) = both(writes, write)?;
    match Key::new(alloc, key) {
        Ok(key) => {
            writes.insert(key, write)?;
            Ok(writes)
        },
        Err(_) => Err(NoMemory),
    }
}

/// Both things, where there was memory for both.
pub(crate) fn both<A: Drop, B: Drop>(
    first: Result<A, NoMemory>,
    second: Result<B, NoMemory>,
) -> Result<(A, B), NoMemory>
    ensures both { IfOk result (λ p. (first ≡ Ok p.0) × (second ≡ Ok p.1)) }
    ensures fault { OnErr result (IsErr first ⊎ IsErr second) }
{
    let first = first?;
    Ok((first, second?))
}

fn record_of_parts(
    id: StateId,
    parents: Result<StateList, NoMemory>,
    writes: Result<WriteSet, NoMemory>,
) -> Result<Record, NoMemory>
    ensures { (xs : List StateId) (ws : List (List ℕ × Write)) → IfOk parents (λ l. l ≡ xs) → IfOk writes (λ s. s ≡ ws)
        → IfOk result (λ r. r ≡ record { id = id; parents = xs; writes = ws }) }
{
    let (parents, writes) = both(parents, writes)?;
    Ok(Record {
        id,
        parents,
        writes,
    })
}
