//! Reading the fields of requests from the front of bytes.
//!
//! Whether bytes are a spelling doesn't depend on memory: where memory is wanting for a field, the reader goes on behind
//! it all the same.

ghost use Rattle.std.specs.Prelude.{◌≡◌, ℕ, List, ◌&&◌, [], ◌∷◌, ◌++◌, nat_le, IfOk};
ghost use Rattle.tardis_base.specs.declared.ids.StateId.{StateId};
ghost use Rattle.tardis_base.specs.declared.records.Item.{Item};
ghost use Rattle.tardis_base.specs.declared.requests.Request.{Request};
ghost use Rattle.tardis_base.specs.Sizes.{longest_key};
ghost use Rattle.tardis_base.specs.Valid.{is_within};
ghost use Rattle.wire_item.specs.Fronts.{both, made, times};
ghost use Rattle.wire_item.specs.Readings.{id_front, item_front, key_front, u32_front};
ghost use Rattle.wire_item.specs.Takings.{Makes, Takes};
ghost use Rattle.wire_talk.specs.RequestReadings.{after_front, counts_front, flag_front, merge_of, merge_of_front};

use crate::list_readers::{ids, is_count_of_sites};
use crate::refusal_readers::new_key;
use item_bytes::Reader;
use std::alloc::Global;
use tardis_base::{
    ByteList, CountList, Item, Key, ListOf, MAX_KEY, MergeOf, NoMemory, Request, StateId,
    StateList, pushed,
};

pub fn read_open(reader: &mut Reader) -> Option<Request>
    ensures { Takes (made Request.Open flag_front) reader.old result reader.new }
{
    let flag = reader.u8()?;
    if flag == 0 {
        return Some(Request::Open { follow: false });
    }
    if flag == 1 {
        return Some(Request::Open { follow: true });
    }
    None
}

pub fn read_begin_merge(alloc: Global, reader: &mut Reader) -> Option<Result<Request, NoMemory>>
    ensures { Makes (made Request.BeginMerge merge_of_front) reader.old result reader.new }
{
    let count = reader.u8()?;
    let states = ids(alloc, u32::from(count), reader)?;
    Some(begin_merge(states))
}

pub fn read_conflicts(alloc: Global, reader: &mut Reader) -> Option<Result<Request, NoMemory>>
    ensures { Makes (made Request.Conflicts after_front) reader.old result reader.new }
{
    let count = reader.u8()?;
    let after = reader.bytes(usize::from(count))?;
    if is_after_length(count) {
        Some(conflicts(alloc, after))
    } else {
        None
    }
}

pub fn read_get_for(alloc: Global, reader: &mut Reader) -> Option<Result<Request, NoMemory>>
    ensures { Makes (made (λ p. Request.GetFor p.0 p.1) (both key_front id_front)) reader.old result reader.new }
{
    let key = reader.key()?;
    let state = reader.id()?;
    Some(get_for(alloc, key, state))
}

pub fn read_pull(alloc: Global, reader: &mut Reader) -> Option<Result<Request, NoMemory>>
    ensures { Makes (made Request.Pull counts_front) reader.old result reader.new }
{
    let count = reader.u8()?;
    if !is_count_of_sites(count) {
        return None;
    }
    let counts = numbers(alloc, count, reader)?;
    Some(pull(counts))
}

pub fn read_deliver(alloc: Global, reader: &mut Reader) -> Option<Result<Request, NoMemory>>
    ensures { Makes (made Request.Deliver item_front) reader.old result reader.new }
{
    let item = reader.item(alloc)?;
    Some(deliver(item))
}

/// So many numbers of 32 bits.
fn numbers(alloc: Global, count: u8, reader: &mut Reader) -> Option<Result<CountList, NoMemory>>
    ensures { Makes (times u32_front count) reader.old result reader.new }
{
    let mut numbers = Ok(CountList::new(alloc));
    for _place in 0..count {
        let number = reader.u32()?;
        numbers = pushed(numbers, Ok(number));
    }
    Some(numbers)
}

fn is_after_length(count: u8) -> bool
    ensures { result ≡ nat_le count longest_key }
{
    usize::from(count) <= MAX_KEY
}

fn get_for(alloc: Global, key: &[u8], state: StateId) -> Result<Request, NoMemory>
    ensures { IfOk result (λ q. q ≡ Request.GetFor key.now state) }
{
    let key = new_key(alloc, key)?;
    Ok(Request::GetFor { key, state })
}

fn conflicts(alloc: Global, after: &[u8]) -> Result<Request, NoMemory>
    ensures { IfOk result (λ q. q ≡ Request.Conflicts after.now) }
{
    let after = ByteList::from_vec(Vec::from_slice(alloc, after)?);
    Ok(Request::Conflicts { after })
}

fn begin_merge(states: Result<StateList, NoMemory>) -> Result<Request, NoMemory>
    ensures { (xs : List StateId) → IfOk states (λ l. l ≡ xs) → IfOk result (λ q. q ≡ Request.BeginMerge (merge_of xs)) }
{
    let states = states?;
    let of = if states.is_empty() {
        MergeOf::Leaves
    } else {
        MergeOf::States(states)
    };
    Ok(Request::BeginMerge { of })
}

fn pull(counts: Result<CountList, NoMemory>) -> Result<Request, NoMemory>
    ensures { (ns : List ℕ) → IfOk counts (λ l. l ≡ ns) → IfOk result (λ q. q ≡ Request.Pull ns) }
{
    Ok(Request::Pull { counts: counts? })
}

fn deliver(item: Result<Item, NoMemory>) -> Result<Request, NoMemory>
    ensures { (x : Item) → IfOk item (λ i. i ≡ x) → IfOk result (λ q. q ≡ Request.Deliver x) }
{
    Ok(Request::Deliver { item: item? })
}
