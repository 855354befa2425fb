//! Reading the fields of questions from the front of bytes.
//!
//! Whether bytes are a spelling doesn't depend on memory: where memory is wanting for a field, the reader goes on behind
//! it all the same.

ghost use Rattle.std.specs.Prelude.{◌≡◌, ℕ, List, nat_le, option_map, IfOk, Ok};
ghost use Rattle.std.specs.Option.{option_copied};
ghost use Rattle.tardis_base.specs.declared.ids.StateId.{StateId};
ghost use Rattle.tardis_base.specs.Sizes.{longest_key, most_parents};
ghost use Rattle.tardis_base.specs.Valid.{is_within};
ghost use Rattle.wire_item.specs.Fronts.{both, made, times};
ghost use Rattle.wire_item.specs.Readings.{id_front, key_front};
ghost use Rattle.wire_item.specs.Takings.{Makes, Takes};
ghost use Rattle.wire_talk.specs.RequestReadings.{after_front};
ghost use Rattle.plain_questions.specs.Readings.{asked_front, behind_front, page_front};
ghost use Rattle.plain_questions.specs.declared.questions.Question.{Question};
ghost use Rattle.wire_questions.specs.Pages.{page_question};

use item_bytes::Reader;
use plain_questions::Question;
use std::alloc::Global;
use tardis_base::{ByteList, Key, MAX_KEY, MAX_PARENTS, NoMemory, StateId, StateList, pushed};

/// A state and a key.
pub fn read_at(alloc: Global, reader: &mut Reader) -> Option<Result<Question, NoMemory>>
    ensures { Makes (made (λ p. Question.At p.0 p.1) (both id_front key_front)) reader.old result reader.new }
{
    let state = reader.id()?;
    let key = reader.key()?;
    Some(at(alloc, state, key))
}

/// A state, a prefix and what keys stand behind.
pub fn read_page(
    alloc: Global,
    with_values: bool,
    reader: &mut Reader,
) -> Option<Result<Question, NoMemory>>
    ensures { Makes (made (page_question with_values) page_front) reader.old result reader.new }
{
    let state = reader.id()?;
    let prefix = read_after(reader)?;
    let after = read_after(reader)?;
    Some(page(alloc, with_values, state, prefix, after))
}

pub fn read_record(reader: &mut Reader) -> Option<Question>
    ensures { Takes (made Question.Record id_front) reader.old result reader.new }
{
    let state = reader.id()?;
    Some(Question::Record { state })
}

/// States that may have parted, and a key.
pub fn read_base(alloc: Global, reader: &mut Reader) -> Option<Result<Question, NoMemory>>
    ensures { Makes (made (λ p. Question.Base p.0 p.1) (both asked_front key_front)) reader.old result reader.new }
{
    let states = asked_states(alloc, reader)?;
    let key = reader.key()?;
    Some(base(alloc, states, key))
}

/// No number, or the number of a session.
pub fn read_sessions(reader: &mut Reader) -> Option<Question>
    ensures { Takes (made Question.Sessions behind_front) reader.old result reader.new }
{
    let flag = reader.u8()?;
    if flag == 0 {
        return Some(Question::Sessions { after: None });
    }
    if flag != 1 {
        return None;
    }
    let number = reader.u16()?;
    Some(Question::Sessions {
        after: Some(number),
    })
}

/// What was taken, where no memory is wanting.
pub fn sure<T: Drop>(taken: Option<T>) -> Option<Result<T, NoMemory>>
    ensures { result ≡ option_map Ok taken }
{
    Some(Ok(taken?))
}

/// 0 to 128 bytes.
fn read_after<'a>(reader: &mut Reader<'a>) -> Option<&'a [u8]>
    ensures { Takes after_front reader.old (option_copied result) reader.new }
{
    let count = reader.u8()?;
    if is_after_length(count) {
        reader.bytes(usize::from(count))
    } else {
        None
    }
}

/// 1 to 8 states, in any order.
fn asked_states(alloc: Global, reader: &mut Reader) -> Option<Result<StateList, NoMemory>>
    ensures { Makes asked_front reader.old result reader.new }
{
    let count = reader.u8()?;
    if is_asked_count(count) {
        ids(alloc, count, reader)
    } else {
        None
    }
}

/// So many ids.
fn ids(alloc: Global, count: u8, reader: &mut Reader) -> Option<Result<StateList, NoMemory>>
    ensures { Makes (times id_front count) reader.old result reader.new }
{
    let mut ids = Ok(StateList::new(alloc));
    for _place in 0..count {
        let id = reader.id()?;
        ids = pushed(ids, Ok(id));
    }
    Some(ids)
}

fn is_after_length(count: u8) -> bool
    ensures { result ≡ nat_le count longest_key }
{
    usize::from(count) <= MAX_KEY
}

fn is_asked_count(count: u8) -> bool
    ensures { result ≡ is_within 1 most_parents count }
{
    (1..=MAX_PARENTS).contains(&usize::from(count))
}

fn at(alloc: Global, state: StateId, key: &[u8]) -> Result<Question, NoMemory>
    ensures { IfOk result (λ q. q ≡ Question.At state key.now) }
{
    let key = new_key(alloc, key)?;
    Ok(Question::At { state, key })
}

fn page(
    alloc: Global,
    with_values: bool,
    state: StateId,
    prefix: &[u8],
    after: &[u8],
) -> Result<Question, NoMemory>
    ensures { IfOk result (λ q. q ≡ page_question with_values ((state, prefix.now), after.now)) }
{
    let prefix = new_bytes(alloc, prefix)?;
    let after = new_bytes(alloc, after)?;
    if with_values {
        Ok(Question::Scan {
            state,
            prefix,
            after,
        })
    } else {
        Ok(Question::Keys {
            state,
            prefix,
            after,
        })
    }
}

fn base(
    alloc: Global,
    states: Result<StateList, NoMemory>,
    key: &[u8],
) -> Result<Question, NoMemory>
    ensures { (xs : List StateId) → IfOk states (λ l. l ≡ xs) → IfOk result (λ q. q ≡ Question.Base xs key.now) }
{
    let states = states?;
    let key = new_key(alloc, key)?;
    Ok(Question::Base { states, key })
}

fn new_key(alloc: Global, bytes: &[u8]) -> Result<Key, NoMemory>
    ensures { IfOk result (λ key. key ≡ bytes.now) }
{
    match Key::new(alloc, bytes) {
        Ok(key) => Ok(key),
        Err(_) => Err(NoMemory),
    }
}

fn new_bytes(alloc: Global, bytes: &[u8]) -> Result<ByteList, NoMemory>
    ensures { IfOk result (λ list. list ≡ bytes.now) }
{
    Ok(ByteList::from_vec(Vec::from_slice(alloc, bytes)?))
}
