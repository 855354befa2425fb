//! Reading the words of requests that take memory.
//!
//! Whether a line is one of a request doesn't depend on memory: its words are read before memory is taken, or all the
//! same where it is wanting.

ghost use Rattle.std.specs.Prelude.{◌≡◌, ℕ, ◌^◌, ◌*◌, ◌+◌, ◌≤◌, List, [], Some, length, nat_le, option_map, false, IfOk};
ghost use Rattle.shell_text.specs.Answers.{AreRead, IsAnswer, IsAnswerWhere, IsReadInto};
ghost use Rattle.shell_text.specs.RequestTexts.{after_text, item_from, key_text, leaves_rows, merge_text, value_text};
ghost use Rattle.tardis_base.specs.declared.ids.StateId.{StateId};
ghost use Rattle.tardis_base.specs.declared.requests.MergeOf.{MergeOf};
ghost use Rattle.tardis_base.specs.declared.requests.Request.TheVariants.{Put as PutKey};
ghost use Rattle.tardis_base.specs.declared.requests.Request.{Request};
ghost use Rattle.tardis_base.specs.Sizes.{longest_key, longest_value, most_sites};
ghost use Rattle.tardis_base.specs.Valid.{is_within};
ghost use Rattle.text_words.specs.Texts.{by_prefix, ends, id_until, number_until, parsed, rest_of};
ghost use Rattle.wire_item.specs.Fronts.{Front, alone, both, made, only_if, times, whole};
ghost use Rattle.wire_talk.specs.Valid.{are_counts, is_merge_of};

use crate::line_word_readers::alone;
use item_bytes::read_item;
use std::alloc::Global;
use tardis_base::{
    ByteList, CountList, Key, ListOf, MAX_KEY, MAX_SITES, MAX_VALUE, MergeOf, NoMemory, ReadFault,
    Request, StateId, StateList, Value, pushed,
};
use text_words::{Words, read_bytes, read_hex};
use wire_item::{spellings_have_their_lengths, things_have_one_spelling};

/// The most bytes of an item.
const MOST_ITEM: usize = 270_649;

/// The answer for a request that takes no memory.
pub fn sure(read: Option<Request>) -> Result<Request, ReadFault>
    ensures { IsAnswer read result }
{
    match read {
        Some(request) => Ok(request),
        None => Err(ReadFault::Malformed),
    }
}

/// The bytes of the key whose word stands at the front, in the room: how many they are, and what is left behind the word.
/// Where no key's word stands there, the room may hold anything. It takes no memory, and the cost grows with the word.
pub fn key_into<'a>(words: &Words<'a>, room: &mut [u8]) -> Option<(usize, Words<'a>)>
    requires { longest_key ≤ length room.old }
    ensures bytes { IsReadInto key_text words.now room.new result }
    ensures room { length room.new ≡ length room.old }
{
    match words.until(b' ') {
        Some((word, left)) => match read_bytes(word, room) {
            Some(count) => {
                if is_key_length(count) {
                    Some((count, left))
                } else {
                    None
                }
            },
            None => None,
        },
        None => None,
    }
}

/// The bytes of the value whose word stands at the front, in the room: how many they are, and what is left behind the
/// word. Where no value's word stands there, the room may hold anything. It takes no memory, and the cost grows with the
/// word.
pub fn value_into<'a>(words: &Words<'a>, room: &mut [u8]) -> Option<(usize, Words<'a>)>
    requires { longest_value ≤ length room.old }
    ensures bytes { IsReadInto value_text words.now room.new result }
    ensures room { length room.new ≡ length room.old }
{
    match words.until(b' ') {
        Some((word, left)) => match read_bytes(word, room) {
            Some(count) => {
                if is_value_length(count) {
                    Some((count, left))
                } else {
                    None
                }
            },
            None => None,
        },
        None => None,
    }
}

fn is_key_length(count: usize) -> bool
    ensures { result ≡ is_within 1 longest_key count }
{
    (1..=MAX_KEY).contains(&count)
}

fn is_value_length(count: usize) -> bool
    ensures { result ≡ nat_le count longest_value }
{
    count <= MAX_VALUE
}

/// The key, where nothing is left behind it. It takes memory for the key, once it is known to be one.
pub fn key_alone(alloc: Global, words: &Words) -> Result<Key, ReadFault>
    ensures { IsAnswerWhere (λ _. false) (whole key_text words.now) result }
{
    let mut room = [0; MAX_KEY];
    match key_into(words, &mut room) {
        Some((count, left)) => {
            if left.is_over() {
                key_of(alloc, &room[..count])
            } else {
                Err(ReadFault::Malformed)
            }
        },
        None => Err(ReadFault::Malformed),
    }
}

fn key_of(alloc: Global, key: &[u8]) -> Result<Key, ReadFault>
    ensures { IsAnswerWhere (λ _. false) (Some key.now) result }
{
    match Key::new(alloc, key) {
        Ok(key) => Ok(key),
        Err(_) => Err(ReadFault::NoMemory),
    }
}

/// The list that was read at the front of words, where there was memory for it and nothing is left behind it. What was
/// read may be that of any front: [`ids`] reads one.
pub fn list_alone<T: Drop>(
    read: Option<(Result<ListOf<T>, NoMemory>, Words<'_>)>,
) -> Result<ListOf<T>, ReadFault>
    ensures { (front : Front (List T)) (text : List ℕ) → AreRead front text read.entry → IsAnswerWhere (λ _. false) (whole front text) result }
{
    match read {
        Some((list, left)) => {
            if left.is_over() {
                with_memory(list)
            } else {
                drop(list); // for the proof alone
                Err(ReadFault::Malformed)
            }
        },
        None => Err(ReadFault::Malformed),
    }
}

fn with_memory<T: Drop>(list: Result<ListOf<T>, NoMemory>) -> Result<ListOf<T>, ReadFault>
    ensures { (xs : List T) → IfOk list (λ l. l ≡ xs) → IsAnswerWhere (λ _. false) (Some xs) result }
{
    match list {
        Ok(list) => Ok(list),
        Err(_) => Err(ReadFault::NoMemory),
    }
}

pub fn read_get(alloc: Global, words: &Words) -> Result<Request, ReadFault>
    ensures { IsAnswer (whole (made Request.Get key_text) words.now) result }
{
    match key_alone(alloc, words) {
        Ok(key) => Ok(Request::Get { key }),
        Err(fault) => Err(fault),
    }
}

pub fn read_delete(alloc: Global, words: &Words) -> Result<Request, ReadFault>
    ensures { IsAnswer (whole (made Request.Delete key_text) words.now) result }
{
    match key_alone(alloc, words) {
        Ok(key) => Ok(Request::Delete { key }),
        Err(fault) => Err(fault),
    }
}

pub fn read_put(alloc: Global, words: &Words) -> Result<Request, ReadFault>
    ensures { IsAnswer (whole (made (λ p. PutKey p.0 p.1) (both key_text value_text)) words.now) result }
{
    let mut key_room = [0; MAX_KEY];
    match key_into(words, &mut key_room) {
        Some((count, left)) => read_put_value(alloc, &key_room[..count], &left),
        None => Err(ReadFault::Malformed),
    }
}

/// The rest of a Put.
fn read_put_value(alloc: Global, key: &[u8], words: &Words) -> Result<Request, ReadFault>
    ensures { IsAnswer (whole (made (λ v. PutKey key.now v) value_text) words.now) result }
{
    let mut room = [0; MAX_VALUE];
    match value_into(words, &mut room) {
        Some((count, left)) => {
            if left.is_over() {
                put(alloc, key, &room[..count])
            } else {
                Err(ReadFault::Malformed)
            }
        },
        None => Err(ReadFault::Malformed),
    }
}

fn put(alloc: Global, key: &[u8], value: &[u8]) -> Result<Request, ReadFault>
    ensures { IsAnswer (Some (PutKey key.now value.now)) result }
{
    match Key::new(alloc, key) {
        Ok(key) => match Value::new(alloc, value) {
            Ok(value) => Ok(Request::Put { key, value }),
            Err(_) => Err(ReadFault::NoMemory),
        },
        Err(_) => Err(ReadFault::NoMemory),
    }
}

pub fn read_get_for(alloc: Global, words: &Words) -> Result<Request, ReadFault>
    ensures { IsAnswer (whole (made (λ p. Request.GetFor p.0 p.1) (both key_text (id_until 32))) words.now) result }
{
    let mut room = [0; MAX_KEY];
    match key_into(words, &mut room) {
        Some((count, left)) => match left.id(b' ') {
            Some((state, left)) => {
                if left.is_over() {
                    get_for(alloc, &room[..count], state)
                } else {
                    Err(ReadFault::Malformed)
                }
            },
            None => Err(ReadFault::Malformed),
        },
        None => Err(ReadFault::Malformed),
    }
}

fn get_for(alloc: Global, key: &[u8], state: StateId) -> Result<Request, ReadFault>
    ensures { IsAnswer (Some (Request.GetFor key.now state)) result }
{
    match Key::new(alloc, key) {
        Ok(key) => Ok(Request::GetFor { key, state }),
        Err(_) => Err(ReadFault::NoMemory),
    }
}

pub fn read_conflicts(alloc: Global, words: &Words) -> Result<Request, ReadFault>
    ensures { IsAnswer (whole (made Request.Conflicts after_text) words.now) result }
{
    let mut room = [0; MAX_KEY];
    match key_into(words, &mut room) {
        Some((count, left)) => {
            if left.is_over() {
                conflicts(alloc, &room[..count])
            } else {
                Err(ReadFault::Malformed)
            }
        },
        None => read_all_conflicts(alloc, words),
    }
}

/// A Conflicts that names no key.
fn read_all_conflicts(alloc: Global, words: &Words) -> Result<Request, ReadFault>
    ensures { IsAnswer (whole (made Request.Conflicts (ends [])) words.now) result }
{
    if words.is_over() {
        conflicts(alloc, &[])
    } else {
        Err(ReadFault::Malformed)
    }
}

fn conflicts(alloc: Global, after: &[u8]) -> Result<Request, ReadFault>
    ensures { IsAnswer (Some (Request.Conflicts after.now)) result }
{
    match Vec::from_slice(alloc, after) {
        Ok(after) => Ok(Request::Conflicts {
            after: ByteList::from_vec(after),
        }),
        Err(_) => Err(ReadFault::NoMemory),
    }
}

pub fn read_begin_merge(alloc: Global, words: &Words) -> Result<Request, ReadFault>
    ensures { IsAnswer (whole (made Request.BeginMerge merge_text) words.now) result }
{
    match read_states(alloc, words) {
        Some((states, left)) => begin_merge(states, &left),
        None => sure(read_merge_of_leaves(words)),
    }
}

/// A merge that names no states.
fn read_merge_of_leaves(words: &Words) -> Option<Request>
    ensures { result ≡ whole (made Request.BeginMerge (by_prefix leaves_rows)) words.now }
{
    match words.behind(b"leaves ") {
        Some(left) => alone(
            Request::BeginMerge {
                of: MergeOf::Leaves,
            },
            &left,
        ),
        None => None,
    }
}

/// The states that a merge names.
fn read_states<'a>(
    alloc: Global,
    words: &Words<'a>,
) -> Option<(Result<StateList, NoMemory>, Words<'a>)>
    ensures { AreRead (only_if (λ states. is_merge_of (MergeOf.States states)) (rest_of (id_until 32))) words.now result }
{
    let count = words.count();
    if is_state_count(count) {
        ids(alloc, count, words)
    } else {
        None
    }
}

fn is_state_count(count: usize) -> bool
    ensures { result ≡ is_within 1 255 count }
{
    (1..=255).contains(&count)
}

/// So many ids from the front, and what is left behind them. Where memory is wanting for the list, all of its words are
/// read all the same. The cost grows with their number.
pub fn ids<'a>(
    alloc: Global,
    count: usize,
    words: &Words<'a>,
) -> Option<(Result<StateList, NoMemory>, Words<'a>)>
    ensures { AreRead (times (id_until 32) count) words.now result }
{
    let mut ids = Ok(StateList::new(alloc));
    let mut left = words.again();
    for _place in 0..count {
        match left.id(b' ') {
            Some((id, next)) => {
                ids = pushed(ids, Ok(id));
                left = next;
            },
            None => return None,
        }
    }
    Some((ids, left))
}

fn begin_merge(states: Result<StateList, NoMemory>, left: &Words) -> Result<Request, ReadFault>
    ensures { (xs : List StateId) → IfOk states (λ l. l ≡ xs) → IsAnswer (alone (Request.BeginMerge (MergeOf.States xs)) left.now) result }
{
    if !left.is_over() {
        return Err(ReadFault::Malformed);
    }
    match states {
        Ok(states) => Ok(Request::BeginMerge {
            of: MergeOf::States(states),
        }),
        Err(_) => Err(ReadFault::NoMemory),
    }
}

pub fn read_pull(alloc: Global, words: &Words) -> Result<Request, ReadFault>
    ensures { IsAnswer (whole (made Request.Pull (only_if are_counts (rest_of (number_until (2 ^ 32) 32)))) words.now) result }
{
    match list_alone(read_counts(alloc, words)) {
        Ok(counts) => Ok(Request::Pull { counts }),
        Err(fault) => Err(fault),
    }
}

/// The counts of a Pull.
fn read_counts<'a>(
    alloc: Global,
    words: &Words<'a>,
) -> Option<(Result<CountList, NoMemory>, Words<'a>)>
    ensures { AreRead (only_if are_counts (rest_of (number_until (2 ^ 32) 32))) words.now result }
{
    let count = words.count();
    if is_count_of_sites(count) {
        numbers(alloc, count, words)
    } else {
        None
    }
}

fn is_count_of_sites(count: usize) -> bool
    ensures { result ≡ is_within 1 most_sites count }
{
    (1..=usize::from(MAX_SITES)).contains(&count)
}

/// So many numbers of 32 bits.
fn numbers<'a>(
    alloc: Global,
    count: usize,
    words: &Words<'a>,
) -> Option<(Result<CountList, NoMemory>, Words<'a>)>
    ensures { AreRead (times (number_until (2 ^ 32) 32) count) words.now result }
{
    let mut numbers = Ok(CountList::new(alloc));
    let mut left = words.again();
    for _place in 0..count {
        match left.u32(b' ') {
            Some((number, next)) => {
                numbers = pushed(numbers, Ok(number));
                left = next;
            },
            None => return None,
        }
    }
    Some((numbers, left))
}

pub fn read_deliver(alloc: Global, words: &Words) -> Result<Request, ReadFault>
    ensures { IsAnswer (whole (made Request.Deliver (parsed item_from 32)) words.now) result }
{
    match words.until(b' ') {
        Some((word, left)) => {
            if left.is_over() {
                deliver(alloc, word)
            } else {
                Err(ReadFault::Malformed)
            }
        },
        None => Err(ReadFault::Malformed),
    }
}

fn deliver(alloc: Global, word: &[u8]) -> Result<Request, ReadFault>
    ensures { IsAnswer (option_map Request.Deliver (item_from word.now)) result }
{
    things_have_one_spelling();
    spellings_have_their_lengths();
    let size = word.len() / 2;
    if size > MOST_ITEM {
        return Err(ReadFault::Malformed);
    }
    match vec![in alloc; 0; size] {
        Ok(mut room) => deliver_in(alloc, word, room.as_mut_slice()),
        Err(_) => deliver_without_room(alloc, word),
    }
}

/// The same where there is no memory for the spelling: whether it is one is still answered, from the stack.
#[inline(never)]
fn deliver_without_room(alloc: Global, word: &[u8]) -> Result<Request, ReadFault>
    requires { length word.now ≤ 541_299 }
    ensures { IsAnswer (option_map Request.Deliver (item_from word.now)) result }
{
    let mut room = [0; MOST_ITEM];
    deliver_in(alloc, word, &mut room)
}

/// The same with room for the spelling.
fn deliver_in(alloc: Global, word: &[u8], room: &mut [u8]) -> Result<Request, ReadFault>
    requires { length word.now ≤ 2 * length room.old + 1 }
    ensures { IsAnswer (option_map Request.Deliver (item_from word.now)) result }
{
    things_have_one_spelling();
    match read_hex(word, room) {
        Some(count) => match read_item(alloc, &room[..count]) {
            Ok(item) => Ok(Request::Deliver { item }),
            Err(fault) => Err(fault),
        },
        None => Err(ReadFault::Malformed),
    }
}
