//! Reading the words of replies that have fields.

ghost use Rattle.std.specs.Prelude.{◌≡◌, ℕ, ◌*◌, ◌+◌, ◌∷◌, ◌≤◌, [], Err, IfOk, List, None, Option, Some, false, codes, length, option_map};
ghost use Rattle.shell_text.specs.Answers.{IsAnswerWhere};
ghost use Rattle.reply_text.specs.Answers.{IsRefusal, IsReply};
ghost use Rattle.shell_text.specs.ReplyTexts.{batch_from, first_ids_text, first_keys_text, from_rows, id_text, named, parents_text, refusal_text};
ghost use Rattle.shell_text.specs.ReplyTexts.{shown_text, site_lines_text, statistics_text, u16_text, u32_text};
ghost use Rattle.shell_text.specs.RequestTexts.{key_text, value_text};
ghost use Rattle.tardis_base.specs.declared.ids.StateId.{StateId};
ghost use Rattle.tardis_base.specs.declared.replies.Refusal.{Refusal};
ghost use Rattle.tardis_base.specs.declared.replies.Reply.{Reply};
ghost use Rattle.text_words.specs.Texts.{by_prefix, parsed, rest_of};
ghost use Rattle.wire_item.specs.Fronts.{alone, both, counted, made, only_if, times, whole};
ghost use Rattle.wire_talk.specs.Memory.{reply_takes_no_memory};
ghost use Rattle.wire_talk.specs.Valid.{are_first_ids, are_first_keys};

use crate::refusal_word_readers::read_refusal;
use crate::reply_list_readers::{children, first_ids, first_keys, lines_of_sites, parents, path};
use item_bytes::read_batch;
use shell_text::{alone, list_alone, value_into};
use std::alloc::Global;
use tardis_base::{
    KeyList, MAX_VALUE, NoMemory, PathList, ReadFault, Refusal, Reply, StateId, StateList, Value,
};
use text_words::{Words, read_hex};
use wire_item::things_have_one_spelling;

/// The answer for a reply that takes no memory.
pub fn sure_reply(read: Option<Reply>) -> Result<Reply, ReadFault>
    ensures { IsReply read result }
{
    match read {
        Some(reply) => Ok(reply),
        None => Err(ReadFault::Malformed),
    }
}

pub fn read_opened(words: &Words) -> Option<Reply>
    ensures { result ≡ whole (made Reply.Opened id_text) words.now }
{
    let (ceiling, left) = words.id(b' ')?;
    alone(Reply::Opened { ceiling }, &left)
}

pub fn read_begun(words: &Words) -> Option<Reply>
    ensures { result ≡ whole (made Reply.Begun id_text) words.now }
{
    let (state, left) = words.id(b' ')?;
    alone(Reply::Begun { state }, &left)
}

pub fn read_deleted(words: &Words) -> Option<Reply>
    ensures { result ≡ whole (made Reply.Deleted id_text) words.now }
{
    let (writer, left) = words.id(b' ')?;
    alone(Reply::Deleted { writer }, &left)
}

pub fn read_ended(words: &Words) -> Option<Reply>
    ensures { result ≡ whole (made Reply.Ended id_text) words.now }
{
    let (state, left) = words.id(b' ')?;
    alone(Reply::Ended { state }, &left)
}

pub fn read_raised(words: &Words) -> Option<Reply>
    ensures { result ≡ whole (made (λ p. Reply.Raised p.0 p.1) (both id_text u32_text)) words.now }
{
    let (floor, left) = words.id(b' ')?;
    let (number, left) = left.u32(b' ')?;
    alone(Reply::Raised { floor, number }, &left)
}

pub fn read_tidied(words: &Words) -> Option<Reply>
    ensures { result ≡ whole (made Reply.Tidied u32_text) words.now }
{
    let (collected, left) = words.u32(b' ')?;
    alone(Reply::Tidied { collected }, &left)
}

pub fn read_early(words: &Words) -> Option<Reply>
    ensures { result ≡ whole (made Reply.Early u32_text) words.now }
{
    let (have, left) = words.u32(b' ')?;
    alone(Reply::Early { have }, &left)
}

pub fn read_merging(alloc: Global, words: &Words) -> Result<Reply, ReadFault>
    ensures { IsReply (whole (made Reply.Merging parents_text) words.now) result }
{
    match list_alone(parents(alloc, words)) {
        Ok(states) => Ok(Reply::Merging { states }),
        Err(fault) => Err(fault),
    }
}

pub fn read_value(alloc: Global, words: &Words) -> Result<Reply, ReadFault>
    ensures { IsReply (whole (made (λ p. Reply.Value p.0 p.1) (both id_text value_text)) words.now) result }
{
    match words.id(b' ') {
        Some((writer, left)) => read_value_of(alloc, writer, &left),
        None => Err(ReadFault::Malformed),
    }
}

/// The value that a state wrote.
fn read_value_of(alloc: Global, writer: StateId, words: &Words) -> Result<Reply, ReadFault>
    ensures { IsReply (whole (made (λ v. Reply.Value writer v) value_text) words.now) result }
{
    let mut room = [0; MAX_VALUE];
    match value_into(words, &mut room) {
        Some((count, left)) => {
            if left.is_over() {
                value_of(alloc, writer, &room[..count])
            } else {
                Err(ReadFault::Malformed)
            }
        },
        None => Err(ReadFault::Malformed),
    }
}

fn value_of(alloc: Global, writer: StateId, value: &[u8]) -> Result<Reply, ReadFault>
    ensures { IsReply (Some (Reply.Value writer value.now)) result }
{
    match Value::new(alloc, value) {
        Ok(value) => Ok(Reply::Value { writer, value }),
        Err(_) => Err(ReadFault::NoMemory),
    }
}

pub fn read_committed(alloc: Global, words: &Words) -> Result<Reply, ReadFault>
    ensures { IsReply (whole (made (λ p. Reply.Committed p.0 p.1) (both id_text (by_prefix from_rows))) words.now) result }
{
    match words.id(b' ') {
        Some((id, left)) => match left.behind(b"from ") {
            Some(left) => read_committed_from(alloc, id, &left),
            None => Err(ReadFault::Malformed),
        },
        None => Err(ReadFault::Malformed),
    }
}

/// The parents of a state that was committed.
fn read_committed_from(alloc: Global, id: StateId, words: &Words) -> Result<Reply, ReadFault>
    ensures { IsReply (whole (made (λ xs. Reply.Committed id xs) parents_text) words.now) result }
{
    match list_alone(parents(alloc, words)) {
        Ok(parents) => Ok(Reply::Committed { id, parents }),
        Err(fault) => Err(fault),
    }
}

pub fn read_states(alloc: Global, words: &Words) -> Result<Reply, ReadFault>
    ensures { IsReply (whole (made (λ p. Reply.States p.0 p.1) first_ids_text) words.now) result }
{
    match words.u32(b' ') {
        Some((total, left)) => read_first_ids(alloc, total, &left),
        None => Err(ReadFault::Malformed),
    }
}

/// The first of so many states.
fn read_first_ids(alloc: Global, total: u32, words: &Words) -> Result<Reply, ReadFault>
    ensures { IsReply (whole (made (λ xs. Reply.States total xs) (only_if (are_first_ids total) (rest_of id_text))) words.now) result }
{
    match list_alone(first_ids(alloc, total, words)) {
        Ok(first) => Ok(Reply::States { total, first }),
        Err(fault) => Err(fault),
    }
}

pub fn read_keys(alloc: Global, words: &Words) -> Result<Reply, ReadFault>
    ensures { IsReply (whole (made (λ p. Reply.Keys p.0 p.1) first_keys_text) words.now) result }
{
    match words.u32(b' ') {
        Some((total, left)) => read_first_keys(alloc, total, &left),
        None => Err(ReadFault::Malformed),
    }
}

/// The first of so many keys.
fn read_first_keys(alloc: Global, total: u32, words: &Words) -> Result<Reply, ReadFault>
    ensures { IsReply (whole (made (λ ks. Reply.Keys total ks) (only_if (are_first_keys total) (rest_of key_text))) words.now) result }
{
    match list_alone(first_keys(alloc, total, words)) {
        Ok(first) => Ok(Reply::Keys { total, first }),
        Err(fault) => Err(fault),
    }
}

pub fn read_statistics(words: &Words) -> Option<Reply>
    ensures { result ≡ whole (made (λ p. Reply.Stat p.0 p.1.0 p.1.1.0 p.1.1.1.0 p.1.1.1.1) statistics_text) words.now }
{
    let (known, left) = words.u64(b' ')?;
    let (kept, left) = named_u32(b"kept ", &left)?;
    let (leaves, left) = named_u32(b"leaves ", &left)?;
    read_sessions_and_sites(known, kept, leaves, &left)
}

/// The rest of the statistics.
fn read_sessions_and_sites(known: u64, kept: u32, leaves: u32, words: &Words) -> Option<Reply>
    ensures { result
        ≡ whole (made (λ p. Reply.Stat known kept leaves p.0 p.1)
        (both (named (codes "sessions ") u16_text) (named (codes "sites ") site_lines_text))) words.now }
{
    let (sessions, left) = named_u16(b"sessions ", words)?;
    let left = left.behind(b"sites ")?;
    let (sites, left) = lines_of_sites(&left)?;
    alone(
        Reply::Stat {
            known,
            kept,
            leaves,
            sessions,
            sites,
        },
        &left,
    )
}

/// The number of 32 bits behind a name.
fn named_u32<'a>(name: &[u8], words: &Words<'a>) -> Option<(u32, Words<'a>)>
    ensures { result ≡ named name.now u32_text words.now }
{
    match words.behind(name) {
        Some(left) => left.u32(b' '),
        None => None,
    }
}

/// The number of 16 bits behind a name.
fn named_u16<'a>(name: &[u8], words: &Words<'a>) -> Option<(u16, Words<'a>)>
    ensures { result ≡ named name.now u16_text words.now }
{
    match words.behind(name) {
        Some(left) => left.u16(b' '),
        None => None,
    }
}

pub fn read_shown(alloc: Global, words: &Words) -> Result<Reply, ReadFault>
    ensures { IsReply (whole (made (λ p. Reply.Shown p.0 p.1.0 p.1.1) shown_text) words.now) result }
{
    match words.u64(b' ') {
        Some((arrival, left)) => match left.behind(b"children ") {
            Some(left) => match children(alloc, &left) {
                Some((children, left)) => match left.behind(b"path ") {
                    Some(left) => shown(arrival, children, list_alone(path(alloc, &left))),
                    None => Err(ReadFault::Malformed),
                },
                None => Err(ReadFault::Malformed),
            },
            None => Err(ReadFault::Malformed),
        },
        None => Err(ReadFault::Malformed),
    }
}

fn shown(
    arrival: u64,
    children: Result<StateList, NoMemory>,
    path: Result<PathList, ReadFault>,
) -> Result<Reply, ReadFault>
    ensures { (xs : List StateId) (read : Option (List (StateId × ℕ))) → IfOk children (λ l. l ≡ xs) → IsAnswerWhere (λ _. false) read path
        → IsReply (option_map (λ ps. Reply.Shown arrival xs ps) read) result }
{
    let path = match path {
        Ok(path) => path,
        Err(fault) => {
            drop(children); // for the proof alone
            return Err(fault);
        },
    };
    match children {
        Ok(children) => Ok(Reply::Shown {
            arrival,
            children,
            path,
        }),
        Err(_) => Err(ReadFault::NoMemory),
    }
}

pub fn read_refused(alloc: Global, words: &Words) -> Result<Reply, ReadFault>
    ensures { IsReply (whole (made Reply.Refused refusal_text) words.now) result }
{
    match read_refusal(alloc, words) {
        Ok(refusal) => Ok(Reply::Refused { refusal }),
        Err(fault) => Err(fault),
    }
}

/// The batch of which the word has the spelling in hexadecimal. Where there is no memory for the spelling, it isn't known
/// whether there is such a batch.
pub fn read_batch_word(alloc: Global, words: &Words) -> Result<Reply, ReadFault>
    ensures read { IfOk result (λ reply. whole (made Reply.Batch (parsed batch_from 32)) words.now ≡ Some reply) }
    ensures malformed { result ≡ Err ReadFault.Malformed → whole (made Reply.Batch (parsed batch_from 32)) words.now ≡ None }
{
    match words.until(b' ') {
        Some((word, left)) => {
            if left.is_over() {
                batch(alloc, word)
            } else {
                Err(ReadFault::Malformed)
            }
        },
        None => Err(ReadFault::Malformed),
    }
}

fn batch(alloc: Global, word: &[u8]) -> Result<Reply, ReadFault>
    ensures read { IfOk result (λ reply. option_map Reply.Batch (batch_from word.now) ≡ Some reply) }
    ensures malformed { result ≡ Err ReadFault.Malformed → option_map Reply.Batch (batch_from word.now) ≡ None }
{
    match vec![in alloc; 0; word.len() / 2] {
        Ok(mut room) => batch_in(alloc, word, room.as_mut_slice()),
        Err(_) => Err(ReadFault::NoMemory),
    }
}

/// The same, with room for the spelling.
fn batch_in(alloc: Global, word: &[u8], room: &mut [u8]) -> Result<Reply, ReadFault>
    requires { length word.now ≤ 2 * length room.old + 1 }
    ensures read { IfOk result (λ reply. option_map Reply.Batch (batch_from word.now) ≡ Some reply) }
    ensures malformed { result ≡ Err ReadFault.Malformed → option_map Reply.Batch (batch_from word.now) ≡ None }
{
    things_have_one_spelling();
    match read_hex(word, room) {
        Some(count) => match read_batch(alloc, &room[..count]) {
            Ok(batch) => Ok(Reply::Batch { batch }),
            Err(fault) => Err(fault),
        },
        None => Err(ReadFault::Malformed),
    }
}
