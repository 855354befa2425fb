//! Reading bytes that spell one reply and nothing else.
//!
//! How replies are spelled is stated in `docs/FORMATS.md`. The cost grows with the number of bytes.

ghost use Rattle.std.specs.Prelude.{◌≡◌, ◌<◌, ◌≤◌, ◌↔◌, ◌⊎◌, ℕ, List, None, Some, Err, IfOk, IsTrue};
ghost use Rattle.tardis_base.specs.declared.faults.NoMemory.{NoMemory};
ghost use Rattle.tardis_base.specs.declared.replies.Reply.{Reply};
ghost use Rattle.wire_item.specs.Fronts.{front_of_code};
ghost use Rattle.wire_item.specs.Takings.{Makes, Takes};
ghost use Rattle.wire_talk.specs.Memory.{reply_takes_no_memory};
ghost use Rattle.wire_talk.specs.ReplyReadings.{reply_front, reply_of, reply_rows};
ghost use Rattle.wire_talk.specs.Spelled.{SpellsReply};
ghost use Rattle.wire_talk.specs.declared.reply_codes.TheConstants.{BEGUN, DELETED, EARLY, ENDED, OPENED, RAISED, TIDIED};

use crate::refusal_readers::{id_and_u32, sure};
use crate::reply_field_readers::{
    read_batch, read_committed, read_keys, read_merging, read_refused, read_shown, read_states,
    read_statistics, read_value,
};
use item_bytes::{Reader, whole};
use std::alloc::Global;
use tardis_base::{NoMemory, ReadFault, Reply};
use wire_talk::reply_codes;

/// The reply that the bytes spell. A reply with no key, no value, no batch and no list but that of site lines takes no
/// memory.
pub fn read_reply(alloc: Global, bytes: &[u8]) -> Result<Reply, ReadFault>
    ensures spelled { IfOk result (λ reply. SpellsReply bytes.now reply) }
    ensures malformed { (result ≡ Err ReadFault.Malformed) ↔ (reply_of bytes.now ≡ None) }
    ensures sure { (reply : Reply) → reply_of bytes.now ≡ Some reply → IsTrue (reply_takes_no_memory reply) → result ≡ Err ReadFault.NoMemory → ⊥ }
{
    let mut reader = Reader::new(bytes);
    let taken = reply(alloc, &mut reader);
    whole(taken, reader.is_done())
}

fn reply(alloc: Global, reader: &mut Reader) -> Option<Result<Reply, NoMemory>>
    ensures read { Makes reply_front reader.old result reader.new }
    ensures sure { (r : Reply) (e : NoMemory) → reply_of reader.old ≡ Some r
        → IsTrue (reply_takes_no_memory r) → result ≡ Some (Err e) → ⊥ }
{
    let code = reader.u8()?;
    if code < reply_codes::RAISED {
        low_reply(alloc, code, reader)
    } else {
        high_reply(alloc, code, reader)
    }
}

/// The reply of a code below that of a raised floor.
fn low_reply(alloc: Global, code: u8, reader: &mut Reader) -> Option<Result<Reply, NoMemory>>
    requires { code < RAISED }
    ensures read { Makes (front_of_code code reply_rows) reader.old result reader.new }
    ensures sure { (r : Reply) (rest : List ℕ) (e : NoMemory) → front_of_code code reply_rows reader.old ≡ Some (r, rest)
        → IsTrue (reply_takes_no_memory r) → result ≡ Some (Err e) → ⊥ }
{
    match code {
        reply_codes::OPENED | reply_codes::BEGUN | reply_codes::DELETED | reply_codes::ENDED =>
            sure(read_with_id(code, reader)),
        reply_codes::MERGING => read_merging(alloc, reader),
        reply_codes::VALUE => read_value(alloc, reader),
        reply_codes::ABSENT => Some(Ok(Reply::Absent)),
        reply_codes::DONE => Some(Ok(Reply::Done)),
        reply_codes::COMMITTED => read_committed(alloc, reader),
        reply_codes::STATES => read_states(alloc, reader),
        reply_codes::KEYS => read_keys(alloc, reader),
        _ => None,
    }
}

/// The reply of a code from that of a raised floor on.
fn high_reply(alloc: Global, code: u8, reader: &mut Reader) -> Option<Result<Reply, NoMemory>>
    requires { RAISED ≤ code }
    ensures read { Makes (front_of_code code reply_rows) reader.old result reader.new }
    ensures sure { (r : Reply) (rest : List ℕ) (e : NoMemory) → front_of_code code reply_rows reader.old ≡ Some (r, rest)
        → IsTrue (reply_takes_no_memory r) → result ≡ Some (Err e) → ⊥ }
{
    match code {
        reply_codes::RAISED => sure(read_raised(reader)),
        reply_codes::TIDIED | reply_codes::EARLY => sure(read_with_count(code, reader)),
        reply_codes::STAT => sure(read_statistics(reader)),
        reply_codes::SHOWN => read_shown(alloc, reader),
        reply_codes::BATCH => read_batch(alloc, reader),
        reply_codes::APPLIED => Some(Ok(Reply::Applied)),
        reply_codes::KNOWN => Some(Ok(Reply::Known)),
        reply_codes::CLOSED => Some(Ok(Reply::Closed)),
        reply_codes::REFUSED => read_refused(alloc, reader),
        reply_codes::NO_MEMORY => Some(Ok(Reply::NoMemory)),
        _ => None,
    }
}

/// The reply of a code with one id behind it.
fn read_with_id(code: u8, reader: &mut Reader) -> Option<Reply>
    requires { (code ≡ OPENED) ⊎ ((code ≡ BEGUN) ⊎ ((code ≡ DELETED) ⊎ (code ≡ ENDED))) }
    ensures { Takes (front_of_code code reply_rows) reader.old result reader.new }
{
    let id = reader.id()?;
    match code {
        reply_codes::OPENED => Some(Reply::Opened { ceiling: id }),
        reply_codes::BEGUN => Some(Reply::Begun { state: id }),
        reply_codes::DELETED => Some(Reply::Deleted { writer: id }),
        reply_codes::ENDED => Some(Reply::Ended { state: id }),
        _ => None,
    }
}

/// The reply of a code with one count behind it.
fn read_with_count(code: u8, reader: &mut Reader) -> Option<Reply>
    requires { (code ≡ TIDIED) ⊎ (code ≡ EARLY) }
    ensures { Takes (front_of_code code reply_rows) reader.old result reader.new }
{
    let count = reader.u32()?;
    match code {
        reply_codes::TIDIED => Some(Reply::Tidied { collected: count }),
        reply_codes::EARLY => Some(Reply::Early { have: count }),
        _ => None,
    }
}

/// What stands behind the code of a raised floor.
fn read_raised(reader: &mut Reader) -> Option<Reply>
    ensures { Takes (front_of_code RAISED reply_rows) reader.old result reader.new }
{
    let pair = id_and_u32(reader)?;
    Some(Reply::Raised {
        floor: pair.0,
        number: pair.1,
    })
}
