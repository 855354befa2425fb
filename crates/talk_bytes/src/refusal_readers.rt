//! Reading refusals, and the fields that refusals and replies have, from the front of bytes.

ghost use Rattle.std.specs.Prelude.{◌≡◌, ◌⊎◌, ℕ, List, Some, Ok, Err, IfOk, IsTrue, option_map};
ghost use Rattle.tardis_base.specs.declared.faults.NoMemory.{NoMemory};
ghost use Rattle.tardis_base.specs.declared.replies.Excess.{Excess};
ghost use Rattle.tardis_base.specs.declared.replies.Refusal.{Refusal};
ghost use Rattle.wire_item.specs.Fronts.{both, front_of_code, only_if};
ghost use Rattle.wire_item.specs.Readings.{id_front, key_front, u32_front, u8_front};
ghost use Rattle.wire_item.specs.Takings.{Makes, Takes};
ghost use Rattle.wire_talk.specs.Memory.{refusal_takes_no_memory};
ghost use Rattle.wire_talk.specs.ReplyReadings.{excess_front, refusal_front, refusal_rows};
ghost use Rattle.wire_talk.specs.Valid.{is_constraint};
ghost use Rattle.wire_talk.specs.declared.refusal_codes.TheConstants.{BAD_SITE, BAG_FULL, BELOW, BRANCHES, CEILING_BACK, CLOSED_PARENT, COLLECTED, COMPARABLE, CONFLICT_KEY, FLOOR_BACK, FULL, HELD, NOT_READ, NO_SUCH_ITEM, OPEN_CONFLICT, OWN_ITEM, PATH_FULL, SESSIONS_FULL, TOO_MANY, TRAIL_FULL, UNKNOWN, UNSUPPORTED};

use item_bytes::Reader;
use std::alloc::Global;
use tardis_base::{Excess, Key, NoMemory, Refusal, StateId, Value};
use wire_talk::refusal_codes;

/// A refusal. The reader goes on behind it where memory is wanting for it.
pub(crate) fn refusal(reader: &mut Reader<'_>, alloc: Global) -> Option<Result<Refusal, NoMemory>>
    ensures makes { Makes refusal_front reader.old result reader.new }
    ensures sure { (x : Refusal) (rest : List ℕ) (e : NoMemory) → refusal_front reader.old ≡ Some (x, rest)
        → IsTrue (refusal_takes_no_memory x) → result ≡ Some (Err e) → ⊥ }
{
    let code = reader.u8()?;
    match code {
        refusal_codes::CONFLICT_KEY => Some(conflict_key(owned_key(reader, alloc)?)),
        refusal_codes::OPEN_CONFLICT => Some(open_conflict(owned_key(reader, alloc)?)),
        _ => sure(plain_refusal(reader, code)),
    }
}

/// The refusal of a code with no key. It takes no memory.
fn plain_refusal(reader: &mut Reader<'_>, code: u8) -> Option<Refusal>
    requires no_conflict { code ≡ CONFLICT_KEY → ⊥ }
    requires no_open_conflict { code ≡ OPEN_CONFLICT → ⊥ }
    ensures { Takes (front_of_code code refusal_rows) reader.old result reader.new }
{
    match code {
        refusal_codes::MALFORMED => Some(Refusal::Malformed),
        refusal_codes::NOT_OPEN => Some(Refusal::NotOpen),
        refusal_codes::ALREADY_OPEN => Some(Refusal::AlreadyOpen),
        refusal_codes::TXN_OPEN => Some(Refusal::TxnOpen),
        refusal_codes::NO_TXN => Some(Refusal::NoTxn),
        refusal_codes::WRONG_MODE => Some(Refusal::WrongMode),
        refusal_codes::SEQ_END => Some(Refusal::SeqEnd),
        refusal_codes::SESSIONS_FULL | refusal_codes::BAD_SITE => read_with_u16(reader, code),
        refusal_codes::FULL | refusal_codes::NO_SUCH_ITEM | refusal_codes::BAG_FULL =>
            read_with_u32(reader, code),
        refusal_codes::UNKNOWN
        | refusal_codes::NOT_READ
        | refusal_codes::CEILING_BACK
        | refusal_codes::FLOOR_BACK
        | refusal_codes::COLLECTED
        | refusal_codes::CLOSED_PARENT => read_with_id(reader, code),
        refusal_codes::BELOW | refusal_codes::COMPARABLE => read_with_two_ids(reader, code),
        refusal_codes::TOO_MANY => read_too_many(reader),
        refusal_codes::BRANCHES => read_branches(reader),
        refusal_codes::HELD => read_held(reader),
        refusal_codes::PATH_FULL => read_path_full(reader),
        refusal_codes::OWN_ITEM => read_own_item(reader),
        refusal_codes::TRAIL_FULL => read_trail_full(reader),
        refusal_codes::UNSUPPORTED => read_unsupported(reader),
        _ => None,
    }
}

/// The refusal of a code with one number of 16 bits behind it.
fn read_with_u16(reader: &mut Reader<'_>, code: u8) -> Option<Refusal>
    requires { (code ≡ SESSIONS_FULL) ⊎ (code ≡ BAD_SITE) }
    ensures { Takes (front_of_code code refusal_rows) reader.old result reader.new }
{
    let number = reader.u16()?;
    match code {
        refusal_codes::SESSIONS_FULL => Some(Refusal::SessionsFull { n: number }),
        refusal_codes::BAD_SITE => Some(Refusal::BadSite { site: number }),
        _ => None,
    }
}

/// The refusal of a code with one number of 32 bits behind it.
fn read_with_u32(reader: &mut Reader<'_>, code: u8) -> Option<Refusal>
    requires { (code ≡ FULL) ⊎ ((code ≡ NO_SUCH_ITEM) ⊎ (code ≡ BAG_FULL)) }
    ensures { Takes (front_of_code code refusal_rows) reader.old result reader.new }
{
    let number = reader.u32()?;
    match code {
        refusal_codes::FULL => Some(Refusal::Full { kept: number }),
        refusal_codes::NO_SUCH_ITEM => Some(Refusal::NoSuchItem { batches: number }),
        refusal_codes::BAG_FULL => Some(Refusal::BagFull { batches: number }),
        _ => None,
    }
}

/// The refusal of a code with one id behind it.
fn read_with_id(reader: &mut Reader<'_>, code: u8) -> Option<Refusal>
    requires { (code ≡ UNKNOWN) ⊎ ((code ≡ NOT_READ) ⊎ ((code ≡ CEILING_BACK) ⊎ ((code ≡ FLOOR_BACK) ⊎ ((code ≡ COLLECTED) ⊎ (code ≡ CLOSED_PARENT))))) }
    ensures { Takes (front_of_code code refusal_rows) reader.old result reader.new }
{
    let id = reader.id()?;
    match code {
        refusal_codes::UNKNOWN => Some(Refusal::Unknown { state: id }),
        refusal_codes::NOT_READ => Some(Refusal::NotRead { state: id }),
        refusal_codes::CEILING_BACK => Some(Refusal::CeilingBack { ceiling: id }),
        refusal_codes::FLOOR_BACK => Some(Refusal::FloorBack { floor: id }),
        refusal_codes::COLLECTED => Some(Refusal::Collected { state: id }),
        refusal_codes::CLOSED_PARENT => Some(Refusal::ClosedParent { state: id }),
        _ => None,
    }
}

/// The refusal of a code with two ids behind it.
fn read_with_two_ids(reader: &mut Reader<'_>, code: u8) -> Option<Refusal>
    requires { (code ≡ BELOW) ⊎ (code ≡ COMPARABLE) }
    ensures { Takes (front_of_code code refusal_rows) reader.old result reader.new }
{
    let a = reader.id()?;
    let b = reader.id()?;
    match code {
        refusal_codes::BELOW => Some(Refusal::Below {
            state: a,
            ceiling: b,
        }),
        refusal_codes::COMPARABLE => Some(Refusal::Comparable { a, b }),
        _ => None,
    }
}

/// What stands behind the code of too much of something.
fn read_too_many(reader: &mut Reader<'_>) -> Option<Refusal>
    ensures { Takes (front_of_code TOO_MANY refusal_rows) reader.old result reader.new }
{
    let what = excess(reader)?;
    let n = reader.u32()?;
    Some(Refusal::TooMany { what, n })
}

/// What stands behind the code of a commit that would branch.
fn read_branches(reader: &mut Reader<'_>) -> Option<Refusal>
    ensures { Takes (front_of_code BRANCHES refusal_rows) reader.old result reader.new }
{
    let constraint = constraint(reader)?;
    let state = reader.id()?;
    let children = reader.u32()?;
    Some(Refusal::Branches {
        constraint,
        state,
        children,
    })
}

/// What stands behind the code of a state that a session holds.
fn read_held(reader: &mut Reader<'_>) -> Option<Refusal>
    ensures { Takes (front_of_code HELD refusal_rows) reader.old result reader.new }
{
    let session = reader.u16()?;
    let ceiling = reader.id()?;
    Some(Refusal::Held { session, ceiling })
}

/// What stands behind the code of a full path.
fn read_path_full(reader: &mut Reader<'_>) -> Option<Refusal>
    ensures { Takes (front_of_code PATH_FULL refusal_rows) reader.old result reader.new }
{
    let pair = id_and_u32(reader)?;
    Some(Refusal::PathFull {
        state: pair.0,
        pairs: pair.1,
    })
}

/// What stands behind the code of an item of the site's own.
fn read_own_item(reader: &mut Reader<'_>) -> Option<Refusal>
    ensures { Takes (front_of_code OWN_ITEM refusal_rows) reader.old result reader.new }
{
    let site = reader.u16()?;
    let number = reader.u32()?;
    Some(Refusal::OwnItem { site, number })
}

/// What stands behind the code of a full trail.
fn read_trail_full(reader: &mut Reader<'_>) -> Option<Refusal>
    ensures { Takes (front_of_code TRAIL_FULL refusal_rows) reader.old result reader.new }
{
    let bytes = reader.u64()?;
    Some(Refusal::TrailFull { bytes })
}

/// What stands behind the code of an unsupported operation.
fn read_unsupported(reader: &mut Reader<'_>) -> Option<Refusal>
    ensures { Takes (front_of_code UNSUPPORTED refusal_rows) reader.old result reader.new }
{
    let op = reader.u8()?;
    Some(Refusal::Unsupported { op })
}

pub(crate) fn id_and_u32(reader: &mut Reader<'_>) -> Option<(StateId, u32)>
    ensures { Takes (both id_front u32_front) reader.old result reader.new }
{
    let id = reader.id()?;
    let number = reader.u32()?;
    Some((id, number))
}

/// What there would be too many of.
fn excess(reader: &mut Reader<'_>) -> Option<Excess>
    ensures { Takes excess_front reader.old result reader.new }
{
    let code = reader.u8()?;
    match code {
        1 => Some(Excess::WrittenKeys),
        2 => Some(Excess::ReadKeys),
        3 => Some(Excess::MergedStates),
        _ => None,
    }
}

/// The flag of a commit's constraint.
fn constraint(reader: &mut Reader<'_>) -> Option<u8>
    ensures { Takes (only_if is_constraint u8_front) reader.old result reader.new }
{
    let constraint = reader.u8()?;
    if is_constraint(constraint) {
        Some(constraint)
    } else {
        None
    }
}

fn is_constraint(constraint: u8) -> bool
    ensures { result ≡ is_constraint constraint }
{
    constraint == 4 || constraint == 8
}

/// What was taken, where no memory is wanting.
pub(crate) fn sure<T: Drop>(taken: Option<T>) -> Option<Result<T, NoMemory>>
    ensures { result ≡ option_map Ok taken }
{
    Some(Ok(taken?))
}

/// A key of its own.
fn owned_key(reader: &mut Reader<'_>, alloc: Global) -> Option<Result<Key, NoMemory>>
    ensures { Makes key_front reader.old result reader.new }
{
    let key = reader.key()?;
    Some(new_key(alloc, key))
}

pub(crate) fn new_key(alloc: Global, bytes: &[u8]) -> Result<Key, NoMemory>
    ensures { IfOk result (λ key. key ≡ bytes.now) }
{
    match Key::new(alloc, bytes) {
        Ok(key) => Ok(key),
        Err(_) => Err(NoMemory),
    }
}

pub(crate) fn new_value(alloc: Global, bytes: &[u8]) -> Result<Value, NoMemory>
    ensures { IfOk result (λ value. value ≡ bytes.now) }
{
    match Value::new(alloc, bytes) {
        Ok(value) => Ok(value),
        Err(_) => Err(NoMemory),
    }
}

fn conflict_key(key: Result<Key, NoMemory>) -> Result<Refusal, NoMemory>
    ensures { (k : List ℕ) → IfOk key (λ x. x ≡ k) → IfOk result (λ r. r ≡ Refusal.ConflictKey k) }
{
    Ok(Refusal::ConflictKey { key: key? })
}

fn open_conflict(key: Result<Key, NoMemory>) -> Result<Refusal, NoMemory>
    ensures { (k : List ℕ) → IfOk key (λ x. x ≡ k) → IfOk result (λ r. r ≡ Refusal.OpenConflict k) }
{
    Ok(Refusal::OpenConflict { key: key? })
}
