//! The requests that are asked most, lent from the bytes that spell them.
//!
//! A `Request` is as large as the fields of all requests together, and a move of it writes them all. What is read here is
//! small: it has its key and its value by reference.

ghost use Rattle.std.specs.Prelude.{◌≡◌, option_map, Err, IfOk, IfSome, IsSome, IsTrue};
ghost use Rattle.tardis_base.specs.declared.faults.NoMemory.{NoMemory};
ghost use Rattle.tardis_base.specs.declared.requests.EndFlags.{EndFlags};
ghost use Rattle.tardis_base.specs.declared.requests.Request.TheVariants.{Commit, Put as PutKey};
ghost use Rattle.tardis_base.specs.declared.requests.Request.{Request};
ghost use Rattle.wire_item.specs.Fronts.{both, front_of_code, made, only_if};
ghost use Rattle.wire_item.specs.Readings.{key_front, value_front};
ghost use Rattle.wire_item.specs.Takings.{Takes};
ghost use Rattle.talk_bytes.specs.Lent.{is_lendable, request_lent};
ghost use Rattle.wire_talk.specs.Memory.{takes_no_memory};
ghost use Rattle.wire_talk.specs.RequestReadings.{begin_front, commit_front, request_rows};
ghost use Rattle.wire_talk.specs.Spelled.{SpellsRequest};
ghost use Rattle.wire_talk.specs.Valid.{is_commit};

use crate::refusal_readers::{new_key, new_value};
use item_bytes::Reader;
use std::alloc::Global;
use tardis_base::{Begin, EndFlags, NoMemory, Request};
use wire_talk::request_codes;

/// A request to begin, to read, to write or to commit.
#[derive(Clone, Copy)]
pub enum LentRequest<'a> {
    Begin { begin: Begin },
    Get { key: &'a [u8] },
    Put { key: &'a [u8], value: &'a [u8] },
    Delete { key: &'a [u8] },
    Commit { flags: EndFlags, k: u16 },
}

/// The request that the bytes spell, where it is one of these. It takes no memory. After None, `read_request` tells whether
/// another request is spelled.
pub fn read_lent(bytes: &[u8]) -> Option<LentRequest<'_>>
    ensures lent { IfSome result (λ lent. SpellsRequest bytes.now (request_lent lent)) }
    ensures all { (q : Request) → SpellsRequest bytes.now q → IsTrue (is_lendable q) → IsSome result }
{
    let mut reader = Reader::new(bytes);
    let code = reader.u8()?;
    let lent = lent_fields(code, &mut reader)?;
    if reader.is_done() { Some(lent) } else { None }
}

/// What stands behind the code of a request that is lent.
pub fn lent_fields<'a>(code: u8, reader: &mut Reader<'a>) -> Option<LentRequest<'a>>
    ensures { Takes (only_if is_lendable (front_of_code code request_rows)) reader.old (option_map request_lent result) reader.new }
{
    match code {
        request_codes::BEGIN => read_begin(reader),
        request_codes::GET => read_get(reader),
        request_codes::PUT => read_put(reader),
        request_codes::DELETE => read_delete(reader),
        request_codes::COMMIT => read_commit(reader),
        _ => None,
    }
}

/// Where a transaction begins.
fn begin(reader: &mut Reader) -> Option<Begin>
    ensures { Takes begin_front reader.old result reader.new }
{
    match reader.u8()? {
        0 => Some(Begin::Any),
        1 => Some(Begin::Ancestor),
        2 => Some(Begin::Parent),
        3 => Some(Begin::At(reader.id()?)),
        _ => None,
    }
}

fn read_begin<'a>(reader: &mut Reader<'a>) -> Option<LentRequest<'a>>
    ensures { Takes (made Request.Begin begin_front) reader.old (option_map request_lent result) reader.new }
{
    let begin = begin(reader)?;
    Some(LentRequest::Begin { begin })
}

fn read_get<'a>(reader: &mut Reader<'a>) -> Option<LentRequest<'a>>
    ensures { Takes (made Request.Get key_front) reader.old (option_map request_lent result) reader.new }
{
    let key = reader.key()?;
    Some(LentRequest::Get { key })
}

fn read_put<'a>(reader: &mut Reader<'a>) -> Option<LentRequest<'a>>
    ensures { Takes (made (λ p. PutKey p.0 p.1) (both key_front value_front)) reader.old (option_map request_lent result) reader.new }
{
    let key = reader.key()?;
    let value = reader.value()?;
    Some(LentRequest::Put { key, value })
}

fn read_delete<'a>(reader: &mut Reader<'a>) -> Option<LentRequest<'a>>
    ensures { Takes (made Request.Delete key_front) reader.old (option_map request_lent result) reader.new }
{
    let key = reader.key()?;
    Some(LentRequest::Delete { key })
}

fn read_commit<'a>(reader: &mut Reader<'a>) -> Option<LentRequest<'a>>
    ensures { Takes (made (λ p. Commit (record { 0 = p.0 }) p.1) commit_front) reader.old (option_map request_lent result) reader.new }
{
    let flags = reader.u8()?;
    let k = reader.u16()?;
    if is_commit(flags, k) {
        Some(LentRequest::Commit {
            flags: EndFlags(flags),
            k,
        })
    } else {
        None
    }
}

fn is_commit(flags: u8, k: u16) -> bool
    ensures { result ≡ is_commit (record { 0 = flags }) k }
{
    let is_counted = flags & EndFlags::KB.0 == EndFlags::KB.0;
    flags < 16 && (if is_counted { k >= 1 } else { k == 0 })
}

/// The request with a key and a value of its own, which are copied.
pub fn owned(alloc: Global, lent: LentRequest<'_>) -> Result<Request, NoMemory>
    ensures request { IfOk result (λ q. q ≡ request_lent lent.entry) }
    ensures sure { (e : NoMemory) → IsTrue (takes_no_memory (request_lent lent.entry)) → result ≡ Err e → ⊥ }
{
    match lent {
        LentRequest::Begin { begin } => Ok(Request::Begin { begin }),
        LentRequest::Get { key } => {
            let key = new_key(alloc, key)?;
            Ok(Request::Get { key })
        },
        LentRequest::Put { key, value } => {
            let key = new_key(alloc, key)?;
            let value = new_value(alloc, value)?;
            Ok(Request::Put { key, value })
        },
        LentRequest::Delete { key } => {
            let key = new_key(alloc, key)?;
            Ok(Request::Delete { key })
        },
        LentRequest::Commit { flags, k } => Ok(Request::Commit { flags, k }),
    }
}
