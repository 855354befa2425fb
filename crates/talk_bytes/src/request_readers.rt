//! Reading bytes that spell one request and nothing else.
//!
//! How requests are spelled is stated in `docs/FORMATS.md`. The cost grows with the number of bytes.

ghost use Rattle.std.specs.Prelude.{◌≡◌, ◌≤◌, ◌↔◌, ◌⊎◌, None, Some, Err, IfOk, IsTrue};
ghost use Rattle.tardis_base.specs.declared.faults.NoMemory.{NoMemory};
ghost use Rattle.tardis_base.specs.declared.requests.Request.{Request};
ghost use Rattle.wire_item.specs.Fronts.{front_of_code, made};
ghost use Rattle.wire_item.specs.Readings.{u16_front};
ghost use Rattle.wire_item.specs.Takings.{Makes, Takes};
ghost use Rattle.wire_talk.specs.Codes.{code_of};
ghost use Rattle.wire_talk.specs.Memory.{takes_no_memory};
ghost use Rattle.wire_talk.specs.RequestReadings.{request_front, request_of, request_rows};
ghost use Rattle.wire_talk.specs.Spelled.{SpellsRequest};
ghost use Rattle.wire_talk.specs.declared.request_codes.TheConstants.{BEGIN, CEILING, COMMIT, RAISE, SHOW};

use crate::lent_requests::{lent_fields, owned};
use crate::refusal_readers::sure;
use crate::request_field_readers::{
    read_begin_merge, read_conflicts, read_deliver, read_get_for, read_open, read_pull,
};
use item_bytes::{Reader, whole};
use std::alloc::Global;
use tardis_base::{NoMemory, ReadFault, Request};
use wire_talk::request_codes;

/// The request that the bytes spell. A request with no key, no value, no list and no item takes no memory.
pub fn read_request(alloc: Global, bytes: &[u8]) -> Result<Request, ReadFault>
    ensures spelled { IfOk result (λ q. SpellsRequest bytes.now q) }
    ensures malformed { (result ≡ Err ReadFault.Malformed) ↔ (request_of bytes.now ≡ None) }
    ensures sure { (q : Request) → request_of bytes.now ≡ Some q → IsTrue (takes_no_memory q) → result ≡ Err ReadFault.NoMemory → ⊥ }
{
    let mut reader = Reader::new(bytes);
    let taken = request(alloc, &mut reader);
    whole(taken, reader.is_done())
}

fn request(alloc: Global, reader: &mut Reader) -> Option<Result<Request, NoMemory>>
    ensures read { Makes request_front reader.old result reader.new }
    ensures sure { (q : Request) (e : NoMemory) → request_of reader.old ≡ Some q → IsTrue (takes_no_memory q) → result ≡ Some (Err e) → ⊥ }
{
    let code = reader.u8()?;
    fields(alloc, code, reader)
}

/// What stands behind the code.
fn fields(alloc: Global, code: u8, reader: &mut Reader) -> Option<Result<Request, NoMemory>>
    ensures read { Makes (front_of_code code request_rows) reader.old result reader.new }
    ensures sure { (q : Request) (e : NoMemory) → code_of q ≡ code → IsTrue (takes_no_memory q) → result ≡ Some (Err e) → ⊥ }
{
    match code {
        request_codes::OPEN => sure(read_open(reader)),
        request_codes::BEGIN..=request_codes::COMMIT => read_owned(alloc, code, reader),
        request_codes::ABORT => Some(Ok(Request::Abort)),
        request_codes::BEGIN_MERGE => read_begin_merge(alloc, reader),
        request_codes::FORK_POINTS => Some(Ok(Request::ForkPoints)),
        request_codes::CONFLICTS => read_conflicts(alloc, reader),
        request_codes::GET_FOR => read_get_for(alloc, reader),
        request_codes::CEILING | request_codes::RAISE | request_codes::SHOW => sure(read_with_id(
            code, reader,
        )),
        request_codes::RAISE_AUTO => Some(Ok(Request::RaiseAuto)),
        request_codes::TIDY => sure(read_tidy(reader)),
        request_codes::STAT => Some(Ok(Request::Stat)),
        request_codes::LEAVES => Some(Ok(Request::Leaves)),
        request_codes::PULL => read_pull(alloc, reader),
        request_codes::DELIVER => read_deliver(alloc, reader),
        request_codes::CLOSE => Some(Ok(Request::Close)),
        request_codes::SETTLE => Some(Ok(Request::Settle)),
        _ => None,
    }
}

/// What stands behind the code of a request that could be lent, with a key and a value of its own.
fn read_owned(alloc: Global, code: u8, reader: &mut Reader) -> Option<Result<Request, NoMemory>>
    requires from { BEGIN ≤ code }
    requires to { code ≤ COMMIT }
    ensures read { Makes (front_of_code code request_rows) reader.old result reader.new }
    ensures sure { (q : Request) (e : NoMemory) → code_of q ≡ code → IsTrue (takes_no_memory q) → result ≡ Some (Err e) → ⊥ }
{
    let lent = lent_fields(code, reader)?;
    Some(owned(alloc, lent))
}

/// What stands behind the code of a request to tidy.
fn read_tidy(reader: &mut Reader) -> Option<Request>
    ensures { Takes (made Request.Tidy u16_front) reader.old result reader.new }
{
    let n = reader.u16()?;
    Some(Request::Tidy { n })
}

/// What stands behind the code of a request about one state.
fn read_with_id(code: u8, reader: &mut Reader) -> Option<Request>
    requires { (code ≡ CEILING) ⊎ ((code ≡ RAISE) ⊎ (code ≡ SHOW)) }
    ensures { Takes (front_of_code code request_rows) reader.old result reader.new }
{
    let state = reader.id()?;
    match code {
        request_codes::CEILING => Some(Request::Ceiling { state }),
        request_codes::RAISE => Some(Request::Raise { state }),
        request_codes::SHOW => Some(Request::Show { state }),
        _ => None,
    }
}
