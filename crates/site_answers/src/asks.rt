//! What bytes ask for.

ghost use Rattle.std.specs.Prelude.{◌≡◌, Some, IsTrue, IsOk, IfOk, IfSome};
ghost use Rattle.tardis_base.specs.declared.requests.Request.{Request};
ghost use Rattle.wire_talk.specs.RequestReadings.{request_of};
ghost use Rattle.talk_bytes.specs.Lent.{request_lent};
ghost use Rattle.plain_site.specs.Step.{is_sure};
ghost use Rattle.site_answers.specs.Asks.{AsksFor};

use std::alloc::Global;
use talk_bytes::{LentRequest, read_lent, read_request};
use tardis_base::{NoMemory, ReadFault, Request};
use wire_talk::talk_has_one_spelling;

/// The request that the bytes spell; None of other bytes, which are malformed.
pub fn asked(alloc: Global, bytes: &[u8]) -> Result<Option<Request>, NoMemory>
    ensures asked { IfOk result (λ asked. AsksFor bytes.now asked) }
    ensures sure { (q : Request) → request_of bytes.now ≡ Some q → IsTrue (is_sure q) → IsOk result }
{
    talk_has_one_spelling();
    match read_request(alloc, bytes) {
        Ok(request) => Ok(Some(request)),
        Err(ReadFault::Malformed) => Ok(None),
        Err(ReadFault::NoMemory) => Err(NoMemory),
    }
}

/// The request that the bytes spell, lent from them, where it is one that can be lent.
pub fn asked_lent(bytes: &[u8]) -> Option<LentRequest<'_>>
    ensures { IfSome result (λ lent. AsksFor bytes.now (Some (request_lent lent))) }
{
    talk_has_one_spelling();
    read_lent(bytes)
}
