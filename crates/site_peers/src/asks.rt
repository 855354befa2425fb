//! Requests of actor 0.

ghost use Rattle.std.specs.Prelude.{◌≡◌, ◌||◌, [], ◌∷◌};
ghost use Rattle.site_peers.specs.Asking.{is_applied as applies, lacks_room as finds_no_room};
ghost use Rattle.site_peers.specs.Turns.{AnswersFrom};

use rest_machine::Settling;
use tardis_base::{NO_MEMORY, NoMemory, ReplyBuf};
use wire_talk::refusal_codes::{FULL, PATH_FULL};
use wire_talk::reply_codes::{APPLIED, REFUSED};

/// The actor of all that isn't asked by a session.
const NOBODY: u16 = 0;

/// Asks the machine as actor 0. Where it finds no memory the reply says so.
pub(crate) fn ask<M: Settling>(machine: &mut M, body: &[u8], reply: &mut ReplyBuf)
    ensures answered { AnswersFrom M.plain (M.stands machine.old) (M.stands machine.new) (body.now ∷ []) (reply.new ∷ []) }
    ensures opening { M.opening machine.new ≡ M.opening machine.old }
{
    match machine.act(NOBODY, body, reply) {
        Ok(()) => {}
        Err(NoMemory) => reply.push(&NO_MEMORY),
    }
}

/// Whether a reply says that an item was applied.
pub(crate) fn is_applied(reply: &[u8]) -> bool
    ensures { result ≡ applies reply.now }
{
    match reply {
        [code, ..] => *code == APPLIED,
        [] => false,
    }
}

/// Whether a reply says that there is no room for an item.
pub(crate) fn lacks_room(reply: &[u8]) -> bool
    ensures { result ≡ finds_no_room reply.now }
{
    match reply {
        [code, why, ..] => *code == REFUSED && (*why == FULL || *why == PATH_FULL),
        _ => false,
    }
}

/// Whether one of both holds.
pub(crate) fn either(one: bool, other: bool) -> bool
    ensures { result ≡ (one || other) }
{
    if one {
        return true;
    }
    other
}
