//! The answers to what came of one connection.

ghost use Rattle.std.specs.Prelude.{◌≡◌, ◌≤◌, ◌+◌, ◌++◌, true, [], ◌∷◌, length};
ghost use Rattle.tardis_base.specs.Sizes.{longest_frame, piece};
ghost use Rattle.frame_cut.specs.Frames.{frame};
ghost use Rattle.hub.specs.Upkeeps.{noted};
ghost use Rattle.hub.specs.Answering.{Replied, Serves};
ghost use Rattle.hub.specs.Connections.{IsStopped};
ghost use Rattle.hub.specs.Runs.{close};

use crate::upkeeps::Tally;
use crate::waitings::Waiting;
use frame_cut::{Cut, FrameCutter};
use rest_machine::Settling;
use tardis_base::{NO_MEMORY, NoMemory, PIECE, ReplyBuf};

/// The request that closes a session.
const CLOSE: [u8; 1] = [21];

/// Answers the requests that are held, which came through the door, until much waits. Answers whether the frame that is next is
/// too long.
pub(crate) fn answer_held<M: Settling>(
    machine: &mut M,
    door: u8,
    actor: u16,
    cutter: &mut FrameCutter,
    waiting: &mut Waiting,
    reply: &mut ReplyBuf,
    tally: &mut Tally<'_>,
) -> bool
    requires counts { tally.old.count ≤ 4294967295 + length waiting.old }
    ensures served { Serves (M.through door) (M.stands machine.old) (M.stands machine.new) actor cutter.old cutter.new waiting.old waiting.new tally.old tally.new }
    ensures stopped { IsStopped result cutter.new waiting.new }
    ensures opening { M.opening machine.new ≡ M.opening machine.old }
{
    while waiting.len() <= PIECE {
        match cutter.next() {
            Cut::Frame(body) => answer_body(machine, door, actor, body, waiting, reply, tally),
            Cut::NeedMore => return false,
            Cut::Long { .. } => return true,
        }
    }
    false
}

/// Answers one request, as the machine that is seen through the door. Where that finds no memory the reply says so.
pub(crate) fn answer_body<M: Settling>(
    machine: &mut M,
    door: u8,
    actor: u16,
    body: &[u8],
    waiting: &mut Waiting,
    reply: &mut ReplyBuf,
    tally: &mut Tally<'_>,
)
    requires few { length waiting.old ≤ piece }
    requires counts { tally.old.count ≤ 4294967295 + length waiting.old }
    ensures answered { (s : M.Plain) → M.stands machine.old s → Replied (M.through door) (M.stands machine.new) waiting.old waiting.new tally.old tally.new s
        (actor, body.now) }
    ensures counts { tally.new.count ≤ 4294967295 + length waiting.new }
    ensures opening { M.opening machine.new ≡ M.opening machine.old }
{
    match machine.act_through(door, actor, body, reply) {
        Ok(()) => put_reply(reply.bytes(), waiting, tally),
        Err(NoMemory) => put_reply(&NO_MEMORY, waiting, tally),
    }
}

/// Puts a reply behind what waits, and counts it.
fn put_reply(reply: &[u8], waiting: &mut Waiting, tally: &mut Tally<'_>)
    requires few { length waiting.old ≤ piece }
    requires reply { length reply.now ≤ longest_frame }
    requires counts { tally.old.count ≤ 4294967295 + length waiting.old }
    ensures put { waiting.new ≡ waiting.old ++ frame reply.now }
    ensures counted { tally.new ≡ noted tally.old (reply.now ∷ []) }
    ensures counts { tally.new.count ≤ 4294967295 + length waiting.new }
{
    waiting.put(reply);
    tally.note(reply);
}

/// Closes the session of the actor, through no door, and leaves the reply.
pub(crate) fn close_session<M: Settling>(machine: &mut M, actor: u16, reply: &mut ReplyBuf)
    requires { M.plain.is_sure (actor, close) ≡ true }
    ensures stepped { (s : M.Plain) → M.stands machine.old s → M.stands machine.new (M.plain.step s (actor, close)) }
    ensures opening { M.opening machine.new ≡ M.opening machine.old }
{
    let _ = machine.act(actor, &CLOSE, reply);
}
