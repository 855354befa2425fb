//! The body of a group that is to come.

ghost use Rattle.std.specs.Prelude.{◌≡◌, ◌+◌, ◌≤◌, ◌++◌, [], length, true, false, IfOk, IsOk, OnOk, OnErr};
ghost use Rattle.log_groups.specs.Items.{longest_body};
ghost use Rattle.rest_machine.specs.Rests.{most_lasting};

use log_groups::MAX_BODY;
use rest_machine::{MAX_LASTING, Resting, Shortening};
use std::alloc::Global;
use std::marker::Model;
use tardis_base::{NoMemory, ReplyBuf};

/// Bytes of a body, in room that was taken once.
#[derive(Drop)]
pub struct Body {
    bytes: Vec<u8>,
}

impl Model for Body {
    ghost use Rattle.std.specs.Prelude.{List, ℕ, ◌≤◌, length, vec_capacity};
    ghost use Rattle.log_groups.specs.Items.{longest_body};

    ghost Value = { List ℕ };

    ghost view = { λ b. b.bytes.items };

    ghost invariant = { λ b. (length b.bytes.items ≤ longest_body) × (longest_body ≤ vec_capacity b.bytes) };
}

impl Body {
    /// No bytes. It takes all its room now, and none later.
    pub(crate) fn new(alloc: Global) -> Result<Body, NoMemory>
        ensures { IfOk result (λ body. body ≡ []) }
    {
        match Vec::with_capacity(alloc, MAX_BODY) {
            Ok(bytes) => Ok(Body { bytes }),
            Err(_) => Err(NoMemory),
        }
    }

    pub(crate) fn bytes(&self) -> &[u8]
        ensures bytes { result.now ≡ self.now }
        ensures room { length result.now ≤ longest_body }
    {
        self.bytes.as_slice()
    }

    pub(crate) fn len(&self) -> usize
        ensures { result ≡ length self.now }
    {
        self.bytes.len()
    }

    /// Whether the most that lasts of one request finds room.
    pub(crate) fn has_room(&self) -> bool
        ensures { result ≡ true → length self.now + most_lasting ≤ longest_body }
    {
        self.bytes.len() + MAX_LASTING <= MAX_BODY
    }

    /// Forgets the bytes, and keeps the room.
    pub(crate) fn clear(&mut self)
        ensures { self.new ≡ [] }
    {
        self.bytes.clear();
    }

    /// Has the machine answer, and puts what lasts behind the bytes.
    pub(crate) fn act<M: Resting>(
        &mut self,
        machine: &mut M,
        actor: u16,
        request: &[u8],
        out: &mut ReplyBuf,
    ) -> Result<(), NoMemory>
        requires room { length self.old + most_lasting ≤ longest_body }
        ensures reply { OnOk result ((s : M.Plain) → M.stands machine.old s → out.new ≡ M.plain.reply s (actor, request.now)) }
        ensures step { OnOk result ((s : M.Plain) → M.stands machine.old s → M.stands machine.new (M.plain.step s (actor, request.now))) }
        ensures same { OnErr result ((s : M.Plain) → M.stands machine.old s → M.stands machine.new s) }
        ensures empty { OnErr result (out.new ≡ []) }
        ensures sure { M.plain.is_sure (actor, request.now) ≡ true → IsOk result }
        ensures lasts { OnOk result ((s : M.Plain) → M.stands machine.old s → self.new ≡ self.old ++ M.lasting s (actor, request.now)) }
        ensures nothing { OnErr result (self.new ≡ self.old) }
        ensures opening { M.opening machine.new ≡ M.opening machine.old }
    {
        machine.act_lasting(actor, request, out, &mut self.bytes)
    }

    /// Puts the thing of this number of a machine's plan behind the bytes.
    pub(crate) fn put_planned<M: Shortening>(&mut self, machine: &M, plan: &M::Plan, number: usize)
        requires { length self.old + most_lasting ≤ longest_body }
    {
        machine.put_planned(plan, number, &mut self.bytes);
    }
}
