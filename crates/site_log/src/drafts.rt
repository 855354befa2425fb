//! The log of a shorter history, before it is put on a disk.

ghost use Rattle.std.specs.Prelude.{◌≡◌, ◌+◌, ◌≤◌, ◌++◌, [], ◌∷◌, ℕ, List, true, Ok, IfOk, length};
ghost use Rattle.rest_machine.specs.Rests.{most_lasting};
ghost use Rattle.log_groups.specs.Items.{longest_body};
ghost use Rattle.site_log.specs.Drafts.{guards_of, IsDraft, HasDraft, HasGuards, FindsShorter};

use crate::bodies::Body;
use crate::texts::front_text;
use log_groups::{LogFront, group_laws, put_group};
use rest_machine::{Resting, Shortening};
use std::alloc::Global;
use tardis_base::NoMemory;

/// The most groups without things that stand behind those of a shorter history: 8,704 bytes at least.
const MAX_GUARDS: u64 = 512;

/// The text of a log so far, of so many groups; a machine that took their bodies back; and the body of the next group.
#[derive(Drop)]
pub(crate) struct Draft<M: Resting> {
    pub(crate) machine: M,
    pub(crate) body: Body,
    pub(crate) text: Vec<u8>,
    pub(crate) number: u64,
}

/// Drafts a log that is as short as can be and brings a machine that opens to rest as this one does; `None`, where the machine's plan
/// doesn't. Behind the groups of the plan there are as many without things as `before`, the length of the old text, has KiB, 512 at
/// most. It takes memory for a second machine and for the whole text, and time as they grow.
pub(crate) fn draft_log<M: Shortening>(
    alloc: Global,
    machine: &M,
    front: &LogFront,
    before: u64,
) -> Result<Option<Draft<M>>, NoMemory>
    ensures { IfOk result (λ found. FindsShorter M.Resting (guards_of before) machine.now front.now found) }
{
    let plan = machine.plan()?;
    match begun(alloc, machine, front) {
        Ok(draft) => finished(draft, machine, &plan, front, guards_for(before)),
        Err(NoMemory) => Err(NoMemory),
    }
}

/// How many groups without things stand behind a log that was so long.
fn guards_for(before: u64) -> u64
    ensures { result ≡ guards_of before }
{
    MAX_GUARDS.min(before / 1024)
}

/// A log without groups, and a machine that opens as this one did.
fn begun<M: Shortening>(alloc: Global, machine: &M, front: &LogFront) -> Result<Draft<M>, NoMemory>
    ensures { IfOk result (λ draft. HasDraft M.Resting (M.opening machine.now) front.now draft) }
{
    match machine.reopened() {
        Ok(second) => Draft::new(alloc, second, front),
        Err(NoMemory) => Err(NoMemory),
    }
}

/// Puts all things of a plan into a log, so many groups without things behind them, and asks whether this machine rests as the one
/// that took them back.
fn finished<M: Shortening>(
    draft: Draft<M>,
    machine: &M,
    plan: &M::Plan,
    front: &LogFront,
    guards: u64,
) -> Result<Option<Draft<M>>, NoMemory>
    requires { HasDraft M.Resting (M.opening machine.now) front.now draft }
    ensures { IfOk result (λ found. FindsShorter M.Resting guards machine.now front.now found) }
{
    let mut draft = draft;
    match draft.put_all(machine, plan, front) {
        Ok(true) => {}
        Ok(false) => return Ok(None),
        Err(NoMemory) => return Err(NoMemory),
    }
    match draft.put_guards(front, guards) {
        Ok(true) => {}
        Ok(false) => return Ok(None),
        Err(NoMemory) => return Err(NoMemory),
    }
    if machine.rests_as(&draft.machine) {
        return Ok(Some(draft));
    }
    Ok(None)
}

impl<M: Shortening> Draft<M> {
    /// A log without groups.
    fn new(alloc: Global, machine: M, front: &LogFront) -> Result<Draft<M>, NoMemory>
        ensures { IfOk result (λ draft. (from : M.Plain) → M.stands machine from → HasDraft M.Resting from front.now draft) }
    {
        let body = Body::new(alloc)?;
        let text = front_text(front, alloc)?;
        Ok(Draft {
            machine,
            body,
            text,
            number: 0,
        })
    }

    /// Puts all things of a plan, as many in a group as find room there. `false` means that the machine doesn't take them back.
    fn put_all(&mut self, machine: &M, plan: &M::Plan, front: &LogFront) -> Result<bool, NoMemory>
        ensures empty { result ≡ Ok true → self.new.body ≡ [] }
        ensures has { result ≡ Ok true → (from : M.Plain) → HasDraft M.Resting from front.now self.old → HasDraft M.Resting from front.now self.new }
    {
        for number in 0..M::planned(plan) {
            match self.make_way(front) {
                Ok(true) => {}
                Ok(false) => return Ok(false),
                Err(NoMemory) => return Err(NoMemory),
            }
            self.body.put_planned(machine, plan, number);
        }
        self.end_group(front)
    }

    /// Puts so many groups without things behind the others: what a crash leaves is at the end alone, so damage before them is told as such.
    /// `false` means that the machine doesn't take them back.
    fn put_guards(&mut self, front: &LogFront, guards: u64) -> Result<bool, NoMemory>
        requires { self.old.body ≡ [] }
        ensures { result ≡ Ok true → (from : M.Plain) → HasDraft M.Resting from front.now self.old → HasGuards M.Resting guards from front.now self.new }
    {
        for _guard in 0..guards {
            match self.put_body(front) {
                Ok(true) => {}
                Ok(false) => return Ok(false),
                Err(NoMemory) => return Err(NoMemory),
            }
        }
        Ok(true)
    }

    /// Makes room for one thing more. `false` means that the machine doesn't take back what is there.
    fn make_way(&mut self, front: &LogFront) -> Result<bool, NoMemory>
        ensures room { result ≡ Ok true → length self.new.body + most_lasting ≤ longest_body }
        ensures has { result ≡ Ok true → (from : M.Plain) → HasDraft M.Resting from front.now self.old → HasDraft M.Resting from front.now self.new }
    {
        if self.body.has_room() {
            return Ok(true);
        }
        self.end_group(front)
    }

    /// Has the machine take the body back, and puts its group behind the others. `false` means that it doesn't take it back.
    fn end_group(&mut self, front: &LogFront) -> Result<bool, NoMemory>
        ensures empty { result ≡ Ok true → self.new.body ≡ [] }
        ensures has { result ≡ Ok true → (from : M.Plain) → HasDraft M.Resting from front.now self.old → HasDraft M.Resting from front.now self.new }
    {
        if self.body.len() == 0 {
            return Ok(true);
        }
        self.put_body(front)
    }

    /// Has the machine take the body back, and puts its group behind the others, also where there is no thing in it. `false` means
    /// that it doesn't take it back.
    fn put_body(&mut self, front: &LogFront) -> Result<bool, NoMemory>
        ensures empty { result ≡ Ok true → self.new.body ≡ [] }
        ensures more { result ≡ Ok true → (from : M.Plain) (bodies : List (List ℕ)) → IsDraft M.Resting from front.now self.old bodies
            → IsDraft M.Resting from front.now self.new (bodies ++ self.old.body ∷ []) }
        ensures has { result ≡ Ok true → (from : M.Plain) → HasDraft M.Resting from front.now self.old → HasDraft M.Resting from front.now self.new }
    {
        group_laws(); // for the proof alone
        if self.number == u64::MAX {
            return Ok(false);
        }
        match self.machine.take_back(self.body.bytes()) {
            Ok(true) => {}
            Ok(false) => return Ok(false),
            Err(NoMemory) => return Err(NoMemory),
        }
        match put_group(&mut self.text, &front.life, self.number, self.body.bytes()) {
            Ok(()) => {}
            Err(NoMemory) => return Err(NoMemory),
        }
        self.number += 1;
        self.body.clear();
        Ok(true)
    }
}
