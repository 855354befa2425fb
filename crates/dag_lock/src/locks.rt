//! The lock, and the passes to it.

ghost use Rattle.std.specs.Prelude.{◌≡◌, ℕ, ◌+◌, ◌-◌, ◌≤◌, ◌<◌, [], ◌∷◌, length, IfOk};
ghost use Rattle.tardis_base.specs.Sizes.{longest_request};
ghost use Rattle.std.specs.List.{AllByRecursion, range_with_len};
ghost use Rattle.tardis_base.specs.Plain.{state_after};
ghost use Rattle.trail_log.specs.Frames.{IsEntry};
ghost use Rattle.dag_lock.specs.Turns.{kept_view, given_view};
ghost use Rattle.dag_lock.specs.Told.{Rests, United};

use crate::bells::Bells;
use crate::passes::Pass;
use crate::rules::{Both, Cut, Gives, Law, Origin, Settle};
use crate::turns::{Seat, TICKET, Words, act, draw, pass_on, take_turn};
use crate::views::View;
use atomic_table::{Refused, Table};
use std::alloc::Global;
use std::marker::Brand;
use std::snapshot::Snapshot;
use std::sync::Wait;
use tardis_base::{Machine, NoMemory, ReplyBuf};
use trail_log::{Acted, Trailed};

/// A machine with its trail, which threads take in turn.
#[derive(Drop)]
pub struct DagLock<M: Machine> {
    table: Table<Trailed<M>, View, Origin<M>, Law, Global>,
    bells: Bells,
    ghost sized: { (table.shared.table_id.words ≡ 2) × (table.shared.table_id.slots ≡ 1) },
}

impl<M: Machine> DagLock<M> {
    ghost use Rattle.dag_lock.specs.Known.{merged};
    ghost use Rattle.dag_lock.specs.Named.{lock_id, start_of, pieces_of};
    ghost use Rattle.dag_lock.specs.Steps.{Ended, Keeps, IsLonger};

    /// The lock over a machine whose trail is empty, and the pass with all its pieces. With no memory the machine is
    /// dropped.
    pub fn new(
        alloc: Global,
        machine: Trailed<M>,
        pieces: u32,
    ) -> Result<(DagLock<M>, Pass), NoMemory>
        requires empty { machine.trail ≡ [] }
        requires some { 0 < pieces }
        ensures made { IfOk result (λ r. (start_of r.0 ≡ machine) × (pieces_of r.0 ≡ pieces)) }
        ensures pass { IfOk result (λ r. r.1 ≡ record { lock = lock_id r.0; seen = []; owned = []; pieces = pieces }) }
    {
        let bells = Bells::new(alloc)?;
        let about = Origin {
            machine: Snapshot::of(&machine),
            pieces,
        };
        let slots = alone(alloc, machine)?;
        match Table::new(alloc, &[0, 0], slots, &about) {
            Ok((table, seat)) => Ok((
                DagLock { table, bells },
                Pass {
                    badge: seat.into_badge(),
                },
            )),
            Err(Refused { slots: _ }) => Err(NoMemory),
        }
    }

    /// Waits for a turn, and then asks the machine.
    pub fn step<R: Wait>(
        &self,
        rt: &R,
        pass: Pass,
        actor: u16,
        request: &[u8],
        out: &mut ReplyBuf,
    ) -> (Pass, Acted)
        requires lock { pass.lock ≡ lock_id self.now }
        requires fits { length request.now ≤ longest_request }
        ensures ended { Ended M.opening M.plain (start_of self.now) pass (actor, request.now) out.new result.0 result.1 }
        ensures pass { Keeps pass result.0 }
        ensures each { AllByRecursion IsEntry result.0.seen }
    {
        let Pass { badge } = pass;
        let mut seat: Seat<M> = badge.into_seat();
        let words = &self.table.shared;
        let ticket = draw(rt, words, &mut seat);
        take_turn::<M, Brand, R>(rt, words, &self.bells, &mut seat, ticket);
        let acted = act(words, &mut seat, actor, request, out);
        pass_on(words, &self.bells, &mut seat, acted);
        (
            Pass {
                badge: seat.into_badge(),
            },
            acted,
        )
    }

    /// Gives so many of the pass's pieces to a second pass, which has seen the same and has no entries of its own.
    pub fn split(&self, pass: Pass, give: u32) -> (Pass, Pass)
        requires lock { pass.lock ≡ lock_id self.now }
        requires some { 0 < give }
        requires left { give < pass.pieces }
        ensures first { result.0 ≡ record { lock = pass.lock; seen = pass.seen; owned = pass.owned; pieces = pass.pieces - give } }
        ensures second { result.1 ≡ record { lock = pass.lock; seen = pass.seen; owned = []; pieces = give } }
    {
        let Pass { badge } = pass;
        let mut seat: Seat<M> = badge.into_seat();
        let given = cut::<M, Brand>(&self.table.shared, &mut seat, give);
        (
            Pass {
                badge: seat.into_badge(),
            },
            Pass {
                badge: given.into_badge(),
            },
        )
    }

    /// Makes one pass of two. Of the lists that they have seen it has seen the longer.
    pub fn join(&self, one: Pass, other: Pass) -> Pass
        requires one { one.lock ≡ lock_id self.now }
        requires other { other.lock ≡ lock_id self.now }
        ensures lock { result.lock ≡ one.lock }
        ensures seen { IsLonger one.seen other.seen result.seen }
        ensures owned { result.owned ≡ merged one.owned other.owned }
        ensures pieces { result.pieces ≡ one.pieces + other.pieces }
    {
        let Pass { badge: first } = one;
        let Pass { badge: second } = other;
        let mut seat: Seat<M> = first.into_seat();
        unite(&self.table.shared, &mut seat, second.into_seat());
        Pass {
            badge: seat.into_badge(),
        }
    }

    /// Takes the lock apart. The pass is whole: each pass that was split off was joined again. So it has seen the whole
    /// trail, and every entry is its own.
    pub fn close(self, pass: Pass) -> Trailed<M>
        requires lock { pass.lock ≡ lock_id self }
        requires whole { pass.pieces ≡ pieces_of self }
        ensures trail { result.trail ≡ pass.seen }
        ensures owned { pass.owned ≡ range_with_len 0 (length result.trail) }
        ensures stands { M.stands result.machine (state_after M.plain (M.opening result.machine) result.trail) }
        ensures opening { M.opening result.machine ≡ M.opening (start_of self).machine }
        ensures most { result.max_trail ≡ (start_of self).max_trail }
    {
        let DagLock { table, bells: _ } = self;
        let Pass { badge } = pass;
        let mut closed = table.close_with(badge.into_seat());
        let trailed = closed.take(0);
        closed.free();
        let _ = trailed.machine(); // for the proof alone
        trailed
    }
}

/// A vector with this thing and no other.
fn alone<T: Drop>(alloc: Global, thing: T) -> Result<Vec<T>, NoMemory>
    ensures { IfOk result (λ things. things.items ≡ thing ∷ []) }
{
    let Ok(mut things) = Vec::with_capacity(alloc, 1) else {
        return Err(NoMemory);
    };
    things.push_reserved(thing);
    Ok(things)
}

/// Gives pieces of a seat to a new one.
fn cut<M: Machine, Z: Gives>(words: &Words<M>, seat: &mut Seat<M>, give: u32) -> Seat<M>
    requires lock { (seat.old.table_id ≡ words.now.table_id) × (words.now.table_id.words ≡ 2) }
    requires give { Z.give ≡ give }
    requires rests { Rests seat.old.me }
    requires some { (0 < give) × (give < seat.old.me.0.pieces) }
    ensures lock { (seat.new.table_id ≡ seat.old.table_id) × (result.table_id ≡ seat.old.table_id) }
    ensures kept { seat.new.me ≡ (kept_view give seat.old.me.0, []) }
    ensures given { result.me ≡ (given_view give seat.old.me.0, []) }
{
    words.split_seat::<Cut<Z>>(seat)
}

/// Makes one seat of two.
fn unite<M: Machine>(words: &Words<M>, seat: &mut Seat<M>, other: Seat<M>)
    requires lock { (seat.old.table_id ≡ words.now.table_id) × (other.table_id ≡ words.now.table_id) × (words.now.table_id.words ≡ 2)
        × (words.now.table_id.slots ≡ 1) }
    requires one { Rests seat.old.me }
    requires other { Rests other.me }
    ensures lock { seat.new.table_id ≡ seat.old.table_id }
    ensures united { United seat.old.me.0 other.me.0 seat.new.me }
{
    words.join_seat::<Both>(seat, other);
    words.load::<Settle>(seat, TICKET);
}
