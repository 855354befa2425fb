//! The steps of one turn: a ticket is drawn, its turn is waited for, the machine acts, and the turn is passed on.

ghost use Rattle.std.specs.Prelude.{◌≡◌, ◌≤◌, ◌<◌, [], ◌∷◌, length};
ghost use Rattle.tardis_base.specs.Sizes.{longest_request};
ghost use Rattle.atomic_table.specs.Table.{rest};
ghost use Rattle.trail_log.specs.Trail.{Kept};
ghost use Rattle.dag_lock.specs.Known.{Begins};
ghost use Rattle.dag_lock.specs.Turns.{knows};
ghost use Rattle.dag_lock.specs.Told.{Rests, Awaits, Took, Holds, Returns, passed};
ghost use Rattle.dag_lock.specs.Steps.{IsOfLock, Acts};
ghost use Rattle.dag_lock.specs.declared.views.Stage.TheVariants.{Waits, Takes};

use crate::bells::Bells;
use crate::rules::{Add, Draw, Keep, Kin, Law, Look, Origin};
use crate::views::View;
use atomic_table::Shared;
use std::hint::spin_loop;
use std::sync::Wait;
use tardis_base::{Machine, ReplyBuf};
use trail_log::{Acted, Trailed};

pub(crate) type Seat<M> = atomic_table::Seat<Trailed<M>, View>;

pub(crate) type Words<M> = Shared<Trailed<M>, View, Origin<M>, Law>;

/// The word with the ticket that is drawn next.
pub(crate) const TICKET: usize = 0;

/// The word with the ticket that is served.
pub(crate) const SERVING: usize = 1;

/// How often a pass looks before it sleeps.
const LOOKS: u32 = 100;

/// Draws the next ticket.
pub(crate) fn draw<M: Machine, R: Wait>(rt: &R, words: &Words<M>, seat: &mut Seat<M>) -> u64
    requires lock { (seat.old.table_id ≡ words.now.table_id) × (words.now.table_id.words ≡ 2) × (words.now.table_id.slots ≡ 1) }
    requires rests { Rests seat.old.me }
    ensures lock { seat.new.table_id ≡ seat.old.table_id }
    ensures drawn { seat.new.me ≡ (knows (Waits result) seat.old.me.0.seen seat.old.me.0.owned seat.old.me.0.pieces, seat.old.me.1) }
{
    for _ in rt.forever() {
        let next = words.peek(TICKET);
        if next < u64::MAX {
            let found = words.compare_exchange::<Draw>(seat, TICKET, next, next + 1);
            if found == next {
                return next;
            }
        }
    }
    unreachable!()
}

/// Waits until the ticket is served, and takes the machine.
pub(crate) fn take_turn<M: Machine, Z: Kin<Trailed<M>>, R: Wait>(
    rt: &R,
    words: &Words<M>,
    bells: &Bells,
    seat: &mut Seat<M>,
    ticket: u64,
)
    requires lock { (seat.old.table_id ≡ words.now.table_id) × (words.now.table_id.words ≡ 2) × (words.now.table_id.slots ≡ 1) }
    requires waits { Awaits ticket seat.old.me }
    requires kin { (x : Kept M) → IsOfLock M.opening M.plain words.now.key.machine.value x → Z.is_of x }
    ensures lock { seat.new.table_id ≡ seat.old.table_id }
    ensures took { Took Z.is_of seat.old.me ticket seat.new.me }
{
    let mut looks = 0;
    for _ in rt.forever() {
        let serving = words.load::<Look<Z>>(seat, SERVING);
        if serving == ticket {
            return;
        }
        looks = pause(rt, words, bells, looks, ticket);
    }
    unreachable!()
}

/// Waits a little, and after so many looks until the ticket's bell rings. The answer counts the looks.
fn pause<M: Machine, R: Wait>(
    rt: &R,
    words: &Words<M>,
    bells: &Bells,
    looks: u32,
    ticket: u64,
) -> u32
    requires { words.now.table_id.words ≡ 2 }
{
    if looks < LOOKS {
        spin_loop();
        return looks + 1;
    }
    bells.sleep(rt, ticket, || words.peek(SERVING) == ticket);
    looks
}

/// The machine that the pass has taken acts.
pub(crate) fn act<M: Machine>(
    words: &Words<M>,
    seat: &mut Seat<M>,
    actor: u16,
    request: &[u8],
    out: &mut ReplyBuf,
) -> Acted
    requires lock { seat.old.table_id ≡ words.now.table_id }
    requires holds { Holds seat.old.me (λ x. Unit {0}) }
    requires fits { length request.now ≤ longest_request }
    ensures lock { seat.new.table_id ≡ seat.old.table_id }
    ensures view { seat.new.me.0 ≡ seat.old.me.0 }
    ensures acts { Holds seat.old.me (λ x. Holds seat.new.me (λ y. Acts M.opening M.plain (actor, request.now) result out.new x y)) }
{
    let machine = seat.slot_mut(words, 0);
    let acted = machine.act(actor, request, out);
    machine.entries_fit();
    acted
}

/// Puts the machine back and passes the turn on. The pass whose turn it is then is woken, where it sleeps.
pub(crate) fn pass_on<M: Machine>(words: &Words<M>, bells: &Bells, seat: &mut Seat<M>, acted: Acted)
    requires lock { (seat.old.table_id ≡ words.now.table_id) × (words.now.table_id.words ≡ 2) × (words.now.table_id.slots ≡ 1) }
    requires turn { Returns (IsOfLock M.opening M.plain words.now.key.machine.value) acted seat.old.me }
    ensures lock { seat.new.table_id ≡ seat.old.table_id }
    ensures passed { seat.new.me ≡ passed acted seat.old.me }
{
    let served = put_back(words, seat, acted);
    bells.ring(served.wrapping_add(1));
}

/// Puts the machine back, and answers the ticket that was served.
fn put_back<M: Machine>(words: &Words<M>, seat: &mut Seat<M>, acted: Acted) -> u64
    requires lock { (seat.old.table_id ≡ words.now.table_id) × (words.now.table_id.words ≡ 2) × (words.now.table_id.slots ≡ 1) }
    requires turn { Returns (IsOfLock M.opening M.plain words.now.key.machine.value) acted seat.old.me }
    ensures lock { seat.new.table_id ≡ seat.old.table_id }
    ensures passed { seat.new.me ≡ passed acted seat.old.me }
{
    match acted {
        Acted::Done => words.fetch_add::<Add>(seat, SERVING, 1),
        _ => words.fetch_add::<Keep>(seat, SERVING, 1),
    }
}
