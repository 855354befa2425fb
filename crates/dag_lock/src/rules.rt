//! The rule of the lock, and what each of its steps tells. These types are for the proofs alone.

ghost use Rattle.std.specs.Prelude.{ℕ};
ghost use Rattle.dag_lock.specs.Turns.{Turns, knows, kept_view, given_view, joined_view, spent_view};
ghost use Rattle.dag_lock.specs.Told.{drawn, looked, kept, added, settled};
ghost use Rattle.dag_lock.specs.Steps.{IsOfLock};
ghost use Rattle.dag_lock.specs.declared.views.Stage.TheVariants.{Idle};

use crate::views::View;
use atomic_table::{Join, Play, Split, TableRule};
use std::marker::{Brand, PhantomData};
use std::snapshot::Snapshot;
use tardis_base::Machine;
use trail_log::Trailed;

/// What a lock was made with.
#[derive(Drop)]
pub struct Origin<M: Machine> {
    pub machine: Snapshot<Trailed<M>>,
    pub pieces: u32,
}

pub struct Law;

impl<M: Machine> TableRule<Trailed<M>, View, Origin<M>> for Law {
    ghost use Rattle.std.specs.Prelude.{[]};
    ghost use Rattle.dag_lock.specs.Turns.{Turns, knows};
    ghost use Rattle.dag_lock.specs.Steps.{IsOfLock};
    ghost use Rattle.dag_lock.specs.declared.views.Stage.TheVariants.{Idle};

    ghost holds = { λ key s. Turns (IsOfLock M.opening M.plain key.machine.value) key.pieces s };

    ghost first = { λ key. knows Idle [] [] key.pieces };
}

/// A pass draws the next ticket.
pub(crate) struct Draw;

impl<M: Machine> Play<Trailed<M>, View> for Draw {
    ghost then = { drawn };
}

/// Which machines are those of one lock. A call at `Brand` picks it.
pub(crate) trait Kin<X> {
    ghost is_of: { X → Type 0 };
}

impl<X> Kin<X> for Brand {
    ghost is_of = { λ x. Unit {0} };
}

/// A pass looks whether its ticket is served, and then takes the machine.
pub(crate) struct Look<Z> {
    of: PhantomData<Z>,
}

impl<M: Machine, Z: Kin<Trailed<M>>> Play<Trailed<M>, View> for Look<Z> {
    ghost then = { looked Z.is_of };
}

/// A pass puts the machine back, with its trail as it was, and passes the turn on.
pub(crate) struct Keep;

impl<M: Machine> Play<Trailed<M>, View> for Keep {
    ghost then = { kept };
}

/// A pass puts the machine back, with an entry more in its trail, and passes the turn on.
pub(crate) struct Add;

impl<M: Machine> Play<Trailed<M>, View> for Add {
    ghost then = { added };
}

/// A pass that was joined compares the two lists that were seen.
pub(crate) struct Settle;

impl<M: Machine> Play<Trailed<M>, View> for Settle {
    ghost then = { settled };
}

/// How many pieces a pass gives away. A call at `Brand` picks it.
pub(crate) trait Gives {
    ghost give: { ℕ };
}

impl Gives for Brand {
    ghost give = { 0 };
}

pub(crate) struct Cut<Z> {
    of: PhantomData<Z>,
}

impl<Z: Gives> Split<View> for Cut<Z> {
    ghost left = { kept_view Z.give };

    ghost right = { given_view Z.give };
}

pub(crate) struct Both;

impl Join<View> for Both {
    ghost both = { joined_view };

    ghost spent = { spent_view };
}
