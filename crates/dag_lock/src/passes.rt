//! What a thread steps a lock with.

use crate::views::View;
use atomic_table::Badge;
use std::marker::Model;

/// A pass to one lock. It takes no memory at all: it is seen as the entries of the trail that it has seen, the places
/// of those that are its own, and a number of pieces, which it can share with further passes.
#[derive(Drop)]
pub struct Pass {
    pub(crate) badge: Badge<View>,
}

impl Model for Pass {
    ghost use Rattle.dag_lock.specs.Known.{Known};

    ghost Value = { Known };

    ghost use Rattle.dag_lock.specs.Badges.{known, IsLive};

    ghost view = { λ p. known p.badge };

    ghost invariant = { λ p. IsLive p.badge };
}
