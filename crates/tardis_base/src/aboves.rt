//! How a table of states lends ancestry and arrival to those that keep data by its slots.

ghost use Rattle.std.specs.Prelude.{◌≡◌, ◌≤◌, ℕ, Bool, IsTrue};
ghost use Rattle.tardis_base.specs.declared.ids.Slot.{Slot};

use crate::ids::Slot;

/// The order of the kept states of one table.
pub trait Above {
    ghost is_kept: { Self → Slot → Bool };

    ghost is_above: { Self → Slot → Slot → Bool };

    ghost arrival_of: { Self → Slot → ℕ };

    /// Whether the state of `a` is that of `b` or one of its ancestors.
    fn above(&self, a: Slot, b: Slot) -> bool
        requires first { IsTrue (is_kept self.now a) }
        requires second { IsTrue (is_kept self.now b) }
        ensures { result ≡ is_above self.now a b };

    /// The arrival number of a kept state: how many states came before it.
    fn arrival(&self, slot: Slot) -> u64
        requires { IsTrue (is_kept self.now slot) }
        ensures { result ≡ arrival_of self.now slot };

    ghost arrivals_differ: { (table : Self) (a b : Slot) → IsTrue (is_kept table a) → IsTrue (is_kept table b)
        → arrival_of table a ≡ arrival_of table b → a ≡ b };

    ghost above_came_first: { (table : Self) (a b : Slot) → IsTrue (is_above table a b) → arrival_of table a ≤ arrival_of table b };
}
