//! All slots of a table: those of the kept states in arrival order, and those in which none is kept.

ghost use Rattle.std.specs.Prelude.{◌≡◌, ℕ, ◌+◌, ◌<◌, ◌++◌, [], ◌∷◌, take, drop, slice_get, slice_index_or, IfOk, OnOk};
ghost use Rattle.tardis_base.specs.declared.ids.Slot.{Slot};
ghost use Rattle.state_dag.specs.Nodes.{slot_after_all, with_slot};

use shift_list::ShiftList;
use std::alloc::Global;
use std::collections::VecDeque;
use std::marker::Model;
use tardis_base::{NoMemory, Slot};

/// The slots of the kept states in arrival order, and those in which no state is kept, as they were left.
///
/// There is room for each slot of a kept state among the others, so that a state goes without memory.
#[derive(Drop)]
pub struct SlotOrder {
    kept: ShiftList<Slot>,
    free: VecDeque<Slot>,
}

impl Model for SlotOrder {
    ghost use Rattle.std.specs.Prelude.{◌+◌, ◌-◌, ◌≤◌, ◌++◌, length, min};
    ghost use Rattle.std.specs.VecDeque.{deque_len, deque_capacity};
    ghost use Rattle.state_dag.specs.Slots.{Slots};

    ghost Value = { Slots };

    ghost view = { λ s. record {
      items = s.kept.items ++ s.free.items;
      used = length s.kept.items;
      room = min s.kept.room (deque_capacity s.free - (length s.kept.items + deque_len s.free));
    } };

    ghost invariant = { λ s. length s.kept.items + deque_len s.free ≤ deque_capacity s.free };
}

impl SlotOrder {
    /// The slot of the root, where no other state is kept yet.
    pub fn new(alloc: Global) -> Result<SlotOrder, NoMemory>
        ensures items { IfOk result (λ order. order.items ≡ record { 0 = 0 } ∷ []) }
        ensures used { IfOk result (λ order. order.used ≡ 1) }
    {
        let mut kept = ShiftList::with_capacity(alloc, 1)?;
        kept.push_reserved(Slot(0));
        let free = VecDeque::with_capacity(alloc, 1)?;
        Ok(SlotOrder { kept, free })
    }

    /// The slots of the kept states in arrival order. They are lent, in constant time.
    pub fn kept(&self) -> &[Slot]
        ensures { result.now ≡ take self.now.used self.now.items }
    {
        self.kept.as_slice()
    }

    /// The slot that was left first of those in which no state is kept, if there is one, in constant time.
    pub fn first_free(&self) -> Option<Slot>
        ensures { result ≡ slice_get self.now.items self.now.used }
    {
        self.free.front().copied()
    }

    /// Makes room for one more kept state. With no memory all stays.
    ///
    /// Over many calls it takes constant time each, and as many moves as states went that were kept for long.
    pub fn reserve(&mut self) -> Result<(), NoMemory>
        ensures items { self.new.items ≡ self.old.items }
        ensures used { self.new.used ≡ self.old.used }
        ensures room { OnOk result (0 < self.new.room) }
    {
        self.kept.reserve()?;
        self.free.reserve(self.kept.as_slice().len() + 1)?;
        Ok(())
    }

    /// Keeps one more state, the last that arrived, at this slot: that which was left first, or else the next number. It takes
    /// no memory, and constant time.
    pub fn keep(&mut self, slot: Slot)
        requires slot { slot ≡ slot_after_all self.old.items self.old.used }
        requires room { 0 < self.old.room }
        ensures items { self.new.items ≡ with_slot self.old.items self.old.used slot }
        ensures used { self.new.used ≡ self.old.used + 1 }
    {
        let _ = self.free.pop_front();
        self.kept.push_reserved(slot);
    }

    /// Moves the slot at the place, of a state that goes, behind all others.
    ///
    /// It takes no memory. The cost grows with the number of the states that arrived before this one, or after it, whichever
    /// is less.
    pub fn leave(&mut self, place: usize)
        requires { place < self.old.used }
        ensures items { (d : Slot) → self.new.items
            ≡ take place self.old.items ++ drop (place + 1) self.old.items ++ slice_index_or self.old.items place d ∷ [] }
        ensures used { self.new.used + 1 ≡ self.old.used }
    {
        let slot = self.kept.remove(place);
        self.free.push_back_reserved(slot);
    }
}
