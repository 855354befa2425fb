//! Which seat the state of each slot has.
//!
//! Versions and notes of keys are kept by the seats of their states. So two states exchange all that they have at once, by
//! exchanging their seats.

ghost use Rattle.std.specs.Prelude.{◌≡◌, ℕ, List, length, nat_lt, IsTrue};
ghost use Rattle.tardis_base.specs.declared.ids.Slot.{Slot};
ghost use Rattle.version_list.specs.Seats.{no_seats, seat_of, slot_of, placed_in, stand_in_tables, other_of, IsPaired};

use std::alloc::Global;
use std::marker::Model;
use tardis_base::{Above, Slot};

/// The seat of each slot, and the slot of each seat. A slot that stands in no table has the seat of its own number.
#[derive(Drop)]
pub(crate) struct Seats {
    /// By slot.
    seats: Vec<Slot>,
    /// By seat.
    slots: Vec<Slot>,
}

impl Model for Seats {
    ghost use Rattle.version_list.specs.Seats.{Seating};

    ghost Value = { Seating };

    ghost view = { λ s. record { seats = s.seats.items; slots = s.slots.items } };
}

impl Seats {
    /// Each slot has the seat of its own number. It takes no memory.
    pub(crate) fn new(alloc: Global) -> Seats
        ensures { result ≡ no_seats }
    {
        Seats {
            seats: Vec::new(alloc),
            slots: Vec::new(alloc),
        }
    }

    /// The seat of the slot, in constant time.
    pub(crate) fn seat(&self, slot: Slot) -> Slot
        ensures { result ≡ seat_of self.now slot }
    {
        placed_in(&self.seats, slot)
    }

    /// The slot of the seat, in constant time.
    pub(crate) fn slot(&self, seat: Slot) -> Slot
        ensures { result ≡ slot_of self.now seat }
    {
        placed_in(&self.slots, seat)
    }

    /// Has the slots and seats below this number stand in the tables, or fewer of them where there is no memory.
    pub(crate) fn cover(&mut self, places: u32)
        ensures seats { (s : Slot) → seat_of self.new s ≡ seat_of self.old s }
        ensures slots { (s : Slot) → slot_of self.new s ≡ slot_of self.old s }
    {
        lengthen(&mut self.seats, places);
        lengthen(&mut self.slots, places);
    }

    /// Whether the two slots can exchange their seats.
    pub(crate) fn can_exchange(&self, a: Slot, b: Slot) -> bool
        ensures { result ≡ stand_in_tables self.now a b }
    {
        let (first, second) = (self.seat(a), self.seat(b));
        stands_in(&self.seats, a)
            && stands_in(&self.seats, b)
            && stands_in(&self.slots, first)
            && stands_in(&self.slots, second)
    }

    /// Gives each of the two slots the seat of the other. It takes no memory, and constant time.
    pub(crate) fn exchange(&mut self, a: Slot, b: Slot)
        requires paired { IsPaired self.old }
        requires tables { IsTrue (stand_in_tables self.old a b) }
        ensures seats { (s : Slot) → seat_of self.new s ≡ seat_of self.old (other_of a b s) }
        ensures slots { (s : Slot) → slot_of self.new s ≡ other_of a b (slot_of self.old s) }
    {
        let (first, second) = (self.seat(a), self.seat(b));
        self.seats.swap(a.0 as usize, b.0 as usize);
        self.slots.swap(first.0 as usize, second.0 as usize);
    }
}

/// A table of states whose slots are the seats.
#[derive(Drop)]
pub(crate) struct Seated<'a, A> {
    pub(crate) dag: &'a A,
    pub(crate) seats: &'a Seats,
}

impl<A: Above> Above for Seated<'_, A> {
    ghost use Rattle.version_list.specs.Seats.{slot_of, is_seated};
    ghost use Rattle.version_list.specs.SeatOrders.{seats-differ};

    ghost is_kept = { λ t seat. is_seated t.seats.now (A.is_kept t.dag.now) seat };

    ghost is_above = { λ t a b. A.is_above t.dag.now (slot_of t.seats.now a) (slot_of t.seats.now b) };

    ghost arrival_of = { λ t seat. A.arrival_of t.dag.now (slot_of t.seats.now seat) };

    ghost arrivals_differ = { λ t a b. seats-differ t.seats.now (A.is_kept t.dag.now) (A.arrival_of t.dag.now) (A.arrivals_differ t.dag.now) a b };

    ghost above_came_first = { λ t a b. A.above_came_first t.dag.now (slot_of t.seats.now a) (slot_of t.seats.now b) };

    fn above(&self, a: Slot, b: Slot) -> bool {
        self.dag.above(self.seats.slot(a), self.seats.slot(b))
    }

    fn arrival(&self, seat: Slot) -> u64 {
        self.dag.arrival(self.seats.slot(seat))
    }
}

/// What the table has at this number; the number itself where it ends before it.
fn placed_in(table: &[Slot], number: Slot) -> Slot
    ensures { result ≡ placed_in table.now number }
{
    if stands_in(table, number) {
        table[number.0 as usize]
    } else {
        number
    }
}

/// Whether the table has something at this number.
fn stands_in(table: &[Slot], number: Slot) -> bool
    ensures { result ≡ nat_lt number.0 (length table.now) }
{
    (number.0 as usize) < table.len()
}

/// Has the table reach up to this number, or less far where there is no memory, and puts itself at each number that is new.
fn lengthen(table: &mut Vec<Slot>, places: u32)
    ensures { (s : Slot) → placed_in table.new.items s ≡ placed_in table.old.items s }
{
    while table.len() < places as usize {
        let own = Slot(table.len() as u32);
        match table.push(own) {
            Ok(()) => {},
            Err(_) => return,
        }
    }
}
