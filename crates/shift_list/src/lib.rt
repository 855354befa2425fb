//! A list in one piece, from which an item is taken at the cost of the nearer end.
#![tactic(auto)]

ghost use Rattle.std.specs.Prelude.{◌≡◌, ℕ, ◌+◌, ◌<◌, ◌≤◌, ◌++◌, [], ◌∷◌, length, slice_index_or, slice_set, IfOk, OnOk};
ghost use Rattle.std.specs.List.{insert, remove};

use std::alloc::{AllocError, Global};
use std::marker::Model;
use std::mem;

/// Items in one piece, which are lent as a slice.
///
/// Where an item is taken out, those on the shorter side of it move. So places come free in front, in which blank items stand;
/// there are never more of them than items and one, once room has been made for another item.
#[derive(Drop)]
pub struct ShiftList<T> {
    /// Blank items, and behind them those of the list.
    places: Vec<T>,
    /// How many are blank.
    blank: usize,
}

impl<T> Model for ShiftList<T> {
    ghost use Rattle.std.specs.Prelude.{◌-◌, ◌≤◌, drop, length, vec_len};
    ghost use Rattle.std.specs.Vec.{vec_capacity};
    ghost use Rattle.shift_list.specs.Shifted.{Shifted};

    ghost Value = { Shifted T };

    ghost view = { λ s. record { items = drop s.blank s.places.items; room = vec_capacity s.places - vec_len s.places } };

    ghost invariant = { λ s. s.blank ≤ length s.places.items };
}

impl<T: Default + Drop> ShiftList<T> {
    /// No items, with room for so many.
    pub fn with_capacity(alloc: Global, room: usize) -> Result<ShiftList<T>, AllocError>
        ensures empty { IfOk result (λ list. list.items ≡ []) }
        ensures room { IfOk result (λ list. room ≤ list.room) }
    {
        Ok(ShiftList {
            places: Vec::with_capacity(alloc, room)?,
            blank: 0,
        })
    }

    /// How many items there are, in constant time.
    pub fn len(&self) -> usize
        ensures { result ≡ length self.now.items }
    {
        self.places.len() - self.blank
    }

    /// The items in their order. They are lent, in constant time.
    pub fn as_slice(&self) -> &[T]
        ensures { result.now ≡ self.now.items }
    {
        &self.places[self.blank..]
    }

    /// Makes room for one more item. With no memory all stays.
    ///
    /// Over many calls it takes constant time each, and as many moves as items were taken out in front.
    pub fn reserve(&mut self) -> Result<(), AllocError>
        ensures items { self.new.items ≡ self.old.items }
        ensures room { OnOk result (0 < self.new.room) }
        ensures more { self.old.room ≤ self.new.room }
    {
        if self.len() < self.blank {
            self.close_up();
        }
        self.places.reserve(1)
    }

    /// Gives up the blank places.
    fn close_up(&mut self)
        ensures items { self.new.items ≡ self.old.items }
        ensures more { self.old.room ≤ self.new.room }
    {
        let items = self.len();
        self.places.rotate_left(self.blank);
        self.places.truncate(items);
        self.blank = 0;
    }

    /// Puts the item behind the others. It takes no memory, and constant time.
    pub fn push_reserved(&mut self, item: T)
        requires { 0 < self.old.room }
        ensures items { self.new.items ≡ self.old.items ++ item ∷ [] }
        ensures room { self.new.room + 1 ≡ self.old.room }
    {
        self.places.push_reserved(item);
    }

    /// Takes the item at the place out. It takes no memory. The cost grows with the number of items before it or behind it,
    /// whichever is less.
    pub fn remove(&mut self, place: usize) -> T
        requires { place < length self.old.items }
        ensures item { result ≡ slice_index_or self.old.items place result }
        ensures items { self.new.items ≡ remove self.old.items place }
        ensures more { self.old.room ≤ self.new.room }
    {
        if place < self.len() - place {
            self.remove_in_front(place)
        } else {
            self.places.remove(self.blank + place)
        }
    }

    /// Takes the item at the place out, and moves those before it.
    fn remove_in_front(&mut self, place: usize) -> T
        requires { place < length self.old.items }
        ensures item { result ≡ slice_index_or self.old.items place result }
        ensures items { self.new.items ≡ remove self.old.items place }
        ensures more { self.old.room ≤ self.new.room }
    {
        let first = self.blank;
        self.places[first..first + place + 1].rotate_right(1);
        self.blank += 1;
        mem::replace(&mut self.places[first], T::default())
    }

    /// Puts the item in place of the one that stands there, which is answered. It takes constant time.
    pub fn replace(&mut self, place: usize, item: T) -> T
        requires { place < length self.old.items }
        ensures item { result ≡ slice_index_or self.old.items place result }
        ensures items { self.new.items ≡ slice_set self.old.items place item }
        ensures room { self.new.room ≡ self.old.room }
    {
        let at = self.blank + place;
        mem::replace(&mut self.places[at], item)
    }

    /// Moves the item at the one place to the other, at it or behind. It takes no memory. The cost grows with the number of
    /// items between them.
    pub fn carry(&mut self, from: usize, to: usize)
        requires order { from ≤ to }
        requires within { to < length self.old.items }
        ensures items { (d : T) → self.new.items ≡ insert (remove self.old.items from) to (slice_index_or self.old.items from d) }
        ensures room { self.new.room ≡ self.old.room }
    {
        let first = self.blank + from;
        let end = self.blank + to + 1;
        self.places[first..end].rotate_left(1);
    }
}
