//! A short list: its first two items stand in the list itself.
#![tactic(auto)]

ghost use Rattle.std.specs.Prelude.{◌≡◌, ◌+◌, ◌<◌, ◌≤◌, ◌++◌, [], ◌∷◌, length, slice_set, vec_len, vec_capacity, IsOk, IfOk, OnOk, OnErr};

use std::alloc::{AllocError, Global};
use std::marker::Model;

/// How many items a list has room for once it takes memory.
const ROOM: usize = 4;

/// Items that are lent as a slice. The first two take no memory, and of more all stand in one block.
#[derive(Drop)]
pub struct ShortList<T> {
    alloc: Global,
    items: Items<T>,
}

/// Where the items stand.
#[derive(Drop)]
enum Items<T> {
    Empty,
    One([T; 1]),
    Two([T; 2]),
    Many(Vec<T>),
}

impl<T> Model for ShortList<T> {
    ghost use Rattle.short_list.specs.Roomy.{Roomy};
    ghost use Rattle.short_list.specs.Places.{items_in, room_in};

    ghost Value = { Roomy T };

    ghost view = { λ l. record { items = items_in l.items; room = room_in l.items } };
}

impl<T: Copy> ShortList<T> {
    /// No items. It takes no memory, and neither do the first two.
    pub fn new(alloc: Global) -> ShortList<T>
        ensures items { result.items ≡ [] }
        ensures room { result.room ≡ 2 }
    {
        ShortList {
            alloc,
            items: Items::Empty,
        }
    }

    /// How many items there are, in constant time.
    pub fn len(&self) -> usize
        ensures { result ≡ length self.now.items }
    {
        self.as_slice().len()
    }

    /// The items in their order. They are lent, in constant time.
    pub fn as_slice(&self) -> &[T]
        ensures { result.now ≡ self.now.items }
    {
        match &self.items {
            Items::Empty => &[],
            Items::One(items) => items,
            Items::Two(items) => items,
            Items::Many(items) => items.as_slice(),
        }
    }

    /// Puts the item in the place. It takes constant time.
    pub fn set(&mut self, place: usize, item: T)
        requires { place < length self.old.items }
        ensures items { self.new.items ≡ slice_set self.old.items place item }
        ensures room { self.new.room ≡ self.old.room }
    {
        match &mut self.items {
            Items::Empty => {},
            Items::One(items) => put(items, place, item),
            Items::Two(items) => put(items, place, item),
            Items::Many(items) => put(items, place, item),
        }
    }

    /// Puts the item behind the others. It takes memory only where there is no room, and with no memory all stays.
    ///
    /// Over many calls it takes constant time each.
    pub fn push(&mut self, item: T) -> Result<(), AllocError>
        ensures items { OnOk result (self.new.items ≡ self.old.items ++ item ∷ []) }
        ensures room { 0 < self.old.room → self.new.room + 1 ≡ self.old.room }
        ensures sure { 0 < self.old.room → IsOk result }
        ensures unchanged { OnErr result (self.new ≡ self.old) }
    {
        match &mut self.items {
            Items::Empty => self.items = Items::One([item]),
            Items::One(items) => self.items = Items::Two([items[0], item]),
            Items::Two(items) => {
                let mut items = moved(self.alloc, items)?;
                items.push_reserved(item);
                self.items = Items::Many(items);
            },
            Items::Many(items) => {
                make_room(items)?;
                items.push_reserved(item);
            },
        }
        Ok(())
    }

    /// Makes room for one more item, where there is none. With no memory all stays.
    pub fn reserve(&mut self) -> Result<(), AllocError>
        ensures items { self.new.items ≡ self.old.items }
        ensures room { OnOk result (0 < self.new.room) }
        ensures more { self.old.room ≤ self.new.room }
        ensures roomy { 0 < self.old.room → self.new ≡ self.old }
        ensures sure { 0 < self.old.room → IsOk result }
        ensures unchanged { OnErr result (self.new ≡ self.old) }
    {
        match &mut self.items {
            Items::Empty | Items::One(_) => Ok(()),
            Items::Two(items) => {
                self.items = Items::Many(moved(self.alloc, items)?);
                Ok(())
            },
            Items::Many(items) => make_room(items),
        }
    }
}

/// Puts the item in the place.
fn put<T: Copy>(items: &mut [T], place: usize, item: T)
    requires { place < length items.old }
    ensures { items.new ≡ slice_set items.old place item }
{
    items[place] = item;
}

/// The two items in a block of memory, with room for more.
fn moved<T: Copy>(alloc: Global, items: &[T; 2]) -> Result<Vec<T>, AllocError>
    ensures items { IfOk result (λ list. list.items ≡ items.now) }
    ensures room { IfOk result (λ list. vec_len list < vec_capacity list) }
{
    let mut list = Vec::with_capacity(alloc, ROOM)?;
    list.push_reserved(items[0]);
    list.push_reserved(items[1]);
    Ok(list)
}

/// Makes room for one more item, where there is none.
fn make_room<T>(items: &mut Vec<T>) -> Result<(), AllocError>
    ensures items { items.new.items ≡ items.old.items }
    ensures room { OnOk result (vec_len items.new < vec_capacity items.new) }
    ensures len { vec_len items.new ≡ vec_len items.old }
    ensures more { vec_capacity items.old ≤ vec_capacity items.new }
    ensures roomy { vec_len items.old < vec_capacity items.old → vec_capacity items.new ≡ vec_capacity items.old }
    ensures sure { vec_len items.old < vec_capacity items.old → IsOk result }
    ensures unchanged { OnErr result (vec_capacity items.new ≡ vec_capacity items.old) }
{
    if items.len() < items.capacity() {
        return Ok(());
    }
    items.reserve(1)
}
