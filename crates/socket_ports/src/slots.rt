//! Slots in a row.

use std::alloc::Global;
use std::collections::VecDeque;
use std::io;

/// Slots in a row, each at most once. All its room is reserved when it is made.
#[derive(Drop)]
pub(crate) struct Slots {
    row: VecDeque<usize>,
    /// Of each slot, whether it is in the row.
    there: Vec<bool>,
}

impl Slots {
    /// None, of so many slots.
    pub(crate) fn new(alloc: Global, count: usize) -> io::Result<Slots> {
        let row = VecDeque::with_capacity(alloc, count)?;
        let mut there = Vec::with_capacity(alloc, count)?;
        for _ in 0..count {
            there.push(false)?;
        }
        Ok(Slots { row, there })
    }

    pub(crate) fn len(&self) -> usize {
        self.row.len()
    }

    /// The slot at this place of the row.
    pub(crate) fn at(&self, place: usize) -> Option<usize> {
        self.row.get(place).copied()
    }

    /// Puts a slot behind the others, unless it is among them.
    pub(crate) fn add(&mut self, slot: usize) {
        if let Some(there) = self.there.get_mut(slot) {
            if !*there {
                *there = self.row.push_back(slot).is_ok();
            }
        }
    }

    /// Takes the first one.
    pub(crate) fn take(&mut self) -> Option<usize> {
        let slot = self.row.pop_front()?;
        if let Some(there) = self.there.get_mut(slot) {
            *there = false;
        }
        Some(slot)
    }
}
