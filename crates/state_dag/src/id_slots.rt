//! Which slot each kept state has.
//!
//! The states of a site arrive in the order of their sequence numbers, so each is put behind those of its site.

ghost use Rattle.std.specs.Prelude.{◌≡◌, ℕ, ◌==◌, ◌≤◌, ◌<◌, Some, None, IfSome, OnErr, OnOk, [], length, if◌then◌else◌, slice_index_or};
ghost use Rattle.tardis_base.specs.declared.ids.StateId.{StateId};
ghost use Rattle.tardis_base.specs.Ids.{same_id};
ghost use Rattle.state_dag.specs.IdSlots.{slot_of_number, slot_of_state, NumbersRise};
ghost use Rattle.state_dag.specs.declared.id_slots.NumberedSlot.{NumberedSlot};

use std::alloc::Global;
use std::collections::VecDeque;
use std::marker::Model;
use tardis_base::{NoMemory, Slot, StateId};

/// A state's slot, by the number of the state among those of its site.
#[derive(Clone, Copy)]
struct NumberedSlot {
    sequence: u32,
    slot: Slot,
}

/// The slots of the states of one site, in the ascending order of their numbers.
#[derive(Drop)]
struct SiteSlots {
    entries: VecDeque<NumberedSlot>,
}

impl Model for SiteSlots {
    ghost use Rattle.std.specs.Prelude.{List};
    ghost use Rattle.state_dag.specs.declared.id_slots.NumberedSlot.{NumberedSlot};
    ghost use Rattle.state_dag.specs.IdSlots.{NumbersRise};

    ghost Value = { List NumberedSlot };

    ghost view = { λ a. a.entries.items };

    ghost invariant = { λ a. NumbersRise a.entries.items };
}

impl SiteSlots {
    /// No slot. It takes no memory.
    fn new(alloc: Global) -> SiteSlots
        ensures { result ≡ [] }
    {
        SiteSlots {
            entries: VecDeque::new(alloc),
        }
    }

    /// The slot of the state of this number, if it has one. It is a binary search.
    fn get(&self, sequence: u32) -> Option<Slot>
        ensures { result ≡ slot_of_number self.now sequence }
    {
        let place = place_of(&self.entries, sequence)?;
        let entry = self.entries.get(place)?;
        Some(entry.slot)
    }

    /// Gives the slot to the state of this number, which is higher than those of all that have one.
    fn put(&mut self, sequence: u32, slot: Slot) -> Result<(), NoMemory>
        requires { (n : ℕ) → sequence ≤ n → slot_of_number self.old n ≡ None }
        ensures put { OnOk result ((n : ℕ) → slot_of_number self.new n ≡ (if n == sequence then Some slot else slot_of_number self.old n)) }
        ensures same { OnErr result (self.new ≡ self.old) }
    {
        self.entries.push_back(NumberedSlot { sequence, slot })?;
        Ok(())
    }

    /// The state of this number has no slot any more. It takes no memory.
    fn remove(&mut self, sequence: u32)
        ensures { (n : ℕ) → slot_of_number self.new n ≡ (if n == sequence then None else slot_of_number self.old n) }
    {
        if let Some(place) = place_of(&self.entries, sequence) {
            let _ = self.entries.remove(place);
        }
    }
}

/// The place of the number among these, if it is there. It is a binary search.
fn place_of(entries: &VecDeque<NumberedSlot>, sequence: u32) -> Option<usize>
    requires { NumbersRise entries.now.items }
    ensures within { IfSome result (λ i. i < length entries.now.items) }
    ensures found { IfSome result (λ i. (d : NumberedSlot) → (slice_index_or entries.now.items i d).sequence ≡ sequence) }
    ensures none { result ≡ None → slot_of_number entries.now.items sequence ≡ None }
{
    let place = entries.partition_point(|entry| entry.sequence < sequence);
    let entry = entries.get(place)?;
    if entry.sequence == sequence {
        Some(place)
    } else {
        None
    }
}

/// The slots of the kept states, by their ids.
#[derive(Drop)]
pub struct IdSlots {
    sites: Vec<SiteSlots>,
}

impl Model for IdSlots {
    ghost use Rattle.std.specs.Prelude.{List};
    ghost use Rattle.state_dag.specs.declared.id_slots.NumberedSlot.{NumberedSlot};

    ghost Value = { List (List NumberedSlot) };

    ghost view = { λ a. a.sites.items };
}

impl IdSlots {
    /// No slot. It takes no memory.
    pub fn new(alloc: Global) -> IdSlots
        ensures { result ≡ [] }
    {
        IdSlots {
            sites: Vec::new(alloc),
        }
    }

    /// The slot of the state, if it has one. The cost grows with the logarithm of the number of states of its site that
    /// have one.
    pub fn get(&self, id: StateId) -> Option<Slot>
        ensures { result ≡ slot_of_state self.now id }
    {
        let site = self.sites.get(id.site as usize)?;
        site.get(id.sequence)
    }

    /// Gives the slot to the state, whose number is higher than those of all states of its site that have one. With no
    /// memory all slots stay.
    pub fn put(&mut self, id: StateId, slot: Slot) -> Result<(), NoMemory>
        requires { (x : StateId) → x.site ≡ id.site → id.sequence ≤ x.sequence → slot_of_state self.old x ≡ None }
        ensures put { OnOk result ((x : StateId) → slot_of_state self.new x ≡ (if same_id x id then Some slot else slot_of_state self.old x)) }
        ensures same { OnErr result ((x : StateId) → slot_of_state self.new x ≡ slot_of_state self.old x) }
    {
        make_site(&mut self.sites, id.site)?;
        self.sites[id.site as usize].put(id.sequence, slot)
    }

    /// The state has no slot any more. It takes no memory. The cost grows with the number of states of its site that came
    /// before it, or of those behind it if they are fewer.
    pub fn remove(&mut self, id: StateId)
        ensures { (x : StateId) → slot_of_state self.new x ≡ (if same_id x id then None else slot_of_state self.old x) }
    {
        if (id.site as usize) < self.sites.len() {
            self.sites[id.site as usize].remove(id.sequence);
        }
    }
}

/// Makes a list of slots for each site up to this one. It takes memory only for a site that comes for the first time.
fn make_site(sites: &mut Vec<SiteSlots>, site: u16) -> Result<(), NoMemory>
    ensures same { (x : StateId) → slot_of_state sites.new.items x ≡ slot_of_state sites.old.items x }
    ensures made { OnOk result (site < length sites.new.items) }
{
    let alloc = *sites.allocator();
    while sites.len() <= site as usize {
        sites.push(SiteSlots::new(alloc))?;
    }
    Ok(())
}
