//! The table of states: their order by arrival numbers and fork paths.
#![tactic(auto)]

ghost use Rattle.std.specs.Prelude.{◌≡◌, ℕ, ◌+◌, ◌-◌, ◌≤◌, ◌<◌, false, unwrap_or, slice_get, slice_index_or, Some, None, Err, ⊤, List, [], ◌∷◌, length, map};
ghost use Rattle.std.specs.Prelude.{IsTrue, IsSome, IfOk, IfSome, OnErr, MatchResult};
ghost use Rattle.std.specs.List.{list_all};
ghost use Rattle.std.specs.Option.{option_and_then, option_map};
ghost use Rattle.tardis_base.specs.declared.ids.StateId.{StateId};
ghost use Rattle.tardis_base.specs.declared.ids.Slot.{Slot};
ghost use Rattle.tardis_base.specs.declared.records.Record.{Record};
ghost use Rattle.tardis_base.specs.Ids.{is_among};
ghost use Rattle.tardis_base.specs.Valid.{are_limits};
ghost use Rattle.plain_dag.specs.States.{root_record, is_known, parents_of, arrival, children, count_of_site};
ghost use Rattle.plain_dag.specs.Above.{is_above};
ghost use Rattle.plain_dag.specs.Forks.{leaves};
ghost use Rattle.plain_dag.specs.Begin.{last_arrived};
ghost use Rattle.plain_dag.specs.Collection.{is_kept, kept_states, stand_in};
ghost use Rattle.plain_dag.specs.Paths.{fork_path};
ghost use Rattle.state_dag.specs.Table.{Entry, entry_at, id_at, is_slot, is_kept_at, arrival_at, is_slot_above, only_parent_at};
ghost use Rattle.state_dag.specs.Views.{entry_of};
ghost use Rattle.state_dag.specs.Stands.{Stands};
ghost use Rattle.state_dag.specs.Grown.{too_long, IsNewEntry};
ghost use Rattle.state_dag.specs.Nodes.{all_gains};
ghost use Rattle.state_dag.specs.Shared.{shared_stand_in};
ghost use Rattle.state_dag.specs.Detached.{shared_slot, without_slot};
ghost use Rattle.state_dag.specs.Answers.{MayBeAdded, AddedTo, IsNewSlot, KeepsSlots, GivesChild, LeavesChildren, next_of, slot_after};

mod changes;
mod collection;
mod growth;
mod id_slots;
mod images;
mod leads;
mod named_paths;
mod new_paths;
mod nodes;
mod rooms;
mod rows;
mod slot_order;
mod slots;
mod sums;
mod times;

use changes::{grow, put_node, set_count};
use collection::{first_holder, hand_over};
use growth::{check_path, new_node};
use id_slots::IdSlots;
pub use images::EntryParts;
use leads::{Gain, gains};
use named_paths::named_path;
use nodes::{Node, first_from, is_node_above, node_at, only_parent, root_node};
use rooms::make_state_room;
pub use rows::RowFault;
use slot_order::SlotOrder;
use slots::{common_slot, drop_slot, drop_slots, first_slot, last_slot, next_slot, slot_at};
use std::alloc::Global;
use std::marker::Model;
use tardis_base::{Above, AddFault, Limits, NoMemory, PathList, Slot, StateId};
use times::{first_arrival, lower_time, put_time};

/// The states of one site, by the slots in which the kept ones stand.
///
/// A slot is a place in this table alone. It says nothing of arrival, and is used again once its state has gone.
#[derive(Drop)]
pub struct StateDag {
    limits: Limits,
    counts: Vec<u32>,
    known: u64,
    /// By slot. A node in whose slot no state is kept says nothing.
    nodes: Vec<Node>,
    order: SlotOrder,
    /// How many states are kept.
    kept: u32,
    leaves: Vec<Slot>,
    slots: IdSlots,
    /// By slot: no child of a kept state that arrived before so many others stands there.
    since: Vec<u64>,
}

impl Model for StateDag {
    ghost use Rattle.state_dag.specs.Table.{Table};

    ghost Value = { Table };

    ghost use Rattle.state_dag.specs.Held.{seen, IsHeld};

    ghost view = { seen };

    ghost invariant = { IsHeld };
}

impl StateDag {
    /// The root alone. The cost grows with the number of sites.
    pub fn new(alloc: Global, limits: &Limits) -> Result<StateDag, NoMemory>
        requires { IsTrue (are_limits limits.now) }
        ensures stands { IfOk result (λ table. Stands table (root_record ∷ []) []) }
        ensures limits { IfOk result (λ table. table.limits ≡ limits.now) }
    {
        let counts = vec![in alloc; 0u32; limits.sites as usize]?;
        let mut since = Vec::new(alloc);
        since.push(0)?;
        let mut leaves = Vec::new(alloc);
        leaves.push(Slot(0))?;
        let order = SlotOrder::new(alloc)?;
        let mut slots = IdSlots::new(alloc);
        slots.put(StateId::ROOT, Slot(0))?;
        let mut nodes = Vec::new(alloc);
        nodes.push(root_node(alloc))?;
        Ok(StateDag {
            limits: *limits,
            counts,
            known: 1,
            nodes,
            order,
            kept: 1,
            leaves,
            slots,
            since,
        })
    }

    /// Adds the state below the states at these slots, and answers its slot.
    ///
    /// `Full` says that as many states are kept as may be. `PathFull` names the first state, in arrival order and the new
    /// one last, whose fork path would have more pairs than it may have, with their number. `NoMemory` also stands for a
    /// number that doesn't fit 32 bits. After each of them the table is as before.
    ///
    /// The cost grows with the fork paths of the parents and the logarithm of the number of kept states. Where a parent gets
    /// its second child it grows with the number of the states that are kept from its first child on, and with their fork
    /// paths too; its third child and later ones cost as the first did.
    pub fn add(&mut self, id: StateId, parents: &[Slot]) -> Result<Slot, AddFault>
        requires slots { IsTrue (list_all (is_slot self.old) parents.now) }
        requires first { 1 ≤ id.site }
        requires last { id.site ≤ self.old.limits.sites }
        requires next { id.sequence ≡ unwrap_or (slice_get self.old.counts (id.site - 1)) 0 + 1 }
        ensures added { (rs : List Record) (ks : List StateId) (r : Record) → Stands self.old rs ks → r.id ≡ id
            → MayBeAdded self.old rs ks r parents.now → AddedTo self.old self.new rs ks r result }
        ensures slot { IfOk result (λ slot. IsNewSlot self.old self.new id slot) }
        ensures keeps { KeepsSlots self.old self.new }
        ensures kept { (s : Slot) → IsTrue (is_kept_at self.old s) → IsTrue (is_kept_at self.new s) × (arrival_at self.new s ≡ arrival_at self.old s) }
        ensures arrived { IfOk result (λ slot. IsTrue (is_kept_at self.new slot) × (arrival_at self.new slot ≡ self.old.known)) }
        ensures newest { IfOk result (λ slot. (s : Slot) → IsTrue (is_kept_at self.old s) → arrival_at self.new s < arrival_at self.new slot) }
        ensures others { IfOk result (λ slot. (s : Slot) → (s ≡ slot → ⊥) → IsTrue (is_slot self.new s) → IsTrue (is_slot self.old s)) }
        ensures child { IfOk result (λ slot. GivesChild self.old self.new parents.now slot) }
        ensures limits { self.new.limits ≡ self.old.limits }
        ensures same { OnErr result (self.new ≡ self.old) }
    {
        let (node, gains) = self.growth(id, parents)?;
        let gains = gains.as_slice();
        make_state_room(
            &mut self.nodes,
            &mut self.order,
            &mut self.leaves,
            &mut self.since,
            parents,
            gains,
        )?;
        let slot = next_slot(&self.order, self.kept);
        self.slots.put(id, slot)?;
        let nodes = self.nodes.as_slice();
        put_time(&mut self.since, slot, first_arrival(nodes, parents));
        drop_slots(nodes, &mut self.leaves, parents);
        grow(&mut self.nodes, parents, gains, id, slot);
        put_node(&mut self.nodes, slot, node);
        self.order.keep(slot);
        self.leaves.push_reserved(slot);
        self.kept += 1;
        set_count(&mut self.counts, id.site, id.sequence);
        self.known += 1;
        Ok(slot)
    }

    /// The node of the new state, and the first branches that lead to kept states: what the table gets, if it may.
    fn growth(&self, id: StateId, parents: &[Slot]) -> Result<(Node, Vec<Gain>), AddFault>
        requires { IsTrue (list_all (is_slot self.now) parents.now) }
        ensures room { IfOk result (λ growth. length self.now.entries < self.now.limits.max_kept) }
        ensures node { IfOk result (λ growth. (place : ℕ) → IsNewEntry self.now parents.now id (record { 0 = place }) (entry_of place growth.0)) }
        ensures gains { IfOk result (λ growth. growth.1.items ≡ all_gains self.now parents.now (map (λ e. e.slot) self.now.entries)) }
        ensures short { IfOk result (λ growth. too_long self.now parents.now ≡ None) }
        ensures own { IfOk result (λ growth. length growth.0.path.pairs ≤ self.now.limits.max_path) }
        ensures refused { (rs : List Record) (ks : List StateId) (r : Record) → Stands self.now rs ks → r.id ≡ id
            → MayBeAdded self.now rs ks r parents.now → MatchResult result (λ growth. ⊤) (λ fault. AddedTo self.now self.now rs ks r (Err fault)) }
    {
        if self.kept == self.limits.max_kept {
            return Err(AddFault::Full { kept: self.kept });
        }
        let alloc = *self.nodes.allocator();
        let nodes = self.nodes.as_slice();
        let node = new_node(alloc, nodes, parents, id, self.known)?;
        let kept = self.order.kept();
        let gains = gains(alloc, nodes, kept, parents, &self.limits)?;
        check_path(&node, &self.limits)?;
        Ok((node, gains))
    }

    /// Lets the state at the slot join the collected ones, and answers the slot of its stand-in, which is the one that all
    /// its children share.
    ///
    /// From then on the slot names no state; a state that is added may get it. Children that stood there stand where the
    /// stand-in is, and a fork's branches are in no path any more. Records stay: the state is still a parent of its children
    /// and a child of its parents.
    ///
    /// It takes no memory. The cost grows with the number of the states that are kept before this one from the first on whose
    /// child stands there, and with their children; for a fork with the paths of those kept behind it; and the slots of those
    /// kept before it, or behind it, whichever are fewer, are moved as a block.
    pub fn detach(&mut self, slot: Slot) -> Slot
        requires { IsSome (shared_slot self.old slot) }
        ensures stand_in { shared_slot self.old slot ≡ Some result }
        ensures detached { (rs : List Record) (ks : List StateId) → Stands self.old rs ks → (x : StateId) → id_at self.old slot ≡ Some x
            → Stands self.new rs (x ∷ ks) }
        ensures shared { (rs : List Record) (ks : List StateId) → Stands self.old rs ks → (x : StateId) → id_at self.old slot ≡ Some x
            → id_at self.old result ≡ shared_stand_in rs ks x }
        ensures above { (rs : List Record) (ks : List StateId) → Stands self.old rs ks → (x : StateId) → id_at self.old slot ≡ Some x
            → (s t : Slot) → (s ≡ slot → ⊥) → (t ≡ slot → ⊥) → IsTrue (is_slot self.old s) → IsTrue (is_slot self.old t)
            → is_slot_above self.new s t ≡ is_slot_above self.old s t }
        ensures gone { id_at self.new slot ≡ None }
        ensures names { (s : Slot) → (s ≡ slot → ⊥) → id_at self.new s ≡ id_at self.old s }
        ensures others { (s : Slot) → (s ≡ slot → ⊥) → is_slot self.new s ≡ is_slot self.old s }
        ensures kept { (s : Slot) → (s ≡ slot → ⊥) → is_kept_at self.new s ≡ is_kept_at self.old s }
        ensures arrivals { (s : Slot) → (s ≡ slot → ⊥) → arrival_at self.new s ≡ arrival_at self.old s }
        ensures stays { IsTrue (is_kept_at self.new result) }
        ensures slots { map (λ e. e.slot) self.new.entries ≡ without_slot slot (map (λ e. e.slot) self.old.entries) }
        ensures children { LeavesChildren self.old self.new slot result }
        ensures limits { self.new.limits ≡ self.old.limits }
        ensures counts { self.new.counts ≡ self.old.counts }
        ensures known { self.new.known ≡ self.old.known }
    {
        let place = self.place(slot);
        let node = self.node(slot);
        let id = node.id;
        let since = self.since[slot.0 as usize];
        let heir = first_slot(node.stand_ins.as_slice());
        let is_fork = node.children.len() > 1;
        drop_slot(&self.nodes, &mut self.leaves, slot);
        self.slots.remove(id);
        let kept = self.order.kept();
        let first = first_holder(&self.nodes, kept, place, since);
        hand_over(&mut self.nodes, kept, first, place, slot, heir, is_fork);
        lower_time(&mut self.since, heir, since);
        self.order.leave(place);
        self.kept -= 1;
        heir
    }

    /// The limits with which the table was made, in constant time.
    pub fn limits(&self) -> &Limits
        ensures { result.now ≡ self.now.limits }
    {
        &self.limits
    }

    /// Whether the state arrived, collected or not. It takes constant time.
    pub fn knows(&self, id: StateId) -> bool
        ensures { (rs : List Record) (ks : List StateId) → Stands self.now rs ks → result ≡ is_known rs id }
    {
        if id.site == 0 {
            return id.sequence == 0;
        }
        if id.site > self.limits.sites || id.sequence == 0 {
            return false;
        }
        id.sequence <= self.counts[id.site as usize - 1]
    }

    /// The slot of the state, if it is kept. The cost grows with the logarithm of the number of kept states.
    pub fn slot_of(&self, id: StateId) -> Option<Slot>
        ensures unlisted { result ≡ None → is_among id (map (λ e. e.id) self.now.entries) ≡ false }
        ensures found { IfSome result (λ slot. id_at self.now slot ≡ Some id) }
        ensures only { (s : Slot) → id_at self.now s ≡ Some id → result ≡ Some s }
        ensures kept { IfSome result (λ slot. IsTrue (is_kept_at self.now slot)) }
        ensures none { result ≡ None → (rs : List Record) (ks : List StateId) → Stands self.now rs ks → is_kept rs ks id ≡ false }
    {
        self.slots.get(id)
    }

    /// Whether a state is kept at the slot, which may be any. The cost grows with the logarithm of the number of kept states.
    pub fn is_kept(&self, slot: Slot) -> bool
        ensures { result ≡ is_slot self.now slot }
    {
        let Some(node) = node_at(&self.nodes, slot) else {
            return false;
        };
        let kept = self.order.kept();
        let place = first_from(&self.nodes, kept, node.arrival);
        match slot_at(kept, place) {
            Some(found) => found == slot,
            None => false,
        }
    }

    /// The place of the state at the slot among the kept ones: how many of these arrived before it. The cost grows with the
    /// logarithm of the number of kept states.
    pub fn place(&self, slot: Slot) -> usize
        requires { IsTrue (is_slot self.now slot) }
        ensures within { result < length self.now.entries }
        ensures at { (d : Entry) → (slice_index_or self.now.entries result d).slot ≡ slot }
    {
        first_from(&self.nodes, self.kept_slots(), self.node(slot).arrival)
    }

    /// Which state is kept at the slot, in constant time.
    pub fn id_of(&self, slot: Slot) -> StateId
        requires { IsTrue (is_slot self.now slot) }
        ensures is { id_at self.now slot ≡ Some result }
        ensures kept { IsTrue (is_kept_at self.now slot) }
        ensures known { (rs : List Record) (ks : List StateId) → Stands self.now rs ks → IsTrue (is_kept rs ks result) }
    {
        self.node(slot).id
    }

    /// How many states of the site arrived. The number is kept, so it takes constant time.
    pub fn count(&self, site: u16) -> u32
        requires first { 1 ≤ site }
        requires last { site ≤ self.now.limits.sites }
        ensures is { result ≡ unwrap_or (slice_get self.now.counts (site - 1)) 0 }
        ensures count { (rs : List Record) (ks : List StateId) → Stands self.now rs ks → result ≡ count_of_site rs site }
    {
        self.counts[site as usize - 1]
    }

    /// How many states arrived, the root among them. The number is kept, so it takes constant time.
    pub fn known(&self) -> u64
        ensures { (rs : List Record) (ks : List StateId) → Stands self.now rs ks → result ≡ length rs }
    {
        self.known
    }

    /// How many states are kept, in constant time.
    pub fn kept(&self) -> u32
        ensures { (rs : List Record) (ks : List StateId) → Stands self.now rs ks → result ≡ length (kept_states rs ks) }
    {
        self.kept
    }

    /// How many states have no child, in constant time.
    pub fn leaves(&self) -> u32
        ensures { (rs : List Record) (ks : List StateId) → Stands self.now rs ks → result ≡ length (leaves rs) }
    {
        self.leaves.len() as u32
    }

    /// The slots of the kept states, in arrival order. They are lent, in constant time.
    pub fn kept_slots(&self) -> &[Slot]
        ensures slots { IsTrue (list_all (is_slot self.now) result.now) }
        ensures is { result.now ≡ map (λ e. e.slot) self.now.entries }
        ensures kept { (rs : List Record) (ks : List StateId) → Stands self.now rs ks
            → map (id_at self.now) result.now ≡ map (λ x. Some x) (kept_states rs ks) }
    {
        self.order.kept()
    }

    /// The slots of the states that have no child, in arrival order. They are lent, in constant time.
    pub fn leaf_slots(&self) -> &[Slot]
        ensures slots { IsTrue (list_all (is_slot self.now) result.now) }
        ensures leaves { (rs : List Record) (ks : List StateId) → Stands self.now rs ks → map (id_at self.now) result.now ≡ map (λ x. Some x) (leaves rs) }
    {
        self.leaves.as_slice()
    }

    /// The slot of the state that arrived last, in constant time.
    pub fn last(&self) -> Slot
        ensures slot { IsTrue (is_slot self.now result) }
        ensures end { slot_after self.now.entries (Some result) ≡ None }
        ensures last { (rs : List Record) (ks : List StateId) → Stands self.now rs ks → id_at self.now result ≡ Some (last_arrived rs) }
    {
        last_slot(self.order.kept())
    }

    /// How many states had arrived before the one at the slot. It takes constant time.
    pub fn arrival(&self, slot: Slot) -> u64
        requires { IsTrue (is_slot self.now slot) }
        ensures is { result ≡ arrival_at self.now slot }
        ensures arrival { (rs : List Record) (ks : List StateId) → Stands self.now rs ks → (x : StateId) → id_at self.now slot ≡ Some x
            → result ≡ arrival rs x }
    {
        self.node(slot).arrival
    }

    /// Whether the state of `a` is that of `b` or one of its ancestors.
    ///
    /// Of equal slots it takes constant time. Else the cost grows with the lengths of the two fork paths.
    pub fn is_ancestor(&self, a: Slot, b: Slot) -> bool
        requires first { IsTrue (is_slot self.now a) }
        requires second { IsTrue (is_slot self.now b) }
        ensures is { result ≡ is_slot_above self.now a b }
        ensures above { (rs : List Record) (ks : List StateId) → Stands self.now rs ks → (x y : StateId) → id_at self.now a ≡ Some x
            → id_at self.now b ≡ Some y → result ≡ is_above rs x y }
    {
        if a == b {
            return true;
        }
        is_node_above(self.node(a), self.node(b))
    }

    /// All children of the state at the slot, in arrival order, collected ones too. They are lent, in constant time.
    pub fn children(&self, slot: Slot) -> &[StateId]
        requires { IsTrue (is_slot self.now slot) }
        ensures { (rs : List Record) (ks : List StateId) → Stands self.now rs ks → (x : StateId) → id_at self.now slot ≡ Some x → result.now ≡ children rs x }
    {
        self.node(slot).children.as_slice()
    }

    /// The slots in which the children of the state at the slot stand, in the order of `children`: of a kept child its own,
    /// of a collected one that of the state that stands in for it. They are lent, in constant time.
    pub fn child_slots(&self, slot: Slot) -> &[Slot]
        requires { IsTrue (is_slot self.now slot) }
        ensures slots { IsTrue (list_all (is_slot self.now) result.now) }
        ensures is { option_map (λ e. e.stand_ins) (entry_at self.now slot) ≡ Some result.now }
        ensures stand_ins { (rs : List Record) (ks : List StateId) → Stands self.now rs ks → (x : StateId) → id_at self.now slot ≡ Some x
            → map (id_at self.now) result.now ≡ map (λ c. Some (stand_in rs ks c)) (children rs x) }
    {
        self.node(slot).stand_ins.as_slice()
    }

    /// The slot of the stand-in that all children of the state at the slot share: of a state with one child the slot in
    /// which that child stands. None where it has no child, or two children stand in different slots.
    ///
    /// The cost grows with the number of children.
    pub fn shared_stand_in(&self, slot: Slot) -> Option<Slot>
        requires { IsTrue (is_slot self.now slot) }
        ensures is { result ≡ shared_slot self.now slot }
        ensures shared { (rs : List Record) (ks : List StateId) → Stands self.now rs ks → (x : StateId) → id_at self.now slot ≡ Some x
            → option_map (id_at self.now) result ≡ option_map (λ c. Some c) (shared_stand_in rs ks x) }
        ensures kept { IfSome result (λ s. IsTrue (is_kept_at self.now s)) }
        ensures later { IfSome result (λ s. arrival_at self.now slot < arrival_at self.now s) }
    {
        let _ = &self.limits; // for the proof alone
        common_slot(self.child_slots(slot))
    }

    /// The parents that the record of the state at the slot names. They are lent, in constant time.
    pub fn parents(&self, slot: Slot) -> &[StateId]
        requires { IsTrue (is_slot self.now slot) }
        ensures { (rs : List Record) (ks : List StateId) → Stands self.now rs ks → (x : StateId) → id_at self.now slot ≡ Some x → result.now ≡ parents_of rs x }
    {
        self.node(slot).parents.as_slice()
    }

    /// The parent of the state at the slot, where it has exactly one, in constant time.
    pub fn only_parent(&self, slot: Slot) -> Option<StateId>
        requires { IsTrue (is_slot self.now slot) }
        ensures { result ≡ only_parent_at self.now slot }
    {
        only_parent(self.node(slot))
    }

    /// The slot of the kept state that arrived next after the one at this slot, or first of all; None at the end. The cost
    /// grows with the logarithm of the number of kept states.
    pub fn kept_after(&self, slot: Option<Slot>) -> Option<Slot>
        requires { IfSome slot (λ s. IsTrue (is_slot self.now s)) }
        ensures slots { IfSome result (λ s. IsTrue (is_slot self.now s)) }
        ensures is { result ≡ slot_after self.now.entries slot }
        ensures first { slot ≡ None → (rs : List Record) (ks : List StateId) → Stands self.now rs ks
            → option_and_then (id_at self.now) result ≡ next_of (kept_states rs ks) None }
        ensures next { (rs : List Record) (ks : List StateId) → Stands self.now rs ks → (s : Slot) (x : StateId) → slot ≡ Some s
            → id_at self.now s ≡ Some x → option_and_then (id_at self.now) result ≡ next_of (kept_states rs ks) (Some x) }
    {
        let _ = &self.limits; // for the proof alone
        match slot {
            None => slot_at(self.kept_slots(), 0),
            Some(slot) => {
                let place = self.place(slot);
                slot_at(self.kept_slots(), place + 1)
            },
        }
    }

    /// The slot of the kept state that arrived last before the one at this slot, or last of all; None at the beginning. The
    /// cost grows with the logarithm of the number of kept states.
    pub fn kept_before(&self, slot: Option<Slot>) -> Option<Slot>
        requires { IfSome slot (λ s. IsTrue (is_slot self.now s)) }
        ensures slots { IfSome result (λ s. IsTrue (is_slot self.now s)) }
        ensures is { slot_after self.now.entries result ≡ slot }
        ensures earlier { IfSome result (λ s. (t : Slot) → slot ≡ Some t → arrival_at self.now s < arrival_at self.now t) }
        ensures last { slot ≡ None → (rs : List Record) (ks : List StateId) → Stands self.now rs ks
            → option_and_then (id_at self.now) result ≡ Some (last_arrived rs) }
        ensures before { (rs : List Record) (ks : List StateId) → Stands self.now rs ks → (s : Slot) (x : StateId) → slot ≡ Some s
            → id_at self.now s ≡ Some x → next_of (kept_states rs ks) (option_and_then (id_at self.now) result) ≡ Some x }
    {
        let _ = &self.limits; // for the proof alone
        match slot {
            None => Some(self.last()),
            Some(slot) => {
                let place = self.place(slot);
                if place == 0 {
                    None
                } else {
                    Some(self.kept_slots()[place - 1])
                }
            },
        }
    }

    fn node(&self, slot: Slot) -> &Node
        requires { IsTrue (is_slot self.now slot) }
        ensures entry { entry_at self.now slot ≡ Some (entry_of slot.0 result.now) }
        ensures kept { IsTrue (is_kept_at self.now slot) }
        ensures stand_ins { IsTrue (list_all (is_slot self.now) result.now.stand_ins.items) }
    {
        &self.nodes[slot.0 as usize]
    }

    /// The fork path of the state at the slot: each kept fork on a way to it with the number of the branch taken, by the
    /// fork's arrival and then by number.
    ///
    /// The cost grows with the number of kept states, and for each of their children with the logarithm of the number of
    /// pairs.
    pub fn path(&self, slot: Slot) -> Result<PathList, NoMemory>
        requires { IsTrue (is_slot self.now slot) }
        ensures { (rs : List Record) (ks : List StateId) → Stands self.now rs ks → (x : StateId) → id_at self.now slot ≡ Some x
            → IfOk result (λ path. path ≡ fork_path rs ks x) }
    {
        named_path(
            *self.nodes.allocator(),
            self.nodes.as_slice(),
            self.kept_slots(),
            &self.node(slot).path,
        )
    }
}

impl Above for StateDag {
    ghost use Rattle.state_dag.specs.Table.{is_kept_at, arrival_at, is_slot_above};
    ghost use Rattle.state_dag.specs.Orders.{arrivals-differ, above-came_first};

    ghost is_kept = { is_kept_at };

    ghost is_above = { is_slot_above };

    ghost arrival_of = { arrival_at };

    ghost arrivals_differ = { arrivals-differ };

    ghost above_came_first = { above-came_first };

    fn above(&self, a: Slot, b: Slot) -> bool {
        self.is_ancestor(a, b)
    }

    fn arrival(&self, slot: Slot) -> u64 {
        self.node(slot).arrival
    }
}
