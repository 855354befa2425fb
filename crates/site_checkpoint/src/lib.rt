//! A checkpoint in memory: the store of what it has told so far.
//!
//! What a checkpoint tells, and which parts fit, is stated in `docs/MODEL.md`, 'Checkpoints'.
#![tactic(auto)]

ghost use Rattle.std.specs.Prelude.{◌≡◌, Some, Ok, IsTrue, IfOk};
ghost use Rattle.tardis_base.specs.declared.ids.Slot.{Slot};
ghost use Rattle.tardis_base.specs.Valid.{are_limits};
ghost use Rattle.state_dag.specs.Table.{id_at, is_slot};
ghost use Rattle.state_dag.specs.Detached.{passed_on};
ghost use Rattle.plain_checkpoint.specs.Checkpoints.{untold, ToldLine, ToldGone};
ghost use Rattle.site_checkpoint.specs.Stands.{LoadedStands, StandsForTold};
ghost use Rattle.site_checkpoint.specs.Takes.{TakesPart, UntakenAs};

mod arrivals;
mod ends;
mod floors;

pub use ends::ToldFloor;
use record_store::RecordStore;
use state_dag::RowFault;
use std::alloc::Global;
use std::hash::RandomState;
use std::marker::Model;
use tardis_base::{Limits, NoMemory, Slot, StateId};

/// What a checkpoint has told so far: the store of its history, and the slot in which the root stands.
#[derive(Drop)]
pub struct Checkpoint {
    alloc: Global,
    store: RecordStore,
    root: Slot,
}

impl Model for Checkpoint {
    ghost use Rattle.site_checkpoint.specs.Loaded.{Loaded};

    ghost Value = { Loaded };

    ghost use Rattle.site_checkpoint.specs.Held.{seen, IsHeld};

    ghost view = { seen };

    ghost invariant = { IsHeld };
}

impl Checkpoint {
    /// Before the first part: the root alone, with nothing written, and keys to be found by hashing with this seed. The cost
    /// grows with the number of sites.
    pub fn new(alloc: Global, keys: RandomState, limits: &Limits) -> Result<Checkpoint, NoMemory>
        requires { IsTrue (are_limits limits.now) }
        ensures untold { IfOk result (λ loaded. LoadedStands loaded untold) }
        ensures limits { IfOk result (λ loaded. loaded.store.table.limits ≡ limits.now) }
    {
        let store = RecordStore::new(alloc, keys, limits)?;
        let root = store.dag().last();
        Ok(Checkpoint { alloc, store, root })
    }

    /// The store of what was told.
    pub fn store(&self) -> &RecordStore
        ensures is { result.now ≡ self.now.store }
        ensures stands { StandsForTold self.now }
    {
        &self.store
    }

    /// The slot of the state that stands in for the root.
    pub fn root(&self) -> Slot
        ensures is { result ≡ self.now.root }
        ensures slot { IsTrue (is_slot self.now.store.table result) }
    {
        self.root
    }

    /// So many further states of the site are told, which write nothing, each below the one before it and the first below the
    /// state that arrived last; each but the last joins the collected ones, and the state that had arrived last with them.
    /// `false` where that doesn't fit: where there is no such site, the line has no state in it, or its numbers would not fit
    /// 32 bits. Then, and with no memory, all is as before.
    ///
    /// The cost is that of `RecordStore::advance`, whichever the number of states.
    pub fn take_line(&mut self, site: u16, count: u32) -> Result<bool, NoMemory>
        ensures taken { TakesPart self.old self.new (ToldLine site count) result }
        ensures limits { self.new.store.table.limits ≡ self.old.store.table.limits }
    {
        match self.store.advance(site, count) {
            Ok(_) => Ok(true),
            Err(fault) => untaken(fault),
        }
    }

    /// The state is told to have joined the collected ones. `false` where that doesn't fit: where it isn't kept, or its children
    /// don't share a stand-in. Then all is as before. It takes no memory.
    ///
    /// The cost is that of `RecordStore::collect`, and grows with the logarithm of the number of kept states, and with the number
    /// of the state's children.
    pub fn take_gone(&mut self, id: StateId) -> bool
        ensures taken { TakesPart self.old self.new (ToldGone id) (Ok result) }
        ensures limits { self.new.store.table.limits ≡ self.old.store.table.limits }
    {
        match self.store.dag().slot_of(id) {
            Some(slot) => self.take_gone_at(slot, id),
            None => false,
        }
    }

    /// Lets the state at its slot join the collected ones, where its children share a stand-in.
    fn take_gone_at(&mut self, slot: Slot, id: StateId) -> bool
        requires named { id_at self.old.store.table slot ≡ Some id }
        requires only { (s : Slot) → id_at self.old.store.table s ≡ Some id → s ≡ slot }
        ensures taken { TakesPart self.old self.new (ToldGone id) (Ok result) }
        ensures limits { self.new.store.table.limits ≡ self.old.store.table.limits }
    {
        if self.store.dag().shared_stand_in(slot).is_none() {
            return false;
        }
        let heir = self.store.collect(slot);
        self.root = passed_on(slot, heir, self.root);
        true
    }
}

/// Where a state stands after the one at the slot has left it to its heir.
fn passed_on(gone: Slot, heir: Slot, slot: Slot) -> Slot
    ensures { result ≡ passed_on gone heir slot }
{
    if slot == gone { heir } else { slot }
}

/// What is told of a line that did not arrive.
fn untaken(fault: RowFault) -> Result<bool, NoMemory>
    ensures { UntakenAs fault result }
{
    match fault {
        RowFault::NoMemory => Err(NoMemory),
        _ => Ok(false),
    }
}
