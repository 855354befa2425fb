//! A state that a checkpoint tells arrives. What is asked of it is stated in `docs/MODEL.md`, 'Checkpoints'.

ghost use Rattle.std.specs.Prelude.{◌≡◌, ◌≤◌, true, ◌&&◌, is_none, Ok, List, Some, map, length, IsTrue, IfOk};
ghost use Rattle.std.specs.List.{list_all};
ghost use Rattle.tardis_base.specs.declared.ids.StateId.{StateId};
ghost use Rattle.tardis_base.specs.declared.records.Record.{Record};
ghost use Rattle.tardis_base.specs.Valid.{is_record};
ghost use Rattle.plain_dag.specs.Above.{are_apart};
ghost use Rattle.plain_dag.specs.Collection.{is_kept};
ghost use Rattle.state_dag.specs.Table.{id_at, is_slot, is_listed};
ghost use Rattle.state_dag.specs.Stands.{Stands};
ghost use Rattle.plain_checkpoint.specs.Checkpoints.{Told, ToldState, takes_child};
ghost use Rattle.site_checkpoint.specs.Stands.{LoadedStands};
ghost use Rattle.site_checkpoint.specs.Takes.{TakesPart};
ghost use Rattle.site_checkpoint.specs.Arrivals.{is_next_of, fits_below, is_welcome, IsWelcomeTo, IsNextIn, UnaddedAs};

use crate::Checkpoint;
use begin_rule::comparable_pair;
use conflict_keys::open_conflict;
use state_dag::StateDag;
use tardis_base::{AddFault, NoMemory, Record, Slot, StateId};

impl Checkpoint {
    /// The state of this record is told to arrive. `false` where that doesn't fit: where it isn't the next of one of the sites, a
    /// parent isn't kept, two of them are comparable, one has as many children as it may have, a conflict key of them isn't
    /// written, or there is no room. Then, and with no memory, all is as before.
    ///
    /// The cost is that of `conflict_keys::open_conflict` and of `RecordStore::commit`, and grows with the square of the number of
    /// parents: so many ancestries are asked. The record is moved.
    pub fn take_state(&mut self, rec: Record) -> Result<bool, NoMemory>
        requires { IsTrue (is_record rec) }
        ensures taken { TakesPart self.old self.new (ToldState rec) result }
        ensures limits { self.new.store.table.limits ≡ self.old.store.table.limits }
    {
        let welcome = self.welcomes(&rec)?;
        if welcome { self.add(rec) } else { Ok(false) }
    }

    /// Whether nothing but want of room speaks against the record.
    fn welcomes(&self, rec: &Record) -> Result<bool, NoMemory>
        requires { IsTrue (is_record rec.now) }
        ensures welcome { (t : Told) → LoadedStands self.now t → IfOk result (λ welcome. welcome ≡ is_welcome self.now.store.table.limits t rec.now) }
        ensures next { result ≡ Ok true → IsNextIn self.now.store.table rec.now.id }
        ensures parents { result ≡ Ok true → IsTrue (list_all (is_listed self.now.store.table) rec.now.parents) }
    {
        if !is_next(self.store.dag(), rec.id) {
            return Ok(false);
        }
        if !are_kept(self.store.dag(), rec.parents.as_slice()) {
            return Ok(false);
        }
        self.fits_below(rec)
    }

    /// Whether the parents of the record, which are kept, are apart and take one child more, and each conflict key of them is
    /// written.
    fn fits_below(&self, rec: &Record) -> Result<bool, NoMemory>
        requires few { length rec.now.parents ≤ 8 }
        requires listed { IsTrue (list_all (is_listed self.now.store.table) rec.now.parents) }
        ensures { (t : Told) → LoadedStands self.now t → IfOk result (λ fits. fits ≡ fits_below self.now.store.table.limits t rec.now) }
    {
        let slots = self.store.slots_of(rec.parents.as_slice());
        let parents = &slots[..rec.parents.len()];
        if !may_be_parents(self.store.dag(), parents) {
            return Ok(false);
        }
        let open = open_conflict(self.alloc, &self.store, parents, &rec.writes)?;
        Ok(open.is_none())
    }

    /// Adds the record, which is welcome, where there is room. What it writes is moved into the store.
    fn add(&mut self, rec: Record) -> Result<bool, NoMemory>
        requires valid { IsTrue (is_record rec) }
        requires welcome { IsWelcomeTo self.old rec }
        requires next { IsNextIn self.old.store.table rec.id }
        requires parents { IsTrue (list_all (is_listed self.old.store.table) rec.parents) }
        ensures taken { TakesPart self.old self.new (ToldState rec) result }
        ensures limits { self.new.store.table.limits ≡ self.old.store.table.limits }
    {
        let slots = self.store.slots_of(rec.parents.as_slice());
        let mut writes = rec.writes;
        match self
            .store
            .commit(rec.id, &slots[..rec.parents.len()], &mut writes)
        {
            Ok(_) => Ok(true),
            Err(fault) => unadded(fault),
        }
    }
}

/// Whether the state is the next of one of the sites.
fn is_next(dag: &StateDag, id: StateId) -> bool
    ensures next { (rs : List Record) (ks : List StateId) → Stands dag.now rs ks → result ≡ is_next_of dag.now.limits.sites rs id }
    ensures is { result ≡ true → IsNextIn dag.now id }
{
    let StateId { site, sequence } = id;
    if site == 0 || site > dag.limits().sites {
        return false;
    }
    let count = dag.count(site);
    sequence > count && sequence - count == 1
}

/// Whether each of these states is kept.
pub(crate) fn are_kept(dag: &StateDag, states: &[StateId]) -> bool
    ensures kept { (rs : List Record) (ks : List StateId) → Stands dag.now rs ks → result ≡ list_all (is_kept rs ks) states.now }
    ensures listed { result ≡ true → IsTrue (list_all (is_listed dag.now) states.now) }
{
    for state in states {
        if !is_kept(dag, *state) {
            return false;
        }
    }
    true
}

/// Whether the state is kept.
fn is_kept(dag: &StateDag, state: StateId) -> bool
    ensures kept { (rs : List Record) (ks : List StateId) → Stands dag.now rs ks → result ≡ is_kept rs ks state }
    ensures listed { result ≡ true → IsTrue (is_listed dag.now state) }
{
    match dag.slot_of(state) {
        Some(_) => true,
        None => false,
    }
}

/// Whether the states at these slots are apart, and each takes one child more.
fn may_be_parents(dag: &StateDag, parents: &[Slot]) -> bool
    requires { IsTrue (list_all (is_slot dag.now) parents.now) }
    ensures { (t : Told) → Stands dag.now t.dag t.collected → (xs : List StateId) → map (id_at dag.now) parents.now ≡ map (λ x. Some x) xs
        → result ≡ (are_apart t.dag xs && list_all (takes_child dag.now.limits t) xs) }
{
    comparable_pair(dag, parents).is_none() && take_children(dag, parents)
}

/// Whether each of the states at these slots has fewer children than it may have.
fn take_children(dag: &StateDag, parents: &[Slot]) -> bool
    requires { IsTrue (list_all (is_slot dag.now) parents.now) }
    ensures { (t : Told) → Stands dag.now t.dag t.collected → (xs : List StateId) → map (id_at dag.now) parents.now ≡ map (λ x. Some x) xs
        → result ≡ list_all (takes_child dag.now.limits t) xs }
{
    for slot in parents {
        if !takes_child(dag, *slot) {
            return false;
        }
    }
    true
}

/// Whether the state at the slot has fewer children than it may have.
fn takes_child(dag: &StateDag, slot: Slot) -> bool
    requires { IsTrue (is_slot dag.now slot) }
    ensures { (t : Told) → Stands dag.now t.dag t.collected → (x : StateId) → id_at dag.now slot ≡ Some x
        → result ≡ takes_child dag.now.limits t x }
{
    dag.children(slot).len() < dag.limits().max_kept as usize
}

/// What is told of a record that was not added.
fn unadded(fault: AddFault) -> Result<bool, NoMemory>
    ensures { UnaddedAs fault result }
{
    match fault {
        AddFault::NoMemory => Err(NoMemory),
        _ => Ok(false),
    }
}
