//! The end of a checkpoint: its floors, and the site that stands then. Which floors fit is stated in `docs/MODEL.md`,
//! 'Checkpoints'.

ghost use Rattle.std.specs.Prelude.{◌≡◌, ◌≤◌, length, map, is_some, IsTrue, IfOk, IfSome};
ghost use Rattle.std.specs.List.{All, list_all};
ghost use Rattle.tardis_base.specs.declared.ids.Slot.{Slot};
ghost use Rattle.plain_dag.specs.Floors.{is_closed};
ghost use Rattle.state_dag.specs.Stands.{Stands};
ghost use Rattle.ceiling_book.specs.Book.{known_floor};
ghost use Rattle.ceiling_book.specs.Places.{IsAt};
ghost use Rattle.plain_site.specs.Site.{opening};
ghost use Rattle.plain_checkpoint.specs.Checkpoints.{Told, fits_floors, checkpoint_site};
ghost use Rattle.session_core.specs.Machine.{SiteStands, opened_with};
ghost use Rattle.site_checkpoint.specs.Stands.{LoadedStands};
ghost use Rattle.site_checkpoint.specs.Ends.{floor_told, floors_told, EndsAs, may_be_floor, may_be_floors};

use crate::Checkpoint;
use ceiling_book::{CeilingBook, KnownFloor, Place};
use session_core::SiteCore;
use state_dag::StateDag;
use std::alloc::Global;
use tardis_base::{NoMemory, Slot, StateId};

/// A site's floor as a checkpoint tells it: its state, the number of the site's promise, 0 before the first one, and the count
/// of the site's states that was stated with it.
#[derive(Clone, Copy)]
pub struct ToldFloor {
    pub state: StateId,
    pub number: u32,
    pub stated: u32,
}

impl Checkpoint {
    /// The site of this number that stands at the end of the checkpoint, with these floors, one for each site in the order of
    /// the sites' numbers: it is at rest. None where the floors don't fit: where there are fewer or more than sites, one is at a
    /// state that isn't kept, more states of a site were stated than there are, or a collected state isn't a proper ancestor of
    /// each.
    ///
    /// The store is moved into the site, and nothing of it copied. The cost is that of `has_closed`, and that of a search for
    /// each floor's state. Where there is no site, what was told is let go.
    pub fn end(self, own: u16, floors: &[ToldFloor]) -> Result<Option<SiteCore>, NoMemory>
        requires first { 1 ≤ own }
        requires last { own ≤ self.store.table.limits.sites }
        ensures ended { EndsAs self own (floors_told floors.now) result }
        ensures opening { IfOk result (λ end. IfSome end (λ core. opened_with core ≡ opening self.store.table.limits own)) }
    {
        match self.placed(floors) {
            Ok(Some(known)) => {
                let core = self.rested(own, known)?;
                Ok(Some(core))
            },
            Ok(None) => {
                drop(self);
                Ok(None)
            },
            Err(NoMemory) => {
                drop(self);
                Err(NoMemory)
            },
        }
    }

    /// The floors with the slots of their states, where they fit.
    fn placed(&self, floors: &[ToldFloor]) -> Result<Option<Vec<KnownFloor>>, NoMemory>
        ensures told { IfOk result (λ placed. IfSome placed (λ known. map known_floor known.items ≡ floors_told floors.now)) }
        ensures at { IfOk result (λ placed. IfSome placed (λ known. All (λ f. IsAt self.now.store.table f.place) known.items)) }
        ensures each { IfOk result (λ placed. IfSome placed (λ known. length known.items ≡ self.now.store.table.limits.sites)) }
        ensures fits { (t : Told) → LoadedStands self.now t
            → IfOk result (λ placed. is_some placed ≡ fits_floors self.now.store.table.limits t (floors_told floors.now)) }
    {
        let dag = self.store.dag();
        if floors.len() != dag.limits().sites as usize {
            return Ok(None);
        }
        match known_floors(self.alloc, dag, floors)? {
            Some(known) => self.closing(known),
            None => Ok(None),
        }
    }

    /// These floors, where all that is collected is closed under them.
    fn closing(&self, known: Vec<KnownFloor>) -> Result<Option<Vec<KnownFloor>>, NoMemory>
        requires { All (λ f. IsAt self.now.store.table f.place) known.items }
        ensures same { IfOk result (λ closing. IfSome closing (λ all. all.items ≡ known.items)) }
        ensures closed { (t : Told) → LoadedStands self.now t
            → IfOk result (λ closing. is_some closing ≡ list_all (is_closed t.dag (map known_floor known.items)) t.collected) }
    {
        let slots = slots_of(self.alloc, known.as_slice())?;
        if self.has_closed(slots.as_slice()) {
            Ok(Some(known))
        } else {
            Ok(None)
        }
    }

    /// The site at rest with these floors, which fit.
    fn rested(self, own: u16, known: Vec<KnownFloor>) -> Result<SiteCore, NoMemory>
        requires first { 1 ≤ own }
        requires last { own ≤ self.store.table.limits.sites }
        requires each { length known.items ≡ self.store.table.limits.sites }
        requires at { All (λ f. IsAt self.store.table f.place) known.items }
        requires fits { (t : Told) → LoadedStands self t → IsTrue (fits_floors self.store.table.limits t (map known_floor known.items)) }
        ensures stands { IfOk result (λ core. (t : Told) → LoadedStands self t
            → SiteStands core (checkpoint_site self.store.table.limits own t (map known_floor known.items))) }
        ensures opening { IfOk result (λ core. opened_with core ≡ opening self.store.table.limits own) }
    {
        let Checkpoint { alloc, store, root } = self;
        let book = CeilingBook::resting(alloc, store.dag().limits(), own, root, known);
        SiteCore::resting(alloc, store, book)
    }
}

/// The floors with the slots of their states, where each may be that of its site.
fn known_floors(
    alloc: Global,
    dag: &StateDag,
    floors: &[ToldFloor],
) -> Result<Option<Vec<KnownFloor>>, NoMemory>
    requires { length floors.now ≡ dag.now.limits.sites }
    ensures told { IfOk result (λ placed. IfSome placed (λ known. map known_floor known.items ≡ floors_told floors.now)) }
    ensures at { IfOk result (λ placed. IfSome placed (λ known. All (λ f. IsAt dag.now f.place) known.items)) }
    ensures fits { (t : Told) → Stands dag.now t.dag t.collected
        → IfOk result (λ placed. is_some placed ≡ may_be_floors t 1 (floors_told floors.now)) }
{
    let mut known = Vec::with_capacity(alloc, floors.len())?;
    for place in 0..dag.limits().sites {
        match known_floor(dag, place + 1, floors[place as usize]) {
            Some(held) => known.push(held)?,
            None => return Ok(None),
        }
    }
    Ok(Some(known))
}

/// The floor with the slot of its state, where it may be that of the site.
fn known_floor(dag: &StateDag, site: u16, floor: ToldFloor) -> Option<KnownFloor>
    requires first { 1 ≤ site }
    requires last { site ≤ dag.now.limits.sites }
    ensures told { IfSome result (λ known. known_floor known ≡ floor_told floor) }
    ensures at { IfSome result (λ known. IsAt dag.now known.place) }
    ensures fits { (t : Told) → Stands dag.now t.dag t.collected → is_some result ≡ may_be_floor t site (floor_told floor) }
{
    let ToldFloor {
        state,
        number,
        stated,
    } = floor;
    if stated > dag.count(site) {
        return None;
    }
    match dag.slot_of(state) {
        Some(slot) => Some(KnownFloor {
            place: Place { state, slot },
            number,
            stated,
        }),
        None => None,
    }
}

/// The slots of these floors, in their order.
fn slots_of(alloc: Global, floors: &[KnownFloor]) -> Result<Vec<Slot>, NoMemory>
    ensures { IfOk result (λ slots. slots.items ≡ map (λ f. f.place.slot) floors.now) }
{
    let mut slots = Vec::with_capacity(alloc, floors.len())?;
    for floor in floors {
        slots.push(floor.place.slot)?;
    }
    Ok(slots)
}
