//! Ceilings and floors move.

ghost use Rattle.std.specs.Prelude.{◌≡◌, ◌≤◌, ◌<◌, ℕ, Bool, false, ◌==◌, ◌&&◌, List, length, map, slice_index_or, Some, IsTrue, IfOk, IfSome, OnErr};
ghost use Rattle.tardis_base.specs.declared.ids.StateId.{StateId};
ghost use Rattle.tardis_base.specs.declared.records.Record.{Record};
ghost use Rattle.tardis_base.specs.Ids.{same_id, is_among};
ghost use Rattle.plain_dag.specs.Above.{is_above, is_proper_ancestor};
ghost use Rattle.plain_dag.specs.Entries.{entry_of};
ghost use Rattle.plain_dag.specs.Floors.{Session, Floor, unpromised, are_unpromised_above, automatic_floor, is_closed, is_above_ceilings, is_above_floors};
ghost use Rattle.plain_dag.specs.Collection.{kept_states};
ghost use Rattle.state_dag.specs.Table.{Table, id_at, is_slot};
ghost use Rattle.state_dag.specs.Stands.{Stands};
ghost use Rattle.ceiling_book.specs.Book.{sessions_of, floors_of, own_floor, is_open};
ghost use Rattle.ceiling_book.specs.Places.{PlacesBesideFloors, IsSlotOf, IsAt, HasStandIn, AreSlots, ArePlaced};
ghost use Rattle.ceiling_book.specs.Answers.{KeepsRest};
ghost use Rattle.ceiling_book.specs.Floors.{KeepsSessions, CeilingSetIn, FloorMoved, RaisedIn, AutoRaisedIn, with_floors_at};
ghost use Rattle.ceiling_book.specs.Floors.{slot_holder, each_ceiling};

use crate::CeilingBook;
use crate::parts::{KnownFloor, OpenSession, Place};
use state_dag::StateDag;
use std::error::Error;
use std::fmt;
use tardis_base::{SeqEnd, Slot, StateId};

/// The session's ceiling isn't at or above the state, so it may not move there.
#[derive(Clone, Copy, Debug)]
pub struct CeilingBack {
    pub ceiling: StateId,
}

impl fmt::Display for CeilingBack {
    fn fmt<W: fmt::Write>(&self, f: &mut fmt::Formatter<W>) -> fmt::Result {
        let ceiling = self.ceiling;
        write!(
            f,
            "the session's ceiling {ceiling} is not at or above the state: ceilings only go down"
        )
    }
}

impl Error for CeilingBack {}

/// Why the own floor did not move.
#[derive(Clone, Copy, Debug)]
pub enum RaiseFault {
    /// The floor isn't at or above the state.
    FloorBack { floor: StateId },
    /// The state isn't at or above the ceiling of this session, the least such one.
    Held { session: u16, ceiling: StateId },
    /// The floor moved 4,294,967,295 times, and no more numbers are left.
    SeqEnd,
}

impl fmt::Display for RaiseFault {
    fn fmt<W: fmt::Write>(&self, f: &mut fmt::Formatter<W>) -> fmt::Result {
        match *self {
            RaiseFault::FloorBack { floor } => {
                write!(
                    f,
                    "the floor {floor} is not at or above the state: floors only go down"
                )
            },
            RaiseFault::Held { session, ceiling } => {
                write!(
                    f,
                    "session {session} has its ceiling {ceiling} above or beside the state: move its ceiling, or close it"
                )
            },
            RaiseFault::SeqEnd => f.write_str("the numbers of this site's floors are used up"),
        }
    }
}

impl Error for RaiseFault {}

impl CeilingBook {
    /// Moves the session's ceiling down to the state at the slot.
    ///
    /// The cost is that of `StateDag::is_ancestor`, beside that of finding the session.
    pub fn set_ceiling(
        &mut self,
        dag: &StateDag,
        session: u16,
        slot: Slot,
    ) -> Result<(), CeilingBack>
        requires open { IsTrue (is_open self.old session) }
        requires slots { AreSlots self.old dag.now }
        requires slot { IsTrue (is_slot dag.now slot) }
        ensures set { (rs : List Record) (ks : List StateId) → Stands dag.now rs ks → ArePlaced self.old dag.now rs ks → (s : Session)
            → entry_of session (sessions_of self.old) ≡ Some s → (x : StateId) → id_at dag.now slot ≡ Some x
            → CeilingSetIn rs self.old self.new session s x result }
        ensures same { OnErr result (self.new ≡ self.old) }
        ensures rest { KeepsRest self.old self.new }
        ensures slots { AreSlots self.new dag.now }
        ensures placed { (rs : List Record) (ks : List StateId) → Stands dag.now rs ks → ArePlaced self.old dag.now rs ks → ArePlaced self.new dag.now rs ks }
    {
        let ceiling = self.session(session).ceiling;
        if !dag.is_ancestor(ceiling.slot, slot) {
            return Err(CeilingBack {
                ceiling: ceiling.state,
            });
        }
        let place = Place {
            state: dag.id_of(slot),
            slot,
        };
        if let Some(held) = self.sessions.get_mut(&session) {
            *held = held.with_ceiling(place);
        }
        Ok(())
    }

    /// Moves the own floor down to the state at the slot, and answers the number of the consent that says so.
    ///
    /// The cost grows with the number of open sessions: of each an ancestry is asked.
    pub fn raise(&mut self, dag: &StateDag, slot: Slot) -> Result<u32, RaiseFault>
        requires slots { AreSlots self.old dag.now }
        requires slot { IsTrue (is_slot dag.now slot) }
        requires sites { length (floors_of self.old) ≡ dag.now.limits.sites }
        ensures raised { (rs : List Record) (ks : List StateId) → Stands dag.now rs ks → ArePlaced self.old dag.now rs ks → (x : StateId)
            → id_at dag.now slot ≡ Some x → RaisedIn rs self.old self.new x result }
        ensures same { OnErr result (self.new ≡ self.old) }
        ensures rest { KeepsSessions self.old self.new }
        ensures slots { AreSlots self.new dag.now }
        ensures placed { (rs : List Record) (ks : List StateId) → Stands dag.now rs ks → ArePlaced self.old dag.now rs ks → ArePlaced self.new dag.now rs ks }
    {
        let floor = self.own_place();
        if !dag.is_ancestor(floor.slot, slot) {
            return Err(RaiseFault::FloorBack { floor: floor.state });
        }
        match self.holder(dag, slot) {
            Some((session, ceiling)) => Err(RaiseFault::Held { session, ceiling }),
            None => match self.move_floor(dag, slot) {
                Ok(number) => Ok(number),
                Err(SeqEnd) => Err(RaiseFault::SeqEnd),
            },
        }
    }

    /// Moves the own floor to the last-arrived state that it is at or above and that is at or above every open session's
    /// ceiling. Answers the slot of that state and the number of the consent.
    ///
    /// No state that arrived after an open ceiling is at or above it. So the states are tried backwards from the open ceiling
    /// that arrived first, or from the newest where no session is open, up to the first that fits: the cost grows with the
    /// number of the kept states between these two, and for those that the floor is at or above with the number of open
    /// sessions too; each ancestry that is asked costs what `StateDag::is_ancestor` does.
    pub fn raise_auto(&mut self, dag: &StateDag) -> Result<(Slot, u32), SeqEnd>
        requires slots { AreSlots self.old dag.now }
        requires sites { length (floors_of self.old) ≡ dag.now.limits.sites }
        ensures raised { (rs : List Record) (ks : List StateId) → Stands dag.now rs ks → ArePlaced self.old dag.now rs ks
            → ((x : StateId) → IsTrue (is_among x ks) → IsTrue (is_proper_ancestor rs x (own_floor self.old).state))
            → AutoRaisedIn rs dag.now self.old self.new result }
        ensures slot { IfOk result (λ raised. IsTrue (is_slot dag.now raised.0)) }
        ensures same { OnErr result (self.new ≡ self.old) }
        ensures rest { KeepsSessions self.old self.new }
        ensures slots { AreSlots self.new dag.now }
        ensures placed { (rs : List Record) (ks : List StateId) → Stands dag.now rs ks → ArePlaced self.old dag.now rs ks → ArePlaced self.new dag.now rs ks }
    {
        let slot = self.automatic_floor(dag);
        match self.move_floor(dag, slot) {
            Ok(number) => Ok((slot, number)),
            Err(SeqEnd) => Err(SeqEnd),
        }
    }

    /// Whether the state at the slot is a proper ancestor of every floor.
    ///
    /// The cost grows with the number of sites: of each an ancestry is asked.
    pub fn closed(&self, dag: &StateDag, slot: Slot) -> bool
        requires slots { AreSlots self.now dag.now }
        requires slot { IsTrue (is_slot dag.now slot) }
        ensures { (rs : List Record) (ks : List StateId) → Stands dag.now rs ks → ArePlaced self.now dag.now rs ks → (x : StateId)
            → id_at dag.now slot ≡ Some x → result ≡ is_closed rs (floors_of self.now) x }
    {
        let place = Place {
            state: dag.id_of(slot),
            slot,
        };
        for floor in self.floors.iter() {
            if !is_proper_ancestor(dag, place, floor.place) {
                return false;
            }
        }
        true
    }

    /// Whether the state at the slot is at or above every floor.
    ///
    /// The cost grows with the number of sites: of each an ancestry is asked.
    pub fn above_all_floors(&self, dag: &StateDag, slot: Slot) -> bool
        requires slots { AreSlots self.now dag.now }
        requires slot { IsTrue (is_slot dag.now slot) }
        ensures { (rs : List Record) (ks : List StateId) → Stands dag.now rs ks → ArePlaced self.now dag.now rs ks → (x : StateId)
            → id_at dag.now slot ≡ Some x → result ≡ is_above_floors rs (floors_of self.now) x }
    {
        for floor in self.floors.iter() {
            if !dag.is_ancestor(slot, floor.place.slot) {
                return false;
            }
        }
        true
    }

    /// Whether no site has promised anything, and every floor is at or above the state at the slot.
    ///
    /// The cost grows with the number of sites: of each an ancestry is asked.
    pub fn are_unpromised_above(&self, dag: &StateDag, slot: Slot) -> bool
        requires slots { AreSlots self.now dag.now }
        requires slot { IsTrue (is_slot dag.now slot) }
        ensures { (rs : List Record) (ks : List StateId) → Stands dag.now rs ks → ArePlaced self.now dag.now rs ks → (x : StateId)
            → id_at dag.now slot ≡ Some x → result ≡ are_unpromised_above rs (floors_of self.now) x }
    {
        for floor in self.floors.iter() {
            if !is_unpromised_above(dag, floor, slot) {
                return false;
            }
        }
        true
    }

    /// Every floor is at this state then, which is kept at the slot, as before any promise: with number 0 and no state stated.
    /// Sessions stay.
    ///
    /// It takes no memory, and the cost grows with the number of sites.
    pub fn set_floors(&mut self, state: StateId, slot: Slot)
        ensures set { self.new ≡ with_floors_at (record { state = state; slot = slot }) self.old }
        ensures floors { floors_of self.new ≡ map (λ (f : Floor). unpromised state) (floors_of self.old) }
        ensures rest { KeepsSessions self.old self.new }
        ensures slots { (table : Table) → PlacesBesideFloors (IsSlotOf table) (IsSlotOf table) self.old → IsTrue (is_slot table slot)
            → AreSlots self.new table }
        ensures placed { (table : Table) (rs : List Record) (ks : List StateId) → PlacesBesideFloors (IsAt table) (HasStandIn table rs ks) self.old
            → id_at table slot ≡ Some state → ArePlaced self.new table rs ks }
    {
        let floor = KnownFloor {
            place: Place { state, slot },
            number: 0,
            stated: 0,
        };
        self.floors.fill(floor);
    }

    /// Where the own floor is.
    fn own_place(&self) -> Place
        ensures slot { (table : Table) → AreSlots self.now table → IsTrue (is_slot table result.slot) }
        ensures floor { (table : Table) (rs : List Record) (ks : List StateId) → ArePlaced self.now table rs ks → id_at table result.slot ≡ Some result.state }
        ensures state { result.state ≡ (own_floor self.now).state }
    {
        self.floors[self.own as usize - 1].place
    }

    /// The least open session whose ceiling the state at the slot isn't at or above, with that ceiling.
    fn holder(&self, dag: &StateDag, slot: Slot) -> Option<(u16, StateId)>
        requires slots { AreSlots self.now dag.now }
        requires slot { IsTrue (is_slot dag.now slot) }
        ensures { result ≡ slot_holder dag.now self.now.sessions slot }
    {
        for (number, held) in self.sessions.iter() {
            if !dag.is_ancestor(slot, held.ceiling.slot) {
                return Some((*number, held.ceiling.state));
            }
        }
        None
    }

    /// The slot of the automatic floor: the state to which `raise_auto` would move the own floor, at the cost of the search
    /// that it tells of.
    pub fn automatic_floor(&self, dag: &StateDag) -> Slot
        requires slots { AreSlots self.now dag.now }
        ensures slot { IsTrue (is_slot dag.now result) }
        ensures floor { (rs : List Record) (ks : List StateId) → Stands dag.now rs ks → ArePlaced self.now dag.now rs ks
            → ((x : StateId) → IsTrue (is_among x ks) → IsTrue (is_proper_ancestor rs x (own_floor self.now).state)) → id_at dag.now result
            ≡ Some (automatic_floor rs (own_floor self.now).state (sessions_of self.now)) }
    {
        let floor = self.own_place();
        let kept = dag.kept_slots();
        for place in (0..self.first_late(dag)).rev() {
            if self.fits(dag, floor, kept[place]) {
                return kept[place];
            }
        }
        floor.slot
    }

    /// The place, among the kept states, behind the open ceiling that arrived first: no state from there on is at or above it.
    /// Where no session is open, the number of kept states.
    fn first_late(&self, dag: &StateDag) -> usize
        requires slots { AreSlots self.now dag.now }
        ensures within { result ≤ length dag.now.entries }
        ensures late { (rs : List Record) (ks : List StateId) → Stands dag.now rs ks → ArePlaced self.now dag.now rs ks → (k : ℕ) (d : StateId)
            → result ≤ k → k < length (kept_states rs ks)
            → is_above_ceilings rs (sessions_of self.now) (slice_index_or (kept_states rs ks) k d) ≡ false }
    {
        let kept = dag.kept_slots().len();
        match self.first_ceiling(dag) {
            Some(slot) => dag.place(slot) + 1,
            None => kept,
        }
    }

    /// The slot of the open ceiling that arrived first.
    fn first_ceiling(&self, dag: &StateDag) -> Option<Slot>
        requires { AreSlots self.now dag.now }
        ensures { (test : Slot → Bool) → IsTrue (each_ceiling test self.now.sessions) → IfSome result (λ slot. IsTrue (test slot)) }
    {
        let mut first = None;
        for (_, held) in self.sessions.iter() {
            let slot = held.ceiling.slot;
            if is_earlier(dag, slot, first) {
                first = Some(slot);
            }
        }
        first
    }

    /// Whether the floor is at or above the state at the slot, and that at or above every ceiling.
    fn fits(&self, dag: &StateDag, floor: Place, slot: Slot) -> bool
        requires slots { AreSlots self.now dag.now }
        requires floor { IsTrue (is_slot dag.now floor.slot) }
        requires slot { IsTrue (is_slot dag.now slot) }
        ensures { (rs : List Record) (ks : List StateId) → Stands dag.now rs ks → ArePlaced self.now dag.now rs ks → IsAt dag.now floor
            → (x : StateId) → id_at dag.now slot ≡ Some x → result ≡ (is_above rs floor.state x && is_above_ceilings rs (sessions_of self.now) x) }
    {
        if !dag.is_ancestor(floor.slot, slot) {
            return false;
        }
        self.holder(dag, slot).is_none()
    }

    /// Moves the own floor to the state at the slot, with the next number, if there is one.
    fn move_floor(&mut self, dag: &StateDag, slot: Slot) -> Result<u32, SeqEnd>
        requires slots { AreSlots self.old dag.now }
        requires slot { IsTrue (is_slot dag.now slot) }
        requires sites { length (floors_of self.old) ≡ dag.now.limits.sites }
        ensures moved { (rs : List Record) (ks : List StateId) → Stands dag.now rs ks → (x : StateId) → id_at dag.now slot ≡ Some x
            → FloorMoved rs self.old self.new x result }
        ensures same { OnErr result (self.new ≡ self.old) }
        ensures rest { KeepsSessions self.old self.new }
        ensures slots { AreSlots self.new dag.now }
        ensures placed { (rs : List Record) (ks : List StateId) → Stands dag.now rs ks → ArePlaced self.old dag.now rs ks → ArePlaced self.new dag.now rs ks }
    {
        let place = self.own as usize - 1;
        let number = self.floors[place].number;
        if number == u32::MAX {
            return Err(SeqEnd);
        }
        self.floors[place] = KnownFloor {
            place: Place {
                state: dag.id_of(slot),
                slot,
            },
            number: number + 1,
            stated: dag.count(self.own),
        };
        Ok(number + 1)
    }
}

/// Whether the state at the slot arrived before the other, if there is one.
fn is_earlier(dag: &StateDag, slot: Slot, other: Option<Slot>) -> bool
    requires slot { IsTrue (is_slot dag.now slot) }
    requires other { IfSome other (λ s. IsTrue (is_slot dag.now s)) }
{
    match other {
        Some(other) => dag.arrival(slot) < dag.arrival(other),
        None => true,
    }
}

/// Whether the state of the first place is an ancestor of that of the second, and another one.
fn is_proper_ancestor(dag: &StateDag, above: Place, below: Place) -> bool
    requires above { IsTrue (is_slot dag.now above.slot) }
    requires below { IsTrue (is_slot dag.now below.slot) }
    ensures { (rs : List Record) (ks : List StateId) → Stands dag.now rs ks → IsAt dag.now above → IsAt dag.now below → result
        ≡ is_proper_ancestor rs above.state below.state }
{
    dag.is_ancestor(above.slot, below.slot) && !is_same(above.state, below.state)
}

/// Whether the floor's site has promised nothing, and the floor is at or above the state at the slot.
fn is_unpromised_above(dag: &StateDag, floor: &KnownFloor, slot: Slot) -> bool
    requires floor { IsTrue (is_slot dag.now floor.now.place.slot) }
    requires slot { IsTrue (is_slot dag.now slot) }
    ensures { (rs : List Record) (ks : List StateId) → Stands dag.now rs ks → IsAt dag.now floor.now.place → (x : StateId)
        → id_at dag.now slot ≡ Some x → result ≡ (floor.now.number == 0 && is_above rs floor.now.place.state x) }
{
    floor.number == 0 && dag.is_ancestor(floor.place.slot, slot)
}

fn is_same(a: StateId, b: StateId) -> bool
    ensures { result ≡ same_id a b }
{
    a == b
}
