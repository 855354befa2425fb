//! Consents of other sites are judged and taken.

ghost use Rattle.std.specs.Prelude.{◌≡◌, ◌≤◌, List, length, Some, is_some, IsTrue, IfOk, IfErr, IfSome};
ghost use Rattle.tardis_base.specs.declared.ids.StateId.{StateId};
ghost use Rattle.tardis_base.specs.declared.records.Record.{Record};
ghost use Rattle.tardis_base.specs.Ids.{is_among};
ghost use Rattle.plain_dag.specs.States.{is_known, count_of_site};
ghost use Rattle.plain_dag.specs.Above.{is_above, is_proper_ancestor};
ghost use Rattle.plain_dag.specs.Floors.{is_closed};
ghost use Rattle.state_dag.specs.Table.{Table, id_at, is_slot};
ghost use Rattle.state_dag.specs.Stands.{Stands};
ghost use Rattle.ceiling_book.specs.Book.{floors_of};
ghost use Rattle.ceiling_book.specs.Places.{AreSlots, ArePlaced};
ghost use Rattle.ceiling_book.specs.Floors.{KeepsSessions};
ghost use Rattle.ceiling_book.specs.Consents.{consent_end, is_early_consent, end_of, TakenIn};

use crate::CeilingBook;
use crate::parts::{KnownFloor, Place};
use state_dag::StateDag;
use tardis_base::{Consent, Refusal, Slot, StateId};

/// What became of a consent that was delivered.
#[derive(Drop)]
pub enum ConsentEnd {
    /// It was taken.
    Applied,
    /// The site's floor is known with this number, or a greater one.
    Known,
    /// Not all of the states that it counts have come, or its floor has not: of this site there are so many states.
    Early { have: u32 },
    /// BadSite, where there is no such site; OwnItem, where the site is this one; FloorBack, where the site's floor isn't at
    /// or above the new one.
    Refused(Refusal),
}

impl CeilingBook {
    /// Takes a consent of another site: its floor, its number and its count. It takes no memory.
    ///
    /// The rule is stated in `docs/MODEL.md`. The cost grows with the logarithm of the number of kept states, and once one
    /// ancestry is asked.
    pub fn take_consent(&mut self, dag: &StateDag, promise: &Consent) -> ConsentEnd
        requires slots { AreSlots self.old dag.now }
        requires sites { length (floors_of self.old) ≡ dag.now.limits.sites }
        requires first { 1 ≤ promise.now.site }
        ensures judged { (rs : List Record) (ks : List StateId) → Stands dag.now rs ks → ArePlaced self.old dag.now rs ks
            → ((x : StateId) → IsTrue (is_among x ks) → IsTrue (is_closed rs (floors_of self.old) x))
            → result ≡ consent_end rs (floors_of self.old) self.old.own promise.now }
        ensures taken { TakenIn self.old self.new promise.now result }
        ensures rest { KeepsSessions self.old self.new }
        ensures slots { AreSlots self.new dag.now }
        ensures placed { (rs : List Record) (ks : List StateId) → Stands dag.now rs ks → ArePlaced self.old dag.now rs ks → ArePlaced self.new dag.now rs ks }
    {
        self.take_judged(dag, self.own, promise)
    }

    /// Takes a consent back that was known here before, be it an own one: it is judged as by a site of another number. It
    /// answers as `take_consent` does, at that cost, and takes no memory.
    pub fn take_consent_back(&mut self, dag: &StateDag, promise: &Consent) -> ConsentEnd
        requires slots { AreSlots self.old dag.now }
        requires sites { length (floors_of self.old) ≡ dag.now.limits.sites }
        requires first { 1 ≤ promise.now.site }
        ensures judged { (rs : List Record) (ks : List StateId) → Stands dag.now rs ks → ArePlaced self.old dag.now rs ks
            → ((x : StateId) → IsTrue (is_among x ks) → IsTrue (is_closed rs (floors_of self.old) x))
            → result ≡ consent_end rs (floors_of self.old) 0 promise.now }
        ensures taken { TakenIn self.old self.new promise.now result }
        ensures rest { KeepsSessions self.old self.new }
        ensures slots { AreSlots self.new dag.now }
        ensures placed { (rs : List Record) (ks : List StateId) → Stands dag.now rs ks → ArePlaced self.old dag.now rs ks → ArePlaced self.new dag.now rs ks }
    {
        self.take_judged(dag, 0, promise)
    }

    /// Takes a consent, judged by the site of this number; that of no site is 0.
    fn take_judged(&mut self, dag: &StateDag, own: u16, promise: &Consent) -> ConsentEnd
        requires slots { AreSlots self.old dag.now }
        requires sites { length (floors_of self.old) ≡ dag.now.limits.sites }
        requires first { 1 ≤ promise.now.site }
        ensures judged { (rs : List Record) (ks : List StateId) → Stands dag.now rs ks → ArePlaced self.old dag.now rs ks
            → ((x : StateId) → IsTrue (is_among x ks) → IsTrue (is_closed rs (floors_of self.old) x))
            → result ≡ consent_end rs (floors_of self.old) own promise.now }
        ensures taken { TakenIn self.old self.new promise.now result }
        ensures rest { KeepsSessions self.old self.new }
        ensures slots { AreSlots self.new dag.now }
        ensures placed { (rs : List Record) (ks : List StateId) → Stands dag.now rs ks → ArePlaced self.old dag.now rs ks → ArePlaced self.new dag.now rs ks }
    {
        match self.judge_consent(dag, own, promise) {
            Err(end) => end,
            Ok(slot) => {
                self.floors[promise.site as usize - 1] = KnownFloor {
                    place: Place {
                        state: promise.floor,
                        slot,
                    },
                    number: promise.number,
                    stated: promise.count,
                };
                ConsentEnd::Applied
            },
        }
    }

    /// The slot of the floor of a consent that is to be taken; else what becomes of it.
    fn judge_consent(&self, dag: &StateDag, own: u16, promise: &Consent) -> Result<Slot, ConsentEnd>
        requires slots { AreSlots self.now dag.now }
        requires sites { length (floors_of self.now) ≡ dag.now.limits.sites }
        requires first { 1 ≤ promise.now.site }
        ensures judged { (rs : List Record) (ks : List StateId) → Stands dag.now rs ks → ArePlaced self.now dag.now rs ks
            → ((x : StateId) → IsTrue (is_among x ks) → IsTrue (is_closed rs (floors_of self.now) x))
            → end_of result ≡ consent_end rs (floors_of self.now) own promise.now }
        ensures same { IfErr result (λ end. TakenIn self.now self.now promise.now end) }
        ensures last { IfOk result (λ slot. promise.now.site ≤ length (floors_of self.now)) }
        ensures floor { IfOk result (λ slot. id_at dag.now slot ≡ Some promise.now.floor) }
    {
        let site = promise.site;
        if site > self.sites() {
            return Err(ConsentEnd::Refused(Refusal::BadSite { site }));
        }
        let (floor, number, _) = self.floor(site);
        if promise.number <= number {
            return Err(ConsentEnd::Known);
        }
        if site == own {
            return Err(ConsentEnd::Refused(Refusal::OwnItem {
                site,
                number: promise.number,
            }));
        }
        let have = dag.count(site);
        if is_early(dag, promise, have) {
            return Err(ConsentEnd::Early { have });
        }
        match slot_below(dag, floor, promise.floor) {
            Some(slot) => Ok(slot),
            None => Err(ConsentEnd::Refused(Refusal::FloorBack {
                floor: dag.id_of(floor),
            })),
        }
    }
}

/// Whether the consent comes before the states that it counts, of which there are so many, or before its floor.
fn is_early(dag: &StateDag, promise: &Consent, have: u32) -> bool
    ensures { (rs : List Record) (ks : List StateId) → Stands dag.now rs ks → have ≡ count_of_site rs promise.now.site
        → result ≡ is_early_consent rs promise.now }
{
    have < promise.count || !dag.knows(promise.floor)
}

/// The slot of the state, where the floor of the other slot is at or above it.
fn slot_below(dag: &StateDag, floor: Slot, state: StateId) -> Option<Slot>
    requires { IsTrue (is_slot dag.now floor) }
    ensures floor { IfSome result (λ slot. id_at dag.now slot ≡ Some state) }
    ensures below { (rs : List Record) (ks : List StateId) → Stands dag.now rs ks → (f : StateId) → id_at dag.now floor ≡ Some f
        → ((x : StateId) → IsTrue (is_among x ks) → IsTrue (is_proper_ancestor rs x f)) → IsTrue (is_known rs state)
        → is_some result ≡ is_above rs f state }
{
    match dag.slot_of(state) {
        Some(slot) => {
            if dag.is_ancestor(floor, slot) {
                Some(slot)
            } else {
                None
            }
        },
        None => None,
    }
}
