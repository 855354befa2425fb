//! What a book of ceilings keeps of a session and of a site's floor.

ghost use Rattle.std.specs.Prelude.{◌≡◌, ◌⊎◌, List, Some, IsTrue};
ghost use Rattle.tardis_base.specs.declared.ids.StateId.{StateId};
ghost use Rattle.tardis_base.specs.declared.records.Record.{Record};
ghost use Rattle.plain_dag.specs.Floors.{after_commit, with_ceiling};
ghost use Rattle.state_dag.specs.Table.{is_slot};
ghost use Rattle.state_dag.specs.Stands.{Stands};
ghost use Rattle.ceiling_book.specs.Book.{session_of};
ghost use Rattle.ceiling_book.specs.Places.{IsAt};
ghost use Rattle.ceiling_book.specs.Renaming.{renamed_slot, renamed_session};

use state_dag::StateDag;
use tardis_base::{Slot, StateId};

/// A state, and the slot of the table at which it is kept, or at which the state is kept that stands in for it.
#[derive(Clone, Copy)]
pub struct Place {
    pub state: StateId,
    pub slot: Slot,
}

/// An open session.
#[derive(Clone, Copy)]
pub struct OpenSession {
    pub follow: bool,
    pub ceiling: Place,
    pub last: Place,
}

/// What is known here of a site's promise.
#[derive(Clone, Copy)]
pub struct KnownFloor {
    pub place: Place,
    pub number: u32,
    pub stated: u32,
}

impl OpenSession {
    /// The session after its commit of this state. A ceiling that follows goes down with it.
    pub fn after_commit(&self, dag: &StateDag, commit: Place) -> OpenSession
        requires ceiling { IsTrue (is_slot dag.now self.now.ceiling.slot) }
        requires commit { IsTrue (is_slot dag.now commit.slot) }
        ensures session { (rs : List Record) (ks : List StateId) → Stands dag.now rs ks → IsAt dag.now self.now.ceiling → IsAt dag.now commit
            → session_of result ≡ after_commit rs commit.state (session_of self.now) }
        ensures ceiling { (result.ceiling ≡ self.now.ceiling) ⊎ (result.ceiling ≡ commit) }
        ensures last { result.last ≡ commit }
    {
        let goes_down = self.follow && dag.is_ancestor(self.ceiling.slot, commit.slot);
        OpenSession {
            follow: self.follow,
            ceiling: if goes_down { commit } else { self.ceiling },
            last: commit,
        }
    }
    /// The session under this ceiling.
    pub fn with_ceiling(&self, ceiling: Place) -> OpenSession
        ensures session { session_of result ≡ with_ceiling ceiling.state (session_of self.now) }
        ensures ceiling { result.ceiling ≡ ceiling }
        ensures last { result.last ≡ self.now.last }
    {
        OpenSession { ceiling, ..*self }
    }

    /// The session with the slot of its last commit renamed.
    pub fn renamed(&self, from: Slot, to: Slot) -> OpenSession
        ensures { result ≡ renamed_session from to self.now }
    {
        let last = Place {
            state: self.last.state,
            slot: renamed(self.last.slot, from, to),
        };
        OpenSession { last, ..*self }
    }
}

/// The slot, or `to` in the place of `from`.
pub fn renamed(slot: Slot, from: Slot, to: Slot) -> Slot
    ensures { result ≡ renamed_slot from to slot }
{
    if slot == from { to } else { slot }
}
