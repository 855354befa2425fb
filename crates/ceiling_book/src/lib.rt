//! The book of ceilings: the open sessions with their ceilings and last commits, and what is known of each site's floor.
#![tactic(auto)]

ghost use Rattle.std.specs.Prelude.{◌≡◌, ◌≤◌, List, [], ◌∷◌, map, replicate, length, Some, IsTrue, IfOk, OnErr};
ghost use Rattle.std.specs.List.{All};
ghost use Rattle.tardis_base.specs.declared.ids.StateId.{StateId};
ghost use Rattle.tardis_base.specs.declared.records.Record.{Record};
ghost use Rattle.tardis_base.specs.Ids.{root as the_root};
ghost use Rattle.tardis_base.specs.Valid.{are_limits};
ghost use Rattle.plain_dag.specs.Entries.{entry_of, changed, without_entry};
ghost use Rattle.plain_dag.specs.Floors.{Session, after_commit, opening_floor, floor_of};
ghost use Rattle.plain_dag.specs.Collection.{stand_in};
ghost use Rattle.state_dag.specs.Table.{Table, id_at, is_slot};
ghost use Rattle.state_dag.specs.Stands.{Stands};
ghost use Rattle.ceiling_book.specs.Book.{sessions_of, floors_of, known_floor, own_floor, is_open};
ghost use Rattle.ceiling_book.specs.Places.{IsSlotOf, IsAt, HasStandIn, AreSlots, ArePlaced};
ghost use Rattle.ceiling_book.specs.Answers.{KeepsRest, OpenedIn};
ghost use Rattle.ceiling_book.specs.Renaming.{renamed, is_free, GivesUp};

mod consents;
mod floors;
mod lends;
mod parts;

pub use consents::ConsentEnd;
pub use floors::{CeilingBack, RaiseFault};
pub use parts::{KnownFloor, OpenSession, Place};
use state_dag::StateDag;
use std::alloc::{AllocFailed, Global};
use std::collections::{BTreeMap, btree_map};
use std::error::Error;
use std::fmt;
use std::marker::Model;
use tardis_base::{Limits, NoMemory, Slot, StateId};

/// Why a session did not open.
#[derive(Clone, Copy, Debug)]
pub enum OpenFault {
    AlreadyOpen,
    /// So many are open, and no more may be.
    SessionsFull { n: u16 },
    NoMemory,
}

impl fmt::Display for OpenFault {
    fn fmt<W: fmt::Write>(&self, f: &mut fmt::Formatter<W>) -> fmt::Result {
        match self {
            OpenFault::AlreadyOpen => f.write_str("the session is open already"),
            OpenFault::SessionsFull { n } => {
                write!(f, "{n} sessions are open, as many as may be: close one")
            },
            OpenFault::NoMemory => f.write_str("out of memory"),
        }
    }
}

impl Error for OpenFault {}

impl<T: Drop> From<AllocFailed<T>> for OpenFault {
    ghost use Rattle.std.specs.Prelude.{◌≡◌};
    ghost use Rattle.ceiling_book.specs.declared.OpenFault.TheVariants.{NoMemory as OutOfMemory};

    ghost from_gives = { λ _ fault. fault ≡ OutOfMemory };

    fn from(_: AllocFailed<T>) -> OpenFault {
        OpenFault::NoMemory
    }
}

/// The sessions of one site and the floors of all sites, as known here.
///
/// Each state is kept with its slot in the table of states, so that no call searches for it. A call that names a session
/// looks it up, at a cost that grows with the logarithm of the number of open sessions. The cost of the others, but for
/// `new`, is the same for each book.
#[derive(Drop)]
pub struct CeilingBook {
    own: u16,
    max_sessions: u16,
    root: Slot,
    sessions: BTreeMap<u16, OpenSession>,
    floors: Vec<KnownFloor>,
}

impl Model for CeilingBook {
    ghost use Rattle.ceiling_book.specs.Book.{Book};

    ghost Value = { Book };

    ghost use Rattle.ceiling_book.specs.Held.{seen, IsHeld};

    ghost view = { seen };

    ghost invariant = { IsHeld };
}

impl CeilingBook {
    /// No session, and the floor of each site at the root, which stands at the slot.
    pub fn new(
        alloc: Global,
        limits: &Limits,
        own: u16,
        root: Slot,
    ) -> Result<CeilingBook, NoMemory>
        requires limits { IsTrue (are_limits limits.now) }
        requires first { 1 ≤ own }
        requires last { own ≤ limits.now.sites }
        ensures own { IfOk result (λ book. book.own ≡ own) }
        ensures max_sessions { IfOk result (λ book. book.max_sessions ≡ limits.now.max_sessions) }
        ensures sessions { IfOk result (λ book. sessions_of book ≡ []) }
        ensures floors { IfOk result (λ book. floors_of book ≡ replicate limits.now.sites opening_floor) }
        ensures slots { IfOk result (λ book. (table : Table) → IsTrue (is_slot table root) → AreSlots book table) }
        ensures placed { IfOk result (λ book. (table : Table) (rs : List Record) (ks : List StateId) → Stands table rs ks → id_at table root
            ≡ Some the_root → ArePlaced book table rs ks) }
    {
        let place = Place {
            state: StateId::ROOT,
            slot: root,
        };
        let floor = KnownFloor {
            place,
            number: 0,
            stated: 0,
        };
        let floors = vec![in alloc; floor; limits.sites as usize]?;
        Ok(CeilingBook {
            own,
            max_sessions: limits.max_sessions,
            root,
            sessions: BTreeMap::new(alloc),
            floors,
        })
    }

    /// The book of a site at rest: no session, where the root stands or what stands in for it, and the floor of each site, in
    /// the order of the sites' numbers. It takes no memory.
    pub fn resting(
        alloc: Global,
        limits: &Limits,
        own: u16,
        root: Slot,
        floors: Vec<KnownFloor>,
    ) -> CeilingBook
        requires limits { IsTrue (are_limits limits.now) }
        requires first { 1 ≤ own }
        requires last { own ≤ limits.now.sites }
        requires each { length floors.items ≡ limits.now.sites }
        ensures own { result.own ≡ own }
        ensures max_sessions { result.max_sessions ≡ limits.now.max_sessions }
        ensures sessions { sessions_of result ≡ [] }
        ensures floors { floors_of result ≡ map known_floor floors.items }
        ensures root { result.root ≡ root }
        ensures slots { (table : Table) → IsTrue (is_slot table root) → All (λ f. IsSlotOf table f.place) floors.items → AreSlots result table }
        ensures placed { (table : Table) (rs : List Record) (ks : List StateId)
            → HasStandIn table rs ks (record { state = the_root; slot = root }) → All (λ f. IsAt table f.place) floors.items
            → ArePlaced result table rs ks }
    {
        CeilingBook {
            own,
            max_sessions: limits.max_sessions,
            root,
            sessions: BTreeMap::new(alloc),
            floors,
        }
    }

    /// Opens the session under the own floor, with the root as its last commit, and answers the slot of its ceiling.
    pub fn open_session(&mut self, session: u16, follow: bool) -> Result<Slot, OpenFault>
        ensures opened { OpenedIn self.old self.new session follow result }
        ensures rest { KeepsRest self.old self.new }
        ensures slot { IfOk result (λ slot. (table : Table) → AreSlots self.old table → IsTrue (is_slot table slot)) }
        ensures ceiling { IfOk result (λ slot. (table : Table) (rs : List Record) (ks : List StateId) → ArePlaced self.old table rs ks
            → id_at table slot ≡ Some (own_floor self.old).state) }
        ensures slots { (table : Table) → AreSlots self.old table → AreSlots self.new table }
        ensures placed { (table : Table) (rs : List Record) (ks : List StateId) → ArePlaced self.old table rs ks → ArePlaced self.new table rs ks }
    {
        if self.sessions.contains_key(&session) {
            return Err(OpenFault::AlreadyOpen);
        }
        if self.sessions.len() == self.max_sessions as usize {
            return Err(OpenFault::SessionsFull {
                n: self.max_sessions,
            });
        }
        let ceiling = self.floors[self.own as usize - 1].place;
        let last = Place {
            state: StateId::ROOT,
            slot: self.root,
        };
        let opening = OpenSession {
            follow,
            ceiling,
            last,
        };
        self.sessions.insert(session, opening)?;
        Ok(ceiling.slot)
    }

    pub fn is_open(&self, session: u16) -> bool
        ensures { result ≡ is_open self.now session }
    {
        self.sessions.contains_key(&session)
    }

    /// How many sessions are open.
    pub fn sessions(&self) -> u16
        ensures is { result ≡ length (sessions_of self.now) }
        ensures within { result ≤ self.now.max_sessions }
    {
        self.sessions.len() as u16
    }

    /// The open sessions, by ascending numbers.
    pub fn open_sessions(&self) -> btree_map::Iter<'_, u16, OpenSession>
        ensures { result ≡ self.now.sessions }
    {
        self.sessions.iter()
    }

    pub fn close_session(&mut self, session: u16)
        requires { IsTrue (is_open self.old session) }
        ensures closed { sessions_of self.new ≡ without_entry session (sessions_of self.old) }
        ensures rest { KeepsRest self.old self.new }
        ensures slots { (table : Table) → AreSlots self.old table → AreSlots self.new table }
        ensures placed { (table : Table) (rs : List Record) (ks : List StateId) → ArePlaced self.old table rs ks → ArePlaced self.new table rs ks }
    {
        self.sessions.remove(&session);
    }

    /// The slot of the session's ceiling.
    pub fn ceiling(&self, session: u16) -> Slot
        requires { IsTrue (is_open self.now session) }
        ensures slot { (table : Table) → AreSlots self.now table → IsTrue (is_slot table result) }
        ensures ceiling { (table : Table) (rs : List Record) (ks : List StateId) → ArePlaced self.now table rs ks → (s : Session)
            → entry_of session (sessions_of self.now) ≡ Some s → id_at table result ≡ Some s.ceiling }
    {
        self.session(session).ceiling.slot
    }

    /// The session's last commit, or the root, and the slot at which it is kept, or what stands in for it.
    pub fn last(&self, session: u16) -> (StateId, Slot)
        requires { IsTrue (is_open self.now session) }
        ensures state { (s : Session) → entry_of session (sessions_of self.now) ≡ Some s → result.0 ≡ s.last }
        ensures slot { (table : Table) → AreSlots self.now table → IsTrue (is_slot table result.1) }
        ensures stand_in { (table : Table) (rs : List Record) (ks : List StateId) → ArePlaced self.now table rs ks → (s : Session)
            → entry_of session (sessions_of self.now) ≡ Some s → id_at table result.1 ≡ Some (stand_in rs ks s.last) }
    {
        let last = self.session(session).last;
        (last.state, last.slot)
    }

    /// Notes that the session committed the state at the slot. Where the session follows and its ceiling is at or above the
    /// state, this is its ceiling too.
    ///
    /// Where it follows, the cost is also that of `StateDag::is_ancestor`.
    pub fn committed(&mut self, dag: &StateDag, session: u16, slot: Slot)
        requires open { IsTrue (is_open self.old session) }
        requires slots { AreSlots self.old dag.now }
        requires slot { IsTrue (is_slot dag.now slot) }
        ensures sessions { (rs : List Record) (ks : List StateId) → Stands dag.now rs ks → ArePlaced self.old dag.now rs ks → (x : StateId)
            → id_at dag.now slot ≡ Some x → sessions_of self.new ≡ changed session (after_commit rs x) (sessions_of self.old) }
        ensures rest { KeepsRest self.old self.new }
        ensures slots { AreSlots self.new dag.now }
        ensures placed { (rs : List Record) (ks : List StateId) → Stands dag.now rs ks → ArePlaced self.old dag.now rs ks → ArePlaced self.new dag.now rs ks }
    {
        let commit = Place {
            state: dag.id_of(slot),
            slot,
        };
        if let Some(held) = self.sessions.get_mut(&session) {
            *held = held.after_commit(dag, commit);
        }
    }

    /// Moves what stands in for last commits and for the root from the one slot to the other; all else stays. So the book
    /// stands where a state is collected that is no ceiling and no floor.
    ///
    /// It takes no memory. The cost grows with the number of open sessions.
    pub fn rename(&mut self, from: Slot, to: Slot)
        ensures renamed { self.new ≡ renamed from to self.old }
        ensures sessions { sessions_of self.new ≡ sessions_of self.old }
        ensures placed { (old new : Table) (rs : List Record) (ks : List StateId) (x s : StateId) → Stands old rs ks → GivesUp old new rs ks from to x s
            → IsTrue (is_free self.old x) → ArePlaced self.old old rs ks → ArePlaced self.new new rs (x ∷ ks) }
    {
        self.root = parts::renamed(self.root, from, to);
        self.sessions.retain(|_, held| {
            *held = held.renamed(from, to);
            true
        });
    }

    /// The slot of the site's floor as known here, the number of its consent, and the count stated with it.
    pub fn floor(&self, site: u16) -> (Slot, u32, u32)
        requires first { 1 ≤ site }
        requires last { site ≤ length (floors_of self.now) }
        ensures slot { (table : Table) → AreSlots self.now table → IsTrue (is_slot table result.0) }
        ensures floor { (table : Table) (rs : List Record) (ks : List StateId) → ArePlaced self.now table rs ks → id_at table result.0
            ≡ Some (floor_of (floors_of self.now) site).state }
        ensures number { result.1 ≡ (floor_of (floors_of self.now) site).number }
        ensures stated { result.2 ≡ (floor_of (floors_of self.now) site).stated }
    {
        let floor = self.floors[site as usize - 1];
        (floor.place.slot, floor.number, floor.stated)
    }

    /// The number of the site whose book this is.
    pub fn own_site(&self) -> u16
        ensures is { result ≡ self.now.own }
        ensures first { 1 ≤ result }
        ensures last { result ≤ length (floors_of self.now) }
    {
        self.own
    }

    /// How many sites there are.
    pub fn sites(&self) -> u16
        ensures is { result ≡ length (floors_of self.now) }
        ensures within { result ≤ 16 }
    {
        self.floors.len() as u16
    }

    fn session(&self, session: u16) -> &OpenSession
        requires { IsTrue (is_open self.now session) }
        ensures { entry_of session self.now.sessions ≡ Some result.now }
    {
        &self.sessions[&session]
    }
}
