//! The collection of closed states: what they had goes to the states that stand in for them.
//!
//! Which states are collected, and in which order, is stated in `docs/MODEL.md`.
#![tactic(auto)]

ghost use Rattle.std.specs.Prelude.{◌≡◌, ◌-◌, ◌≤◌, true, List, length, Some, IsTrue, IsSome};
ghost use Rattle.tardis_base.specs.declared.ids.StateId.{StateId};
ghost use Rattle.tardis_base.specs.declared.records.Record.{Record};
ghost use Rattle.plain_dag.specs.Collection.{is_collectable, tidied};
ghost use Rattle.state_dag.specs.Table.{id_at, is_slot};
ghost use Rattle.state_dag.specs.Stands.{Stands};
ghost use Rattle.state_dag.specs.Detached.{shared_slot};
ghost use Rattle.ceiling_book.specs.Book.{floors_of};
ghost use Rattle.ceiling_book.specs.Places.{AreSlots, ArePlaced};
ghost use Rattle.path_compress.specs.Places.{NoneCollectable};
ghost use Rattle.path_compress.specs.Together.{StandTogether, StandForHistory, KeepsNumbers, KeepsPromises, KeepsUncollected};

use ceiling_book::CeilingBook;
use record_store::RecordStore;
use state_dag::StateDag;
use tardis_base::Slot;

/// Collects up to `n` states, the collectable one that arrived last first, and answers how many. It takes no memory.
///
/// It goes once over the states that are kept before the first floor, from the newest to the oldest, until `n` are collected.
/// For each that it passes the cost grows with the number of its children, and with that of the sites, for each of which an
/// ancestry is asked; for each that is collected also by what `RecordStore::collect` and `CeilingBook::rename` cost.
pub fn tidy(store: &mut RecordStore, book: &mut CeilingBook, n: u32) -> u32
    requires { StandForHistory store.old book.old }
    ensures tidied { (rs : List Record) (ks : List StateId) → StandTogether store.old book.old rs ks
        → StandTogether store.new book.new rs (tidied n rs (floors_of book.old) ks) }
    ensures count { (rs : List Record) (ks : List StateId) → StandTogether store.old book.old rs ks
        → result ≡ length (tidied n rs (floors_of book.old) ks) - length ks }
    ensures names { (rs : List Record) (ks : List StateId) → StandTogether store.old book.old rs ks
        → KeepsUncollected store.old.table store.new.table (tidied n rs (floors_of book.old) ks) }
    ensures numbers { KeepsNumbers store.old.table store.new.table }
    ensures promises { KeepsPromises book.old book.new }
    ensures slots { AreSlots book.new store.new.table }
    ensures within { result ≤ n }
{
    let mut count = 0;
    for place in (0..first_floor(store.dag(), book)).rev() {
        if count == n {
            return count;
        }
        let slot = store.dag().kept_slots()[place];
        if is_collectable(store.dag(), book, slot) {
            let stand_in = store.collect(slot);
            book.rename(slot, stand_in);
            count += 1;
        }
    }
    count
}

/// Whether the state at the slot is closed, and all its children have one stand-in.
fn is_collectable(dag: &StateDag, book: &CeilingBook, slot: Slot) -> bool
    requires slots { AreSlots book.now dag.now }
    requires slot { IsTrue (is_slot dag.now slot) }
    ensures is { (rs : List Record) (ks : List StateId) → Stands dag.now rs ks → ArePlaced book.now dag.now rs ks → (x : StateId)
        → id_at dag.now slot ≡ Some x → result ≡ is_collectable rs (floors_of book.now) ks x }
    ensures shared { result ≡ true → IsSome (shared_slot dag.now slot) }
{
    let shared = dag.shared_stand_in(slot).is_some();
    shared && book.closed(dag, slot)
}

/// The place, among the kept states, of the floor that arrived first: no state from there on is closed, so none may go.
///
/// The cost grows for each site with the logarithm of the number of kept states.
fn first_floor(dag: &StateDag, book: &CeilingBook) -> usize
    requires { AreSlots book.now dag.now }
    ensures within { result ≤ length dag.now.entries }
    ensures open { (rs : List Record) (ks : List StateId) → Stands dag.now rs ks → ArePlaced book.now dag.now rs ks
        → NoneCollectable rs (floors_of book.now) ks result }
{
    let mut first = dag.kept_slots().len();
    for site in 1..book.sites() + 1 {
        let (floor, _, _) = book.floor(site);
        let place = dag.place(floor);
        if place < first {
            first = place;
        }
    }
    first
}
