//! Whether nobody can tell what lasts of two sites apart.

ghost use Rattle.std.specs.Prelude.{◌≡◌, ◌↔◌, IsTrue, map};
ghost use Rattle.std.specs.List.{list_all};
ghost use Rattle.std.specs.Map.{values_of};
ghost use Rattle.state_dag.specs.Table.{is_slot};
ghost use Rattle.ceiling_book.specs.Book.{known_floor};
ghost use Rattle.ceiling_book.specs.Places.{AreSlots};
ghost use Rattle.plain_site.specs.Site.{Site};
ghost use Rattle.session_core.specs.Machine.{SiteStands};
ghost use Rattle.twin_sites.specs.Twins.{AreTwinCores, is_last_kept, last_commits_stay};

use ceiling_book::{CeilingBook, KnownFloor, OpenSession};
use session_core::SiteCore;
use state_dag::StateDag;
use tardis_base::StateId;
use twin_stores::are_twins;

/// Whether nobody can tell what lasts of the two sites apart: their stores are twins, and they have the same own number, room for
/// as many sessions, the same floors, and the same state where the root is, or what stands in for it.
///
/// Sessions and what waits aren't compared. It takes no memory. The cost is that of `twin_stores::are_twins`, and grows with the
/// number of sites.
pub fn rest_alike(one: &SiteCore, other: &SiteCore) -> bool
    ensures { (s t : Site) → SiteStands one.now s → SiteStands other.now t → IsTrue result ↔ AreTwinCores one.now other.now }
{
    if !are_twins(one.store(), other.store()) {
        return false;
    }
    let book = one.book();
    let other_book = other.book();
    if book.own_site() != other_book.own_site() {
        return false;
    }
    if book.max_sessions() != other_book.max_sessions() {
        return false;
    }
    let root = one.store().dag().id_of(book.root());
    if root != other.store().dag().id_of(other_book.root()) {
        return false;
    }
    are_same_floors(book.floors(), other_book.floors())
}

/// Whether the same is known of each floor.
fn are_same_floors(floors: &[KnownFloor], others: &[KnownFloor]) -> bool
    ensures { IsTrue result ↔ (map known_floor floors.now ≡ map known_floor others.now) }
{
    if floors.len() != others.len() {
        return false;
    }
    for place in 0..floors.len() {
        if !is_same_floor(&floors[place], &others[place]) {
            return false;
        }
    }
    true
}

/// Whether the same is known of the floor.
fn is_same_floor(floor: &KnownFloor, other: &KnownFloor) -> bool
    ensures { IsTrue result ↔ (known_floor floor.now ≡ known_floor other.now) }
{
    floor.place.state == other.place.state
        && floor.number == other.number
        && floor.stated == other.stated
}

/// Whether the last commit of each open session is kept, or it has made none. One that was collected may be unknown in another
/// history that leaves the same, or another state may stand in for it there.
///
/// It takes no memory. The cost grows with the number of open sessions.
pub fn last_commits_stay(core: &SiteCore) -> bool
    ensures { result ≡ last_commits_stay core.now }
{
    are_last_commits_kept(core.book(), core.store().dag())
}

/// Whether the last commit of each of the book's sessions is kept, or the root.
fn are_last_commits_kept(book: &CeilingBook, dag: &StateDag) -> bool
    requires { AreSlots book.now dag.now }
    ensures { result ≡ list_all (is_last_kept dag.now) (values_of book.now.sessions) }
{
    for (_, session) in book.open_sessions() {
        if !is_last_kept(session, dag) {
            return false;
        }
    }
    true
}

/// Whether the last commit of the session is kept, or the root.
fn is_last_kept(session: &OpenSession, dag: &StateDag) -> bool
    requires { IsTrue (is_slot dag.now session.now.last.slot) }
    ensures { result ≡ is_last_kept dag.now session.now }
{
    dag.id_of(session.last.slot) == session.last.state || session.last.state == StateId::ROOT
}
