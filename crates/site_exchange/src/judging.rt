//! How a record of another site is judged where it arrives. The rule is stated in `docs/MODEL.md`.

ghost use Rattle.std.specs.Prelude.{◌≡◌, ◌≤◌, ◌<◌, ◌+◌, false, List, Some, None, length, find, IsTrue, OnOk};
ghost use Rattle.std.specs.List.{list_all};
ghost use Rattle.tardis_base.specs.declared.ids.StateId.{StateId};
ghost use Rattle.tardis_base.specs.declared.records.Record.{Record};
ghost use Rattle.plain_dag.specs.States.{is_known, count_of_site};
ghost use Rattle.plain_dag.specs.Floors.{is_closed};
ghost use Rattle.state_dag.specs.Table.{id_at, is_slot};
ghost use Rattle.state_dag.specs.Stands.{Stands};
ghost use Rattle.record_store.specs.Stands.{StoreStands};
ghost use Rattle.state_dag.specs.Table.{is_listed};
ghost use Rattle.ceiling_book.specs.Places.{AreSlots};
ghost use Rattle.plain_site.specs.Site.{Site};
ghost use Rattle.plain_site.specs.Exchange.{is_early};
ghost use Rattle.plain_site.specs.Rest.{nameless};
ghost use Rattle.site_exchange.specs.declared.judging.Judged.TheVariants.{Fit};
ghost use Rattle.site_exchange.specs.Stands.{BookStands};
ghost use Rattle.site_exchange.specs.Judgements.{reply_of, first_reply, first_judgements, parent_judgements, numbered, IsAddable};

use begin_rule::comparable_pair;
use ceiling_book::CeilingBook;
use record_store::RecordStore;
use state_dag::StateDag;
use tardis_base::{Record, Refusal, StateId};

/// What is to become of a record that arrived.
#[derive(Drop)]
pub enum Judged {
    /// It may be added.
    Fit,
    /// As many states of its site came already.
    Known,
    /// It isn't its site's next, or a parent has not come: of this site there are so many states.
    Early { have: u32 },
    /// BadSite, where there is no such site; OwnItem, where the site is this one; ClosedParent, for the first parent that is
    /// a proper ancestor of every floor; Comparable, for the first two parents of which one is at or above the other.
    Refused(Refusal),
}

/// How the record is judged, as far as it concerns neither its writes nor room. It takes no memory.
///
/// The writes are asked by `conflict_keys::open_conflict`, and room by `RecordStore::add_record`. A record that is known or early
/// costs no search of the store. Else the cost grows for each parent with the logarithm of the number of kept states, and with
/// the square of the number of parents and that times the number of sites: so many ancestries are asked.
pub fn judge_record(store: &RecordStore, book: &CeilingBook, rec: &Record) -> Judged
    requires slots { AreSlots book.now store.now.table }
    requires first { 1 ≤ rec.now.id.site }
    requires few { length rec.now.parents ≤ 8 }
    ensures judged { (site : Site) → StoreStands store.now site.dag site.collected → BookStands store.now.table book.now site
        → reply_of result ≡ first_reply (first_judgements site rec.now) }
    ensures fit { result ≡ Fit → IsAddable store.now.table rec.now }
{
    judge_for(store, book, book.own_site(), rec)
}

/// How the record is judged by the site under no number, so that it takes back what it knew before, own records too. Else it
/// answers as `judge_record` does, at that cost.
pub fn judge_nameless(store: &RecordStore, book: &CeilingBook, rec: &Record) -> Judged
    requires slots { AreSlots book.now store.now.table }
    requires first { 1 ≤ rec.now.id.site }
    requires few { length rec.now.parents ≤ 8 }
    ensures judged { (site : Site) → StoreStands store.now site.dag site.collected → BookStands store.now.table book.now site
        → reply_of result ≡ first_reply (first_judgements (nameless site) rec.now) }
    ensures fit { result ≡ Fit → IsAddable store.now.table rec.now }
{
    judge_for(store, book, 0, rec)
}

/// How the record is judged by the site under this number; that of no site is 0.
fn judge_for(store: &RecordStore, book: &CeilingBook, own: u16, rec: &Record) -> Judged
    requires slots { AreSlots book.now store.now.table }
    requires first { 1 ≤ rec.now.id.site }
    requires few { length rec.now.parents ≤ 8 }
    ensures judged { (site : Site) → StoreStands store.now site.dag site.collected → BookStands store.now.table book.now site
        → reply_of result ≡ first_reply (first_judgements (numbered own site) rec.now) }
    ensures fit { result ≡ Fit → IsAddable store.now.table rec.now }
{
    let dag = store.dag();
    let StateId { site, sequence } = rec.id;
    if site > dag.limits().sites {
        return Judged::Refused(Refusal::BadSite { site });
    }
    let have = dag.count(site);
    if sequence <= have {
        return Judged::Known;
    }
    if site == own {
        return Judged::Refused(Refusal::OwnItem {
            site,
            number: sequence,
        });
    }
    if is_early(dag, rec, have) {
        return Judged::Early { have };
    }
    judge_parents(store, book, rec.parents.as_slice())
}

/// Whether the record isn't its site's next, behind so many of it, or a parent isn't known. It takes constant time for each
/// parent.
fn is_early(dag: &StateDag, rec: &Record, have: u32) -> bool
    requires { have < rec.now.id.sequence }
    ensures early { (site : Site) → Stands dag.now site.dag site.collected → have ≡ count_of_site site.dag rec.now.id.site
        → result ≡ is_early site rec.now }
    ensures next { result ≡ false → rec.now.id.sequence ≡ have + 1 }
{
    let is_next = rec.id.sequence - have == 1;
    !(is_next && knows_all(dag, rec.parents.as_slice()))
}

/// Whether all of these are known.
fn knows_all(dag: &StateDag, states: &[StateId]) -> bool
    ensures { (rs : List Record) (ks : List StateId) → Stands dag.now rs ks → result ≡ list_all (is_known rs) states.now }
{
    for state in states {
        if !dag.knows(*state) {
            return false;
        }
    }
    true
}

/// How the known parents of a record are judged.
fn judge_parents(store: &RecordStore, book: &CeilingBook, parents: &[StateId]) -> Judged
    requires slots { AreSlots book.now store.now.table }
    requires few { length parents.now ≤ 8 }
    ensures judged { (site : Site) → StoreStands store.now site.dag site.collected → BookStands store.now.table book.now site
        → IsTrue (list_all (is_known site.dag) parents.now) → reply_of result ≡ first_reply (parent_judgements site parents.now) }
    ensures listed { result ≡ Fit → IsTrue (list_all (is_listed store.now.table) parents.now) }
{
    if let Some(state) = first_closed(store.dag(), book, parents) {
        return Judged::Refused(Refusal::ClosedParent { state });
    }
    let slots = store.slots_of(parents);
    match comparable_pair(store.dag(), &slots[..parents.len()]) {
        Some((a, b)) => Judged::Refused(Refusal::Comparable { a, b }),
        None => Judged::Fit,
    }
}

/// The first of these known states that is closed; where there is none all are kept.
fn first_closed(dag: &StateDag, book: &CeilingBook, states: &[StateId]) -> Option<StateId>
    requires { AreSlots book.now dag.now }
    ensures closed { (site : Site) → Stands dag.now site.dag site.collected → BookStands dag.now book.now site
        → IsTrue (list_all (is_known site.dag) states.now) → result ≡ find (is_closed site.dag site.floors) states.now }
    ensures listed { result ≡ None → IsTrue (list_all (is_listed dag.now) states.now) }
{
    for state in states {
        if is_closed(dag, book, *state) {
            return Some(*state);
        }
    }
    None
}

/// Whether the known state is closed. A state that isn't kept is.
fn is_closed(dag: &StateDag, book: &CeilingBook, state: StateId) -> bool
    requires { AreSlots book.now dag.now }
    ensures closed { (site : Site) → Stands dag.now site.dag site.collected → BookStands dag.now book.now site → IsTrue (is_known site.dag state)
        → result ≡ is_closed site.dag site.floors state }
    ensures listed { result ≡ false → IsTrue (is_listed dag.now state) }
{
    match dag.slot_of(state) {
        Some(slot) => book.closed(dag, slot),
        None => true,
    }
}
