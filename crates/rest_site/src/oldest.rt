//! What keeps states from being collected: the oldest promise, where it holds most of them, or leaves that nobody joins.

ghost use Rattle.std.specs.Prelude.{◌≡◌, List, None, Some, IsTrue};
ghost use Rattle.tardis_base.specs.declared.ids.StateId.{StateId};
ghost use Rattle.tardis_base.specs.declared.records.Record.{Record};
ghost use Rattle.ceiling_book.specs.Book.{sessions_of, floors_of};
ghost use Rattle.ceiling_book.specs.Places.{AreSlots, ArePlaced};
ghost use Rattle.plain_site.specs.Site.{Site};
ghost use Rattle.session_core.specs.Machine.{SiteStands};
ghost use Rattle.state_dag.specs.Table.{id_at, is_slot};
ghost use Rattle.state_dag.specs.Stands.{Stands};
ghost use Rattle.rest_site.specs.Oldest.{asks_oldest, oldest_told, unjoined, holds_most, holder_of, what_holds, ceilings, floors_of_others, promise_of};
ghost use Rattle.rest_site.specs.Ceilings.{earlier, seen, kept_behind, first_in_book};

use crate::oldest_codes::{LEAVES, NOBODY, OLDEST, OTHER_SITE, SESSION};
use ceiling_book::CeilingBook;
use item_bytes::{write_u16, write_u32};
use session_core::SiteCore;
use state_dag::StateDag;
use tardis_base::{ReplyBuf, Slot};

/// What keeps states from being collected.
#[derive(Clone, Copy)]
pub(crate) enum Holder {
    Nobody,
    /// The open session with this number.
    Session(u16),
    /// The other site with this number.
    OtherSite(u16),
    /// So many states have no child.
    Leaves(u32),
}

/// A promise: whose it is, and how many states had arrived before its own.
#[derive(Clone, Copy)]
pub(crate) struct Promise {
    pub(crate) holder: Holder,
    pub(crate) arrival: u64,
}

/// Whether a request is the one what keeps states from being collected.
pub(crate) fn asks_oldest(request: &[u8]) -> bool
    ensures { result ≡ asks_oldest request.now }
{
    request == [OLDEST].as_slice()
}

/// Answers that request. It takes no memory. The cost grows with the number of open sessions and that of the sites.
pub(crate) fn tell_oldest(core: &SiteCore, out: &mut ReplyBuf)
    ensures { (s : Site) → SiteStands core.now s → out.new ≡ oldest_told (what_holds s) }
{
    let holder = what_holds(core);
    tell_holder(holder, out);
}

/// Tells what keeps states from being collected.
fn tell_holder(holder: Holder, out: &mut ReplyBuf)
    ensures { out.new ≡ oldest_told holder }
{
    out.clear();
    out.push_byte(OLDEST);
    match holder {
        Holder::Nobody => out.push_byte(NOBODY),
        Holder::Session(session) => {
            out.push_byte(SESSION);
            write_u16(session, out);
        },
        Holder::OtherSite(site) => {
            out.push_byte(OTHER_SITE);
            write_u16(site, out);
        },
        Holder::Leaves(leaves) => {
            out.push_byte(LEAVES);
            write_u32(leaves, out);
        },
    }
}

/// Whose promise is the oldest that can move, where it holds most of the kept states; else how many leaves there are, where they are several.
fn what_holds(core: &SiteCore) -> Holder
    ensures { (s : Site) → SiteStands core.now s → result ≡ what_holds s }
{
    let dag = core.store().dag();
    holder_of(dag, oldest_promise(core.book(), dag))
}

/// Who that is where this is the oldest promise.
fn holder_of(dag: &StateDag, oldest: Option<Promise>) -> Holder
    ensures { (rs : List Record) (ks : List StateId) → Stands dag.now rs ks → result ≡ holder_of rs ks oldest }
{
    match oldest {
        Some(promise) => {
            if holds_most(dag, promise) {
                promise.holder
            } else {
                unjoined(dag)
            }
        },
        None => unjoined(dag),
    }
}

/// Whether at least half of the kept states arrived no earlier than that of the promise.
fn holds_most(dag: &StateDag, promise: Promise) -> bool
    ensures { (rs : List Record) (ks : List StateId) → Stands dag.now rs ks → result ≡ holds_most rs ks promise }
{
    let since = dag.known().saturating_sub(promise.arrival);
    u64::from(dag.kept()).saturating_sub(since) <= since
}

/// How many leaves there are, where they are several.
fn unjoined(dag: &StateDag) -> Holder
    ensures { (rs : List Record) (ks : List StateId) → Stands dag.now rs ks → result ≡ unjoined rs }
{
    let leaves = dag.leaves();
    if leaves > 1 {
        Holder::Leaves(leaves)
    } else {
        Holder::Nobody
    }
}

/// The first of the promises that can move and arrived no later than any other: of the ceilings, and then of the floors of other sites.
fn oldest_promise(book: &CeilingBook, dag: &StateDag) -> Option<Promise>
    requires { AreSlots book.now dag.now }
    ensures { (rs : List Record) (ks : List StateId) → Stands dag.now rs ks → ArePlaced book.now dag.now rs ks → result ≡ first_in_book rs book.now }
{
    first_floor(book, dag, first_ceiling(book, dag))
}

/// The first of the ceilings that can move and arrived no later than any other, in one pass.
fn first_ceiling(book: &CeilingBook, dag: &StateDag) -> Option<Promise>
    requires { AreSlots book.now dag.now }
    ensures { (rs : List Record) (ks : List StateId) → Stands dag.now rs ks → ArePlaced book.now dag.now rs ks
        → result ≡ kept_behind None (ceilings rs (sessions_of book.now)) }
{
    let mut first = None;
    for (number, session) in book.open_sessions() {
        let next = promise_at(dag, Holder::Session(*number), session.ceiling.slot);
        first = seen(first, next);
    }
    first
}

/// The first of this promise and the floors of other sites that can move and arrived no later than any other, in one pass.
fn first_floor(book: &CeilingBook, dag: &StateDag, ceiling: Option<Promise>) -> Option<Promise>
    requires { AreSlots book.now dag.now }
    ensures { (rs : List Record) (ks : List StateId) → Stands dag.now rs ks → ArePlaced book.now dag.now rs ks
        → result ≡ kept_behind ceiling (floors_of_others rs book.now.own (floors_of book.now)) }
{
    let mut first = ceiling;
    for site in 1..book.sites() + 1 {
        if site != book.own_site() {
            let (floor, _, _) = book.floor(site);
            let next = promise_at(dag, Holder::OtherSite(site), floor);
            first = seen(first, next);
        }
    }
    first
}

/// The promise that names the state at the slot, if it can move.
fn promise_at(dag: &StateDag, holder: Holder, slot: Slot) -> Option<Promise>
    requires { IsTrue (is_slot dag.now slot) }
    ensures { (rs : List Record) (ks : List StateId) → Stands dag.now rs ks → (x : StateId) → id_at dag.now slot ≡ Some x
        → result ≡ promise_of rs holder x }
{
    let arrival = dag.arrival(slot);
    if dag.children(slot).is_empty() {
        None
    } else {
        Some(Promise { holder, arrival })
    }
}

/// The one of these two that arrived first; the one that is kept where both arrived together.
fn seen(kept: Option<Promise>, next: Option<Promise>) -> Option<Promise>
    ensures { result ≡ seen kept next }
{
    match next {
        Some(next) => Some(earlier(kept, next)),
        None => kept,
    }
}

/// The promise that arrived first; the one that is kept where both arrived together.
fn earlier(kept: Option<Promise>, next: Promise) -> Promise
    ensures { result ≡ earlier kept next }
{
    match kept {
        Some(kept) => {
            if next.arrival < kept.arrival {
                next
            } else {
                kept
            }
        },
        None => next,
    }
}
