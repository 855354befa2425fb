//! Open transactions read the store, and what they have written is moved into it.

ghost use Rattle.std.specs.Prelude.{◌≡◌, ◌≤◌, ◌+◌, ◌-◌, None, Some, slice_get, unwrap_or, IsTrue, OnErr};
ghost use Rattle.std.specs.List.{list_all};
ghost use Rattle.plain_dag.specs.Entries.{entry_of};
ghost use Rattle.state_dag.specs.Table.{is_slot};
ghost use Rattle.merge_txn.specs.Txns.{writes_of};
ghost use Rattle.merge_txn.specs.declared.Txn.{Txn};
ghost use Rattle.session_core.specs.Txns.{has_slots};
ghost use Rattle.session_core.specs.Adds.{Adds, CommitsAtPlace, CommitsIn};
ghost use Rattle.session_core.specs.PlacesRead.{ReadsAtPlace};
ghost use Rattle.session_core.specs.NotedReads.{ReadsIn, TxnReads};

use merge_txn::{Txn, TxnFault};
use record_store::RecordStore;
use tardis_base::{AddFault, Found, Key, Slot, StateId};
use txn_book::{TxnBook, empty, slot_to_read};

/// What became of a read that was to be noted.
pub enum NotedRead<'s> {
    /// It is noted, and this was found.
    Found(Found<'s>),
    /// It isn't noted, and all is as before.
    Fault(TxnFault),
    /// The transaction doesn't note it: it is a merge, or it has written to the key; or there is none. All is as before,
    /// and the key is given back.
    Other(Key),
}

/// Reads the key at the state of the session's transaction, and notes the read: all by one look-up of the transaction, and
/// the key is moved in.
pub fn read_noted<'s>(
    txns: &mut TxnBook,
    store: &'s RecordStore,
    session: u16,
    key: Key,
) -> NotedRead<'s>
    requires { (t : Txn) → entry_of session txns.old ≡ Some t → IsTrue (has_slots store.now.table t) }
    ensures { ReadsIn store.now txns.old txns.new session key result }
{
    match txns.place(session) {
        Some(place) => read_at(store, place, key),
        None => NotedRead::Other(key),
    }
}

/// Commits what the session's transaction has written, below the states at these slots, as the state with this id; the
/// transaction ends. None where it has none. On a fault it is as before.
///
/// It is looked up once, and what it has written is moved into the store: the cost is that of `RecordStore::commit`.
pub fn commit_open(
    txns: &mut TxnBook,
    store: &mut RecordStore,
    session: u16,
    id: StateId,
    below: &[Slot],
) -> Option<Result<Slot, AddFault>>
    requires slots { IsTrue (list_all (is_slot store.old.table) below.now) }
    requires first { 1 ≤ id.site }
    requires last { id.site ≤ store.old.table.limits.sites }
    requires next { id.sequence ≡ unwrap_or (slice_get store.old.table.counts (id.site - 1)) 0 + 1 }
    ensures { CommitsIn store.old store.new txns.old txns.new session id below.now result }
{
    match txns.place(session) {
        Some(place) => commit_at(store, place, id, below),
        None => None,
    }
}

/// Reads the key at the state of the transaction in this place, and notes the read.
fn read_at<'s>(store: &'s RecordStore, place: &mut Option<Txn>, key: Key) -> NotedRead<'s>
    requires { (t : Txn) → place.old ≡ Some t → IsTrue (has_slots store.now.table t) }
    ensures { ReadsAtPlace store.now place.old place.new key result }
{
    match place {
        Some(txn) => read_in(store, txn, key),
        None => NotedRead::Other(key),
    }
}

/// Commits what the transaction in this place has written, and empties the place.
fn commit_at(
    store: &mut RecordStore,
    place: &mut Option<Txn>,
    id: StateId,
    below: &[Slot],
) -> Option<Result<Slot, AddFault>>
    requires slots { IsTrue (list_all (is_slot store.old.table) below.now) }
    requires first { 1 ≤ id.site }
    requires last { id.site ≤ store.old.table.limits.sites }
    requires next { id.sequence ≡ unwrap_or (slice_get store.old.table.counts (id.site - 1)) 0 + 1 }
    ensures { CommitsAtPlace store.old store.new place.old place.new id below.now result }
{
    let done = match place {
        Some(txn) => commit_writes(store, txn, id, below),
        None => return None,
    };
    match done {
        Ok(slot) => {
            empty(place);
            Some(Ok(slot))
        },
        Err(fault) => Some(Err(fault)),
    }
}

/// Commits what the transaction has written, which is moved into the store.
fn commit_writes(
    store: &mut RecordStore,
    txn: &mut Txn,
    id: StateId,
    below: &[Slot],
) -> Result<Slot, AddFault>
    requires slots { IsTrue (list_all (is_slot store.old.table) below.now) }
    requires first { 1 ≤ id.site }
    requires last { id.site ≤ store.old.table.limits.sites }
    requires next { id.sequence ≡ unwrap_or (slice_get store.old.table.counts (id.site - 1)) 0 + 1 }
    ensures adds { Adds store.old store.new id (writes_of txn.old) below.now result }
    ensures left { OnErr result (txn.new ≡ txn.old) }
{
    match txn {
        Txn::Single(single) => store.commit(id, below, &mut single.writes),
        Txn::Merge(merge) => store.commit(id, below, &mut merge.writes),
    }
}

/// Reads the key at the state of the transaction, where it notes reads, and notes this one.
fn read_in<'s>(store: &'s RecordStore, txn: &mut Txn, key: Key) -> NotedRead<'s>
    requires { IsTrue (has_slots store.now.table txn.old) }
    ensures { TxnReads store.now txn.old txn.new key result }
{
    match slot_to_read(txn, &key) {
        Some(slot) => {
            let found = store.read_at(slot, &key);
            match txn.note_read(key) {
                Ok(()) => NotedRead::Found(found),
                Err(fault) => NotedRead::Fault(fault),
            }
        },
        None => NotedRead::Other(key),
    }
}
