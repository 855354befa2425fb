//! The open transactions of a site: one for a session at most.
#![tactic(auto)]

ghost use Rattle.std.specs.Prelude.{◌≡◌, [], None, is_some, IfSome, IfNone, OnOk, OnErr};
ghost use Rattle.std.specs.Option.{option_copied};
ghost use Rattle.plain_dag.specs.Entries.{entry_of, with_entry, without_entry};
ghost use Rattle.txn_book.specs.Txns.{slot_read, NotedAs, PutAs};
ghost use Rattle.txn_book.specs.Changes.{NotedAtPlace, PutAtPlace};

use merge_txn::{Txn, TxnFault};
use std::alloc::Global;
use std::collections::BTreeMap;
use std::marker::Model;
use tardis_base::{Key, NoMemory, Slot, Write};

/// The open transactions, by the numbers of their sessions.
///
/// Each call looks the session's transaction up: the cost grows with the logarithm of the number of sessions that had one,
/// and are not closed. What a transaction is, `docs/MODEL.md` says. How it is let go is written here, so that the crates
/// above needn't prove it.
pub struct TxnBook {
    /// A session's place stays when its transaction ends, so that the next one moves no other, until the session closes.
    entries: BTreeMap<u16, Option<Txn>>,
}

impl Drop for TxnBook {
    fn drop(self) {
        let TxnBook { entries } = self;
        drop(entries);
    }
}

impl Model for TxnBook {
    ghost use Rattle.std.specs.Prelude.{List, ℕ};
    ghost use Rattle.merge_txn.specs.declared.Txn.{Txn};
    ghost use Rattle.txn_book.specs.Places.{open_of};

    ghost Value = { List (ℕ × Txn) };

    ghost view = { λ a. open_of a.entries.entries };
}

impl TxnBook {
    ghost use Rattle.std.specs.Borrow.{sem};
    ghost use Rattle.txn_book.specs.Lending.{LendsPlace};

    /// No transaction. It takes no memory.
    pub fn new(alloc: Global) -> TxnBook
        ensures { result ≡ [] }
    {
        TxnBook {
            entries: BTreeMap::new(alloc),
        }
    }

    /// The transaction of the session, if it has one.
    pub fn get(&self, session: u16) -> Option<&Txn>
        ensures { option_copied result ≡ entry_of session self.now }
    {
        // What is said of a map with its length: that its numbers ascend. So no other place is the session's.
        let _places = self.entries.len();
        match self.entries.get(&session) {
            Some(Some(txn)) => Some(txn),
            Some(None) => None,
            None => None,
        }
    }

    /// Whether the session has a transaction.
    pub fn is_open(&self, session: u16) -> bool
        ensures { result ≡ is_some (entry_of session self.now) }
    {
        self.get(session).is_some()
    }

    /// The place of the session's transaction, which may be empty; None where it never had one. What is left there is its
    /// transaction from then on.
    ///
    /// So one look-up serves whoever reads the transaction and changes or ends it.
    pub fn place(&mut self, session: u16) -> Option<&mut Option<Txn>>
        ensures* left { sem 𝓛 (LendsPlace self.entry session result) }
        ensures there { IfSome result (λ place. place.now ≡ entry_of session self.old) }
        ensures none { IfNone result (entry_of session self.old ≡ None) }
    {
        self.entries.get_mut(&session)
    }

    /// The transaction of the session, which had none before, or another one.
    pub fn begin(&mut self, session: u16, txn: Txn) -> Result<(), NoMemory>
        ensures begun { OnOk result (self.new ≡ with_entry session txn self.old) }
        ensures same { OnErr result (self.new ≡ self.old) }
    {
        let before = self.entries.insert(session, Some(txn))?;
        drop(before);
        Ok(())
    }

    /// Notes that the session's transaction reads the key; None where it has none. On a fault all is as before.
    pub fn note_read(&mut self, session: u16, key: Key) -> Option<Result<(), TxnFault>>
        ensures { NotedAs self.old self.new session key result }
    {
        match self.entries.get_mut(&session) {
            Some(place) => note_at(place, key),
            None => None,
        }
    }

    /// Takes the write into the session's transaction; None where it has none. On a fault all is as before.
    pub fn put(&mut self, session: u16, key: Key, write: Write) -> Option<Result<(), TxnFault>>
        ensures { PutAs self.old self.new session key write result }
    {
        match self.entries.get_mut(&session) {
            Some(place) => put_at(place, key, write),
            None => None,
        }
    }

    /// The session has no transaction any more. It takes no memory.
    pub fn end(&mut self, session: u16)
        ensures { self.new ≡ without_entry session self.old }
    {
        match self.entries.get_mut(&session) {
            Some(place) => empty(place),
            None => {},
        }
    }

    /// Nothing is kept for the session, and it has no transaction any more. It takes no memory.
    pub fn close(&mut self, session: u16)
        ensures { self.new ≡ without_entry session self.old }
    {
        drop(self.entries.remove(&session));
    }
}

/// The transaction in this place ends. It takes no memory.
pub fn empty(place: &mut Option<Txn>)
    ensures { place.new ≡ None }
{
    drop(place.take());
}

/// Notes that the transaction in this place reads the key.
fn note_at(place: &mut Option<Txn>, key: Key) -> Option<Result<(), TxnFault>>
    ensures { NotedAtPlace place.old place.new key result }
{
    match place {
        Some(txn) => Some(txn.note_read(key)),
        None => None,
    }
}

/// Takes the write into the transaction in this place.
fn put_at(place: &mut Option<Txn>, key: Key, write: Write) -> Option<Result<(), TxnFault>>
    ensures { PutAtPlace place.old place.new key write result }
{
    match place {
        Some(txn) => Some(txn.put(key, write)),
        None => None,
    }
}

/// The slot at which the transaction reads the key and notes it: that of a single one, which hasn't written to the key.
pub fn slot_to_read(txn: &Txn, key: &Key) -> Option<Slot>
    ensures { result ≡ slot_read key.now txn.now }
{
    match txn {
        Txn::Single(single) => match single.writes.get(key) {
            Some(_) => None,
            None => Some(single.slot),
        },
        Txn::Merge(_) => None,
    }
}
