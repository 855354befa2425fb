//! A transaction before it commits: what it reads from, and what it has read and written so far.
#![tactic(auto)]

ghost use Rattle.std.specs.Prelude.{◌≡◌, ◌≤◌, ◌==◌, ◌&&◌, ◌↔◌, not, [], ◌∷◌, length, if◌then◌else◌, IsTrue, IsOk, IfOk, IfErr, OnOk, OnErr};
ghost use Rattle.tardis_base.specs.Sizes.{most_reads, most_writes};
ghost use Rattle.tardis_base.specs.Keys.{is_key_among, has_key, with_key, with_write};
ghost use Rattle.merge_txn.specs.Txns.{writes_of, reads_of, with_writes, with_reads, has_no_place_to_write, has_no_place_to_read, too_many_writes};
ghost use Rattle.merge_txn.specs.Txns.{too_many_reads, put_fault, read_fault};

use std::alloc::Global;
use std::error::Error;
use std::fmt;
use tardis_base::{
    Excess, Key, KeySet, ListOf, MAX_READS, MAX_WRITES, NoMemory, Slot, StateId, StateList, Write,
    WriteSet,
};

/// A single transaction: it reads one state, and notes what it reads.
#[derive(Drop)]
pub struct SingleTxn {
    pub state: StateId,
    /// Where the state is kept, so that no read looks it up.
    pub slot: Slot,
    pub reads: KeySet,
    pub writes: WriteSet,
}

/// A merge: it reads one or more states, and makes one of them.
#[derive(Drop)]
pub struct MergeTxn {
    pub states: StateList,
    /// Where the states are kept, in their order, so that no read looks one up.
    pub slots: ListOf<Slot>,
    pub writes: WriteSet,
}

/// What a session has begun, and not yet committed.
#[derive(Drop)]
pub enum Txn {
    Single(SingleTxn),
    Merge(MergeTxn),
}

/// Why a transaction did not take a write or a read.
#[derive(Clone, Copy, Debug)]
pub enum TxnFault {
    /// There would be `n` keys, one more than may be.
    TooMany { what: Excess, n: u32 },
    NoMemory,
}

impl Txn {
    /// A transaction that reads the state, which is kept at the slot. It takes no memory.
    pub fn single(alloc: Global, state: StateId, slot: Slot) -> Txn
        ensures { result ≡ Txn.Single (record { state = state; slot = slot; reads = []; writes = [] }) }
    {
        Txn::Single(SingleTxn {
            state,
            slot,
            reads: KeySet::new(alloc),
            writes: WriteSet::new(alloc),
        })
    }

    /// A transaction that merges the states, which are kept at the slots. It takes no memory.
    pub fn merge(alloc: Global, states: StateList, slots: ListOf<Slot>) -> Txn
        ensures { result ≡ Txn.Merge (record { states = states; slots = slots; writes = [] }) }
    {
        Txn::Merge(MergeTxn {
            states,
            slots,
            writes: WriteSet::new(alloc),
        })
    }

    /// What it has written so far.
    pub fn writes(&self) -> &WriteSet
        ensures { result.now ≡ writes_of self.now }
    {
        match self {
            Txn::Single(txn) => &txn.writes,
            Txn::Merge(txn) => &txn.writes,
        }
    }

    /// Takes the write, in place of what was written to the key. On a fault the transaction is as before, and the write is dropped.
    ///
    /// Key and write are moved in. The cost grows with the logarithm of the number of written keys, and for a new key with
    /// the number of those behind its place.
    pub fn put(&mut self, key: Key, write: Write) -> Result<(), TxnFault>
        ensures put { OnOk result (self.new ≡ with_writes (with_write key write (writes_of self.old)) self.old) }
        ensures same { OnErr result (self.new ≡ self.old) }
        ensures few { length (writes_of self.old) ≤ most_writes → length (writes_of self.new) ≤ most_writes }
        ensures full { (result ≡ Err too_many_writes) ↔ IsTrue (has_no_place_to_write key (writes_of self.old)) }
        ensures fault { IfErr result (λ fault. fault ≡ put_fault key (writes_of self.old)) }
    {
        match self {
            Txn::Single(txn) => put_write(&mut txn.writes, key, write),
            Txn::Merge(txn) => put_write(&mut txn.writes, key, write),
        }
    }

    /// Notes that the key is read; a merge notes none. A key that is noted takes no memory, and on a fault the transaction
    /// is as before, and the key is dropped.
    ///
    /// The key is moved in. The cost grows with the logarithm of the number of noted keys, and for a new key with the number
    /// of those behind its place.
    pub fn note_read(&mut self, key: Key) -> Result<(), TxnFault>
        ensures noted { OnOk result (self.new ≡ with_reads (with_key key (reads_of self.old)) self.old) }
        ensures same { OnErr result (self.new ≡ self.old) }
        ensures known { IsTrue (is_key_among key (reads_of self.old)) → IsOk result }
        ensures few { length (reads_of self.old) ≤ most_reads → length (reads_of self.new) ≤ most_reads }
        ensures full { (result ≡ Err too_many_reads) ↔ IsTrue (has_no_place_to_read key (reads_of self.old)) }
        ensures fault { IfErr result (λ fault. fault ≡ read_fault key (reads_of self.old)) }
    {
        match self {
            Txn::Single(txn) => note_key(&mut txn.reads, key),
            Txn::Merge(_) => Ok(()),
        }
    }
}

/// Takes the write among these.
fn put_write(writes: &mut WriteSet, key: Key, write: Write) -> Result<(), TxnFault>
    ensures put { OnOk result (writes.new ≡ with_write key write writes.old) }
    ensures same { OnErr result (writes.new ≡ writes.old) }
    ensures few { length writes.old ≤ most_writes → length writes.new ≤ most_writes }
    ensures full { (result ≡ Err too_many_writes) ↔ IsTrue (has_no_place_to_write key writes.old) }
    ensures fault { IfErr result (λ fault. fault ≡ put_fault key writes.old) }
{
    if writes.len() == MAX_WRITES && !writes.contains(&key) {
        return Err(TxnFault::TooMany {
            what: Excess::WrittenKeys,
            n: MAX_WRITES as u32 + 1,
        });
    }
    writes.insert(key, write)?;
    Ok(())
}

/// Notes the key among these.
fn note_key(reads: &mut KeySet, key: Key) -> Result<(), TxnFault>
    ensures noted { OnOk result (reads.new ≡ with_key key reads.old) }
    ensures same { OnErr result (reads.new ≡ reads.old) }
    ensures known { IsTrue (is_key_among key reads.old) → IsOk result }
    ensures few { length reads.old ≤ most_reads → length reads.new ≤ most_reads }
    ensures full { (result ≡ Err too_many_reads) ↔ IsTrue (has_no_place_to_read key reads.old) }
    ensures fault { IfErr result (λ fault. fault ≡ read_fault key reads.old) }
{
    if reads.len() == MAX_READS && !reads.contains(&key) {
        return Err(TxnFault::TooMany {
            what: Excess::ReadKeys,
            n: MAX_READS as u32 + 1,
        });
    }
    reads.insert(key)?;
    Ok(())
}

impl fmt::Display for TxnFault {
    fn fmt<W: fmt::Write>(&self, f: &mut fmt::Formatter<W>) -> fmt::Result {
        match self {
            TxnFault::TooMany {
                what: Excess::WrittenKeys,
                n,
            } => {
                write!(
                    f,
                    "the transaction would write {n} keys, one more than it may"
                )
            },
            TxnFault::TooMany { n, .. } => {
                write!(
                    f,
                    "the transaction would read {n} keys, one more than it may"
                )
            },
            TxnFault::NoMemory => f.write_str("out of memory"),
        }
    }
}

impl Error for TxnFault {}

impl From<NoMemory> for TxnFault {
    ghost use Rattle.std.specs.Prelude.{◌≡◌};
    ghost use Rattle.merge_txn.specs.declared.TxnFault.TheVariants.{NoMemory as OutOfMemory};

    ghost from_gives = { λ _ fault. fault ≡ OutOfMemory };

    fn from(_: NoMemory) -> TxnFault {
        TxnFault::NoMemory
    }
}
