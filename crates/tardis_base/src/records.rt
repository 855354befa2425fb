//! What sites keep and send to each other.

ghost use Rattle.std.specs.Prelude.{◌≡◌, IsTrue, IfOk};
ghost use Rattle.std.specs.Option.{option_copied};
ghost use Rattle.tardis_base.specs.Bytes.{is_write, value_of};
ghost use Rattle.std.specs.Cmp.{partial_equiv_from_equiv};
ghost use Rattle.tardis_base.specs.Same.{same_write, same_write-equiv};
ghost use Rattle.tardis_base.specs.Valid.{are_limits};

use crate::byte_types::Value;
use crate::faults::NoMemory;
use crate::ids::StateId;
use crate::lists::{ConsentList, RecordList, StateList, WriteSet};
use crate::sizes::{MAX_KEPT, MAX_PATH, MAX_SESSIONS, MAX_SITES, MAX_TRAIL};

/// What a transaction does to one key.
#[derive(Drop)]
pub enum Write {
    Put(Value),
    Delete,
}

/// A state with the edges to its parents and what it wrote.
#[derive(Drop, PartialEq, Eq)]
pub struct Record {
    pub id: StateId,
    pub parents: StateList,
    pub writes: WriteSet,
}

/// A site's promise that none of its transactions reads above `floor` from then on.
#[derive(Clone, Copy, PartialEq, Eq)]
pub struct Consent {
    pub site: u16,
    pub number: u32,
    pub floor: StateId,
    pub count: u32,
}

/// What one site delivers to another.
#[derive(Drop, PartialEq, Eq)]
pub enum Item {
    State(Record),
    Promise(Consent),
}

/// What one site gives another that asked for news.
#[derive(Drop, PartialEq, Eq)]
pub struct Batch {
    pub records: RecordList,
    pub consents: ConsentList,
}

/// How much one site may hold.
#[derive(Clone, Copy, PartialEq, Eq)]
pub struct Limits {
    pub sites: u16,
    pub max_kept: u32,
    pub max_path: u32,
    pub max_sessions: u16,
    pub max_trail: u64,
}

impl PartialEq for Write {
    ghost eq = { same_write };

    ghost laws = { partial_equiv_from_equiv same_write-equiv };

    fn eq(&self, other: &Write) -> bool {
        match (self, other) {
            (Write::Put(value), Write::Put(another)) => value == another,
            (Write::Delete, Write::Delete) => true,
            _ => false,
        }
    }
}

impl Eq for Write {
    ghost laws = { same_write-equiv };
}

impl Write {
    /// An equal write, in memory of its own.
    pub fn copy(&self) -> Result<Write, NoMemory>
        ensures { IfOk result (λ write. write ≡ self.now) }
    {
        match self {
            Write::Put(value) => Ok(Write::Put(value.copy()?)),
            Write::Delete => Ok(Write::Delete),
        }
    }

    /// The value that is put; None where the key is deleted.
    pub fn value(&self) -> Option<&Value>
        ensures value { option_copied result ≡ value_of self.now }
        ensures valid { IsTrue (is_write self.now) }
    {
        match self {
            Write::Put(value) => {
                let _ = value.as_slice(); // for the proof alone
                Some(value)
            },
            Write::Delete => None,
        }
    }
}

impl Record {
    /// An equal record, in memory of its own.
    pub fn copy(&self) -> Result<Record, NoMemory>
        ensures { IfOk result (λ copy. copy ≡ self.now) }
    {
        Ok(Record {
            id: self.id,
            parents: self.parents.copy()?,
            writes: self.writes.copy()?,
        })
    }
}

impl Item {
    /// An equal item, in memory of its own.
    pub fn copy(&self) -> Result<Item, NoMemory>
        ensures { IfOk result (λ copy. copy ≡ self.now) }
    {
        match self {
            Item::State(record) => Ok(Item::State(record.copy()?)),
            Item::Promise(promise) => Ok(Item::Promise(*promise)),
        }
    }
}

impl Limits {
    /// Whether a site may have these limits.
    pub fn valid(&self) -> bool
        ensures { result ≡ are_limits self.now }
    {
        (1..=MAX_SITES).contains(&self.sites)
            && (1..=MAX_KEPT).contains(&self.max_kept)
            && (1..=MAX_PATH).contains(&self.max_path)
            && (1..=MAX_SESSIONS).contains(&self.max_sessions)
            && self.max_trail <= MAX_TRAIL
    }
}
