//! What a site answers.

ghost use Rattle.std.specs.Prelude.{◌≡◌, ◌<◌, ◌≤◌, ◌==◌, Some, [], ◌∷◌, ◌++◌, length, slice_get};
ghost use Rattle.std.specs.Cmp.Lexicographic.{pointwise, lists_per, lists_equiv};
ghost use Rattle.std.specs.Cmp.Rules.{comparing};
ghost use Rattle.std.proofs.Common.{rules};

use crate::byte_types::{Key, Value};
use crate::ids::StateId;
use crate::lists::{KeyList, PathList, StateList};
use crate::records::Batch;
use std::marker::Model;

/// What one site knows of another, or of itself: how many of its states, its floor, and the number of its consent.
#[derive(Clone, Copy, PartialEq, Eq)]
pub struct SiteLine {
    pub count: u32,
    pub floor: StateId,
    pub number: u32,
}

/// At most 16 site lines, in place.
#[derive(Drop)]
pub struct SiteLines {
    lines: [SiteLine; 16],
    len: usize,
}

impl Model for SiteLines {
    ghost use Rattle.std.specs.Prelude.{◌≡◌, List, take, length, ◌≤◌};
    ghost use Rattle.tardis_base.specs.declared.replies.SiteLine.{SiteLine};

    ghost Value = { List SiteLine };

    ghost view = { λ s. take s.len s.lines };

    ghost invariant = { λ s. (s.len ≤ 16) × (length s.lines ≡ 16) };
}

impl SiteLines {
    /// No lines. They never take memory.
    pub fn new() -> SiteLines
        ensures { result ≡ [] }
    {
        let line = SiteLine {
            count: 0,
            floor: StateId::ROOT,
            number: 0,
        };
        SiteLines {
            lines: [line; 16],
            len: 0,
        }
    }

    pub fn len(&self) -> usize
        ensures count { result ≡ length self.now }
        ensures room { length self.now ≤ 16 }
    {
        self.len
    }

    pub fn is_empty(&self) -> bool
        ensures { result ≡ (length self.now == 0) }
    {
        self.len == 0
    }

    /// The line at this place, counted from 0.
    pub fn at(&self, place: usize) -> &SiteLine
        requires { place < length self.now }
        ensures { slice_get self.now place ≡ Some result.now }
    {
        &self.as_slice()[place]
    }

    pub fn as_slice(&self) -> &[SiteLine]
        ensures { result.now ≡ self.now }
    {
        &self.lines[..self.len]
    }

    /// Puts the line at the end.
    pub fn push(&mut self, line: SiteLine)
        requires { length self.old < 16 }
        ensures { self.new ≡ self.old ++ line ∷ [] }
    {
        self.lines[self.len] = line;
        self.len += 1;
    }
}

impl PartialEq for SiteLines {
    ghost eq = { pointwise ⟦<SiteLine as PartialEq>⟧.eq };

    ghost laws = { lists_per (Prim.search (comparing, rules)) };

    fn eq(&self, other: &SiteLines) -> bool {
        self.as_slice() == other.as_slice()
    }
}

impl Eq for SiteLines {
    ghost laws = { lists_equiv (Prim.search (comparing, rules)) };
}

/// What a request would make more of than there may be.
#[derive(Clone, Copy, Debug, PartialEq, Eq)]
pub enum Excess {
    /// Keys that a transaction writes: `MAX_WRITES`.
    WrittenKeys,
    /// Keys that a transaction reads: `MAX_READS`.
    ReadKeys,
    /// States that a merge reads: `MAX_PARENTS`.
    MergedStates,
}

/// Why a request was refused.
#[derive(Drop)]
pub enum Refusal {
    Malformed,
    NotOpen,
    AlreadyOpen,
    SessionsFull {
        n: u16,
    },
    TxnOpen,
    NoTxn,
    WrongMode,
    TooMany {
        what: Excess,
        n: u32,
    },
    Unknown {
        state: StateId,
    },
    Below {
        state: StateId,
        ceiling: StateId,
    },
    Comparable {
        a: StateId,
        b: StateId,
    },
    NotRead {
        state: StateId,
    },
    ConflictKey {
        key: Key,
    },
    OpenConflict {
        key: Key,
    },
    Branches {
        constraint: u8,
        state: StateId,
        children: u32,
    },
    CeilingBack {
        ceiling: StateId,
    },
    FloorBack {
        floor: StateId,
    },
    Held {
        session: u16,
        ceiling: StateId,
    },
    Collected {
        state: StateId,
    },
    Full {
        kept: u32,
    },
    PathFull {
        state: StateId,
        pairs: u32,
    },
    SeqEnd,
    BadSite {
        site: u16,
    },
    ClosedParent {
        state: StateId,
    },
    OwnItem {
        site: u16,
        number: u32,
    },
    TrailFull {
        bytes: u64,
    },
    Unsupported {
        op: u8,
    },
    NoSuchItem {
        batches: u32,
    },
    BagFull {
        batches: u32,
    },
}

/// The answer to a request.
#[derive(Drop)]
pub enum Reply {
    Opened {
        ceiling: StateId,
    },
    Begun {
        state: StateId,
    },
    Merging {
        states: StateList,
    },
    Value {
        writer: StateId,
        value: Value,
    },
    Deleted {
        writer: StateId,
    },
    Absent,
    Done,
    Committed {
        id: StateId,
        parents: StateList,
    },
    Ended {
        state: StateId,
    },
    States {
        total: u32,
        first: StateList,
    },
    Keys {
        total: u32,
        first: KeyList,
    },
    Raised {
        floor: StateId,
        number: u32,
    },
    Tidied {
        collected: u32,
    },
    Stat {
        known: u64,
        kept: u32,
        leaves: u32,
        sessions: u16,
        sites: SiteLines,
    },
    Shown {
        arrival: u64,
        children: StateList,
        path: PathList,
    },
    Batch {
        batch: Batch,
    },
    Applied,
    Known,
    Early {
        have: u32,
    },
    Closed,
    Refused {
        refusal: Refusal,
    },
    NoMemory,
}
