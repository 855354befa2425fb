//! Questions, and what is told.

use tardis_base::{ByteList, Key, KeyList, Limits, ListOf, StateId, StateList, Value, Write};

/// The version of the format of questions, requests and replies that `docs/FORMATS.md` has.
pub const FORMAT_VERSION: u16 = 1;

/// What may be asked of a site without a session. It changes nothing.
#[derive(Drop)]
pub enum Question {
    /// What is read of the key at a kept state.
    At {
        state: StateId,
        key: Key,
    },
    /// The keys that have a value at a kept state, begin with `prefix` and stand behind `after`, which has at most 128 bytes;
    /// behind no bytes all keys stand.
    Keys {
        state: StateId,
        prefix: ByteList,
        after: ByteList,
    },
    /// The same keys with their values.
    Scan {
        state: StateId,
        prefix: ByteList,
        after: ByteList,
    },
    /// The record of a kept state, and its neighbours.
    Record {
        state: StateId,
    },
    /// What is read of the key where these 1 to 8 kept states parted.
    Base {
        states: StateList,
        key: Key,
    },
    /// The open sessions with numbers above this one; all of them, where there is none.
    Sessions {
        after: Option<u16>,
    },
    /// What holds of the whole site.
    Site,
}

/// A key with its value.
#[derive(Drop)]
pub struct Entry {
    pub key: Key,
    pub value: Value,
}

pub type EntryList = ListOf<Entry>;

/// What is read at a fork point: its latest writer and what that one wrote, or nothing.
#[derive(Drop)]
pub struct ForkRead {
    pub fork_point: StateId,
    pub found: Option<(StateId, Write)>,
}

pub type ForkReadList = ListOf<ForkRead>;

/// An open session.
#[derive(Drop)]
pub struct SessionLine {
    pub number: u16,
    /// Whether its ceiling follows its commits.
    pub follow: bool,
    pub ceiling: StateId,
    pub last: StateId,
    /// The read states of its transaction; none where none is open.
    pub reads: StateList,
    /// Whether the floor can't be raised past its ceiling.
    pub holds: bool,
}

pub type SessionLines = ListOf<SessionLine>;

/// Why nothing is told.
#[derive(Clone, Copy, PartialEq, Eq)]
pub enum Denial {
    /// The bytes spell no question.
    Malformed,
    Unknown { state: StateId },
    Collected { state: StateId },
    /// The states parted at so many, which is more than 8.
    ForkPoints { number: u32 },
}

/// What is told.
#[derive(Drop)]
pub enum Answered {
    /// The latest writer and what that one wrote, or nothing.
    Read {
        found: Option<(StateId, Write)>,
    },
    /// How many keys there are, and the first 256 of them, ascending.
    Keys {
        total: u32,
        first: KeyList,
    },
    /// How many keys there are, and the first of them with their values: as many as have 65,536 bytes, at least one.
    Entries {
        total: u32,
        first: EntryList,
    },
    /// How many states had arrived before; the parents, and those of them and of the children that are kept; the keys that
    /// the state wrote, ascending.
    Record {
        arrival: u64,
        parents: StateList,
        kept_parents: StateList,
        kept_children: StateList,
        keys: KeyList,
    },
    /// The read at each fork point, in arrival order.
    ForkReads {
        reads: ForkReadList,
    },
    /// Where the floor would stand if it were raised now; how many sessions there are, and the first 256 of them, by number.
    Sessions {
        floor: StateId,
        total: u32,
        first: SessionLines,
    },
    /// The version of the format, the limits, the site's own number, how many states it knows and how many it keeps.
    Site {
        version: u16,
        limits: Limits,
        own: u16,
        known: u64,
        kept: u32,
    },
    Refused {
        why: Denial,
    },
}
