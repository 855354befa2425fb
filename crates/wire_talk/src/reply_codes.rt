//! The codes of replies: the first byte of each, as `docs/FORMATS.md` has them.

pub const OPENED: u8 = 1;

pub const BEGUN: u8 = 2;

pub const MERGING: u8 = 3;

pub const VALUE: u8 = 4;

pub const DELETED: u8 = 5;

pub const ABSENT: u8 = 6;

pub const DONE: u8 = 7;

pub const COMMITTED: u8 = 8;

pub const ENDED: u8 = 9;

pub const STATES: u8 = 10;

pub const KEYS: u8 = 11;

pub const RAISED: u8 = 12;

pub const TIDIED: u8 = 13;

pub const STAT: u8 = 14;

pub const SHOWN: u8 = 15;

pub const BATCH: u8 = 16;

pub const APPLIED: u8 = 17;

pub const KNOWN: u8 = 18;

pub const EARLY: u8 = 19;

pub const CLOSED: u8 = 20;

pub const REFUSED: u8 = 21;

pub const NO_MEMORY: u8 = 22;
