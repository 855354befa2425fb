//! The codes of requests: the first byte of each, as `docs/FORMATS.md` has them.

pub const OPEN: u8 = 1;

pub const BEGIN: u8 = 2;

pub const GET: u8 = 3;

pub const PUT: u8 = 4;

pub const DELETE: u8 = 5;

pub const COMMIT: u8 = 6;

pub const ABORT: u8 = 7;

pub const BEGIN_MERGE: u8 = 8;

pub const FORK_POINTS: u8 = 9;

pub const CONFLICTS: u8 = 10;

pub const GET_FOR: u8 = 11;

pub const CEILING: u8 = 12;

pub const RAISE: u8 = 13;

pub const RAISE_AUTO: u8 = 14;

pub const TIDY: u8 = 15;

pub const STAT: u8 = 16;

pub const SHOW: u8 = 17;

pub const LEAVES: u8 = 18;

pub const PULL: u8 = 19;

pub const DELIVER: u8 = 20;

pub const CLOSE: u8 = 21;

pub const SETTLE: u8 = 22;
