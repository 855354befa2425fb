//! The codes of refusals: the byte behind the code of the reply, as `docs/FORMATS.md` has them.

pub const MALFORMED: u8 = 1;

pub const NOT_OPEN: u8 = 2;

pub const ALREADY_OPEN: u8 = 3;

pub const SESSIONS_FULL: u8 = 4;

pub const TXN_OPEN: u8 = 5;

pub const NO_TXN: u8 = 6;

pub const WRONG_MODE: u8 = 7;

pub const TOO_MANY: u8 = 8;

pub const UNKNOWN: u8 = 9;

pub const BELOW: u8 = 10;

pub const COMPARABLE: u8 = 11;

pub const NOT_READ: u8 = 12;

pub const CONFLICT_KEY: u8 = 13;

pub const OPEN_CONFLICT: u8 = 14;

pub const BRANCHES: u8 = 15;

pub const CEILING_BACK: u8 = 16;

pub const FLOOR_BACK: u8 = 17;

pub const HELD: u8 = 18;

pub const COLLECTED: u8 = 19;

pub const FULL: u8 = 20;

pub const PATH_FULL: u8 = 21;

pub const SEQ_END: u8 = 22;

pub const BAD_SITE: u8 = 23;

pub const CLOSED_PARENT: u8 = 24;

pub const OWN_ITEM: u8 = 25;

pub const TRAIL_FULL: u8 = 26;

pub const UNSUPPORTED: u8 = 27;

pub const NO_SUCH_ITEM: u8 = 28;

pub const BAG_FULL: u8 = 29;
