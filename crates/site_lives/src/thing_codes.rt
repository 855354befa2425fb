//! The first bytes of the things of a log, as `docs/FORMATS.md` has them: what lasts of a request, or is taken back in its place.

/// A record.
pub const STATE: u8 = 1;

/// A promise.
pub const PROMISE: u8 = 2;

/// How many states were collected.
pub const COLLECTION: u8 = 3;

/// A life that was new.
pub const LIFE: u8 = 4;

/// A row of states.
pub const ROW: u8 = 5;

/// A state of a checkpoint.
pub const TOLD: u8 = 6;

/// A line of a checkpoint.
pub const LINE: u8 = 7;

/// A state of a checkpoint that is gone.
pub const GONE: u8 = 8;

/// The end of a checkpoint.
pub const END: u8 = 9;
