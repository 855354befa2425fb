//! The codes of what is told: the first byte of each answer, as `docs/FORMATS.md` has them. Those of replies are below 64; an
//! answer that tells nothing has the code of a refused request, and the refusals' codes behind it.

pub const READ: u8 = 64;

pub const KEYS: u8 = 65;

pub const ENTRIES: u8 = 66;

pub const RECORD: u8 = 67;

pub const FORK_READS: u8 = 68;

pub const SESSIONS: u8 = 69;

pub const SITE: u8 = 70;

/// Behind the code of too many, as the kinds of `Excess` do: too many fork points.
pub const FORK_POINTS: u8 = 4;
