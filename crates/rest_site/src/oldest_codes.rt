//! The code of the request which promise is the oldest, as `docs/FORMATS.md` has it, and those of what its reply tells. No other request, no
//! question and nothing about lives has that code.

/// The request what keeps most of the kept states from being collected, and the first byte of its reply.
pub const OLDEST: u8 = 75;

/// The second byte of the reply: no session, no other site and no branch does. Nothing is behind it.
pub const NOBODY: u8 = 0;

/// The second byte of the reply: an open session does, whose number (2 bytes) is behind it.
pub const SESSION: u8 = 1;

/// The second byte of the reply: another site does, whose number (2 bytes) is behind it.
pub const OTHER_SITE: u8 = 2;

/// The second byte of the reply: leaves do; how many there are (4 bytes) is behind it.
pub const LEAVES: u8 = 3;
