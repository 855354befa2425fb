//! The codes of what is asked and said of lives, as `docs/FORMATS.md` has them. Those of requests are below 64, and those of
//! questions below 71.

/// The question who the site is, and the first byte of what it is told.
pub const LIFE: u8 = 71;

/// The request to meet the site of an introduction, and the first byte of its reply.
pub const MEET: u8 = 72;

/// The request to begin a life, and the first byte of its reply.
pub const BEGIN_LIFE: u8 = 73;

/// The second byte of a reply: the life is known from then on.
pub const MET: u8 = 0;

/// The site of that number was met with another life.
pub const ANOTHER_LIFE: u8 = 1;

/// The number is the site's own.
pub const OWN_NUMBER: u8 = 2;

/// The other site is one of more sites, or of fewer.
pub const OTHER_SITES: u8 = 3;

/// The bytes are no introduction.
pub const NO_INTRODUCTION: u8 = 4;

/// There is no life: the site that was to meet another one has none yet, or the bytes of one that is to begin are none.
pub const NO_LIFE: u8 = 5;
