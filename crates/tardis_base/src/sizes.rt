//! How much one thing may hold. The sizes are stated in `docs/FORMATS.md`, and the limits in `docs/MODEL.md`.

/// The most bytes of a key. It has one at least.
pub const MAX_KEY: usize = 128;

/// The most bytes of a value.
pub const MAX_VALUE: usize = 4_096;

/// The most writes of a state.
pub const MAX_WRITES: usize = 64;

/// The most keys whose reads a transaction notes.
pub const MAX_READS: usize = 256;

/// The most parents of a state. Only the root has none.
pub const MAX_PARENTS: usize = 8;

/// The most bytes of a request, of a reply and of a line of text: 1 MiB.
pub const MAX_FRAME: usize = 1_048_576;

/// The most bytes of a frame with the four bytes of its length.
pub const MAX_FRAMED: usize = MAX_FRAME + 4;

/// The most bytes of a request whose frame names its actor, in two bytes.
pub const MAX_REQUEST: usize = MAX_FRAME - 2;

/// How many bytes are taken of an input at once, at most; and how many bytes of replies may wait for one connection before
/// no more of its requests are answered.
pub const PIECE: usize = 65_536;

/// The most bytes of the records and consents that are sent to another site at once.
pub const MAX_NEWS: usize = 786_432;

/// The most states, or keys, that one reply names. It tells how many there are.
pub const MAX_NAMED: usize = 256;

/// The most records that wait at a site for parents which it doesn't know yet.
pub const MAX_WAITING: usize = 256;

/// The most sites that may have states.
pub const MAX_SITES: u16 = 16;

/// The most states that a site may keep. (One more, squared, has to fit 32 bits: so many pairs a fork path may come to.)
pub const MAX_KEPT: u32 = 65_000;

/// The most states that a program's site keeps, where nothing else is said.
pub const USUAL_KEPT: u32 = 16_384;

/// The most pairs that a fork path may have. (With the most children they fit one reply.)
pub const MAX_PATH: u32 = 65_000;

/// The most pairs that a fork path may have at a program's site, where nothing else is said.
pub const USUAL_PATH: u32 = 4_096;

/// The most sessions that may be open at once.
pub const MAX_SESSIONS: u16 = 4_096;

/// The most sessions that may be open at once at a program's site, where nothing else is said.
pub const USUAL_SESSIONS: u16 = 256;

/// The most bytes of a trail: 1 GiB.
pub const MAX_TRAIL: u64 = 1_073_741_824;
