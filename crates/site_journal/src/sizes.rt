//! How much of a journal is held in memory.

use tardis_base::{MAX_FRAME, MAX_FRAMED};

/// How many bytes of entries may be staged, with the byte that ends a journal. The entries of a whole piece of the input fit.
pub const ROOM: usize = 2 * MAX_FRAME;

/// The most bytes of an entry in a journal, a byte and a frame, with the byte that ends the journal behind it.
pub const MOST_ENTRY: usize = MAX_FRAMED + 2;
