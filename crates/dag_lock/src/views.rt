//! What the passes of a lock know. No value of these types is made.

use tardis_base::{ByteList, ListOf};

/// Where a pass stands.
pub enum Stage {
    /// It has no ticket.
    Idle,
    /// It waits for the turn of this ticket.
    Waits(u64),
    /// It has the turn of this ticket, and the machine.
    Takes(u64),
}

/// What a pass knows: the entries that it has seen, the places of those that are its own, and its pieces.
pub struct View {
    pub stage: Stage,
    pub seen: ListOf<(u16, ByteList)>,
    pub owned: ListOf<u64>,
    pub pieces: u32,
    /// The shorter of two lists that were seen by two passes which were joined, until they are compared.
    pub beside: ListOf<(u16, ByteList)>,
}
