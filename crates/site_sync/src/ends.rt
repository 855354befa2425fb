//! How exchanges end.

/// How an exchange with a peer ends.
#[derive(Clone, Copy)]
pub enum SyncEnd {
    /// Every item of the peer's batch was delivered. So many were applied, were known already, came too early, and were
    /// refused.
    Done {
        applied: u32,
        known: u32,
        early: u32,
        refused: u32,
    },
    /// The dial had no link to the peer.
    DialFault,
    /// The link failed where the answer was taken.
    ReadFault,
    /// The link failed where the request was given.
    WriteFault,
    /// The link's bytes ended before a whole frame.
    Cut,
    /// The answer's length word was above 1,048,576.
    LongFrame {
        len: u32,
    },
    /// The answer was no batch.
    BadReply,
    /// The trail has so many bytes, and with the next entry it would have more than it may. What was delivered before stays.
    TrailFull {
        bytes: u64,
    },
    /// There was no memory. What was delivered before stays.
    NoMemory,
}

/// What rounds of exchanges came to.
#[derive(Clone, Copy)]
pub struct Rounds {
    /// How many exchanges ended with `SyncEnd::DialFault`.
    pub dial: u32,
    /// How many exchanges ended with `SyncEnd::NoMemory`, and how many steps of the upkeep found no memory.
    pub memory: u32,
}
