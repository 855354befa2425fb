//! What a peer asks of the edge.

ghost use Rattle.std.specs.Prelude.{◌≡◌};
ghost use Rattle.site_peers.specs.Moves.{kind, is_told};

/// What the edge is to do for a peer.
#[derive(Clone, Copy, PartialEq, Eq)]
pub enum Deed {
    /// Nothing.
    Stay,
    /// It calls the peer.
    Call,
    /// It closes the connection, whose other side is over. Nothing failed.
    Close,
    /// It closes the connection, or gives the call up: the exchange failed. `told` says that it is to be told of, since the exchange before
    /// didn't fail for a cause of its kind.
    Fail { why: Failure, told: bool },
}

/// How an exchange fails.
#[derive(Clone, Copy, PartialEq, Eq)]
pub enum Failure {
    /// The call failed.
    NotReached,
    /// The call, or a whole answer, took longer than 30 seconds.
    Late,
    /// The connection was over before the peer was met, or before the answer was whole.
    Cut,
    /// The length word of an answer was above 1,048,576.
    LongFrame { len: u32 },
    /// The own site didn't meet the peer: its verdict on the introduction (`wire_lives::life_codes`), or `NO_VERDICT` where it gave none.
    NotMet { why: u8 },
    /// The answer was a whole frame, and no batch.
    NotABatch,
    /// Bytes came that weren't asked for.
    Unasked,
    /// The own site didn't tell its counts.
    NoCounts,
    /// There was no memory for a question, or for the batch.
    NoMemory,
    /// The own site refused so many of the peer's records for want of room (`full`, `pathfull`); all others were delivered.
    NoRoom { records: u32 },
}

impl Failure {
    /// Its kind: the peer is away, or something is wrong that somebody has to see to.
    fn kind(self) -> u32
        ensures { result ≡ kind self }
    {
        match self {
            Failure::NotReached | Failure::Late | Failure::Cut => 0,
            Failure::LongFrame { .. } => 1,
            Failure::NotABatch => 2,
            Failure::Unasked => 3,
            Failure::NoCounts => 4,
            Failure::NoMemory => 5,
            Failure::NoRoom { .. } => 6,
            Failure::NotMet { why } => 7 + why as u32,
        }
    }

    /// Whether it is told, behind the one that was last, if no exchange was done since.
    pub(crate) fn is_told(self, last: Option<Failure>) -> bool
        ensures { result ≡ is_told last self }
    {
        match last {
            Some(before) => before.kind() != self.kind(),
            None => true,
        }
    }
}
