//! Where a peer stands.

ghost use Rattle.std.specs.Prelude.{◌≡◌};
ghost use Rattle.site_peers.specs.Moves.{alone as moment_alone, has_connection, is_called};

use crate::deliveries::Delivery;
use crate::introductions::Introduction;
use crate::questions::Question;

/// Where a peer stands. Times are in milliseconds, as the edge's clock showed them.
#[derive(Drop)]
pub enum Moment {
    /// It has no connection, and is called once `wait` has passed.
    Away {
        since: u64,
        wait: u64,
    },
    /// It is being called.
    Calling {
        since: u64,
    },
    /// The call came through, and it was asked for its introduction.
    Greeting {
        since: u64,
        question: Question,
    },
    /// It answered, and its answer is put to the own site next.
    Greeted {
        answer: Introduction,
    },
    /// It has a connection and was met, and is asked once `wait` has passed.
    Idle {
        since: u64,
        wait: u64,
    },
    /// It was asked for what is above the own counts.
    Asked {
        since: u64,
        question: Question,
    },
    /// The items of its answer are being delivered. `connected` says whether it still has a connection, `full` whether the batch may have left
    /// records out, `useful` whether an item of it was applied, and `refused` how many were refused for want of room.
    Delivering {
        items: Delivery,
        connected: bool,
        full: bool,
        useful: bool,
        refused: u32,
    },
}

impl Moment {
    /// That of a peer whose exchange is over.
    pub(crate) fn alone(connected: bool, now: u64, wait: u64) -> Moment
        ensures { result ≡ moment_alone connected now wait }
    {
        if connected {
            Moment::Idle { since: now, wait }
        } else {
            Moment::Away { since: now, wait }
        }
    }

    /// Whether the peer is being called.
    pub(crate) fn is_calling(&self) -> bool
        ensures { result ≡ is_called self.now }
    {
        matches!(self, Moment::Calling { .. })
    }

    /// Whether the peer has a connection.
    pub(crate) fn is_connected(&self) -> bool
        ensures { result ≡ has_connection self.now }
    {
        match self {
            Moment::Greeting { .. } | Moment::Greeted { .. } => true,
            Moment::Idle { .. } | Moment::Asked { .. } => true,
            Moment::Delivering { connected, .. } => *connected,
            Moment::Away { .. } | Moment::Calling { .. } => false,
        }
    }
}
