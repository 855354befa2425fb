//! Counting replies.

ghost use Rattle.std.specs.Prelude.{◌≡◌, ◌<◌, []};
ghost use Rattle.site_sync.specs.Asking.{one_if};
ghost use Rattle.site_sync.specs.Delivering.{tally_of, tally_with};

use crate::ends::SyncEnd;
use wire_talk::reply_codes::{APPLIED, EARLY, KNOWN, REFUSED};

/// How many items were applied, were known already, came too early, and were refused.
#[derive(Clone, Copy)]
pub(crate) struct Tally {
    pub(crate) applied: u32,
    pub(crate) known: u32,
    pub(crate) early: u32,
    pub(crate) refused: u32,
}

impl Tally {
    /// No replies.
    pub(crate) fn new() -> Tally
        ensures { result ≡ tally_of [] }
    {
        Tally {
            applied: 0,
            known: 0,
            early: 0,
            refused: 0,
        }
    }

    /// One reply more.
    pub(crate) fn with(self, reply: &[u8]) -> Tally
        requires room { (self.applied < 4294967295) × (self.known < 4294967295) × (self.early < 4294967295) × (self.refused < 4294967295) }
        ensures { result ≡ tally_with self reply.now }
    {
        Tally {
            applied: self.applied + one_of(APPLIED, reply),
            known: self.known + one_of(KNOWN, reply),
            early: self.early + one_of(EARLY, reply),
            refused: self.refused + one_of(REFUSED, reply),
        }
    }

    /// The end of an exchange that delivered all.
    pub(crate) fn end(self) -> SyncEnd
        ensures { result ≡ SyncEnd.Done self.applied self.known self.early self.refused }
    {
        SyncEnd::Done {
            applied: self.applied,
            known: self.known,
            early: self.early,
            refused: self.refused,
        }
    }
}

/// 1 where the reply has this code, else 0.
fn one_of(code: u8, reply: &[u8]) -> u32
    ensures { result ≡ one_if code reply.now }
{
    match reply {
        [first, ..] if *first == code => 1,
        _ => 0,
    }
}
