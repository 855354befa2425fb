//! What is counted while a script is played.

ghost use Rattle.std.specs.Prelude.{◌≡◌, ◌+◌, ◌≤◌};
ghost use Rattle.load_run.specs.Plays.{commits, refusals, counted};

use tardis_base::Reply;

/// How many requests were made, how many of them made a state, and how many were refused.
#[derive(Clone, Copy)]
pub(crate) struct Counts {
    pub(crate) events: u64,
    pub(crate) committed: u64,
    pub(crate) refused: u64,
}

impl Counts {
    /// Nothing is counted.
    pub(crate) const NONE: Counts = Counts {
        events: 0,
        committed: 0,
        refused: 0,
    };

    /// One more request, which was answered so.
    pub(crate) fn with(self, reply: &Reply) -> Counts
        requires events { self.events + 1 ≤ 18446744073709551615 }
        requires committed { self.committed ≤ self.events }
        requires refused { self.refused ≤ self.events }
        ensures counted { result ≡ counted reply.now self }
        ensures events { result.events ≡ self.events + 1 }
        ensures committed { result.committed ≤ self.events + 1 }
        ensures refused { result.refused ≤ self.events + 1 }
    {
        Counts {
            events: self.events + 1,
            committed: self.committed + commits(reply),
            refused: self.refused + refusals(reply),
        }
    }
}

/// 1 for a commit, else 0.
fn commits(reply: &Reply) -> u64
    ensures is { result ≡ commits reply.now }
    ensures one { result ≤ 1 }
{
    match reply {
        Reply::Committed { .. } => 1,
        _ => 0,
    }
}

/// 1 for a refusal, else 0.
fn refusals(reply: &Reply) -> u64
    ensures is { result ≡ refusals reply.now }
    ensures one { result ≤ 1 }
{
    match reply {
        Reply::Refused { .. } => 1,
        _ => 0,
    }
}
