//! A question to a peer: what is still to be written of it, and what came since.

ghost use Rattle.std.specs.Prelude.{◌≡◌, ◌==◌, [], length, drop, IfOk, IfSome, IfNone, List};
ghost use Rattle.tardis_base.specs.declared.replies.SiteLine.{SiteLine};
ghost use Rattle.site_peers.specs.Asking.{AreStatistics, greeting as greeting_frame, pull_frame};

use crate::pulls::put_pull;
use frame_cut::FrameCutter;
use std::alloc::Global;
use std::marker::Model;
use tardis_base::{NoMemory, ReplyBuf};
use wire_lives::life_codes::LIFE;

/// The frame that asks a peer for its introduction.
const GREETING: [u8; 5] = [0, 0, 0, 1, LIFE];

/// A question to a peer. It is seen as the bytes of its frame that weren't written yet, and those that came since.
#[derive(Drop)]
pub struct Question {
    pub(crate) pull: ReplyBuf,
    pub(crate) sent: usize,
    pub(crate) cutter: FrameCutter,
}

impl Model for Question {
    ghost use Rattle.std.specs.Prelude.{◌≤◌, length, drop};
    ghost use Rattle.frame_cut.specs.Frames.{IsPartial};
    ghost use Rattle.site_peers.specs.Questions.{QuestionState};

    ghost Value = { QuestionState };

    ghost view = { λ q. record { left = drop q.sent q.pull; came = q.cutter } };

    ghost invariant = { λ q. (q.sent ≤ length q.pull) × IsPartial q.cutter };
}

/// The room of a question.
#[derive(Drop)]
pub(crate) struct Room {
    pull: ReplyBuf,
    cutter: FrameCutter,
}

impl Room {
    /// All that a question needs is reserved now, and none is taken later.
    pub(crate) fn new(alloc: Global) -> Result<Room, NoMemory>
        ensures { IfOk result (λ room. room.cutter ≡ []) }
    {
        let pull = ReplyBuf::new(alloc)?;
        let cutter = FrameCutter::new(alloc)?;
        Ok(Room { pull, cutter })
    }

    /// The question for a peer's introduction.
    pub(crate) fn greeting(self) -> Question
        requires { self.cutter ≡ [] }
        ensures { result ≡ record { left = greeting_frame; came = [] } }
    {
        let Room { mut pull, cutter } = self;
        pull.clear();
        pull.push(&GREETING);
        Question {
            pull,
            sent: 0,
            cutter,
        }
    }

    /// The question for what is above the counts of the statistics, which it uses up. None where they are no statistics.
    pub(crate) fn question(self, alloc: Global, statistics: &mut ReplyBuf) -> Option<Question>
        requires { self.cutter ≡ [] }
        ensures told { IfSome result (λ question. (lines : List SiteLine) × (AreStatistics statistics.old lines
            × (question ≡ record { left = pull_frame lines; came = [] }))) }
        ensures none { IfNone result ((lines : List SiteLine) → AreStatistics statistics.old lines → ⊥) }
    {
        let Room { mut pull, cutter } = self;
        if put_pull(alloc, statistics, &mut pull) {
            Some(Question {
                pull,
                sent: 0,
                cutter,
            })
        } else {
            None
        }
    }
}

impl Question {
    /// The bytes that are still to be written.
    pub fn left(&self) -> &[u8]
        ensures { result.now ≡ self.now.left }
    {
        &self.pull.bytes()[self.sent..]
    }

    /// Whether all of it was written.
    pub fn is_sent(&self) -> bool
        ensures { result ≡ (length self.now.left == 0) }
    {
        self.left().is_empty()
    }

    /// So many of the bytes were written.
    pub(crate) fn pass(&mut self, count: usize)
        ensures { self.new ≡ record { left = drop count self.old.left; came = self.old.came } }
    {
        self.sent += count.min(self.pull.len() - self.sent);
    }
}
