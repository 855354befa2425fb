//! What a peer answers.

ghost use Rattle.std.specs.Prelude.{◌≡◌, ◌≤◌, ◌++◌, [], length, IsTrue, IfOk};
ghost use Rattle.tardis_base.specs.Sizes.{piece};
ghost use Rattle.wire_item.specs.Valid.{is_batch};
ghost use Rattle.site_peers.specs.Hearing.{IsAnswer, IsHeard, is_full};

use crate::deeds::Failure;
use crate::deliveries::Delivery;
use crate::questions::Question;
use frame_cut::Cut;
use std::alloc::Global;
use talk_bytes::read_reply;
use tardis_base::{Batch, MAX_NEWS, ReadFault, Reply};
use wire_talk::talk_has_one_spelling;

/// The most bytes of a record.
pub(crate) const LONGEST_RECORD: usize = 270_648;

/// What the bytes are that came to a question.
#[derive(Drop)]
pub(crate) enum Heard {
    /// Not a whole frame yet.
    More(Question),
    /// A batch. `full` says that it may have left records out.
    Answer { items: Delivery, full: bool },
    /// No answer.
    Other(Failure),
}

impl Question {
    /// Takes bytes that came, and answers what all that came is.
    pub(crate) fn hear(self, alloc: Global, bytes: &[u8]) -> Heard
        requires { length bytes.now ≤ piece }
        ensures { IsHeard self.left (self.came ++ bytes.now) result }
    {
        let Question {
            pull,
            sent,
            mut cutter,
        } = self;
        let _ = cutter.feed(bytes);
        match cutter.next() {
            Cut::NeedMore => Heard::More(Question { pull, sent, cutter }),
            Cut::Long { len } => Heard::Other(Failure::LongFrame { len }),
            Cut::Frame(body) => {
                let full = body.len() > MAX_NEWS - LONGEST_RECORD;
                let answer = batch_in(alloc, body);
                if cutter.holds_any() {
                    return Heard::Other(Failure::Unasked);
                }
                match answer {
                    Ok(batch) => Heard::Answer {
                        items: Delivery::new(batch, pull),
                        full,
                    },
                    Err(why) => Heard::Other(why),
                }
            }
        }
    }
}

/// The batch that a reply is.
fn batch_in(alloc: Global, body: &[u8]) -> Result<Batch, Failure>
    ensures answer { IsAnswer body.now result }
    ensures valid { IfOk result (λ batch. IsTrue (is_batch batch)) }
{
    talk_has_one_spelling();
    match read_reply(alloc, body) {
        Ok(Reply::Batch { batch }) => Ok(batch),
        Ok(_) => Err(Failure::NotABatch),
        Err(ReadFault::Malformed) => Err(Failure::NotABatch),
        Err(ReadFault::NoMemory) => Err(Failure::NoMemory),
    }
}
