//! A peer's introduction: what it answers to the question for it, and the request by which the own site meets the peer.

ghost use Rattle.std.specs.Prelude.{◌≡◌, ◌+◌, ◌≤◌, ◌∷◌, ◌++◌, [], length};
ghost use Rattle.tardis_base.specs.Sizes.{piece, longest_frame};
ghost use Rattle.site_peers.specs.Asking.{meeting, verdict as verdict_of};
ghost use Rattle.site_peers.specs.Introductions.{IsIntroduced, IsWhole, longest_introduction};

use crate::deeds::Failure;
use crate::questions::Question;
use frame_cut::Cut;
use std::marker::Model;
use tardis_base::ReplyBuf;
use wire_lives::life_codes::{MEET, NO_INTRODUCTION};

/// The most bytes of an answer that is put to the own site as an introduction. One of today has 21.
pub const LONGEST_INTRODUCTION: usize = 64;

/// What stands in place of a verdict where the own site's reply is none.
pub const NO_VERDICT: u8 = 255;

/// A peer's introduction. It is seen as its bytes.
#[derive(Drop)]
pub struct Introduction {
    request: ReplyBuf,
}

impl Model for Introduction {
    ghost use Rattle.std.specs.Prelude.{List, ℕ, ◌≡◌, drop};
    ghost use Rattle.site_peers.specs.Asking.{meeting};

    ghost Value = { List ℕ };

    ghost view = { λ i. drop 1 i.request };

    ghost invariant = { λ i. i.request ≡ meeting (drop 1 i.request) };
}

impl Introduction {
    /// The introduction with these bytes. The buffer is for the request.
    fn new(body: &[u8], mut request: ReplyBuf) -> Introduction
        requires { length body.now ≤ longest_introduction }
        ensures { result ≡ body.now }
    {
        request.clear();
        request.push_byte(MEET);
        request.push(body);
        Introduction { request }
    }

    /// The request by which the own site meets the peer.
    pub(crate) fn meeting(&self) -> &[u8]
        ensures { result.now ≡ meeting self.now }
    {
        self.request.bytes()
    }
}

/// What the bytes are that came to the question for an introduction.
#[derive(Drop)]
pub(crate) enum Introduced {
    /// Not a whole frame yet.
    More(Question),
    /// An answer that is short enough for an introduction.
    Answer(Introduction),
    /// No introduction.
    Other(Failure),
}

impl Question {
    /// Takes bytes that came to the question for an introduction, and answers what all that came is.
    pub(crate) fn introduction(self, bytes: &[u8]) -> Introduced
        requires { length bytes.now ≤ piece }
        ensures { IsIntroduced self.left (self.came ++ bytes.now) result }
    {
        let Question {
            pull,
            sent,
            mut cutter,
        } = self;
        let _ = cutter.feed(bytes);
        match cutter.next() {
            Cut::NeedMore => Introduced::More(Question { pull, sent, cutter }),
            Cut::Long { len } => Introduced::Other(Failure::LongFrame { len }),
            Cut::Frame(body) => {
                let answer = whole_answer(body, pull);
                if cutter.holds_any() {
                    return Introduced::Other(Failure::Unasked);
                }
                answer
            }
        }
    }
}

/// What a whole answer is. The buffer is for the request.
fn whole_answer(body: &[u8], request: ReplyBuf) -> Introduced
    ensures { IsWhole body.now result }
{
    if body.len() <= LONGEST_INTRODUCTION {
        Introduced::Answer(Introduction::new(body, request))
    } else {
        Introduced::Other(Failure::NotMet {
            why: NO_INTRODUCTION,
        })
    }
}

/// The verdict that a reply to the request to meet a peer is.
pub(crate) fn verdict(reply: &[u8]) -> u8
    ensures { result ≡ verdict_of reply.now }
{
    match reply {
        [code, why] if *code == MEET => *why,
        _ => NO_VERDICT,
    }
}
