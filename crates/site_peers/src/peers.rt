//! A peer, and what it does of what the edge tells.

ghost use Rattle.std.specs.Prelude.{◌≡◌, ◌*◌, ◌≤◌, ◌++◌, [], length, take};
ghost use Rattle.tardis_base.specs.Sizes.{piece};
ghost use Rattle.site_peers.specs.Moves.{News, Moves, Breaks, HasFailed, GoesBy, GreetsOf, MayAsk, MayGreet, HearsOf, Once, Finishes, fresh, waiting, listens, rest_of};
ghost use Rattle.site_peers.specs.Asking.{verdict as verdict_of};
ghost use Rattle.site_peers.specs.Times.{patience};
ghost use Rattle.site_peers.specs.Turns.{Turned, Made};

use crate::asks::{ask, either};
use crate::deeds::{Deed, Failure};
use crate::hearing::Heard;
use crate::introductions::{Introduced, verdict};
use crate::moments::Moment;
use crate::questions::{Question, Room};
use crate::times::{FIRST_PAUSE, PATIENCE, left, longer_pause, passed, wait_after};
use rest_machine::Settling;
use std::alloc::Global;
use std::mem;
use tardis_base::ReplyBuf;
use wire_lives::life_codes::MET;
use wire_talk::request_codes;

/// The request Stat.
const STAT: [u8; 1] = [request_codes::STAT];

/// A peer of a server.
#[derive(Drop)]
pub struct Peer {
    /// So many milliseconds after an exchange that was done the next one begins, unless it follows at once.
    pub every: u64,
    /// So many milliseconds the peer will be left alone after a failure.
    pub pause: u64,
    /// Why the exchange before failed, if it did.
    pub last: Option<Failure>,
    /// Where it stands.
    pub moment: Moment,
}

impl Peer {
    /// A peer that is called at once, and with which an exchange is made each so many seconds.
    pub fn new(seconds: u32) -> Peer
        ensures { result ≡ fresh (1000 * seconds) }
    {
        Peer {
            every: 1_000 * seconds as u64,
            pause: FIRST_PAUSE,
            last: None,
            moment: Moment::Away { since: 0, wait: 0 },
        }
    }

    /// The edge tells the time. The peer is called or asked where that is due, given up where it is late, its introduction is put to the machine, and
    /// items of its answer are delivered, up to 64.
    pub fn tick<M: Settling>(
        &mut self,
        alloc: Global,
        machine: &mut M,
        now: u64,
        reply: &mut ReplyBuf,
    ) -> Deed
        ensures turned { Turned M.plain (M.stands machine.old) (M.stands machine.new) self.old News.Time now result self.new }
        ensures opening { M.opening machine.new ≡ M.opening machine.old }
    {
        match &mut self.moment {
            Moment::Away { since, wait } => {
                if passed(now, *since, *wait) {
                    self.moment = Moment::Calling { since: now };
                    Deed::Call
                } else {
                    Deed::Stay
                }
            }
            Moment::Calling { since } => {
                let since = *since;
                self.give_up(now, since)
            }
            Moment::Greeting { since, .. } => {
                let since = *since;
                self.give_up(now, since)
            }
            Moment::Greeted { answer } => {
                ask(machine, answer.meeting(), reply);
                self.go_on(alloc, machine, now, reply)
            }
            Moment::Idle { since, wait } => {
                if passed(now, *since, *wait) {
                    self.ask(alloc, machine, now, reply)
                } else {
                    Deed::Stay
                }
            }
            Moment::Asked { since, .. } => {
                let since = *since;
                self.give_up(now, since)
            }
            Moment::Delivering {
                items,
                useful,
                refused,
                ..
            } => {
                let more = items.deliver_some(machine, reply);
                *useful = either(*useful, more.useful);
                *refused = refused.saturating_add(more.refused);
                self.finish(now)
            }
        }
    }

    /// The edge tells that the call came through: the peer is asked for its introduction, and the machine nothing.
    pub fn connected<M: Settling>(
        &mut self,
        alloc: Global,
        machine: &mut M,
        now: u64,
        reply: &mut ReplyBuf,
    ) -> Deed
        ensures turned { Turned M.plain (M.stands machine.old) (M.stands machine.new) self.old News.Through now result self.new }
        ensures opening { M.opening machine.new ≡ M.opening machine.old }
    {
        if self.moment.is_calling() {
            self.greet(alloc, now)
        } else {
            Deed::Stay
        }
    }

    /// The edge tells that the call failed, or that the connection is over.
    pub fn over(&mut self, now: u64) -> Deed
        ensures { Moves self.old now [] [] result self.new News.Over }
    {
        match &mut self.moment {
            Moment::Away { .. } => Deed::Stay,
            Moment::Calling { .. } => self.fail(now, Failure::NotReached),
            Moment::Greeting { .. } | Moment::Greeted { .. } => self.fail(now, Failure::Cut),
            Moment::Idle { since, wait } => {
                self.moment = Moment::Away {
                    since: *since,
                    wait: *wait,
                };
                Deed::Close
            }
            Moment::Asked { .. } => self.fail(now, Failure::Cut),
            Moment::Delivering { connected, .. } => {
                if *connected {
                    *connected = false;
                    Deed::Close
                } else {
                    Deed::Stay
                }
            }
        }
    }

    /// The edge gives bytes that came of the peer. None means that none came for now.
    pub fn receive(&mut self, alloc: Global, now: u64, bytes: &[u8]) -> Deed
        requires { length bytes.now ≤ piece }
        ensures { Moves self.old now [] [] result self.new (News.Came bytes.now) }
    {
        if bytes.is_empty() {
            return Deed::Stay;
        }
        match mem::replace(&mut self.moment, Moment::Away { since: 0, wait: 0 }) {
            Moment::Greeting { since, question } => {
                self.hear_introduction(now, since, question, bytes)
            }
            Moment::Asked { since, question } => self.hear(alloc, now, since, question, bytes),
            moment => {
                if moment.is_connected() {
                    self.fail(now, Failure::Unasked)
                } else {
                    self.moment = moment;
                    Deed::Stay
                }
            }
        }
    }

    /// Uses the bytes that came to the question for an introduction.
    fn hear_introduction(&mut self, now: u64, since: u64, question: Question, bytes: &[u8]) -> Deed
        requires { length bytes.now ≤ piece }
        ensures { GreetsOf self.old now [] [] result self.new since question.left (question.came ++ bytes.now) }
    {
        if !question.is_sent() {
            return self.fail(now, Failure::Unasked);
        }
        match question.introduction(bytes) {
            Introduced::More(question) => self.moment = Moment::Greeting { since, question },
            Introduced::Answer(answer) => self.moment = Moment::Greeted { answer },
            Introduced::Other(why) => return self.fail(now, why),
        }
        Deed::Stay
    }

    /// Uses the bytes that came to a question.
    fn hear(
        &mut self,
        alloc: Global,
        now: u64,
        since: u64,
        question: Question,
        bytes: &[u8],
    ) -> Deed
        requires { length bytes.now ≤ piece }
        ensures { HearsOf self.old now [] [] result self.new since question.left (question.came ++ bytes.now) }
    {
        if !question.is_sent() {
            return self.fail(now, Failure::Unasked);
        }
        match question.hear(alloc, bytes) {
            Heard::More(question) => self.moment = Moment::Asked { since, question },
            Heard::Answer { items, full } => {
                self.moment = Moment::Delivering {
                    items,
                    connected: true,
                    full,
                    useful: false,
                    refused: 0,
                }
            }
            Heard::Other(why) => return self.fail(now, why),
        }
        Deed::Stay
    }

    /// The edge wrote so many of the bytes that wait to the peer, or all of them where they are fewer.
    pub fn sent(&mut self, now: u64, count: usize) -> Deed
        ensures { Moves self.old now [] [] result self.new (News.Sent (take count (waiting self.old.moment))) }
    {
        match &mut self.moment {
            Moment::Greeting { question, .. } => question.pass(count),
            Moment::Asked { question, .. } => question.pass(count),
            _ => {}
        }
        Deed::Stay
    }

    /// Has the peer asked for its introduction.
    fn greet(&mut self, alloc: Global, now: u64) -> Deed
        ensures { MayGreet self.old now [] [] result self.new }
    {
        match Room::new(alloc) {
            Ok(room) => {
                self.moment = Moment::Greeting {
                    since: now,
                    question: room.greeting(),
                };
                Deed::Stay
            }
            Err(_none) => self.fail(now, Failure::NoMemory),
        }
    }

    /// Goes on as the verdict says that the machine replied.
    fn go_on<M: Settling>(
        &mut self,
        alloc: Global,
        machine: &mut M,
        now: u64,
        reply: &mut ReplyBuf,
    ) -> Deed
        ensures asked { Made M.plain (M.stands machine.old) (M.stands machine.new) (λ bodies replies. GoesBy self.old now bodies replies result self.new (verdict_of reply.old)) }
        ensures opening { M.opening machine.new ≡ M.opening machine.old }
    {
        let why = verdict(reply.bytes());
        if why == MET {
            self.ask(alloc, machine, now, reply)
        } else {
            self.fail(now, Failure::NotMet { why })
        }
    }

    /// Asks the machine for its counts, and has the peer asked for what is above them.
    fn ask<M: Settling>(
        &mut self,
        alloc: Global,
        machine: &mut M,
        now: u64,
        reply: &mut ReplyBuf,
    ) -> Deed
        ensures asked { Made M.plain (M.stands machine.old) (M.stands machine.new) (λ bodies replies. MayAsk self.old now bodies replies result self.new) }
        ensures opening { M.opening machine.new ≡ M.opening machine.old }
    {
        let Ok(room) = Room::new(alloc) else {
            return self.fail(now, Failure::NoMemory);
        };
        ask(machine, &STAT, reply);
        match room.question(alloc, reply) {
            Some(question) => {
                self.moment = Moment::Asked {
                    since: now,
                    question,
                };
                Deed::Stay
            }
            None => self.fail(now, Failure::NoCounts),
        }
    }

    /// Ends the exchange, where no items are left. It failed where any was refused for want of room.
    fn finish(&mut self, now: u64) -> Deed
        ensures { Finishes self.old now result self.new self.old.moment }
    {
        let Moment::Delivering {
            items,
            connected,
            full,
            useful,
            refused,
        } = &self.moment
        else {
            return Deed::Stay;
        };
        if !items.is_empty() {
            return Deed::Stay;
        }
        if *refused > 0 {
            let records = *refused;
            return self.fail(now, Failure::NoRoom { records });
        }
        let wait = wait_after(*full && *useful, self.every);
        self.moment = Moment::alone(*connected, now, wait);
        self.pause = FIRST_PAUSE;
        self.last = None;
        Deed::Stay
    }

    /// Gives up what is waited for, where it is late.
    fn give_up(&mut self, now: u64, since: u64) -> Deed
        ensures { Once self.old now [] [] result self.new since patience (Breaks self.old now [] [] result self.new Failure.Late) }
    {
        if passed(now, since, PATIENCE) {
            self.fail(now, Failure::Late)
        } else {
            Deed::Stay
        }
    }

    /// Gives the exchange up.
    fn fail(&mut self, now: u64, why: Failure) -> Deed
        ensures { HasFailed self.old now result self.new why }
    {
        let told = why.is_told(self.last);
        let pause = self.pause;
        self.pause = longer_pause(pause);
        self.last = Some(why);
        self.moment = Moment::Away {
            since: now,
            wait: pause,
        };
        Deed::Fail { why, told }
    }

    /// The bytes that are to be written to the peer.
    pub fn to_write(&self) -> &[u8]
        ensures { result.now ≡ waiting self.now.moment }
    {
        match &self.moment {
            Moment::Greeting { question, .. } | Moment::Asked { question, .. } => question.left(),
            _ => &[],
        }
    }

    /// Whether bytes of the peer are read: it was greeted or asked, or it has a connection and nothing is asked of it.
    pub fn wants_read(&self) -> bool
        ensures { result ≡ listens self.now.moment }
    {
        matches!(
            &self.moment,
            Moment::Greeting { .. } | Moment::Idle { .. } | Moment::Asked { .. }
        )
    }

    /// How many milliseconds it is until the time says anything.
    pub fn rests_for(&self, now: u64) -> u64
        ensures { result ≡ rest_of self.now.moment now }
    {
        match &self.moment {
            Moment::Away { since, wait } | Moment::Idle { since, wait } => left(now, *since, *wait),
            Moment::Calling { since }
            | Moment::Greeting { since, .. }
            | Moment::Asked { since, .. } => left(now, *since, PATIENCE),
            Moment::Greeted { .. } | Moment::Delivering { .. } => 0,
        }
    }
}
