//! The script of a load, as it is played in memory.

ghost use Rattle.std.specs.Prelude.{◌≡◌, ◌+◌, ◌%◌, ◌≤◌, ◌<◌, [], length, decimal, IsTrue, IfOk, OnOk};
ghost use Rattle.tardis_base.specs.Valid.{is_key, is_value};
ghost use Rattle.tardis_base.specs.declared.requests.Request.{Request};
ghost use Rattle.tardis_base.specs.declared.requests.MergeOf.{MergeOf};
ghost use Rattle.stored_site.specs.Gives.{IsTold};
ghost use Rattle.load_run.specs.Plays.{asks, asks_then, draws, each_to, each_of};
ghost use Rattle.load_run.specs.Scripts.{key, opens, commits_ser, begins, turn, aborts, settles, merges, upkeep, one_step, script};
ghost use Rattle.load_run.specs.Held.{Does};

use crate::players::Player;
use itoa::Buffer;
use std::alloc::Global;
use stored_site::StoredSite;
use tardis_base::{Begin, ByteList, EndFlags, Key, MergeOf, NoMemory, Reply, Request, Value};

/// The session that merges.
const MERGER: u16 = 9;

/// Key j: `k` and two decimal digits.
fn numbered_key(alloc: Global, j: u32) -> Result<Key, NoMemory>
    requires { j < 100 }
    ensures key { IfOk result (λ made. made ≡ key j) }
    ensures valid { OnOk result (IsTrue (is_key (key j))) }
{
    let tens = (j / 10) as u8;
    let units = (j % 10) as u8;
    match Key::new(alloc, &[b'k', b'0' + tens, b'0' + units]) {
        Ok(key) => Ok(key),
        Err(_) => Err(NoMemory),
    }
}

/// The decimal text of a number.
fn text_of(alloc: Global, number: u32) -> Result<Value, NoMemory>
    ensures value { IfOk result (λ made. made ≡ decimal number) }
    ensures valid { OnOk result (IsTrue (is_value (decimal number))) }
{
    let mut digits = Buffer::new();
    match Value::new(alloc, digits.format(number).as_bytes()) {
        Ok(value) => Ok(value),
        Err(_) => Err(NoMemory),
    }
}

/// An equal key, in memory of its own.
fn copy_of(alloc: Global, key: &Key) -> Result<Key, NoMemory>
    ensures key { IfOk result (λ made. made ≡ key.now) }
    ensures valid { OnOk result (IsTrue (is_key key.now)) }
{
    match Key::new(alloc, key.as_slice()) {
        Ok(key) => Ok(key),
        Err(_) => Err(NoMemory),
    }
}

impl<A: StoredSite> Player<A> {
    /// The session opens, and follows its commits.
    fn open(&mut self, session: u16) -> Result<(), NoMemory>
        requires { self.old.counts.events + 1 ≤ 18446744073709551615 }
        ensures does { Does A.stands self.old self.new result (opens session) }
        ensures room { self.new.counts.events ≤ self.old.counts.events + 1 }
    {
        self.tell(session, Request::Open { follow: true })
    }

    /// The session writes the text of the number to the key.
    fn put(&mut self, session: u16, key: Key, number: u32) -> Result<(), NoMemory>
        requires key { IsTrue (is_key key) }
        requires room { self.old.counts.events + 1 ≤ 18446744073709551615 }
        ensures does { Does A.stands self.old self.new result (asks session (Request.Put key (decimal number))) }
        ensures room { self.new.counts.events ≤ self.old.counts.events + 1 }
    {
        let value = text_of(self.alloc(), number)?;
        self.tell(session, Request::Put { key, value })
    }

    /// The session reads the key of the next word.
    fn get_drawn(&mut self, session: u16) -> Result<(), NoMemory>
        requires { self.old.counts.events + 1 ≤ 18446744073709551615 }
        ensures does { Does A.stands self.old self.new result (draws (λ w. asks session (Request.Get (key (w % 64))))) }
        ensures room { self.new.counts.events ≤ self.old.counts.events + 1 }
    {
        let read = self.word() % 64;
        let key = numbered_key(self.alloc(), read)?;
        self.tell(session, Request::Get { key })
    }

    /// The session writes the text of the number to the key of the next word.
    fn put_drawn(&mut self, session: u16, number: u32) -> Result<(), NoMemory>
        requires { self.old.counts.events + 1 ≤ 18446744073709551615 }
        ensures does { Does A.stands self.old self.new result (draws (λ w. asks session (Request.Put (key (w % 64)) (decimal number)))) }
        ensures room { self.new.counts.events ≤ self.old.counts.events + 1 }
    {
        let written = self.word() % 64;
        let key = numbered_key(self.alloc(), written)?;
        self.put(session, key, number)
    }

    /// The session commits under SER.
    fn commit(&mut self, session: u16) -> Result<(), NoMemory>
        requires { self.old.counts.events + 1 ≤ 18446744073709551615 }
        ensures does { Does A.stands self.old self.new result (commits_ser session) }
        ensures room { self.new.counts.events ≤ self.old.counts.events + 1 }
    {
        let flags = EndFlags::SER;
        self.tell(session, Request::Commit { flags, k: 0 })
    }

    /// The session begins, reads a key and writes to one.
    fn begin(&mut self, session: u16, i: u32) -> Result<(), NoMemory>
        requires { self.old.counts.events + 3 ≤ 18446744073709551615 }
        ensures does { Does A.stands self.old self.new result (begins i session) }
        ensures room { self.new.counts.events ≤ self.old.counts.events + 3 }
    {
        let begin = Begin::Ancestor;
        self.tell(session, Request::Begin { begin })?;
        self.get_drawn(session)?;
        self.put_drawn(session, i)
    }

    /// One of the sessions 1 to 8 has its turn.
    fn turn(&mut self, i: u32) -> Result<(), NoMemory>
        requires { self.old.counts.events + 3 ≤ 18446744073709551615 }
        ensures does { Does A.stands self.old self.new result (turn i) }
        ensures room { self.new.counts.events ≤ self.old.counts.events + 3 }
    {
        let session = 1 + (self.word() % 8) as u16;
        if self.has_txn(session) {
            self.commit(session)
        } else {
            self.begin(session, i)
        }
    }
}

impl<A: StoredSite> Player<A> {
    /// The merger writes the text of the number to each of these keys.
    fn put_each(&mut self, keys: &[Key], number: u32) -> Result<(), NoMemory>
        requires { self.old.counts.events + length keys.now ≤ 18446744073709551615 }
        ensures does { Does A.stands self.old self.new result (each_of keys.now (λ k. asks 9 (Request.Put k (decimal number)))) }
        ensures room { self.new.counts.events ≤ self.old.counts.events + length keys.now }
    {
        for key in keys {
            let key = copy_of(self.alloc(), key)?;
            self.put(MERGER, key, number)?;
        }
        Ok(())
    }

    /// The merger writes the text of the number to each key that the reply lists.
    fn settle(&mut self, i: u32, reply: &Reply) -> Result<(), NoMemory>
        requires told { IsTold reply.now }
        requires room { self.old.counts.events + 256 ≤ 18446744073709551615 }
        ensures does { Does A.stands self.old self.new result (settles i reply.now) }
        ensures room { self.new.counts.events ≤ self.old.counts.events + 256 }
    {
        match reply {
            Reply::Keys { first, .. } => self.put_each(first.as_slice(), i),
            _ => Ok(()),
        }
    }

    /// The merger aborts where the reply refuses its commit.
    fn abort_refused(&mut self, reply: &Reply) -> Result<(), NoMemory>
        requires { self.old.counts.events + 1 ≤ 18446744073709551615 }
        ensures does { Does A.stands self.old self.new result (aborts reply.now) }
        ensures room { self.new.counts.events ≤ self.old.counts.events + 1 }
    {
        match reply {
            Reply::Refused { .. } => self.tell(MERGER, Request::Abort),
            _ => Ok(()),
        }
    }

    /// The merger settles the conflicts of its merge.
    fn settle_conflicts(&mut self, i: u32) -> Result<(), NoMemory>
        requires { self.old.counts.events + 257 ≤ 18446744073709551615 }
        ensures does { Does A.stands self.old self.new result (asks_then 9 (Request.Conflicts []) (settles i)) }
        ensures room { self.new.counts.events ≤ self.old.counts.events + 257 }
    {
        let after = ByteList::new(self.alloc());
        let listed = self.ask(MERGER, Request::Conflicts { after })?;
        let settled = self.settle(i, &listed);
        drop(listed); // for the proof alone
        settled
    }

    /// The merger commits its merge, or gives it up.
    fn commit_merge(&mut self) -> Result<(), NoMemory>
        requires { self.old.counts.events + 2 ≤ 18446744073709551615 }
        ensures does { Does A.stands self.old self.new result (asks_then 9 (Request.Commit (record { 0 = 0 }) 0) aborts) }
        ensures room { self.new.counts.events ≤ self.old.counts.events + 2 }
    {
        let flags = EndFlags(0);
        let reply = self.ask(MERGER, Request::Commit { flags, k: 0 })?;
        let ended = self.abort_refused(&reply);
        drop(reply); // for the proof alone
        ended
    }

    /// Where the reply says that a merge began, the merger settles its conflicts and commits.
    fn join(&mut self, i: u32, reply: &Reply) -> Result<(), NoMemory>
        requires { self.old.counts.events + 259 ≤ 18446744073709551615 }
        ensures does { Does A.stands self.old self.new result (merges i reply.now) }
        ensures room { self.new.counts.events ≤ self.old.counts.events + 259 }
    {
        match reply {
            Reply::Merging { .. } => {
                self.settle_conflicts(i)?;
                self.commit_merge()
            },
            _ => Ok(()),
        }
    }

    /// The merger merges the leaves.
    fn merge(&mut self, i: u32) -> Result<(), NoMemory>
        requires { self.old.counts.events + 260 ≤ 18446744073709551615 }
        ensures does { Does A.stands self.old self.new result (asks_then 9 (Request.BeginMerge MergeOf.Leaves) (merges i)) }
        ensures room { self.new.counts.events ≤ self.old.counts.events + 260 }
    {
        let of = MergeOf::Leaves;
        let reply = self.ask(MERGER, Request::BeginMerge { of })?;
        let joined = self.join(i, &reply);
        drop(reply); // for the proof alone
        joined
    }

    /// The leaves are merged, the floor is raised, and closed states are collected.
    fn upkeep(&mut self, i: u32) -> Result<(), NoMemory>
        requires { self.old.counts.events + 262 ≤ 18446744073709551615 }
        ensures does { Does A.stands self.old self.new result (upkeep i) }
        ensures room { self.new.counts.events ≤ self.old.counts.events + 262 }
    {
        self.merge(i)?;
        self.tell(0, Request::RaiseAuto)?;
        self.tell(0, Request::Tidy { n: 64 })
    }

    /// Step i: a turn, and after each seventh the upkeep.
    fn step(&mut self, i: u32) -> Result<(), NoMemory>
        requires { self.old.counts.events + 265 ≤ 18446744073709551615 }
        ensures does { Does A.stands self.old self.new result (one_step i) }
        ensures room { self.new.counts.events ≤ self.old.counts.events + 265 }
    {
        self.turn(i)?;
        if i % 7 == 0 { self.upkeep(i) } else { Ok(()) }
    }

    /// The sessions 1 to 9 open.
    fn open_all(&mut self) -> Result<(), NoMemory>
        requires { self.old.counts.events + 9 ≤ 18446744073709551615 }
        ensures does { Does A.stands self.old self.new result (each_to 9 opens) }
        ensures room { self.new.counts.events ≤ self.old.counts.events + 9 }
    {
        for place in 0..9u16 {
            self.open(place + 1)?;
        }
        Ok(())
    }

    /// So many steps are made.
    fn take_steps(&mut self, steps: u32) -> Result<(), NoMemory>
        requires { self.old.counts.events ≤ 9 }
        ensures { Does A.stands self.old self.new result (each_to steps one_step) }
    {
        for place in 0..steps {
            self.step(place + 1)?;
        }
        Ok(())
    }

    /// Plays the whole script, with so many steps. The cost grows with the number of steps, and with the states that are kept.
    pub(crate) fn play(&mut self, steps: u32) -> Result<(), NoMemory>
        requires { self.old.counts.events ≡ 0 }
        ensures { Does A.stands self.old self.new result (script steps) }
    {
        self.open_all()?;
        self.take_steps(steps)
    }
}
