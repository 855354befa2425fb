//! A machine that remembers what it was asked.

ghost use Rattle.std.specs.Prelude.{◌≡◌, ◌≢◌, ℕ, ◌+◌, ◌≤◌, [], Some, length};
ghost use Rattle.tardis_base.specs.Sizes.{longest_request};
ghost use Rattle.tardis_base.specs.Plain.{state_after, reply_at};
ghost use Rattle.tardis_io.specs.Told.{WhileTold, GivesAll};
ghost use Rattle.tardis_io.specs.Faults.{HasCause};
ghost use Rattle.trail_log.specs.Trail.{bytes_of};
ghost use Rattle.std.specs.List.{AllByRecursion};
ghost use Rattle.trail_log.specs.Frames.{trail_frames, IsEntry, IsRead};
ghost use Rattle.trail_log.specs.Ends.{trail_with, IsFullAt};
ghost use Rattle.trail_log.specs.declared.acted.Acted.TheVariants.{Done, TrailFull};

use crate::acted::Acted;
use crate::logs::EntryLog;
use std::alloc::Global;
use std::marker::Model;
use tardis_base::{Machine, NoMemory, ReplyBuf};
use tardis_io::{Sink, WriteFault};

/// A machine with its trail: each request that it answered, with its actor, in order. The machine stands for the state
/// that its opening state comes to by these requests.
#[derive(Drop)]
pub struct Trailed<M: Machine> {
    machine: M,
    log: EntryLog,
    bytes: u64,
    max_trail: u64,
}

impl<M: Machine> Model for Trailed<M> {
    ghost use Rattle.std.specs.Prelude.{◌≡◌, ◌≤◌};
    ghost use Rattle.tardis_base.specs.Plain.{state_after};
    ghost use Rattle.trail_log.specs.Trail.{Kept, bytes_of};

    ghost Value = { Kept M };

    ghost view = { λ t. record { machine = t.machine; trail = t.log.trail; max_trail = t.max_trail } };

    ghost invariant = { λ t. (t.bytes ≡ bytes_of t.log.trail) × (t.bytes ≤ t.max_trail)
        × M.stands t.machine (state_after M.plain (M.opening t.machine) t.log.trail) };
}

impl<M: Machine> Trailed<M> {
    /// The machine, at its opening state, with an empty trail that may have at most so many bytes. It takes no memory.
    pub fn new(alloc: Global, machine: M, max_trail: u64) -> Trailed<M>
        requires { M.stands machine (M.opening machine) }
        ensures { result ≡ record { machine = machine; trail = []; max_trail = max_trail } }
    {
        Trailed {
            machine,
            log: EntryLog::new(alloc),
            bytes: 0,
            max_trail,
        }
    }

    /// Answers a request of an actor into `out`, and puts it at the end of the trail. An entry has 6 bytes more than its
    /// request.
    ///
    /// Its memory is taken before the machine acts. Where it ends otherwise than by `Acted::Done` nothing is changed and
    /// `out` is empty.
    pub fn act(&mut self, actor: u16, request: &[u8], out: &mut ReplyBuf) -> Acted
        requires { length request.now ≤ longest_request }
        ensures trail { self.new.trail ≡ trail_with result self.old.trail (actor, request.now) }
        ensures reply { result ≡ Done → reply_at M.plain (M.opening self.old.machine) self.new.trail (length self.old.trail) ≡ Some out.new }
        ensures full { IsFullAt result (bytes_of self.old.trail) (length request.now + 6) self.old.max_trail }
        ensures empty { result ≢ Done → out.new ≡ [] }
        ensures same { result ≢ Done → (s : M.Plain) → M.stands self.old.machine s → M.stands self.new.machine s }
        ensures untouched { (bytes : ℕ) → result ≡ TrailFull bytes → self.new ≡ self.old }
        ensures opening { M.opening self.new.machine ≡ M.opening self.old.machine }
        ensures most { self.new.max_trail ≡ self.old.max_trail }
    {
        let count = request.len() as u64 + 6;
        if self.max_trail - self.bytes < count {
            out.clear();
            return Acted::TrailFull { bytes: self.bytes };
        }
        if self.log.reserve(request.len() + 6).is_err() {
            out.clear();
            return Acted::NoMemory;
        }
        match self.machine.act(actor, request, out) {
            Ok(()) => {
                self.log.push(actor, request);
                self.bytes += count;
                Acted::Done
            }
            Err(NoMemory) => Acted::NoMemory,
        }
    }

    /// Writes the trail as frames: each a length word of four bytes, the actor in two bytes, and the request. After a
    /// fault a front of them was written.
    pub fn write_trail<O: Sink>(&self, output: &mut O) -> Result<(), WriteFault>
        ensures bytes { WhileTold (O.given output.old) (O.given output.new) (λ before after. GivesAll before after result (trail_frames self.now.trail)) }
        ensures cause { HasCause (O.faults output.old) (O.faults output.new) result }
        ensures again { IsRead (trail_frames self.now.trail) self.now.trail }
    {
        self.log.write_to(output)
    }

    /// Each entry is of an actor of 16 bits and fits a frame. This call does nothing.
    pub fn entries_fit(&self)
        ensures { AllByRecursion IsEntry self.now.trail }
    {
        self.log.entries_fit();
    }

    /// How many bytes the trail has.
    pub fn bytes(&self) -> u64
        ensures count { result ≡ bytes_of self.now.trail }
        ensures most { result ≤ self.now.max_trail }
    {
        self.bytes
    }

    /// The machine.
    pub fn machine(&self) -> &M
        ensures same { result.now ≡ self.now.machine }
        ensures stands { M.stands result.now (state_after M.plain (M.opening result.now) self.now.trail) }
    {
        &self.machine
    }
}
