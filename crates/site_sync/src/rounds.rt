//! Rounds of exchanges.

ghost use Rattle.std.specs.Prelude.{◌≡◌, ◌+◌, ◌<◌, ◌≤◌, length, map, IfOk, OnErr};
ghost use Rattle.std.specs.String.{string_bytes};
ghost use Rattle.tardis_io.specs.Faults.{Rose};
ghost use Rattle.dag_lock.specs.Named.{lock_id, start_of};
ghost use Rattle.site_sync.specs.Asking.{TellsCounts, upkeep};
ghost use Rattle.site_sync.specs.Steps.{GoesOn, Tries};
ghost use Rattle.site_sync.specs.Rounds.{AreRounds, Calls, Tidies, IsRound, with_end, with_step, with_steps};

use crate::deliveries::NOBODY;
use crate::ends::{Rounds, SyncEnd};
use crate::exchanges::sync_round;
use dag_lock::{DagLock, Pass};
use std::alloc::Global;
use std::sync::Wait;
use tardis_base::{Machine, NoMemory, ReplyBuf};
use tardis_io::Dial;
use trail_log::Acted;
use wire_talk::request_codes;

/// Makes so many rounds: in each, one exchange with each of the peers in the order of their addresses, whatever the end of
/// the one before. With `tidy` each round is followed by RaiseAuto and Tidy 64, so that a site that its peers keep up with
/// collects what nobody reads at any more. All steps are those of actor 0.
///
/// There is no pause between two rounds. With no memory for the buffer of the upkeep no peer is called. For no rounds no
/// memory is taken.
pub fn run_rounds<M: Machine, D: Dial, R: Wait>(
    alloc: Global,
    rt: &R,
    lock: &DagLock<M>,
    pass: Pass,
    dial: &mut D,
    peers: &[String],
    rounds: u32,
    tidy: bool,
) -> (Pass, Result<Rounds, NoMemory>)
    requires lock { pass.lock ≡ lock_id lock.now }
    requires counts { TellsCounts M.plain (M.opening (start_of lock.now).machine) }
    requires peers { length peers.now ≤ 15 }
    requires rounds { rounds ≤ 1000000 }
    ensures goes_on { GoesOn pass result.0 }
    ensures rounds { IfOk result.1 (λ n. AreRounds M.opening M.plain (start_of lock.now) D.Link.left D.Link.given D.Link.take_faults D.Link.faults
        D.told D.faults
        rounds (map (λ p. string_bytes p) peers.now) tidy pass dial.old n result.0 dial.new) }
    ensures nothing { OnErr result.1 ((result.0 ≡ pass) × (dial.new ≡ dial.old)) }
    ensures later { D.faults dial.old ≤ D.faults dial.new }
    ensures cause { IfOk result.1 (λ n. 0 < n.dial → Rose (D.faults dial.old) (D.faults dial.new)) }
{
    if rounds == 0 {
        return (pass, Ok(Rounds { dial: 0, memory: 0 }));
    }
    let Ok(mut reply) = ReplyBuf::new(alloc) else {
        return (pass, Err(NoMemory));
    };
    let mut pass = pass;
    let mut numbers = Rounds { dial: 0, memory: 0 };
    for _round in 0..rounds {
        let (next, more) = run_round(
            alloc, rt, lock, pass, dial, peers, tidy, numbers, &mut reply,
        );
        numbers = more;
        pass = next;
    }
    (pass, Ok(numbers))
}

/// Makes one round, and adds it to the numbers.
fn run_round<M: Machine, D: Dial, R: Wait>(
    alloc: Global,
    rt: &R,
    lock: &DagLock<M>,
    pass: Pass,
    dial: &mut D,
    peers: &[String],
    tidy: bool,
    numbers: Rounds,
    reply: &mut ReplyBuf,
) -> (Pass, Rounds)
    requires lock { pass.lock ≡ lock_id lock.now }
    requires counts { TellsCounts M.plain (M.opening (start_of lock.now).machine) }
    requires peers { length peers.now ≤ 15 }
    requires room { (numbers.dial ≤ 15000000) × (numbers.memory ≤ 17000000) }
    ensures goes_on { GoesOn pass result.0 }
    ensures round { IsRound M.opening M.plain (start_of lock.now) D.Link.left D.Link.given D.Link.take_faults D.Link.faults D.told D.faults
        (map (λ p. string_bytes p) peers.now) tidy pass dial.old numbers result.0 dial.new result.1 }
    ensures most { (result.1.dial ≤ numbers.dial + 15) × (result.1.memory ≤ numbers.memory + 17) }
{
    let (pass, numbers) = call_all(alloc, rt, lock, pass, dial, peers, numbers);
    if tidy {
        tidy_up(rt, lock, pass, numbers, reply)
    } else {
        (pass, numbers)
    }
}

/// Makes one exchange with each peer.
fn call_all<M: Machine, D: Dial, R: Wait>(
    alloc: Global,
    rt: &R,
    lock: &DagLock<M>,
    pass: Pass,
    dial: &mut D,
    peers: &[String],
    numbers: Rounds,
) -> (Pass, Rounds)
    requires lock { pass.lock ≡ lock_id lock.now }
    requires counts { TellsCounts M.plain (M.opening (start_of lock.now).machine) }
    requires peers { length peers.now ≤ 15 }
    requires room { (numbers.dial ≤ 15000000) × (numbers.memory ≤ 17000000) }
    ensures goes_on { GoesOn pass result.0 }
    ensures calls { Calls M.opening M.plain (start_of lock.now) D.Link.left D.Link.given D.Link.take_faults D.Link.faults D.told D.faults
        (map (λ p. string_bytes p) peers.now) pass dial.old numbers result.0 dial.new result.1 }
    ensures most { (result.1.dial ≤ numbers.dial + 15) × (result.1.memory ≤ numbers.memory + 15) }
{
    let mut pass = pass;
    let mut numbers = numbers;
    for peer in peers {
        let (next, end) = sync_round(alloc, rt, lock, pass, dial, peer.as_str());
        numbers = numbers.with_end(end);
        pass = next;
    }
    (pass, numbers)
}

/// The request RaiseAuto.
const RAISE_AUTO: [u8; 1] = [request_codes::RAISE_AUTO];

/// The request Tidy 64.
const TIDY: [u8; 3] = [request_codes::TIDY, 0, 64];

/// Raises the floor as far as it may go, and collects up to 64 states.
fn tidy_up<M: Machine, R: Wait>(
    rt: &R,
    lock: &DagLock<M>,
    pass: Pass,
    numbers: Rounds,
    reply: &mut ReplyBuf,
) -> (Pass, Rounds)
    requires lock { pass.lock ≡ lock_id lock.now }
    requires room { numbers.memory ≤ 17000015 }
    ensures goes_on { GoesOn pass result.0 }
    ensures tidies { Tidies M.opening M.plain (start_of lock.now) pass upkeep numbers result.0 result.1 }
    ensures most { (result.1.dial ≡ numbers.dial) × (result.1.memory ≤ numbers.memory + 2) }
{
    let (pass, raised) = lock.step(rt, pass, NOBODY, &RAISE_AUTO, reply);
    let (pass, tidied) = lock.step(rt, pass, NOBODY, &TIDY, reply);
    (pass, numbers.with_step(raised).with_step(tidied))
}

impl Rounds {
    /// One exchange more, which ended so.
    fn with_end(self, end: SyncEnd) -> Rounds
        requires { (self.dial < 4294967295) × (self.memory < 4294967295) }
        ensures { result ≡ with_end end self }
    {
        match end {
            SyncEnd::DialFault => Rounds {
                dial: self.dial + 1,
                memory: self.memory,
            },
            SyncEnd::NoMemory => Rounds {
                dial: self.dial,
                memory: self.memory + 1,
            },
            _ => self,
        }
    }

    /// One step of the upkeep more, which came to this.
    fn with_step(self, acted: Acted) -> Rounds
        requires { self.memory < 4294967295 }
        ensures { result ≡ with_step acted self }
    {
        match acted {
            Acted::NoMemory => Rounds {
                dial: self.dial,
                memory: self.memory + 1,
            },
            _ => self,
        }
    }
}
