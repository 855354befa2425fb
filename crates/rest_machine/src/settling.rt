//! Machines that settle what they answered before anybody is told of it.

ghost use Rattle.std.specs.Prelude.{◌≡◌, ◌<◌, ℕ, ◌⊎◌, true, false, [], OnOk, OnErr, IsOk};
ghost use Rattle.tardis_base.specs.Plain.{Event, PlainMachine};

use tardis_base::{NoMemory, ReplyBuf};
use tardis_io::Failed;

/// A machine of which replies are told only once what they may show is settled, as on a disk.
pub trait Settling: Drop {
    ghost Plain: { Type 0 };

    ghost plain: { PlainMachine Plain };

    // the machine as it is seen through a door: a request that isn't let in there changes nothing
    ghost through: { ℕ → PlainMachine Plain };

    ghost stands: { Self → Plain → Type 0 };

    ghost opening: { Self → Plain };

    // nothing is owed
    ghost is_settled: { Plain → Type 0 };

    // the state once all is settled
    ghost settled: { Plain → Plain };

    // how many faults were counted
    ghost faults: { Self → ℕ };

    /// Answers as `Machine::act` does. What is asked so comes through no door.
    fn act(&mut self, actor: u16, request: &[u8], out: &mut ReplyBuf) -> Result<(), NoMemory>
        ensures reply { OnOk result ((s : Plain) → stands self.old s → out.new ≡ plain.reply s (actor, request.now)) }
        ensures step { OnOk result ((s : Plain) → stands self.old s → stands self.new (plain.step s (actor, request.now))) }
        ensures same { OnErr result ((s : Plain) → stands self.old s → stands self.new s) }
        ensures empty { OnErr result (out.new ≡ []) }
        ensures sure { plain.is_sure (actor, request.now) ≡ true → IsOk result }
        ensures opening { opening self.new ≡ opening self.old };

    /// Answers a request that came through the door of this number, as the machine that is seen there.
    fn act_through(
        &mut self,
        door: u8,
        actor: u16,
        request: &[u8],
        out: &mut ReplyBuf,
    ) -> Result<(), NoMemory>
        ensures reply { OnOk result ((s : Plain) → stands self.old s → out.new ≡ (through door).reply s (actor, request.now)) }
        ensures step { OnOk result ((s : Plain) → stands self.old s → stands self.new ((through door).step s (actor, request.now))) }
        ensures same { OnErr result ((s : Plain) → stands self.old s → stands self.new s) }
        ensures empty { OnErr result (out.new ≡ []) }
        ensures sure { (through door).is_sure (actor, request.now) ≡ true → IsOk result }
        ensures opening { opening self.new ≡ opening self.old };

    /// Whether something may be owed.
    fn owes(&self) -> bool
        ensures { result ≡ false → (s : Plain) → stands self.now s → is_settled s };

    /// Settles all that is owed. After a failure the machine goes on answering, and settles nothing any more.
    fn settle(&mut self) -> Result<(), Failed>
        ensures settled { OnOk result ((s : Plain) → stands self.old s → stands self.new (settled s)) }
        ensures same { OnErr result ((s : Plain) → stands self.old s → stands self.new s) }
        ensures cause { OnErr result (0 < faults self.new) }
        ensures opening { opening self.new ≡ opening self.old };

    // once all is settled nothing is owed
    ghost settles: { (s : Plain) → is_settled (settled s) };

    // what comes through a door makes the machine's step, or none
    ghost guards: { (door : ℕ) (s : Plain) (e : Event) → ((through door).step s e ≡ plain.step s e) ⊎ ((through door).step s e ≡ s) };
}
