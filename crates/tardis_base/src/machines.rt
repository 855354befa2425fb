//! What the loop runs: a machine that answers one request after another.

ghost use Rattle.std.specs.Prelude.{◌≡◌, true, [], OnOk, OnErr, IsOk};
ghost use Rattle.tardis_base.specs.Plain.{PlainMachine};

use crate::faults::NoMemory;
use crate::reply_bufs::ReplyBuf;

/// The reply where a machine had no memory for an answer.
pub const NO_MEMORY: [u8; 1] = [22];

/// What answers the requests of actors, one at a time.
pub trait Machine: Drop {
    ghost Plain: { Type 0 };

    ghost plain: { PlainMachine Plain };

    ghost stands: { Self → Plain → Type 0 };

    ghost opening: { Self → Plain };

    /// Answers a request of an actor, into `out`, whose bytes from before are gone.
    ///
    /// With no memory the machine is as before and `out` is empty.
    fn act(&mut self, actor: u16, request: &[u8], out: &mut ReplyBuf) -> Result<(), NoMemory>
        ensures reply { OnOk result ((s : Plain) → stands self.old s → out.new ≡ plain.reply s (actor, request.now)) }
        ensures step { OnOk result ((s : Plain) → stands self.old s → stands self.new (plain.step s (actor, request.now))) }
        ensures same { OnErr result ((s : Plain) → stands self.old s → stands self.new s) }
        ensures empty { OnErr result (out.new ≡ []) }
        ensures sure { plain.is_sure (actor, request.now) ≡ true → IsOk result }
        ensures opening { opening self.new ≡ opening self.old };
}
