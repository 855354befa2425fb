//! Machines that start again from what lasted of their requests.

ghost use Rattle.std.specs.Prelude.{◌≡◌, ◌+◌, ◌<◌, ◌≤◌, ◌++◌, ℕ, List, true, false, [], vec_len, vec_capacity, Ok, IsOk, OnOk, OnErr};
ghost use Rattle.tardis_base.specs.Plain.{Event, PlainMachine};
ghost use Rattle.rest_machine.specs.Rests.{most_lasting};

use tardis_base::{NoMemory, ReplyBuf};

/// The most bytes that last of one request.
pub const MAX_LASTING: usize = 270_649;

/// A machine that can end and start again. Of each request some bytes last, or none; another machine of its opening that takes
/// back what lasted of all its requests, in order, is this one at rest.
pub trait Resting: Drop {
    ghost Plain: { Type 0 };

    ghost plain: { PlainMachine Plain };

    ghost stands: { Self → Plain → Type 0 };

    ghost opening: { Self → Plain };

    // what lasts of an event, in bytes; none where nothing does
    ghost lasting: { Plain → Event → List ℕ };

    // the first takes back all that stands in the bytes, one thing behind another, and becomes the second
    ghost takes_back: { Plain → List ℕ → Plain → Type 0 };

    // the state of a machine that ended in this one and starts again
    ghost at_rest: { Plain → Plain };

    /// Answers as `Machine::act` does, and puts what lasts of the request behind the bytes of `log`, in room that is there.
    fn act_lasting(
        &mut self,
        actor: u16,
        request: &[u8],
        out: &mut ReplyBuf,
        log: &mut Vec<u8>,
    ) -> Result<(), NoMemory>
        requires room { vec_len log.old + most_lasting ≤ vec_capacity log.old }
        ensures reply { OnOk result ((s : Plain) → stands self.old s → out.new ≡ plain.reply s (actor, request.now)) }
        ensures step { OnOk result ((s : Plain) → stands self.old s → stands self.new (plain.step s (actor, request.now))) }
        ensures same { OnErr result ((s : Plain) → stands self.old s → stands self.new s) }
        ensures empty { OnErr result (out.new ≡ []) }
        ensures sure { plain.is_sure (actor, request.now) ≡ true → IsOk result }
        ensures lasts { OnOk result ((s : Plain) → stands self.old s → log.new.items ≡ log.old.items ++ lasting s (actor, request.now)) }
        ensures nothing { OnErr result (log.new.items ≡ log.old.items) }
        ensures few { vec_len log.new ≤ vec_len log.old + most_lasting }
        ensures capacity { vec_capacity log.old ≤ vec_capacity log.new }
        ensures opening { opening self.new ≡ opening self.old };

    /// Takes back all that stands in the bytes, one thing behind another. `false` means that they can't be taken back: they spell
    /// no such things, or one of these doesn't fit. Then, and where there is no memory, it may have taken some of them.
    fn take_back(&mut self, bytes: &[u8]) -> Result<bool, NoMemory>
        ensures taken { result ≡ Ok true → (s : Plain) → stands self.old s → (t : Plain) × (takes_back s bytes.now t × stands self.new t) }
        ensures refused { result ≡ Ok false → (s t : Plain) → stands self.old s → takes_back s bytes.now t → ⊥ }
        ensures opening { opening self.new ≡ opening self.old };

    // a machine that opens is at rest, and takes back nothing
    ghost opens: { (m : Self) → takes_back (opening m) [] (opening m) };

    // what took something back is at rest, and takes back nothing behind it
    ghost rests: { (s : Plain) (bytes : List ℕ) (t : Plain) → takes_back s bytes t → takes_back t [] t × (at_rest t ≡ t) };

    // bytes that are taken back one after another are taken back as one
    ghost goes_on: { (s : Plain) (bytes : List ℕ) (t : Plain) (more : List ℕ) (u : Plain) → takes_back s bytes t → takes_back t more u
        → takes_back s (bytes ++ more) u };

    // where what lasted so far leads from the opening to the machine at rest, what lasts of one more event leads on to it behind that
    ghost lasts: { (m : Self) (bytes : List ℕ) (s : Plain) (e : Event) → stands m s → e.0 < 65536 → takes_back (opening m) bytes (at_rest s)
        → takes_back (at_rest s) (lasting s e) (at_rest (plain.step s e)) };

    // what stands for a state at rest stands at rest for each state that some machine stands for beside that one
    ghost rest_alike: { (m n : Self) (s t : Plain) → stands m s → stands m t → stands n (at_rest t) → stands n (at_rest s) };
}
