//! Machines that can be told by a shorter history than their own.

ghost use Rattle.std.specs.Prelude.{◌≡◌, ◌+◌, ◌≤◌, true, vec_len, vec_capacity, IfOk};
ghost use Rattle.rest_machine.specs.Rests.{most_lasting};

use crate::resting::Resting;
use tardis_base::NoMemory;

/// A machine that can tell what another one, as it opened, is to take back to rest as this one does, and that knows such another one
/// when it sees it. What is told is a plan of things, each of which is put by its number.
///
/// Nothing is owed of a plan but that it takes what it says: whoever follows it takes the things back into a machine that opens, and
/// asks whether this one rests as that does.
pub trait Shortening: Resting {
    type Plan: Drop;

    /// A machine that opens as this one did.
    fn reopened(&self) -> Result<Self, NoMemory>
    where
        Self: Sized,
        ensures stands { IfOk result (λ m. Self.stands m (Self.opening self.now)) }
        ensures opening { IfOk result (λ m. Self.opening m ≡ Self.opening self.now) };

    /// A plan of a history that is as short as can be.
    fn plan(&self) -> Result<Self::Plan, NoMemory>;

    /// How many things a plan has.
    fn planned(plan: &Self::Plan) -> usize;

    /// Puts the thing of this number, from 0, behind the bytes of `body`, in room that is there; nothing, where the plan has none of
    /// this number, or isn't one of this machine as it is now.
    fn put_planned(&self, plan: &Self::Plan, number: usize, body: &mut Vec<u8>)
        requires room { vec_len body.old + most_lasting ≤ vec_capacity body.old }
        ensures few { vec_len body.new ≤ vec_len body.old + most_lasting }
        ensures capacity { vec_capacity body.old ≤ vec_capacity body.new };

    /// Whether this machine rests as another one does, which is at rest: so that it may go on from there, with all that it has beside.
    fn rests_as(&self, other: &Self) -> bool
        ensures { result ≡ true → (s t : Self.Plain) → Self.stands self.now s → Self.stands other.now t → Self.at_rest t ≡ t
            → (u : Self.Plain) × (Self.stands self.now u × (Self.at_rest u ≡ t)) };
}
