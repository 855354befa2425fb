//! A machine whose replies are counted.

ghost use Rattle.std.specs.Prelude.{◌≡◌, ◌<◌, ℕ, refl};
ghost use Rattle.std.proofs.Common.{inl};

use crate::upkeeps::Tally;
use rest_machine::Settling;
use tardis_base::{NoMemory, ReplyBuf};
use tardis_io::Failed;

/// A machine that is asked for peers, and the tally of its replies. It is asked through no door, so each lets all in.
#[derive(Drop)]
pub(crate) struct Noting<'a, 't, M> {
    pub machine: &'a mut M,
    pub tally: &'a mut Tally<'t>,
}

impl<M: Settling> Settling for Noting<'_, '_, M> {
    ghost use Rattle.hub.specs.Noting.{Noted, noting, unnoted};

    ghost Plain = { Noted M.Plain };

    ghost plain = { noting M.plain };

    ghost through = { λ _. noting M.plain };

    ghost stands = { λ n s. M.stands n.machine.now s.state × (s.tally.count < 18446744073709551615 → n.tally.now ≡ s.tally) };

    ghost opening = { λ n. unnoted (M.opening n.machine.now) n.machine.ghost_name n.tally.ghost_name };

    ghost is_settled = { λ s. M.is_settled s.state };

    ghost settled = { λ s. record { state = M.settled s.state; tally = s.tally; machine = s.machine; counter = s.counter } };

    ghost faults = { λ n. M.faults n.machine.now };

    fn act(&mut self, actor: u16, request: &[u8], out: &mut ReplyBuf) -> Result<(), NoMemory> {
        match self.machine.act(actor, request, out) {
            Ok(()) => {
                self.tally.note(out.bytes());
                Ok(())
            }
            Err(NoMemory) => Err(NoMemory),
        }
    }

    fn act_through(
        &mut self,
        door: u8,
        actor: u16,
        request: &[u8],
        out: &mut ReplyBuf,
    ) -> Result<(), NoMemory> {
        let _ = door;
        self.act(actor, request, out)
    }

    fn owes(&self) -> bool {
        self.machine.owes()
    }

    fn settle(&mut self) -> Result<(), Failed> {
        self.machine.settle()
    }

    ghost settles = { λ s. M.settles s.state };

    ghost guards = { λ door s e. inl refl };
}
