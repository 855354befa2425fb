//! Machines in memory, which owe nothing.

ghost use Rattle.std.specs.Prelude.{◌≡◌, ℕ, refl};
ghost use Rattle.std.proofs.Common.{inl};

use crate::settling::Settling;
use tardis_base::{Machine, NoMemory, ReplyBuf};
use tardis_io::Failed;

/// A machine that is lost when it ends: so nothing has to be settled before a reply is told. Each door lets all in.
#[derive(Drop)]
pub struct InMemory<M: Machine> {
    pub machine: M,
}

impl<M: Machine> Settling for InMemory<M> {
    ghost Plain = { M.Plain };

    ghost plain = { M.plain };

    ghost through = { λ _. M.plain };

    ghost stands = { λ m s. M.stands m.machine s };

    ghost opening = { λ m. M.opening m.machine };

    ghost is_settled = { λ _. Unit {0} };

    ghost settled = { λ s. s };

    ghost faults = { λ _. 0 };

    fn act(&mut self, actor: u16, request: &[u8], out: &mut ReplyBuf) -> Result<(), NoMemory> {
        self.machine.act(actor, request, out)
    }

    fn act_through(
        &mut self,
        door: u8,
        actor: u16,
        request: &[u8],
        out: &mut ReplyBuf,
    ) -> Result<(), NoMemory> {
        let _ = door;
        self.machine.act(actor, request, out)
    }

    fn owes(&self) -> bool {
        false
    }

    fn settle(&mut self) -> Result<(), Failed> {
        Ok(())
    }

    ghost settles = { λ s. tt };

    ghost guards = { λ door s e. inl refl };
}
