//! A machine that counts.

ghost use Rattle.std.specs.Prelude.{◌≡◌, ◌+◌, ◌%◌, [], ◌∷◌, ℕ, false};

use tardis_base::{Machine, NoMemory, ReplyBuf};

/// Replies by how many requests came before, and finds no memory for an empty one.
#[derive(Drop)]
pub(crate) struct Counter {
    pub(crate) acts: u64,
}

impl Machine for Counter {
    ghost Plain = { ℕ };

    ghost plain = { record { step = λ s e. s + 1; reply = λ s e. (s % 256) ∷ []; is_sure = λ e. false } };

    ghost stands = { λ m s. m.acts ≡ s };

    ghost opening = { λ m. 0 };

    fn act(&mut self, actor: u16, request: &[u8], out: &mut ReplyBuf) -> Result<(), NoMemory> {
        out.clear();
        let _ = actor;
        if request.is_empty() || self.acts == u64::MAX {
            return Err(NoMemory);
        }
        out.push_byte((self.acts % 256) as u8);
        self.acts += 1;
        Ok(())
    }
}
