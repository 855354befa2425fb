//! A world's replies, as frames.

use crate::worlds::World;
use any_site::AnySite;
use site_run::{Gathered, Responder, put_reply};
use std::alloc::Global;
use tardis_base::{MAX_FRAMED, NO_MEMORY, NoMemory, ReplyBuf};

/// Answers each body by the frame of the world's reply. Where the world finds no memory, it is the frame of the reply that
/// says so. Its buffer is taken once.
#[derive(Drop)]
pub struct WorldReplies {
    reply: ReplyBuf,
}

impl WorldReplies {
    pub fn new(alloc: Global) -> Result<WorldReplies, NoMemory> {
        let reply = ReplyBuf::new(alloc)?;
        Ok(WorldReplies { reply })
    }
}

impl<A: AnySite> Responder<World<A>> for WorldReplies {
    ghost use Rattle.std.specs.Prelude.{[]};
    ghost use Rattle.tardis_base.specs.Sizes.{longest_framed};
    ghost use Rattle.plain_world.specs.Worlds.{World as Plain};
    ghost use Rattle.world_core.specs.Held.{WorldStands};
    ghost use Rattle.world_core.specs.Runs.{WorldMay};

    ghost State = { Plain };

    ghost stands = { WorldStands A.stands };

    ghost may = { WorldMay };

    ghost opening = { λ _. record { sites = []; bag = [] } };

    ghost MOST = { longest_framed };

    const MOST: usize = MAX_FRAMED;

    fn respond(&mut self, subject: &mut World<A>, body: &[u8], out: &mut Gathered) {
        match subject.answer(body, &mut self.reply) {
            Ok(()) => put_reply(self.reply.bytes(), out),
            Err(NoMemory) => put_reply(&NO_MEMORY, out),
        }
    }
}
