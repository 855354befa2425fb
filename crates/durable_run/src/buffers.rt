//! The buffers of a durable run.

ghost use Rattle.std.specs.Prelude.{IfOk};
ghost use Rattle.durable_run.specs.Buffering.{AreFresh};

use frame_cut::FrameCutter;
use site_run::Gathered;
use std::alloc::Global;
use tardis_base::{MAX_FRAME, MAX_FRAMED, NoMemory, ReplyBuf};

/// How many bytes of answers may be gathered: a mebibyte, and one longest answer.
pub(crate) const GATHERED: usize = MAX_FRAME + MAX_FRAMED;

/// What a run holds between its input and its output.
#[derive(Drop)]
pub(crate) struct Buffers {
    pub(crate) cutter: FrameCutter,
    pub(crate) reply: ReplyBuf,
    pub(crate) gathered: Gathered,
}

impl Buffers {
    pub(crate) fn new(alloc: Global) -> Result<Buffers, NoMemory>
        ensures { IfOk result (λ b. AreFresh b) }
    {
        let cutter = FrameCutter::new(alloc)?;
        let reply = ReplyBuf::new(alloc)?;
        let gathered = Gathered::new(alloc, GATHERED)?;
        Ok(Buffers {
            cutter,
            reply,
            gathered,
        })
    }
}
