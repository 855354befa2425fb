//! The loops of a run: bytes in, bodies of frames or lines, answers, bytes out.
#![tactic(auto)]

mod answers;
mod cutting;
mod gathered;
mod responders;
mod runs;

pub use gathered::Gathered;
pub use responders::{MachineReplies, Responder, put_reply};
pub use runs::{answer_frames, answer_lines, run_device, run_site, take_front};
