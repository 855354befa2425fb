//! A stream of bytes as frames: each a length word of four bytes, high byte first, and a body.
#![tactic(auto)]

mod cutters;
mod events;
mod heads;
mod laws;
mod moves;

pub use cutters::{Cut, FrameCutter};
pub use events::event;
pub use heads::put_frame;
pub use laws::one_cut;
pub use moves::keep_rest;
