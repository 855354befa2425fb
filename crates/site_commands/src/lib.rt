//! The commands of one site, which opens with limits and a number: its run over frames, its shell and its audit over lines,
//! and its server.
//!
//! The commands are stated in `docs/COMMANDS.md`.
#![tactic(auto)]

mod counts;
mod lines;
mod runs;
mod serves;

pub use counts::sites_tell_counts;
pub use lines::{audit_frames, shell};
pub use runs::run;
pub use serves::serve;
