//! Several sites in one process, and the bag of what they gave.
//!
//! What bodies ask and how they are answered is stated in `docs/COMMANDS.md`.
#![tactic(auto)]

mod bags;
mod bodies;
mod replies;
mod runs;
mod worlds;

pub use replies::WorldReplies;
pub use runs::run_world;
pub use worlds::World;
