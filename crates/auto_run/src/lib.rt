//! A shell of a site with one more line, `N auto`: it merges the two leaves that arrived first by rules.
//!
//! The rules and the answers are stated in `docs/RULES.md`.
#![tactic(auto)]

mod auto_lines;
mod commands;
mod end_lines;
mod laws;
mod replies;
mod ruled_sites;
mod runs;

pub use commands::auto;
pub use laws::auto_lines_have_one_reading;
pub use ruled_sites::RuledSite;
pub use runs::{run_auto, run_auto_device};
