//! A load: a site in memory plays a script that a number determines, and one line tells how it went.
//!
//! The script is stated in `docs/COMMANDS.md`, 'A load'.
#![tactic(auto)]

mod counts;
mod lines;
mod players;
mod runs;
mod scripts;

pub use runs::run_load;
