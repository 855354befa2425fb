//! A site, whatever keeps it: what commands ask of one.
//!
//! The crates of commands stand on this one and not on the site in memory, so that they are proved beside it.
#![tactic(auto)]

mod machines;
mod sites;

pub use machines::SiteMachine;
pub use sites::AnySite;
