//! Exchanges with other sites: what a site lacks is fetched from a peer and delivered, each item in a turn of its own.
#![tactic(auto)]

mod deliveries;
mod ends;
mod exchanges;
mod fetches;
mod pulls;
mod rounds;
mod tallies;

pub use ends::{Rounds, SyncEnd};
pub use exchanges::sync_round;
pub use rounds::run_rounds;
