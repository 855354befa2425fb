//! One peer of a server: a state machine that fetches from another site what this one lacks, over any edge and by the clock that the edge
//! tells.
//!
//! The rules are those of `docs/SYNC.md`, 'Peers of a server'.
#![tactic(auto)]

mod asks;
mod deeds;
mod deliveries;
mod hearing;
mod introductions;
mod laws;
mod moments;
mod peers;
mod pulls;
mod questions;
mod times;

pub use deeds::{Deed, Failure};
pub use deliveries::{Delivery, ITEMS_A_TURN};
pub use introductions::{Introduction, LONGEST_INTRODUCTION, NO_VERDICT};
pub use laws::{
    counts_are_current, exchanges_are_whole, only_the_met_are_asked, turns_are_as_worked,
};
pub use moments::Moment;
pub use peers::Peer;
pub use questions::Question;
pub use times::{FIRST_PAUSE, LONGEST_PAUSE, PATIENCE};
