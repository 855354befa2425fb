//! A stream of bytes as lines: each the bytes up to a line feed.
#![tactic(auto)]

mod cutters;
mod feeds;
mod laws;
mod moves;

pub use cutters::{Cut, LineCutter};
pub use laws::one_cut;
