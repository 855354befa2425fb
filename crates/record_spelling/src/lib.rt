//! The record of the state that arrived last, spelled straight from the store behind other bytes. It takes no memory.
#![tactic(auto)]

mod next_keys;
mod puts;
mod records;

pub use puts::{put_consent, put_u8, put_u32};
pub use records::put_newest;
