//! What a machine needs to end and start again: what lasts of its requests, and what is settled before replies are told.
//!
//! The words are those of `docs/MODEL.md`, 'A site at rest'.
#![tactic(auto)]

mod in_memory;
mod resting;
mod settling;
mod shortening;

pub use in_memory::InMemory;
pub use resting::{MAX_LASTING, Resting};
pub use settling::Settling;
pub use shortening::Shortening;
