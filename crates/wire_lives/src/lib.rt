//! How a site introduces itself to another: its number, how many sites there are, and its life, in bytes.
//!
//! The rules are stated in `docs/FORMATS.md`, 'Lives'.
#![tactic(auto)]

mod introductions;
pub mod life_codes;

pub use introductions::{
    Introduction, introductions_have_one_spelling, read_introduction, read_life, write_introduction,
};
