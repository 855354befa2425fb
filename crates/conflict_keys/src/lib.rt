//! The keys in which several states conflict, and the value of the other keys over them. The rules are stated in
//! `docs/MODEL.md`.
#![tactic(auto)]

mod joins;
mod opens;
mod pages;
mod values;

pub use opens::{first_open, open_conflict};
pub use pages::{KeyPage, conflicts};
pub use values::{is_conflict, value_over};
