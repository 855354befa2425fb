//! Questions answered: what a site tells without a session, a question at a time. Nothing of the site changes.
//!
//! What is told is stated in `docs/MODEL.md`, and by `plain_questions` as definitions.
#![tactic(auto)]

mod answers;
mod bases;
mod denials;
mod found;
mod listing;
mod pages;
mod reads;
mod records;
mod sessions;
mod sites;

pub use answers::answer;
