//! The auto step: two leaves are merged by rules, as one line or one call asks it.
//!
//! The rules, and what the step answers, are stated in `docs/RULES.md`.
#![tactic(auto)]

mod laws;
mod steps;

pub use laws::auto_steps_merge_or_change_nothing;
pub use steps::{AutoEnd, auto_step};
