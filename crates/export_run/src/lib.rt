//! Exports of a site in memory: of one state, and of what frames leave.
//!
//! What an export is and how its run ends is stated in `docs/EXPORT.md`.
#![tactic(auto)]

mod exports;
mod silence;

pub use exports::{export, export_at, run_export};
