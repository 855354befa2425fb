//! The contents of one state, and the script that brings them to a fresh site.
//!
//! What an export is and what becomes of it is stated in `docs/EXPORT.md`.
#![tactic(auto)]

mod exports;
mod faults;
mod gathering;
mod imports;
mod inputs;
mod judging;
pub mod rows;
mod scripts;
mod writing;

pub use exports::live_keys;
pub use faults::ExportFault;
pub use imports::run_import;
pub use judging::is_export;
pub use writing::export_store;
