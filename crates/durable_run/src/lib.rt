//! A durable run: a machine's journal stands between an input and an output, and a reply is written only once its entry
//! is on the disk. What is promised of it is described in `docs/DURABLE.md`.
#![tactic(auto)]

mod buffers;
mod commands;
mod groups;
mod pieces;
mod runs;
mod site_runs;

pub use commands::{durable, durable_device};
pub use runs::{run_durable, run_durable_device};
pub use site_runs::{run_site_on, run_site_on_device};
