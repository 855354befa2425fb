//! The server: one site over the connections of an edge, what its words ask for, and how it ends.
//!
//! The words and the statuses are stated in `docs/COMMANDS.md`.
#![tactic(auto)]

mod asks;
mod checks;
mod doors;
mod endings;
mod files;
mod helps;
mod programs;
mod sites;

pub use asks::plan_of;
pub use checks::{CheckedLog, FileCheck, check_file};
pub use doors::{Doors, FoundSite, number_of};
pub use endings::{DaemonEnd, FileFault, GateFault};
pub use files::serve_file;
pub use helps::{USAGE, VERSION, help_text};
pub use programs::{carry_out, tardisd};
pub use rest_site::oldest_codes::{LEAVES, OLDEST, OTHER_SITE, SESSION};
pub use sites::serve_place;
