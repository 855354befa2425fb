//! Disks over the system's files, and the store of them.
#![tactic(auto)]

mod file_disks;
mod file_paths;
mod file_stores;

pub use file_disks::FileDisk;
pub use file_stores::FileStore;
