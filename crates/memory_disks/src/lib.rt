//! Disks and stores in memory, of which some calls may fail, and what a crash leaves of a disk.
#![tactic(auto)]

mod crashes;
mod histories;
mod memory_disks;
mod memory_stores;
mod mixes;
mod plans;

pub use histories::{History, Kept};
pub use memory_disks::MemoryDisk;
pub use memory_stores::{Held, MemoryStore};
pub use plans::DiskPlan;
