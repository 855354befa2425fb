//! A disk: bytes that stay when the process ends, whatever a crash leaves of them, and the store that it comes from.
#![tactic(auto)]

mod bytewise;
mod disks;
mod stores;

pub use bytewise::BytewiseDisk;
pub use disks::Disk;
pub use stores::Store;
