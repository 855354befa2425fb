//! The versions of each key, and the one that is read at a state.
#![tactic(auto)]

mod chunk_tables;
mod histories;
mod notes;
mod seats;
mod version_lists;

pub use histories::Version;
pub use notes::KeyChunks;
pub use version_lists::VersionList;
