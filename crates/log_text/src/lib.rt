//! The text of a log, in which an entry is whole exactly where none of its bytes is zero.
//!
//! A log lies in room that was filled with zeros and synced before. Where a crash leaves of each byte that was being written
//! the old one or the new one, an entry that is only partly there has a zero in it, and is read as none. The text is stated
//! in `docs/FORMATS.md`.
#![tactic(auto)]

mod entries;
mod fronts;
mod laws;

pub use entries::{put_entry, read_entry};
pub use laws::log_laws;
