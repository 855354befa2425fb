//! A durable machine: each request that was answered stands in a journal on a disk before its reply is written. The file
//! and what is promised of it are described in `docs/DURABLE.md`.
#![tactic(auto)]

mod appends;
mod entry_texts;
mod journals;
mod laws;
mod mends;
mod openings;
mod replays;
mod sizes;

pub use journals::{JournalEnd, Journaled, OpenEnd, Staged};
pub use laws::one_journal;
pub use openings::open_on;
