//! What sites give each other: how a record is judged where it arrives, what is news for another site, and the room in which
//! early records wait.
#![tactic(auto)]

mod batches;
mod judging;
mod rooms;

pub use batches::batch_for;
pub use judging::{Judged, judge_nameless, judge_record};
pub use rooms::WaitRoom;
