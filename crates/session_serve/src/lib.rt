//! One link of a server: its frames are requests of one session, asked of the lock in turn with those of others.
#![tactic(auto)]

mod askers;
mod ends;
mod laws;
mod replies;
mod sessions;

pub use ends::SessionEnd;
pub use laws::sessions_last;
pub use sessions::serve_session;
