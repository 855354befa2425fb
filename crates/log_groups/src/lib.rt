//! A server's log: its front, and groups behind it, told apart from a torn end and from damage.
//!
//! Each item of the log's text (`log_text`) has a check. A crash in mid-write leaves an end that reads as torn, and is mended
//! by zeros over it; anything else that stands there is damage, which is told and never cut. The items are stated in
//! `docs/FORMATS.md`.
#![tactic(auto)]

mod endings;
mod fronts;
mod groups;
mod laws;
mod readers;

pub use fronts::{LogFront, put_front};
pub use groups::{Ending, GROUP_HEAD, MAX_BODY, put_group};
pub use laws::group_laws;
pub use readers::{FirstItem, NextGroup, read_front, read_group};
