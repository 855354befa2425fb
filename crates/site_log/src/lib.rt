//! A machine that starts again, with the log of what lasted of its requests: what was settled is in every image that a crash
//! may leave from then on. The file is stated in `docs/FORMATS.md`, what is promised of it in `docs/DURABLE.md`.
#![tactic(auto)]

mod appends;
mod bodies;
mod drafts;
mod ends;
mod files;
mod firsts;
mod loads;
mod logged;
mod makes;
mod mends;
mod opens;
mod reads;
mod replays;
mod resumes;
mod shortens;
mod texts;

pub use ends::OpenEnd;
pub use firsts::{FirstFound, read_first};
pub use loads::read_all;
pub use logged::{LONG, Logged};
pub use opens::{FoundLog, NotOpened, OpenedLog, open_log};
pub use reads::read_log;
pub use replays::Found;
pub use resumes::{LogEnd, resume};
pub use shortens::Shortened;
