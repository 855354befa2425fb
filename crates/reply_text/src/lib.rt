//! The lines of replies are read, lines of requests and replies are made in memory of their own, and laws of lines are
//! proved that no program needs.
#![tactic(auto)]

mod line_laws;
mod refusal_word_readers;
mod reply_line_readers;
mod reply_list_readers;
mod reply_word_readers;
mod texts;

pub use line_laws::{lines_are_read, lines_end_at_their_line_feed};
pub use reply_line_readers::read_reply_line;
pub use texts::{Text, line_of, reply_line};
