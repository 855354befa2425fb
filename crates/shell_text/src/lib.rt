//! The lines of requests and replies.
#![tactic(auto)]

mod field_words;
mod line_field_readers;
mod line_laws;
mod line_readers;
mod line_word_readers;
mod list_fields;
mod list_lines;
mod passing;
mod refusal_lines;
mod reply_lines;
mod request_fields;
mod request_lines;

pub use line_field_readers::{ids, key_alone, key_into, list_alone, value_into};
pub use line_laws::{lines_fit_their_room, lines_have_one_reading};
pub use line_readers::read_line;
pub use line_word_readers::alone;
pub use list_lines::id_follows;
pub use reply_lines::put_reply_line;
pub use request_lines::put_request_line;
pub use text_words::LineBuf;
