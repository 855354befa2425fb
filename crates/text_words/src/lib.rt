//! The words of lines: how numbers, ids and bytes are written in text and read back.
#![tactic(auto)]

mod line_bufs;
mod unread;
mod word_bytes;
mod word_laws;
mod words;

pub use line_bufs::{LineBuf, MAX_LINE};
pub use unread::Unread;
pub use word_bytes::{read_bytes, read_hex};
pub use word_laws::words_are_read;
pub use words::Words;
