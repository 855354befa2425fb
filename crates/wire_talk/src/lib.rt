//! What the bytes of requests and replies are: their codes, and the laws of their spellings.
#![tactic(auto)]

pub mod refusal_codes;
pub mod reply_codes;
pub mod request_codes;
mod spelling_laws;

pub use spelling_laws::{
    no_memory_is_spelled, requests_are_read, requests_begin_with_their_code, talk_has_one_spelling,
};
