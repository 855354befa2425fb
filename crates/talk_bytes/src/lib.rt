//! The bytes of requests and replies are read and written.
#![tactic(auto)]

mod field_writers;
mod lent_requests;
mod list_readers;
mod refusal_readers;
mod refusal_writers;
mod reply_field_readers;
mod reply_readers;
mod reply_writers;
mod request_field_readers;
mod request_readers;
mod request_writers;

pub use lent_requests::{LentRequest, read_lent};
pub use refusal_writers::write_refusal;
pub use reply_readers::read_reply;
pub use reply_writers::{
    write_absent, write_begun, write_committed, write_deleted, write_done, write_ended,
    write_refused, write_reply, write_value_reply,
};
pub use request_readers::read_request;
pub use request_writers::write_request;
