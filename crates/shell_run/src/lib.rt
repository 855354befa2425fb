//! Runs of a machine for people to read: lines of requests answered by lines of replies, and frames told as lines.
#![tactic(auto)]

mod asked_lines;
mod audits;
mod laws;
mod runs;
mod shells;

pub use audits::AuditLines;
pub use laws::{own_replies_have_lines, requests_fit_a_frame};
pub use runs::{audit, audit_device, run_shell, run_shell_device};
pub use shells::ShellReplies;
use text_words::MAX_LINE;
use wire_talk::refusal_codes;
use wire_talk::reply_codes::REFUSED;

/// The reply that a line is none of a request: refused as malformed.
const MALFORMED: [u8; 2] = [REFUSED, refusal_codes::MALFORMED];

/// The most bytes of one line of a shell, with its line feed.
pub const MAX_SHELL_LINE: usize = MAX_LINE + 1;

/// The most bytes of one line of an audit: two lines, the four bytes between, and a line feed.
pub const MAX_AUDIT_LINE: usize = 2 * MAX_LINE + 5;
