//! What the answers of a site are made of, beside its store: what bytes ask for, why a request stops, what is then told, and
//! the slots of states in their order.
//!
//! What each request does is stated in `docs/MODEL.md`.
#![tactic(auto)]

mod asks;
mod gives;
mod slots;
mod stops;

pub use asks::{asked, asked_lent};
pub use gives::{
    CommitEnd, commit_reply, consent_reply, give, give_end, give_found, give_refused, is_applied,
    keep_room, own_write, raise_refusal, reply_of, taken, told, untaken,
};
pub use slots::{in_order, slot_among, states_in, states_of};
pub use stops::Stop;
