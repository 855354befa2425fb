//! A machine with the trail of its requests: what was asked, by whom, in order.
#![tactic(auto)]

mod acted;
mod chunks;
mod logs;
mod trails;

pub use acted::Acted;
pub use trails::Trailed;
