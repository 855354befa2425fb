//! Rules that join leaves: what becomes of keys in which two leaves conflict, told by the prefixes of keys; which two leaves are
//! joined, and by which site; and the request for it.
//!
//! The rules are stated in `docs/RULES.md`.
#![tactic(auto)]

mod counts;
pub mod join_codes;
mod joins;
mod joints;
mod laws;
mod open_forks;
mod parts;
mod ranks;
mod reasons;
mod sets;
mod settling;
mod three_way;
mod unions;
mod values;

pub use joins::{is_join, rules_in};
pub use joints::{Joint, MOST_LEAVES, first_joint, is_for_others};
pub use laws::{joins_are_records, one_site_joins_at_once, sides_may_be_exchanged};
pub use open_forks::{Reason, Unjoined, unjoined_leaves};
pub use ranks::rank;
pub use reasons::NoValue;
pub use settling::{Settled, settle};
pub use values::{Base, Side, merged};
