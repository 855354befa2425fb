//! Rules for keys by their prefixes, and the text that writes them.
//!
//! The text is stated in `docs/RULES.md`.
#![tactic(auto)]

mod choosing;
mod parts;
mod reading;
mod rules;

pub use choosing::rule_for;
pub use reading::{are_rules, read_rules};
pub use rules::{PrefixRule, Rule, RuleList, RulesFault};
