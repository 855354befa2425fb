//! The request to join leaves: its code, and the rules in its text.

ghost use Rattle.std.specs.Prelude.{◌≡◌, ◌↔◌, None, Some, Err, IfOk};
ghost use Rattle.join_rules.specs.Joins.{is_join, rules_in};

use crate::join_codes::JOIN;
use rule_list::{RuleList, RulesFault, read_rules};
use std::alloc::Global;

/// Whether a request is one to join leaves.
pub fn is_join(request: &[u8]) -> bool
    ensures { result ≡ is_join request.now }
{
    match request {
        [code, ..] => *code == JOIN,
        [] => false,
    }
}

/// The rules in the text of such a request, which is all behind its code and its patience.
pub fn rules_in(alloc: Global, text: &[u8]) -> Result<RuleList, RulesFault>
    ensures rules { IfOk result (λ rules. rules_in text.now ≡ Some rules) }
    ensures form { (result ≡ Err RulesFault.Form) ↔ (rules_in text.now ≡ None) }
{
    match str::from_utf8(text) {
        Ok(text) => read_rules(alloc, text),
        Err(_) => Err(RulesFault::Form),
    }
}
