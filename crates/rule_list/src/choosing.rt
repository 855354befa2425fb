//! Which rule a key has.

ghost use Rattle.std.specs.Prelude.{◌≡◌, true, nat_lt};
ghost use Rattle.std.specs.Option.{option_map_or};
ghost use Rattle.rule_list.specs.Rules.{rule_for};

use crate::rules::{Rule, RuleList};
use tardis_base::Key;

/// The rule of the longest prefix with which the key begins. Without one it is `Rule::Refuse`.
pub fn rule_for(rules: &RuleList, key: &Key) -> Rule
    ensures { result ≡ rule_for rules.now key.now }
{
    let key = key.as_slice();
    let mut best = None;
    for entry in rules.as_slice() {
        let length = entry.prefix.len();
        if key.starts_with(entry.prefix.as_slice()) && is_longer(length, best) {
            best = Some((length, entry.rule));
        }
    }
    match best {
        Some((_, rule)) => rule,
        None => Rule::Refuse,
    }
}

/// Whether a prefix of this length is longer than the best so far.
fn is_longer(length: usize, best: Option<(usize, Rule)>) -> bool
    ensures { result ≡ option_map_or (λ b. nat_lt b.0 length) best true }
{
    match best {
        Some((longest, _)) => longest < length,
        None => true,
    }
}
