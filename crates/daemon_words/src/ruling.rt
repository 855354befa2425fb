//! What the words of a server say of rules.

ghost use Rattle.std.specs.Prelude.{◌≡◌, ◌≤◌, map, option_map, IfSome};
ghost use Rattle.std.specs.String.{string_bytes};
ghost use Rattle.command_words.specs.Settings.{settings};
ghost use Rattle.daemon_words.specs.Ruling.{rules, join_after};

use crate::values::may_stand;
use command_words::{Given, count_of, how_given, read_number_or};
use rule_list::are_rules;

/// The text of `--rules RULES`, where it is there and has the form.
pub(crate) fn read_rules_text(words: &[String]) -> Option<Option<&str>>
    ensures { option_map (λ found. option_map (λ word. word.now) found) result ≡ rules (settings (map (λ w. string_bytes w) words.now)) }
{
    match how_given(words, "--rules") {
        Given::Absent => Some(None),
        Given::Value(text) => {
            if are_rules(text) {
                Some(Some(text))
            } else {
                None
            }
        },
        Given::Bare => None,
        Given::Twice => None,
    }
}

/// `--join-after SECONDS`, which stands only beside rules.
pub(crate) fn read_join_after(words: &[String]) -> Option<u32>
    ensures number { result ≡ join_after (settings (map (λ w. string_bytes w) words.now)) }
    ensures from { IfSome result (λ n. 1 ≤ n) }
    ensures to { IfSome result (λ n. n ≤ 86400) }
{
    let has_rules = 0 < count_of(words, "--rules");
    if may_stand(words, "--join-after", has_rules) {
        read_number_or(words, "--join-after", 30, 1, 86_400)
    } else {
        None
    }
}
