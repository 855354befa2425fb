//! The parts of a text of rules.

ghost use Rattle.std.specs.Prelude.{◌≡◌, ◌∷◌, option_map};
ghost use Rattle.std.specs.Bool.{then_some};
ghost use Rattle.rule_list.specs.Parts.{parts_left};
ghost use Rattle.rule_list.specs.RuleTexts.{are_printed, is_name, is_prefix, is_rule, name_of, parts, prefix_of, rule_named};

use crate::rules::Rule;

/// What stands before the first comma, and the text behind it, where there is one.
pub(crate) fn first_part(text: &str) -> (&str, Option<&str>)
    ensures { parts text.now ≡ result.0.now ∷ parts_left (option_map (λ rest. rest.now) result.1) }
{
    match text.split_once(',') {
        Some((part, rest)) => (part, Some(rest)),
        None => (text, None),
    }
}

/// What stands before and behind the first `=`. Without one, all stands before it.
pub(crate) fn halves(part: &str) -> (&str, &str)
    ensures prefix { result.0.now ≡ prefix_of part.now }
    ensures name { result.1.now ≡ name_of part.now }
{
    match part.split_once('=') {
        Some((prefix, name)) => (prefix, name),
        None => (part, ""),
    }
}

/// Whether the part is a rule.
pub(crate) fn is_rule(part: &str) -> bool
    ensures { result ≡ is_rule part.now }
{
    let (prefix, name) = halves(part);
    is_prefix(prefix) && rule_named(name).is_some()
}

/// Whether the text is a prefix: at most 64 printed ASCII bytes.
fn is_prefix(text: &str) -> bool
    ensures { result ≡ is_prefix text.now }
{
    text.len() <= 64 && are_printed(text.as_bytes())
}

/// Whether each byte is one that is printed.
fn are_printed(bytes: &[u8]) -> bool
    ensures { result ≡ are_printed bytes.now }
{
    bytes.iter().all(|byte| b'!' <= *byte && *byte <= b'~')
}

/// The rule of this name.
pub(crate) fn rule_named(name: &str) -> Option<Rule>
    ensures { result ≡ then_some (is_name name.now) (rule_named name.now) }
{
    match name {
        "last" => Some(Rule::Last),
        "count" => Some(Rule::Count),
        "set" => Some(Rule::Set),
        "set3" => Some(Rule::Set3),
        "refuse" => Some(Rule::Refuse),
        _ => None,
    }
}
