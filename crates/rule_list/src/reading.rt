//! Reading rules from a text.

ghost use Rattle.std.specs.Prelude.{◌≡◌, ◌↔◌, Some, None, Err, length, map, option_map, bytes_eq, IfOk};
ghost use Rattle.std.specs.List.{list_all, list_any};
ghost use Rattle.rule_list.specs.Parts.{parts_left};
ghost use Rattle.rule_list.specs.RuleTexts.{are_distinct, are_rules, is_rule, parts, prefix_of, rule_of, rules_of};

use crate::parts::{first_part, halves, is_rule, rule_named};
use crate::rules::{PrefixRule, Rule, RuleList, RulesFault};
use std::alloc::Global;
use tardis_base::{ByteList, NoMemory};

/// Reads rules, joined by commas. A rule is a prefix, `=`, and `last`, `count`, `set`, `set3` or `refuse`. The time is in
/// proportion to the length of the text, and to the square of the number of rules.
pub fn read_rules(alloc: Global, text: &str) -> Result<RuleList, RulesFault>
    ensures rules { IfOk result (λ rules. rules_of text.now ≡ Some rules) }
    ensures form { (result ≡ Err RulesFault.Form) ↔ (rules_of text.now ≡ None) }
{
    if !are_rules(text) {
        return Err(RulesFault::Form);
    }
    match copied_rules(alloc, text) {
        Ok(rules) => Ok(RuleList { rules }),
        Err(NoMemory) => Err(RulesFault::NoMemory),
    }
}

/// Whether the text has the form. It takes no memory; the time is that of `read_rules`.
pub fn are_rules(text: &str) -> bool
    ensures { result ≡ are_rules (parts text.now) }
{
    count_of(text) <= 16 && are_all_rules(text) && are_distinct(text)
}

/// How many parts the text has.
fn count_of(text: &str) -> usize
    ensures { result ≡ length (parts text.now) }
{
    text.split(',').count()
}

/// Whether each part is a rule.
fn are_all_rules(text: &str) -> bool
    ensures { result ≡ list_all is_rule (parts text.now) }
{
    text.split(',').all(is_rule)
}

/// Whether no two parts have one prefix.
fn are_distinct(text: &str) -> bool
    ensures { result ≡ are_distinct (map prefix_of (parts text.now)) }
{
    let mut left = Some(text);
    while let Some(text) = left {
        let (part, rest) = first_part(text);
        let (prefix, _) = halves(part);
        if has_prefix(rest, prefix) {
            return false;
        }
        left = rest;
    }
    true
}

/// Whether one of the parts of the text, where there is one, has this prefix.
fn has_prefix(text: Option<&str>, prefix: &str) -> bool
    ensures { result ≡ list_any (bytes_eq prefix.now) (map prefix_of (parts_left (option_map (λ t. t.now) text.entry))) }
{
    let mut left = text;
    while let Some(text) = left {
        let (part, rest) = first_part(text);
        let (other, _) = halves(part);
        if prefix == other {
            return true;
        }
        left = rest;
    }
    false
}

/// The rules that the parts write.
fn copied_rules(alloc: Global, text: &str) -> Result<Vec<PrefixRule>, NoMemory>
    ensures { IfOk result (λ rules. rules.items ≡ map rule_of (parts text.now)) }
{
    let mut rules = Vec::new(alloc);
    let mut left = Some(text);
    while let Some(text) = left {
        let (part, rest) = first_part(text);
        rules.push(copied_rule(alloc, part)?)?;
        left = rest;
    }
    Ok(rules)
}

/// The rule that a part writes.
fn copied_rule(alloc: Global, part: &str) -> Result<PrefixRule, NoMemory>
    ensures { IfOk result (λ rule. rule ≡ rule_of part.now) }
{
    let (prefix, name) = halves(part);
    let prefix = Vec::from_slice(alloc, prefix.as_bytes())?;
    Ok(PrefixRule {
        prefix: ByteList::from_vec(prefix),
        rule: rule_named(name).unwrap_or(Rule::Refuse),
    })
}
