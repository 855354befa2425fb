//! The options behind the word of a command.

ghost use Rattle.std.specs.Prelude.{◌≡◌, ◌<◌, ◌++◌, ℕ, List, [], ◌∷◌, Option, Some, None, length, map, IfOk, filter_map, option_map, bytes_eq};
ghost use Rattle.std.specs.List.{list_any};
ghost use Rattle.std.specs.String.{string_bytes};
ghost use Rattle.command_words.specs.Settings.{settings, values, are_only, is_flag};
ghost use Rattle.command_words.specs.Given.{IsGiven};
ghost use Rattle.command_words.specs.Splits.{IsSplit};

use std::alloc::Global;
use tardis_base::NoMemory;

/// The first option, and the words behind it.
#[derive(Clone, Copy)]
pub struct Split<'a> {
    pub name: &'a str,
    pub value: Option<&'a str>,
    pub rest: &'a [String],
}

/// How often an option is given, and its value.
#[derive(Clone, Copy)]
pub enum Given<'a> {
    Absent,
    /// Once, without a value.
    Bare,
    /// Once, with this value.
    Value(&'a str),
    /// Twice or more.
    Twice,
}

/// Splits off the first option: `--tidy` or `--keep-history` alone, or any other word with the one behind it. There is none only where
/// there is no word.
pub fn split_first(words: &[String]) -> Option<Split<'_>>
    ensures { IsSplit (map (λ w. string_bytes w) words.now) result }
{
    let [first, behind @ ..] = words else {
        return None;
    };
    let name = first.as_str();
    match behind {
        [value, rest @ ..] if !is_flag(name) => Some(Split {
            name,
            value: Some(value.as_str()),
            rest,
        }),
        _ => Some(Split {
            name,
            value: None,
            rest: behind,
        }),
    }
}

/// Whether the option of this name has no value.
fn is_flag(name: &str) -> bool
    ensures { result ≡ is_flag name.now }
{
    name == "--tidy" || name == "--keep-history"
}

/// How often the option of this name is given, and its value. The time is in proportion to how many words there are.
pub fn how_given<'a>(words: &'a [String], name: &str) -> Given<'a>
    ensures { IsGiven (values name.now (settings (map (λ w. string_bytes w) words.now))) result }
{
    let mut found = Given::Absent;
    let mut left = words;
    while let Some(first) = split_first(left) {
        if first.name == name {
            found = with_value(found, first.value);
        }
        left = first.rest;
    }
    found
}

/// What is given where one more value is.
fn with_value<'a>(found: Given<'a>, value: Option<&'a str>) -> Given<'a>
    ensures { (before : List (Option (List ℕ))) → IsGiven before found.entry → IsGiven (before ++ option_map (λ v. v.now) value.entry ∷ []) result }
{
    match (found, value) {
        (Given::Absent, Some(value)) => Given::Value(value),
        (Given::Absent, None) => Given::Bare,
        _ => Given::Twice,
    }
}

/// Whether each option has one of these names. The time is in proportion to how many words there are, and how many names.
pub fn are_only(words: &[String], names: &[&str]) -> bool
    ensures { result ≡ are_only (map (λ n. n.now) names.now) (settings (map (λ w. string_bytes w) words.now)) }
{
    let mut left = words;
    while let Some(first) = split_first(left) {
        if !is_among(first.name, names) {
            return false;
        }
        left = first.rest;
    }
    true
}

/// Whether the word is one of these.
fn is_among(word: &str, names: &[&str]) -> bool
    ensures { result ≡ list_any (λ name. bytes_eq word.now name) (map (λ n. n.now) names.now) }
{
    names.iter().any(|name| word == *name)
}
