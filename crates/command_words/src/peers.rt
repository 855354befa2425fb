//! The option that may be given several times.

ghost use Rattle.std.specs.Prelude.{◌≡◌, ◌++◌, ℕ, List, Option, Some, None, length, map, IfOk, OnOk, filter_map, option_map, option_to_list};
ghost use Rattle.std.specs.List.{list_all};
ghost use Rattle.std.specs.String.{string_bytes};
ghost use Rattle.command_words.specs.Settings.{settings, values};
ghost use Rattle.command_words.specs.Values.{are_addresses, is_some_address};

use crate::numbers::is_address;
use crate::settings::split_first;
use std::alloc::Global;
use tardis_base::NoMemory;

/// Whether the option of this name is given at most so many times, each time with an address.
pub(crate) fn are_addresses(words: &[String], name: &str, most: usize) -> bool
    ensures { result ≡ are_addresses most (values name.now (settings (map (λ w. string_bytes w) words.now))) }
{
    count_of(words, name) <= most && have_addresses(words, name)
}

/// How often the option of this name is given. The time is in proportion to how many words there are.
pub fn count_of(words: &[String], name: &str) -> usize
    ensures { result ≡ length (values name.now (settings (map (λ w. string_bytes w) words.now))) }
{
    let mut count = 0;
    let mut left = words;
    while let Some(first) = split_first(left) {
        if first.name == name {
            count += 1;
        }
        left = first.rest;
    }
    count
}

/// Whether the option of this name has an address each time.
fn have_addresses(words: &[String], name: &str) -> bool
    ensures { result ≡ list_all is_some_address (values name.now (settings (map (λ w. string_bytes w) words.now))) }
{
    let mut left = words;
    while let Some(first) = split_first(left) {
        if first.name == name && !is_given_address(first.value) {
            return false;
        }
        left = first.rest;
    }
    true
}

/// Whether a value is there and is an address.
fn is_given_address(value: Option<&str>) -> bool
    ensures { result ≡ is_some_address (option_map (λ v. v.now) value.entry) }
{
    match value {
        Some(word) => is_address(word),
        None => false,
    }
}

/// Copies of the values of the option of this name.
pub(crate) fn copies_of(
    alloc: Global,
    words: &[String],
    name: &str,
) -> Result<Vec<String>, NoMemory>
    ensures { IfOk result (λ copies. map (λ w. string_bytes w) copies.items
        ≡ filter_map (λ v. v) (values name.now (settings (map (λ w. string_bytes w) words.now)))) }
{
    let mut copies = Vec::new(alloc);
    let mut left = words;
    while let Some(first) = split_first(left) {
        if first.name == name {
            push_copy(alloc, &mut copies, first.value)?;
        }
        left = first.rest;
    }
    Ok(copies)
}

/// Puts a copy of a value that is there behind the others.
fn push_copy(alloc: Global, copies: &mut Vec<String>, value: Option<&str>) -> Result<(), NoMemory>
    ensures { OnOk result (map (λ w. string_bytes w) copies.new.items ≡ map (λ w. string_bytes w) copies.old.items
        ++ option_to_list (option_map (λ v. v.now) value.entry)) }
{
    match value {
        Some(word) => match String::from_str(alloc, word) {
            Ok(copy) => match copies.push(copy) {
                Ok(()) => Ok(()),
                Err(_) => Err(NoMemory),
            },
            Err(_) => Err(NoMemory),
        },
        None => Ok(()),
    }
}
