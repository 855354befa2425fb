//! The commands with a place and one more option.

ghost use Rattle.std.specs.Prelude.{◌≡◌, map, option_map, IfSome};
ghost use Rattle.std.specs.String.{string_bytes};
ghost use Rattle.command_words.specs.Settings.{settings, values};
ghost use Rattle.command_words.specs.Values.{once};
ghost use Rattle.command_words.specs.Forms.{auto, durable, export, placed, AsExport};
ghost use Rattle.command_words.specs.Places.{IsPlace};
ghost use Rattle.command_words.specs.Readings.{IsReading};

use crate::commands::{Command, Place, WordsFault};
use crate::forms::read_place;
use crate::ids::read_id;
use crate::numbers::is_address;
use crate::settings::{Given, are_only, how_given};
use rule_list::{RulesFault, read_rules};
use std::alloc::Global;
use tardis_base::StateId;

/// The value of an option that must be there.
fn read_once<'a>(words: &'a [String], name: &str) -> Option<&'a str>
    ensures { option_map (λ word. word.now) result ≡ once (values name.now (settings (map (λ w. string_bytes w) words.now))) }
{
    match how_given(words, name) {
        Given::Value(word) => Some(word),
        Given::Absent => None,
        Given::Bare => None,
        Given::Twice => None,
    }
}

/// A place, and the value of one more option.
fn read_placed<'a>(words: &'a [String], name: &str) -> Option<(Place, &'a str)>
    ensures form { option_map (λ p. (p.0, p.1.now)) result ≡ placed name.now (settings (map (λ w. string_bytes w) words.now)) }
    ensures place { IfSome result (λ p. IsPlace p.0) }
{
    if !are_only(words, &["--sites", "--site", name]) {
        return None;
    }
    let place = read_place(words)?;
    let word = read_once(words, name)?;
    Some((place, word))
}

/// The options of `auto`.
pub(crate) fn read_auto(alloc: Global, words: &[String]) -> Result<Command, WordsFault>
    ensures { IsReading (auto (settings (map (λ w. string_bytes w) words.now))) result }
{
    match read_placed(words, "--rules") {
        Some((place, text)) => match read_rules(alloc, text) {
            Ok(rules) => Ok(Command::Auto { place, rules }),
            Err(RulesFault::Form) => Err(WordsFault::Usage),
            Err(RulesFault::NoMemory) => Err(WordsFault::NoMemory),
        },
        None => Err(WordsFault::Usage),
    }
}

/// The options of `durable`.
pub(crate) fn read_durable(alloc: Global, words: &[String]) -> Result<Command, WordsFault>
    ensures { IsReading (durable (settings (map (λ w. string_bytes w) words.now))) result }
{
    let Some((place, word)) = read_placed(words, "--file") else {
        return Err(WordsFault::Usage);
    };
    if !is_address(word) {
        return Err(WordsFault::Usage);
    }
    match String::from_str(alloc, word) {
        Ok(path) => Ok(Command::Durable { place, path }),
        Err(_) => Err(WordsFault::NoMemory),
    }
}

/// The options of `export`.
pub(crate) fn read_export(words: &[String]) -> Option<(Place, StateId)>
    ensures form { option_map (λ both. AsExport both.0 both.1) result ≡ export (settings (map (λ w. string_bytes w) words.now)) }
    ensures place { IfSome result (λ both. IsPlace both.0) }
{
    let (place, word) = read_placed(words, "--at")?;
    let state = read_id(word)?;
    Some((place, state))
}
