//! The options of each command.

ghost use Rattle.std.specs.Prelude.{◌≡◌, ◌<◌, ◌≤◌, ℕ, List, Option, Some, None, length, map, option_map, filter_map, IfOk, IfSome, codes};
ghost use Rattle.command_words.specs.Servings.{serving_by};
ghost use Rattle.std.specs.String.{string_bytes};
ghost use Rattle.command_words.specs.Settings.{settings, values};
ghost use Rattle.command_words.specs.Values.{needed, number_or, flag, address, addresses};
ghost use Rattle.command_words.specs.Forms.{place_alone, place, world, serving, serving_at, load, Serving, AsLoad};
ghost use Rattle.command_words.specs.Commands.{serving_of};
ghost use Rattle.command_words.specs.Places.{IsPlace};
ghost use Rattle.tardis_base.specs.Sizes.{most_sites};

use crate::commands::{Place, ServePlan, WordsFault};
use crate::numbers::{is_address, read_number};
use crate::peers::{are_addresses, copies_of};
use crate::settings::{Given, are_only, how_given};
use std::alloc::Global;
use tardis_base::{MAX_SITES, NoMemory};

/// The number of an option that must be there.
fn read_needed(words: &[String], name: &str, least: u32, most: u32) -> Option<u32>
    ensures number { result ≡ needed least most (values name.now (settings (map (λ w. string_bytes w) words.now))) }
    ensures from { IfSome result (λ n. least ≤ n) }
    ensures to { IfSome result (λ n. n ≤ most) }
{
    match how_given(words, name) {
        Given::Value(word) => read_number(word, least, most),
        Given::Absent => None,
        Given::Bare => None,
        Given::Twice => None,
    }
}

/// The number of an option that may be left out: the default then, and nothing where it is given twice, without a number or with one out of
/// its range.
pub fn read_number_or(
    words: &[String],
    name: &str,
    default: u32,
    least: u32,
    most: u32,
) -> Option<u32>
    requires from { least ≤ default }
    requires to { default ≤ most }
    ensures number { result ≡ number_or default least most (values name.now (settings (map (λ w. string_bytes w) words.now))) }
    ensures from { IfSome result (λ n. least ≤ n) }
    ensures to { IfSome result (λ n. n ≤ most) }
{
    match how_given(words, name) {
        Given::Absent => Some(default),
        Given::Value(word) => read_number(word, least, most),
        Given::Bare => None,
        Given::Twice => None,
    }
}

/// Whether `--tidy` is there, unless it is more than once.
pub fn read_tidy(words: &[String]) -> Option<bool>
    ensures { result ≡ flag (values (codes "--tidy") (settings (map (λ w. string_bytes w) words.now))) }
{
    match how_given(words, "--tidy") {
        Given::Absent => Some(false),
        Given::Bare => Some(true),
        Given::Value(_) => None,
        Given::Twice => None,
    }
}

/// The address of an option that must be there.
pub(crate) fn read_address<'a>(words: &'a [String], name: &str) -> Option<&'a str>
    ensures { option_map (λ word. word.now) result ≡ address (values name.now (settings (map (λ w. string_bytes w) words.now))) }
{
    match how_given(words, name) {
        Given::Value(word) => { if is_address(word) { Some(word) } else { None } }
        Given::Absent => None,
        Given::Bare => None,
        Given::Twice => None,
    }
}

/// `--sites M` and `--site N`, each 1 where it is left out; the other options aren't looked at.
pub fn read_place(words: &[String]) -> Option<Place>
    ensures form { result ≡ place (settings (map (λ w. string_bytes w) words.now)) }
    ensures place { IfSome result (λ p. IsPlace p) }
{
    let sites = read_number_or(words, "--sites", 1, 1, MAX_SITES as u32)?;
    let site = read_number_or(words, "--site", 1, 1, sites)?;
    Some(Place {
        sites: sites as u16,
        site: site as u16,
    })
}

/// A place, and nothing else.
pub(crate) fn read_place_alone(words: &[String]) -> Option<Place>
    ensures form { result ≡ place_alone (settings (map (λ w. string_bytes w) words.now)) }
    ensures place { IfSome result (λ p. IsPlace p) }
{
    if are_only(words, &["--sites", "--site"]) {
        read_place(words)
    } else {
        None
    }
}

/// The options of `world`.
pub(crate) fn read_world(words: &[String]) -> Option<u16>
    ensures form { result ≡ world (settings (map (λ w. string_bytes w) words.now)) }
    ensures from { IfSome result (λ n. 1 ≤ n) }
    ensures to { IfSome result (λ n. n ≤ most_sites) }
{
    if !are_only(words, &["--sites"]) {
        return None;
    }
    let sites = read_needed(words, "--sites", 1, MAX_SITES as u32)?;
    Some(sites as u16)
}

/// The options of `load`.
pub(crate) fn read_load(words: &[String]) -> Option<(u32, u32)>
    ensures { option_map (λ both. AsLoad both.0 both.1) result ≡ load (settings (map (λ w. string_bytes w) words.now)) }
{
    if !are_only(words, &["--start", "--steps"]) {
        return None;
    }
    let start = read_needed(words, "--start", 0, u32::MAX)?;
    let steps = read_needed(words, "--steps", 0, 10_000)?;
    Some((start, steps))
}

/// What the options of `serve` ask for beside peers.
#[derive(Clone, Copy)]
pub(crate) struct Asked<'a> {
    place: Place,
    listen: &'a str,
    links: u16,
    rounds: u32,
    tidy: bool,
}

/// Reads the options of `serve`, and copies none.
fn read_asked(words: &[String]) -> Option<Asked<'_>>
    ensures form { option_map (serving_by (settings (map (λ w. string_bytes w) words.now))) result ≡ serving (settings (map (λ w. string_bytes w) words.now)) }
    ensures place { IfSome result (λ asked. IsPlace asked.place) }
{
    let names = [
        "--sites", "--site", "--listen", "--links", "--peer", "--rounds", "--tidy",
    ];
    if !are_only(words, &names) {
        return None;
    }
    let place = read_place(words)?;
    asked_at(words, place)
}

/// Reads the options of `serve` beside its place.
fn asked_at(words: &[String], place: Place) -> Option<Asked<'_>>
    ensures form { option_map (serving_by (settings (map (λ w. string_bytes w) words.now))) result
        ≡ serving_at (settings (map (λ w. string_bytes w) words.now)) place }
    ensures place { IfSome result (λ asked. asked.place ≡ place) }
{
    let listen = read_address(words, "--listen")?;
    let links = read_needed(words, "--links", 1, 64)?;
    if !are_addresses(words, "--peer", 15) {
        return None;
    }
    let rounds = read_number_or(words, "--rounds", 0, 0, 1_000_000)?;
    let tidy = read_tidy(words)?;
    Some(Asked {
        place,
        listen,
        links: links as u16,
        rounds,
        tidy,
    })
}

/// The options of `serve`.
pub(crate) fn read_serving(alloc: Global, words: &[String]) -> Result<ServePlan, WordsFault>
    ensures form { IfOk result (λ plan. serving (settings (map (λ w. string_bytes w) words.now)) ≡ Some (serving_of plan)) }
    ensures place { IfOk result (λ plan. IsPlace plan.place) }
    ensures usage { result ≡ Err WordsFault.Usage → serving (settings (map (λ w. string_bytes w) words.now)) ≡ None }
    ensures memory { result ≡ Err WordsFault.NoMemory → (plan : Serving) × (serving (settings (map (λ w. string_bytes w) words.now)) ≡ Some plan) }
{
    match read_asked(words) {
        Some(asked) => match plan_of(alloc, words, &asked) {
            Ok(plan) => Ok(plan),
            Err(NoMemory) => Err(WordsFault::NoMemory),
        },
        None => Err(WordsFault::Usage),
    }
}

/// The plan that is asked for, with copies of the addresses.
fn plan_of(alloc: Global, words: &[String], asked: &Asked<'_>) -> Result<ServePlan, NoMemory>
    ensures form { IfOk result (λ plan. serving_by (settings (map (λ w. string_bytes w) words.now)) asked.now ≡ serving_of plan) }
    ensures place { IfOk result (λ plan. plan.place ≡ asked.now.place) }
{
    let Ok(listen) = String::from_str(alloc, asked.listen) else {
        return Err(NoMemory);
    };
    let peers = copies_of(alloc, words, "--peer")?;
    Ok(ServePlan {
        place: asked.place,
        listen,
        links: asked.links,
        peers,
        rounds: asked.rounds,
        tidy: asked.tidy,
    })
}
