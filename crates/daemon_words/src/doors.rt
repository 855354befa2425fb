//! The doors at which a server listens.

ghost use Rattle.std.specs.Prelude.{◌≡◌, is_some, length, map, filter, filter_map, option_map, IfOk};
ghost use Rattle.std.specs.List.{list_all};
ghost use Rattle.std.specs.String.{string_bytes};
ghost use Rattle.command_words.specs.Settings.{settings};
ghost use Rattle.daemon_words.specs.Doors.{kind_of, is_door, is_door_address, has_address, are_doors, door_of, door_at};

use command_words::{is_address, split_first};
use std::alloc::Global;
use tardis_base::NoMemory;

/// Who comes through a door: what may be asked there is stated in `site_doors`.
#[derive(Clone, Copy, PartialEq, Eq)]
pub enum DoorKind {
    /// Whoever may ask all that there is.
    All,
    /// Clients.
    Clients,
    /// Other sites.
    Peers,
}

/// A door at which a server is to listen.
#[derive(Clone, Copy)]
pub struct DoorPlan<'a> {
    pub kind: DoorKind,
    /// `unix:` and the path of a Unix socket, or `HOST:PORT`.
    pub address: &'a str,
}

/// So many doors a server has at most.
pub const MOST_DOORS: usize = 8;

/// The kind of door for which an option of this name asks.
fn kind_of(name: &str) -> Option<DoorKind>
    ensures { result ≡ kind_of name.now }
{
    match name {
        "--listen" => Some(DoorKind::All),
        "--clients" => Some(DoorKind::Clients),
        "--peers" => Some(DoorKind::Peers),
        _ => None,
    }
}

/// Whether an option of this name asks for a door.
pub(crate) fn is_door_name(name: &str) -> bool
    ensures { result ≡ is_some (kind_of name.now) }
{
    kind_of(name).is_some()
}

/// Whether the words ask for doors, at most 8, each at an address.
pub(crate) fn are_doors(words: &[String]) -> bool
    ensures { result ≡ are_doors (settings (map (λ w. string_bytes w) words.now)) }
{
    let count = count_doors(words);
    1 <= count && count <= MOST_DOORS && have_addresses(words)
}

/// How many doors the words ask for.
fn count_doors(words: &[String]) -> usize
    ensures { result ≡ length (filter is_door (settings (map (λ w. string_bytes w) words.now))) }
{
    let mut count = 0;
    let mut left = words;
    while let Some(first) = split_first(left) {
        if is_door_name(first.name) {
            count += 1;
        }
        left = first.rest;
    }
    count
}

/// Whether each door for which the words ask is at an address.
fn have_addresses(words: &[String]) -> bool
    ensures { result ≡ list_all (λ s. has_address s.1) (filter is_door (settings (map (λ w. string_bytes w) words.now))) }
{
    let mut left = words;
    while let Some(first) = split_first(left) {
        if is_door_name(first.name) && !is_given_address(first.value) {
            return false;
        }
        left = first.rest;
    }
    true
}

/// Whether a value is there and is the address of a door.
pub(crate) fn is_given_address(value: Option<&str>) -> bool
    ensures { result ≡ has_address (option_map (λ v. v.now) value.entry) }
{
    match value {
        Some(word) => is_door_address(word),
        None => false,
    }
}

/// Whether a word is the address of a door.
fn is_door_address(word: &str) -> bool
    ensures { result ≡ is_door_address word.now }
{
    is_address(word) && word != "unix:"
}

/// The doors for which the words ask, in their order.
pub(crate) fn doors_of(alloc: Global, words: &[String]) -> Result<Vec<DoorPlan<'_>>, NoMemory>
    ensures { IfOk result (λ plans. map door_at plans.items ≡ filter_map door_of (settings (map (λ w. string_bytes w) words.now))) }
{
    let mut plans = Vec::new(alloc);
    let mut left = words;
    while let Some(first) = split_first(left) {
        if let Some(plan) = door_of(first.name, first.value) {
            match plans.push(plan) {
                Ok(()) => {}
                Err(_) => return Err(NoMemory),
            }
        }
        left = first.rest;
    }
    Ok(plans)
}

/// The door for which an option of this name and value asks.
fn door_of<'a>(name: &str, value: Option<&'a str>) -> Option<DoorPlan<'a>>
    ensures { option_map door_at result ≡ door_of (name.now, option_map (λ v. v.now) value.entry) }
{
    match (kind_of(name), value) {
        (Some(kind), Some(address)) => Some(DoorPlan { kind, address }),
        _ => None,
    }
}
