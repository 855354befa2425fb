//! The words of the server `tardisd`.

ghost use Rattle.std.specs.Prelude.{◌≡◌, ◌<◌, ◌≤◌, Some, None, Err, length, map, filter_map, option_map, IfOk, IfSome};
ghost use Rattle.std.specs.String.{string_bytes};
ghost use Rattle.command_words.specs.Places.{IsPlace};
ghost use Rattle.command_words.specs.Settings.{settings};
ghost use Rattle.daemon_words.specs.Doors.{door_of};
ghost use Rattle.daemon_words.specs.Fetching.{peer_addresses};
ghost use Rattle.daemon_words.specs.Daemons.{Daemon, daemon, daemon_by, daemon_of, daemon_with};
ghost use Rattle.daemon_words.specs.Capacity.{IsCapacity};

use crate::capacity::{Capacity, read_capacity};
use crate::collecting::read_collects;
use crate::doors::{DoorPlan, are_doors, doors_of};
use crate::fetching::{are_peers, peers_of, read_every};
use crate::ruling::{read_join_after, read_rules_text};
use crate::sockets::{read_idle, read_mode};
use crate::values::read_address_or_none;
use command_words::{Place, WordsFault, are_only, read_place};
use std::alloc::Global;
use tardis_base::NoMemory;

/// What the words of `tardisd` ask for.
#[derive(Drop)]
pub struct DaemonPlan<'a> {
    pub place: Place,
    /// The doors, in the order of the words.
    pub doors: Vec<DoorPlan<'a>>,
    /// The mode of the Unix sockets.
    pub mode: u32,
    /// After so many seconds in which it asked nothing a connection is ended.
    pub idle: Option<u32>,
    /// For how much there is room.
    pub capacity: Capacity,
    /// The addresses of the sites from which it fetches, in the order of the words.
    pub peers: Vec<&'a str>,
    /// So many seconds after it fetched it fetches again.
    pub every: u32,
    /// Whether states are to be collected.
    pub tidy: bool,
    /// The path of the file in which the site is kept.
    pub file: Option<&'a str>,
    /// The text of the rules by which leaves are joined.
    pub rules: Option<&'a str>,
    /// So many seconds two leaves are left to the site that is to join them.
    pub join_after: u32,
}

/// Reads the words behind the name of `tardisd`, where they have the form. Only the lists of doors and of peers take memory. The time is in
/// proportion to how many words there are.
pub fn read_daemon(alloc: Global, words: &[String]) -> Result<DaemonPlan<'_>, WordsFault>
    ensures form { IfOk result (λ plan. daemon (settings (map (λ w. string_bytes w) words.now)) ≡ Some (daemon_of plan)) }
    ensures place { IfOk result (λ plan. IsPlace plan.place) }
    ensures capacity { IfOk result (λ plan. IsCapacity plan.capacity) }
    ensures peers { IfOk result (λ plan. length plan.peers.items ≤ 15) }
    ensures usage { result ≡ Err WordsFault.Usage → daemon (settings (map (λ w. string_bytes w) words.now)) ≡ None }
    ensures memory { result ≡ Err WordsFault.NoMemory → (asked : Daemon) × (daemon (settings (map (λ w. string_bytes w) words.now)) ≡ Some asked) }
{
    match read_asked(words) {
        Some(asked) => match plan_of(alloc, words, &asked) {
            Ok(plan) => Ok(plan),
            Err(NoMemory) => Err(WordsFault::NoMemory),
        },
        None => Err(WordsFault::Usage),
    }
}

/// The plan that is asked for, with its doors and peers.
fn plan_of<'a>(
    alloc: Global,
    words: &'a [String],
    asked: &DaemonAsked<'a>,
) -> Result<DaemonPlan<'a>, NoMemory>
    ensures form { IfOk result (λ plan. daemon_by (settings (map (λ w. string_bytes w) words.now)) asked.now ≡ daemon_of plan) }
    ensures place { IfOk result (λ plan. plan.place ≡ asked.now.place) }
    ensures capacity { IfOk result (λ plan. plan.capacity ≡ asked.now.capacity) }
    ensures peers { IfOk result (λ plan. length plan.peers.items ≡ length (peer_addresses (settings (map (λ w. string_bytes w) words.now)))) }
{
    let doors = doors_of(alloc, words)?;
    let peers = peers_of(alloc, words)?;
    Ok(DaemonPlan {
        place: asked.place,
        doors,
        mode: asked.mode,
        idle: asked.idle,
        capacity: asked.capacity,
        peers,
        every: asked.every,
        tidy: asked.tidy,
        file: asked.file,
        rules: asked.rules,
        join_after: asked.join_after,
    })
}

/// What the words ask for beside doors and peers.
#[derive(Clone, Copy)]
pub(crate) struct DaemonAsked<'a> {
    place: Place,
    mode: u32,
    idle: Option<u32>,
    capacity: Capacity,
    every: u32,
    tidy: bool,
    file: Option<&'a str>,
    rules: Option<&'a str>,
    join_after: u32,
}

/// Reads the words, where they have the form, and lists no door and no peer.
fn read_asked(words: &[String]) -> Option<DaemonAsked<'_>>
    ensures form { option_map (daemon_by (settings (map (λ w. string_bytes w) words.now))) result ≡ daemon (settings (map (λ w. string_bytes w) words.now)) }
    ensures place { IfSome result (λ asked. IsPlace asked.place) }
    ensures capacity { IfSome result (λ asked. IsCapacity asked.capacity) }
    ensures peers { IfSome result (λ _. length (peer_addresses (settings (map (λ w. string_bytes w) words.now))) ≤ 15) }
{
    let names = [
        "--sites",
        "--site",
        "--listen",
        "--clients",
        "--peers",
        "--mode",
        "--idle",
        "--states",
        "--sessions",
        "--connections",
        "--peer",
        "--every",
        "--tidy",
        "--file",
        "--rules",
        "--keep-history",
        "--join-after",
    ];
    if !are_only(words, &names) {
        return None;
    }
    let place = read_place(words)?;
    if !are_doors(words) || !are_peers(words) {
        return None;
    }
    asked_with(words, place)
}

/// Reads the options beside the place, the doors and the peers.
fn asked_with(words: &[String], place: Place) -> Option<DaemonAsked<'_>>
    ensures form { option_map (daemon_by (settings (map (λ w. string_bytes w) words.now))) result
        ≡ daemon_with (settings (map (λ w. string_bytes w) words.now)) place (filter_map door_of (settings (map (λ w. string_bytes w) words.now)))
        (peer_addresses (settings (map (λ w. string_bytes w) words.now))) }
    ensures place { IfSome result (λ asked. asked.place ≡ place) }
    ensures capacity { IfSome result (λ asked. IsCapacity asked.capacity) }
{
    let mode = read_mode(words)?;
    let idle = read_idle(words)?;
    let capacity = read_capacity(words)?;
    let every = read_every(words)?;
    let tidy = read_collects(words)?;
    let file = read_address_or_none(words, "--file")?;
    let rules = read_rules_text(words)?;
    let join_after = read_join_after(words)?;
    Some(DaemonAsked {
        place,
        mode,
        idle,
        capacity,
        every,
        tidy,
        file,
        rules,
        join_after,
    })
}
