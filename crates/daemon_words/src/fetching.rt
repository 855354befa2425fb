//! The sites from which a server fetches, and how often.

ghost use Rattle.std.specs.Prelude.{◌≡◌, ◌≤◌, true, length, map, codes, IfOk, IfSome};
ghost use Rattle.std.specs.List.{list_all};
ghost use Rattle.std.specs.String.{string_bytes};
ghost use Rattle.command_words.specs.Settings.{settings, values};
ghost use Rattle.daemon_words.specs.Doors.{has_address};
ghost use Rattle.daemon_words.specs.Fetching.{are_peers, peer_addresses, every};

use crate::doors::is_given_address;
use crate::values::may_stand;
use command_words::{count_of, read_number_or, split_first};
use std::alloc::Global;
use tardis_base::NoMemory;

/// From so many sites a server fetches at most.
pub const MOST_PEERS: usize = 15;

/// Whether the words name peers, at most 15, each at an address.
pub(crate) fn are_peers(words: &[String]) -> bool
    ensures yes { result ≡ are_peers (settings (map (λ w. string_bytes w) words.now)) }
    ensures few { result ≡ true → length (peer_addresses (settings (map (λ w. string_bytes w) words.now))) ≤ 15 }
{
    count_of(words, "--peer") <= MOST_PEERS && have_addresses(words)
}

/// Whether each peer that the words name is at an address.
fn have_addresses(words: &[String]) -> bool
    ensures { result ≡ list_all has_address (values (codes "--peer") (settings (map (λ w. string_bytes w) words.now))) }
{
    let mut left = words;
    while let Some(first) = split_first(left) {
        if first.name == "--peer" && !is_given_address(first.value) {
            return false;
        }
        left = first.rest;
    }
    true
}

/// The addresses of the peers, in their order.
pub(crate) fn peers_of(alloc: Global, words: &[String]) -> Result<Vec<&str>, NoMemory>
    ensures { IfOk result (λ peers. map (λ word. word.now) peers.items ≡ peer_addresses (settings (map (λ w. string_bytes w) words.now))) }
{
    let mut peers = Vec::new(alloc);
    let mut left = words;
    while let Some(first) = split_first(left) {
        if first.name == "--peer" {
            if let Some(address) = first.value {
                match peers.push(address) {
                    Ok(()) => {}
                    Err(_) => return Err(NoMemory),
                }
            }
        }
        left = first.rest;
    }
    Ok(peers)
}

/// `--every SECONDS`, which stands only beside peers.
pub(crate) fn read_every(words: &[String]) -> Option<u32>
    ensures number { result ≡ every (settings (map (λ w. string_bytes w) words.now)) }
    ensures from { IfSome result (λ n. 1 ≤ n) }
    ensures to { IfSome result (λ n. n ≤ 86400) }
{
    let has_peer = 0 < count_of(words, "--peer");
    if may_stand(words, "--every", has_peer) {
        read_number_or(words, "--every", 5, 1, 86_400)
    } else {
        None
    }
}
