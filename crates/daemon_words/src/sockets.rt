//! What the words of a server say of its sockets.

ghost use Rattle.std.specs.Prelude.{◌≡◌, ◌<◌, ◌≤◌, map, option_map, filter, codes, IfSome};
ghost use Rattle.std.specs.List.{list_any};
ghost use Rattle.std.specs.String.{string_bytes};
ghost use Rattle.command_words.specs.Settings.{settings, values};
ghost use Rattle.daemon_words.specs.Doors.{is_door};
ghost use Rattle.daemon_words.specs.Sockets.{is_unix, has_unix, is_unix_asked, are_octal, is_mode, mode_of, mode_or, mode, idle};

use crate::doors::is_door_name;
use crate::values::{may_stand, read_number_or_none};
use command_words::{Given, how_given, split_first};

/// The mode of a Unix socket that is its owner's alone.
pub const OWNERS_ALONE: u32 = 0o600;

/// Whether a door for which the words ask is a Unix socket.
fn is_unix_asked(words: &[String]) -> bool
    ensures { result ≡ is_unix_asked (settings (map (λ w. string_bytes w) words.now)) }
{
    let mut left = words;
    while let Some(first) = split_first(left) {
        if is_door_name(first.name) && has_unix(first.value) {
            return true;
        }
        left = first.rest;
    }
    false
}

/// Whether a value is there and is the address of a Unix socket.
fn has_unix(value: Option<&str>) -> bool
    ensures { result ≡ has_unix (option_map (λ v. v.now) value.entry) }
{
    match value {
        Some(word) => is_unix(word),
        None => false,
    }
}

/// Whether a word is the address of a Unix socket.
fn is_unix(word: &str) -> bool
    ensures { result ≡ is_unix word.now }
{
    word.as_bytes().starts_with(b"unix:")
}

/// `--mode MODE`, which stands only where a door is a Unix socket.
pub(crate) fn read_mode(words: &[String]) -> Option<u32>
    ensures mode { result ≡ mode (settings (map (λ w. string_bytes w) words.now)) }
    ensures bits { IfSome result (λ n. n < 4096) }
{
    if may_stand(words, "--mode", is_unix_asked(words)) {
        read_mode_or(words)
    } else {
        None
    }
}

/// The mode of `--mode`, or that which leaves a socket to its owner.
fn read_mode_or(words: &[String]) -> Option<u32>
    ensures mode { result ≡ mode_or 384 (values (codes "--mode") (settings (map (λ w. string_bytes w) words.now))) }
    ensures bits { IfSome result (λ n. n < 4096) }
{
    match how_given(words, "--mode") {
        Given::Absent => Some(OWNERS_ALONE),
        Given::Value(word) => mode_of(word),
        Given::Bare => None,
        Given::Twice => None,
    }
}

/// The mode that a word writes, in three or four octal digits.
fn mode_of(word: &str) -> Option<u32>
    ensures mode { result ≡ mode_of word.now }
    ensures bits { IfSome result (λ n. n < 4096) }
{
    if !is_mode(word) {
        return None;
    }
    match u32::from_str_radix(word, 8) {
        Ok(mode) => Some(mode),
        Err(_) => None,
    }
}

/// Whether a word is three or four octal digits.
fn is_mode(word: &str) -> bool
    ensures { result ≡ is_mode word.now }
{
    3 <= word.len() && word.len() <= 4 && are_octal(word.as_bytes())
}

/// Whether each byte is an octal digit.
fn are_octal(bytes: &[u8]) -> bool
    ensures { result ≡ are_octal bytes.now }
{
    bytes.iter().all(|byte| b'0' <= *byte && *byte <= b'7')
}

/// `--idle SECONDS`.
pub(crate) fn read_idle(words: &[String]) -> Option<Option<u32>>
    ensures { result ≡ idle (settings (map (λ w. string_bytes w) words.now)) }
{
    read_number_or_none(words, "--idle", 1, 86_400)
}
