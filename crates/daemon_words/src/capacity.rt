//! How much a server has room for.

ghost use Rattle.std.specs.Prelude.{◌≡◌, ◌≤◌, IfSome, map};
ghost use Rattle.std.specs.String.{string_bytes};
ghost use Rattle.command_words.specs.Settings.{settings};
ghost use Rattle.daemon_words.specs.Capacity.{capacity, IsCapacity};

use command_words::read_number_or;
use tardis_base::{MAX_KEPT, MAX_SESSIONS, USUAL_KEPT, USUAL_SESSIONS};

/// How much a server has room for.
#[derive(Clone, Copy, PartialEq, Eq)]
pub struct Capacity {
    /// So many states its site keeps at most.
    pub states: u32,
    /// So many sessions are open at once at most.
    pub sessions: u16,
    /// So many connections are there at once at most, at all doors together.
    pub connections: u16,
}

/// The most connections for which a server may have room.
pub const MOST_CONNECTIONS: u16 = 4_096;

/// For so many connections a server has room, where nothing else is said.
pub const USUAL_CONNECTIONS: u16 = 256;

/// `--states N`, `--sessions N` and `--connections N`.
pub(crate) fn read_capacity(words: &[String]) -> Option<Capacity>
    ensures form { result ≡ capacity (settings (map (λ w. string_bytes w) words.now)) }
    ensures within { IfSome result (λ c. IsCapacity c) }
{
    let states = read_number_or(words, "--states", USUAL_KEPT, 1, MAX_KEPT)?;
    let sessions = read_number_or(
        words,
        "--sessions",
        USUAL_SESSIONS as u32,
        1,
        MAX_SESSIONS as u32,
    )?;
    let connections = read_number_or(
        words,
        "--connections",
        USUAL_CONNECTIONS as u32,
        1,
        MOST_CONNECTIONS as u32,
    )?;
    Some(Capacity {
        states,
        sessions: sessions as u16,
        connections: connections as u16,
    })
}
