//! Who is told of what becomes of peers, and of what an operator should look at.

use site_peers::Failure;
use std::io;
use std::net::SocketAddr;

/// What keeps most of the kept states from being collected.
#[derive(Clone, Copy)]
pub enum Holding {
    /// The session of a connection, which comes from this address if it is one over TCP, and which for so many seconds asked nothing, and
    /// took no bytes.
    Session {
        address: Option<SocketAddr>,
        seconds: u64,
    },
    /// The site with this number, whose promise would have to move. It has been the one for so many seconds at least.
    OtherSite {
        number: u16,
        seconds: u64,
    },
    /// So many branches that nobody joined.
    Leaves {
        count: u32,
    },
    /// Nothing that is known.
    Unknown,
}

/// Is told of what becomes of peers, by their addresses: each time that one is reached, and each time that one is lost or can't be reached,
/// but not of each further try. And of how many states the site keeps, where they become many.
pub trait Watch {
    /// The peer's first answer came, or with `again` its first since it was lost.
    fn reached(&mut self, address: &str, again: bool);

    /// All that came of the peer was taken, for the first time since there was no room for some of it.
    fn found_room(&mut self, address: &str);

    /// The exchange with the peer failed, and before it none did, or for a cause of another kind. `before` says whether it was reached before. Where it couldn't be called, the
    /// system said this.
    fn failed(&mut self, address: &str, before: bool, why: Failure, said: Option<io::ErrorKind>);

    /// So many states are kept, which are more than half of as many as may be, or as many; each is told once, until they were fewer than a
    /// quarter. This keeps most of them from being collected.
    fn crowded(&mut self, kept: u32, most: u32, holding: Holding);
}
