//! How a server ends.

use serve_pool::PoolEnd;
use site_sync::Rounds;
use tardis_base::NoMemory;
use tardis_io::WriteFault;

/// What serving came to.
#[derive(Clone, Copy)]
pub struct Serving {
    /// For how many links there was no memory.
    pub unserved: u16,
    /// Why no more links were taken.
    pub gate: PoolEnd,
    /// What the rounds came to. With no memory for their buffers none was made.
    pub rounds: Result<Rounds, NoMemory>,
    /// Whether the whole trail was written.
    pub written: Result<(), WriteFault>,
}

/// How a server ends.
#[derive(Clone, Copy)]
pub enum ServeEnd {
    /// It can't listen at its address, and did nothing else.
    NotBound,
    /// There was no memory for the lock, and it served nobody.
    NotMade,
    Served(Serving),
}
