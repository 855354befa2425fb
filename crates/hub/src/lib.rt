//! Many connections over one machine, in one thread: whoever is ready is served.
#![tactic(auto)]

mod answers;
mod connections;
mod fetching;
mod laws;
mod memory;
mod noting;
mod ports;
mod serves;
mod turns;
mod upkeeps;
mod waitings;

pub use connections::Connection;
pub use laws::{
    fetches_are_whole, one_trail, one_trail_as_seen, one_trail_behind_doors,
    one_trail_behind_doors_as_seen,
};
pub use memory::{MemoryPorts, Move};
pub use ports::{PeerNews, Ports, Ready, Scope, Seen};
pub use serves::{End, serve};
pub use turns::SLOTS;
pub use upkeeps::Upkeep;
pub use waitings::Waiting;
