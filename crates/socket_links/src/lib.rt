//! Links, a gate and a dial over the system's sockets. They tell nothing of what the system does with the bytes. Beside
//! them a gate and a dial that say on standard error what becomes of theirs.
#![tactic(auto)]

mod doors;
mod gates;
mod links;
mod telling;

pub use gates::{SocketDial, SocketGate};
pub use links::SocketLink;
pub use telling::{TellingDial, TellingGate};
