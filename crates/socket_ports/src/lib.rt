//! The edge of a hub over sockets of the system: by readiness, in one thread.
//!
//! What a system reports isn't stated by any contract, so this crate is part of what is trusted; what it hands over is
//! served as the hub's contract says.
#![tactic(auto)]

mod clocks;
mod doors;
mod edges;
mod idles;
mod keepalives;
mod lines;
mod plugs;
mod rooms;
mod slots;
mod streams;
mod unix_doors;
mod watches;

pub use doors::{Door, DoorFault, open_door, path_of};
pub use edges::SocketPorts;
pub use rooms::RoomPlan;
pub use watches::{Holding, Watch};
