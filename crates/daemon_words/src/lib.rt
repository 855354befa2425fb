//! The words of the server `tardisd`: which have a form, and what they say.
//!
//! The forms are stated in `docs/COMMANDS.md`.
#![tactic(auto)]

mod capacity;
mod checks;
mod collecting;
mod daemons;
mod doors;
mod fetching;
mod helps;
mod limits;
mod ruling;
mod sockets;
mod values;

pub use capacity::{Capacity, MOST_CONNECTIONS, USUAL_CONNECTIONS};
pub use checks::checked_file;
pub use daemons::{DaemonPlan, read_daemon};
pub use doors::{DoorKind, DoorPlan, MOST_DOORS};
pub use fetching::MOST_PEERS;
pub use helps::daemon_help_of;
pub use sockets::OWNERS_ALONE;
