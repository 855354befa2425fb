//! The edge of a server: where connections come from, and to which peers they go.

ghost use Rattle.std.specs.Prelude.{◌≡◌, Result};
ghost use Rattle.daemon_words.specs.Daemons.{Daemon, daemon_of};
ghost use Rattle.tardisd_main.specs.declared.endings.GateFault.{GateFault};
ghost use Rattle.tardisd_main.specs.Doors.{number_of};

use crate::endings::GateFault;
use daemon_words::{DaemonPlan, DoorKind};
use hub::Ports;
use site_doors::{FOR_ALL, FOR_CLIENTS, FOR_PEERS};

/// What was found of a site in its file.
#[derive(Clone, Copy)]
pub struct FoundSite {
    /// How many states it knows, the root among them.
    pub known: u64,
    /// How many of them it keeps.
    pub kept: u32,
    /// How many groups of requests were put there.
    pub groups: u64,
    /// How many bytes their text has, with what stands before.
    pub bytes: u64,
    /// Whether a group was there in part, as a crash leaves it, and was taken away. Nobody was told of it.
    pub is_torn: bool,
    /// Whether the file was new.
    pub is_new: bool,
}

/// Opens the edge: the doors at which connections come, and the connections to peers.
pub trait Doors {
    type Ports: Ports + Drop;

    // what opening the edge that was asked for may come to
    ghost opens: { Daemon → Result Self.Ports GateFault → Type 0 };

    /// Listens at the plan's doors, at each of them or at none. An address is `unix:` and the path of a Unix socket, or `HOST:PORT` over
    /// TCP. A connection is told to a hub with the number of its door's kind (`number_of`). The peers have the numbers of their places among the
    /// plan's, from 0 on; none is called yet.
    fn open(&mut self, plan: &DaemonPlan<'_>) -> Result<Self::Ports, GateFault>
        ensures opened { opens (daemon_of plan.now) result };

    /// Is told that the site is served as the plan says, and what was found in its file, where it has one.
    fn announce(&mut self, plan: &DaemonPlan<'_>, found: Option<FoundSite>);
}

/// The number by which a site is told through which kind of door a connection came.
pub fn number_of(kind: DoorKind) -> u8
    ensures { result ≡ number_of kind }
{
    match kind {
        DoorKind::All => FOR_ALL,
        DoorKind::Clients => FOR_CLIENTS,
        DoorKind::Peers => FOR_PEERS,
    }
}
