//! The real edge: doors, which say where they listen, and connections to peers.

use crate::peers::PeersTold;
use crate::words::{Faulty, Joins, Reading, Served};
use daemon_words::{DaemonPlan, DoorPlan};
use socket_ports::{Door, DoorFault, RoomPlan, SocketPorts, open_door, path_of};
use std::net::SocketAddr;
use std::time::Instant;
use std::{fs, io};
use tardisd_main::{Doors, FoundSite, GateFault, LEAVES, OLDEST, OTHER_SITE, SESSION, number_of};

/// Doors over sockets of the system. That the site is served is told by a line on standard error, so that whoever started
/// the program knows that clients may come; and so is a door that can't be opened.
#[derive(Drop)]
pub(crate) struct SocketDoors<'a> {
    rt: &'a HostRuntime,
    /// When the program started, where the system has a clock.
    start: Option<Instant>,
    /// Where the doors listen over TCP, in the order of the doors, with the ports that were taken.
    bound: Vec<Option<SocketAddr>>,
    /// A door that can't be opened was told.
    is_told: bool,
}

impl<'a> SocketDoors<'a> {
    pub(crate) fn new(rt: &'a HostRuntime) -> SocketDoors<'a> {
        let start = Instant::now(rt).ok();
        SocketDoors {
            rt,
            start,
            bound: Vec::new(rt.alloc()),
            is_told: false,
        }
    }

    /// Whether the fault at the doors was told.
    pub(crate) fn is_told(&self) -> bool {
        self.is_told
    }

    /// Opens the doors, each or none, and makes ready for the peers.
    fn open_all(&mut self, plan: &DaemonPlan<'_>) -> Result<RealPorts<'a>, GateFault> {
        let doors = plan.doors.as_slice();
        let mut opened = Vec::new(self.rt.alloc());
        for door in doors.iter() {
            match self.open_one(&mut opened, door, plan.mode) {
                Ok(()) => {}
                Err(fault) => {
                    self.give_up(doors, opened.len());
                    return Err(fault);
                }
            }
        }
        match self.ports_of(opened, plan) {
            Ok(ports) => Ok(ports),
            Err(_) => {
                self.give_up(doors, doors.len());
                Err(GateFault::Refused)
            }
        }
    }

    /// The edge over doors that were opened.
    fn ports_of(&self, opened: Vec<Door>, plan: &DaemonPlan<'_>) -> io::Result<RealPorts<'a>> {
        let mut peers = Vec::new(self.rt.alloc());
        for address in plan.peers.iter() {
            peers.push(String::from_str(self.rt.alloc(), address)?)?;
        }
        let watch = PeersTold::new(self.rt, plan.tidy);
        let connections = plan.capacity.connections;
        let room = RoomPlan {
            states: plan.capacity.states,
            oldest: OLDEST,
            session: SESSION,
            other_site: OTHER_SITE,
            leaves: LEAVES,
        };
        SocketPorts::new(
            self.rt,
            self.rt.alloc(),
            opened,
            peers,
            connections,
            plan.idle,
            room,
            watch,
        )
    }

    /// Opens a door behind the others.
    fn open_one(
        &mut self,
        opened: &mut Vec<Door>,
        plan: &DoorPlan<'_>,
        mode: u32,
    ) -> Result<(), GateFault> {
        let address = plan.address;
        let number = number_of(plan.kind);
        match open_door(self.rt, self.rt.alloc(), address, mode, number) {
            Ok(door) => {
                let bound = door.socket_addr();
                if self.bound.push(bound).is_err() || opened.push(door).is_err() {
                    self.remove_socket(plan);
                    return Err(GateFault::Refused);
                }
                Ok(())
            }
            Err(fault) => {
                let _ = self.rt.eprintln(Faulty { address, fault });
                self.is_told = true;
                Err(fault_of(fault))
            }
        }
    }

    /// Takes away the sockets of the first doors, which were opened.
    fn give_up(&self, doors: &[DoorPlan<'_>], count: usize) {
        for at in 0..count {
            if let Some(plan) = doors.get(at) {
                self.remove_socket(plan);
            }
        }
    }

    /// Takes away the socket of a door that was opened.
    fn remove_socket(&self, plan: &DoorPlan<'_>) {
        if let Some(path) = path_of(plan.address) {
            let _ = fs::remove_file(self.rt, path);
        }
    }

    /// What was found, and in how long.
    fn reading(&self, found: FoundSite) -> Reading {
        let millis = match &self.start {
            Some(start) => match start.elapsed(self.rt) {
                Ok(taken) => Some(taken.as_millis()),
                Err(_) => None,
            },
            None => None,
        };
        Reading { found, millis }
    }
}

/// The edge over sockets of the system, which tells of peers on standard error.
type RealPorts<'a> = SocketPorts<'a, HostRuntime, PeersTold<'a>>;

impl<'a> Doors for SocketDoors<'a> {
    type Ports = RealPorts<'a>;

    // what a system does isn't stated
    ghost opens = { λ asked opened. Unit {0} };

    fn open(&mut self, plan: &DaemonPlan<'_>) -> Result<RealPorts<'a>, GateFault> {
        self.open_all(plan)
    }

    fn announce(&mut self, plan: &DaemonPlan<'_>, found: Option<FoundSite>) {
        let reading = match found {
            Some(found) => Some(self.reading(found)),
            None => None,
        };
        let bound = self.bound.as_slice();
        let served = Served {
            place: plan.place,
            doors: plan.doors.as_slice(),
            bound,
            reading,
        };
        // where standard error is closed, nobody waits for the line
        let _ = self.rt.eprintln(served);
        if let Some(rules) = plan.rules {
            let _ = self.rt.eprintln(Joins { rules });
        }
    }
}

/// Why no connection comes of a door that couldn't be opened.
fn fault_of(fault: DoorFault) -> GateFault {
    match fault {
        DoorFault::NoAddress => GateFault::NoAddress,
        DoorFault::InUse => GateFault::InUse,
        DoorFault::Occupied => GateFault::Occupied,
        DoorFault::NoFolder
        | DoorFault::LongPath
        | DoorFault::Forbidden
        | DoorFault::NotHere
        | DoorFault::Refused(_) => GateFault::Refused,
    }
}
