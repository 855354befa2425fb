//! What is told on standard error while a site is served: that a peer is reached, that it is lost or can't be reached, that the site
//! keeps many states; and what is to be done.

use site_peers::{Failure, NO_VERDICT};
use socket_ports::{Holding, Watch};
use std::{fmt, io};
use wire_lives::life_codes::{ANOTHER_LIFE, NO_INTRODUCTION, NO_LIFE, OTHER_SITES, OWN_NUMBER};

/// Tells of peers and of the room that is left on standard error, in a line each time.
#[derive(Drop)]
pub(crate) struct PeersTold<'a> {
    rt: &'a HostRuntime,
    /// States are collected.
    tidy: bool,
}

impl<'a> PeersTold<'a> {
    pub(crate) fn new(rt: &'a HostRuntime, tidy: bool) -> PeersTold<'a> {
        PeersTold { rt, tidy }
    }
}

impl Watch for PeersTold<'_> {
    fn reached(&mut self, address: &str, again: bool) {
        // where standard error is closed, nobody waits for the line
        let _ = self.rt.eprintln(Reached { address, again });
    }

    fn found_room(&mut self, address: &str) {
        let _ = self.rt.eprintln(FoundRoom { address });
    }

    fn failed(&mut self, address: &str, before: bool, why: Failure, said: Option<io::ErrorKind>) {
        let lost = Lost {
            address,
            before,
            why,
            said,
        };
        let _ = self.rt.eprintln(lost);
    }

    fn crowded(&mut self, kept: u32, most: u32, holding: Holding) {
        let crowded = Crowded {
            kept,
            most,
            tidy: self.tidy,
            holding,
        };
        let _ = self.rt.eprintln(crowded);
    }
}

/// The line that many states are kept.
#[derive(Clone, Copy)]
struct Crowded {
    kept: u32,
    most: u32,
    tidy: bool,
    holding: Holding,
}

impl fmt::Display for Crowded {
    fn fmt<W: fmt::Write>(&self, f: &mut fmt::Formatter<W>) -> fmt::Result {
        let Crowded {
            kept,
            most,
            tidy,
            holding,
        } = *self;
        write!(f, "tardisd: {kept} of {most} states are kept: ")?;
        if !tidy {
            return write!(
                f,
                "with --keep-history none is collected: have a client ask for it (kumovasil raise, kumovasil tidy)"
            );
        }
        write_holding(f, holding)
    }
}

/// Writes what keeps most of them from being collected, and what is to be done.
fn write_holding<W: fmt::Write>(f: &mut fmt::Formatter<W>, holding: Holding) -> fmt::Result {
    match holding {
        Holding::Session { address, seconds } => {
            write!(f, "the session of the connection ")?;
            match address {
                Some(address) => write!(f, "from {address}")?,
                None => write!(f, "over a Unix socket")?,
            }
            write!(
                f,
                " holds the floor, which has been silent for {seconds} seconds: have it end, or move on"
            )
        }
        Holding::OtherSite { number, seconds } => write!(
            f,
            "no consent of site {number} for {seconds} seconds lets them be collected: see that it runs and that sites fetch from each other"
        ),
        Holding::Leaves { count } => write!(
            f,
            "{count} branches that nobody joined hold them: merge them (kumovasil merge), or name rules for their keys (--rules)"
        ),
        Holding::Unknown => write!(
            f,
            "no one session, site or branch holds most of them: they are collected as requests come, or see kumovasil sessions"
        ),
    }
}

/// The line that a peer is reached.
#[derive(Clone, Copy)]
struct Reached<'a> {
    address: &'a str,
    again: bool,
}

impl fmt::Display for Reached<'_> {
    fn fmt<W: fmt::Write>(&self, f: &mut fmt::Formatter<W>) -> fmt::Result {
        let Reached { address, again } = *self;
        if again {
            write!(f, "tardisd: peer {address}: reached again")
        } else {
            write!(f, "tardisd: peer {address}: reached")
        }
    }
}

/// The line that there is room again for what comes of a peer.
#[derive(Clone, Copy)]
struct FoundRoom<'a> {
    address: &'a str,
}

impl fmt::Display for FoundRoom<'_> {
    fn fmt<W: fmt::Write>(&self, f: &mut fmt::Formatter<W>) -> fmt::Result {
        write!(
            f,
            "tardisd: peer {}: there is room again for all of its records",
            self.address
        )
    }
}

/// The line that a peer is lost, or wasn't reached, or that there is no room for what came of it.
#[derive(Clone, Copy)]
struct Lost<'a> {
    address: &'a str,
    before: bool,
    why: Failure,
    said: Option<io::ErrorKind>,
}

impl fmt::Display for Lost<'_> {
    fn fmt<W: fmt::Write>(&self, f: &mut fmt::Formatter<W>) -> fmt::Result {
        let what = if self.before { "lost" } else { "not reached" };
        write!(f, "tardisd: peer {}: ", self.address)?;
        if let Failure::NoRoom { records } = self.why {
            return write_no_room(f, records);
        }
        write!(f, "{what}: ")?;
        match self.why {
            Failure::NotReached => write_said(f, self.said)?,
            Failure::NotMet { why } => write_verdict(f, why)?,
            why => write_failure(f, why)?,
        }
        write!(
            f,
            "; called again in a second, and then after pauses that double up to a minute"
        )
    }
}

/// Writes why a call failed, by what the system said.
fn write_said<W: fmt::Write>(
    f: &mut fmt::Formatter<W>,
    said: Option<io::ErrorKind>,
) -> fmt::Result {
    match said {
        Some(io::ErrorKind::ConnectionRefused | io::ErrorKind::NotFound) => {
            write!(f, "nobody listens there")
        }
        Some(io::ErrorKind::PermissionDenied) => write!(
            f,
            "this user may not connect there: start the peer with another --mode, or under this user"
        ),
        Some(io::ErrorKind::InvalidInput) => write!(
            f,
            "the address isn't unix:PATH or HOST:PORT, or its host isn't known"
        ),
        Some(io::ErrorKind::WouldBlock) => write!(f, "too many calls wait there"),
        Some(kind) => write!(f, "the system says {kind}"),
        None => write!(f, "the call failed"),
    }
}

/// Writes why a peer wasn't met, and what is to be done.
fn write_verdict<W: fmt::Write>(f: &mut fmt::Formatter<W>, why: u8) -> fmt::Result {
    match why {
        ANOTHER_LIFE => write!(
            f,
            "another site had its number before, or it lost what it had: start it with its file, or with a --site that was never used"
        ),
        OWN_NUMBER => write!(
            f,
            "it has the number of this site: start one of them with another --site, or name another peer"
        ),
        OTHER_SITES => write!(
            f,
            "it is one of another number of sites: start all with the same --sites"
        ),
        NO_INTRODUCTION => write!(
            f,
            "it doesn't introduce itself: it has no room, or is no tardisd of this version"
        ),
        NO_LIFE => write!(f, "this site has no life yet: start it again"),
        NO_VERDICT => write!(f, "there was no memory to meet it"),
        _ => write!(f, "this site doesn't meet it"),
    }
}

/// Writes that there was no room for so many of a peer's records, and what is to be done.
fn write_no_room<W: fmt::Write>(f: &mut fmt::Formatter<W>, records: u32) -> fmt::Result {
    write!(
        f,
        "no room for {records} of its records, tried again: reach all sites, merge branches, end old sessions, or with --file raise --states"
    )
}

/// Writes why an exchange failed otherwise.
fn write_failure<W: fmt::Write>(f: &mut fmt::Formatter<W>, why: Failure) -> fmt::Result {
    match why {
        Failure::NotReached => write!(f, "the call failed"),
        Failure::Late => write!(f, "no answer came in 30 seconds"),
        Failure::Cut => write!(f, "it ended the connection before its answer was whole"),
        Failure::LongFrame { len } => {
            write!(f, "it sent a frame of {len} bytes, so it is no tardisd")
        }
        Failure::NotMet { why } => write_verdict(f, why),
        Failure::NotABatch => write!(
            f,
            "it doesn't tell what it knows: name its door for all, or that for peers"
        ),
        Failure::Unasked => write!(f, "it sent what it wasn't asked for, so it is no tardisd"),
        Failure::NoCounts => write!(f, "this site told no counts"),
        Failure::NoMemory => write!(f, "there was no memory for its answer"),
        Failure::NoRoom { records } => write_no_room(f, records),
    }
}
