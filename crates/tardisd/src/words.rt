//! What is told on standard error: where the doors are and what was found, and why a door or a file can't be opened.

use command_words::Place;
use daemon_words::{DoorKind, DoorPlan};
use socket_ports::{DoorFault, path_of};
use std::net::SocketAddr;
use std::{fmt, io};
use tardisd_main::FoundSite;

/// The line that the site at a place is served at doors, one after another.
#[derive(Clone, Copy)]
pub(crate) struct Served<'a, 'b> {
    pub(crate) place: Place,
    pub(crate) doors: &'a [DoorPlan<'b>],
    /// Where each door listens over TCP, with the port that was taken.
    pub(crate) bound: &'a [Option<SocketAddr>],
    /// What was found in the site's file.
    pub(crate) reading: Option<Reading>,
}

impl fmt::Display for Served<'_, '_> {
    fn fmt<W: fmt::Write>(&self, f: &mut fmt::Formatter<W>) -> fmt::Result {
        let Place { sites, site } = self.place;
        write!(f, "tardisd: site {site} of {sites} listens ")?;
        for at in 0..self.doors.len() {
            if at > 0 {
                write!(f, ", ")?;
            }
            write_door(f, &self.doors[at], self.port_at(at))?;
        }
        match self.reading {
            Some(reading) => write!(f, ", {reading}"),
            None => Ok(()),
        }
    }
}

impl Served<'_, '_> {
    /// The port that was taken for a door which asked for any.
    fn port_at(&self, at: usize) -> Option<u16> {
        match (self.doors.get(at), self.bound.get(at)) {
            (Some(plan), Some(Some(bound))) if plan.address.ends_with(":0") => Some(bound.port()),
            _ => None,
        }
    }
}

/// The line that branches are joined by rules, and by which those keys that have none of their own.
#[derive(Clone, Copy)]
pub(crate) struct Joins<'a> {
    pub(crate) rules: &'a str,
}

impl fmt::Display for Joins<'_> {
    fn fmt<W: fmt::Write>(&self, f: &mut fmt::Formatter<W>) -> fmt::Result {
        match self.rule_of_others() {
            Some(rule) => write!(
                f,
                "tardisd: joins branches by rules; keys without a rule of their own by {rule}"
            ),
            None => write!(
                f,
                "tardisd: joins branches by rules; not where keys conflict that have no rule"
            ),
        }
    }
}

impl<'a> Joins<'a> {
    /// The rule of all keys that begin with no other prefix, if there is one.
    fn rule_of_others(&self) -> Option<&'a str> {
        for rule in self.rules.split(',') {
            if let Some(name) = rule.strip_prefix('=') {
                return Some(name);
            }
        }
        None
    }
}

/// Writes where a door is, and for whom unless it is for all.
fn write_door<W: fmt::Write>(
    f: &mut fmt::Formatter<W>,
    plan: &DoorPlan<'_>,
    port: Option<u16>,
) -> fmt::Result {
    match (port, plan.address.strip_suffix('0')) {
        (Some(port), Some(host)) => write!(f, "at {host}{port}")?,
        _ => write!(f, "at {}", plan.address)?,
    }
    match plan.kind {
        DoorKind::All => Ok(()),
        DoorKind::Clients => write!(f, " for clients"),
        DoorKind::Peers => write!(f, " for peers"),
    }
}

/// What was found in a file, and in how many milliseconds.
#[derive(Clone, Copy)]
pub(crate) struct Reading {
    pub(crate) found: FoundSite,
    pub(crate) millis: Option<u128>,
}

impl fmt::Display for Reading {
    fn fmt<W: fmt::Write>(&self, f: &mut fmt::Formatter<W>) -> fmt::Result {
        let FoundSite {
            known,
            kept,
            groups,
            bytes,
            is_torn,
            is_new,
        } = self.found;
        if is_new {
            return write!(f, "in a new file");
        }
        write!(
            f,
            "with {known} states, {kept} of them kept, from a file of {groups} groups in {bytes} bytes"
        )?;
        if let Some(millis) = self.millis {
            write!(f, ", read in {millis} ms")?;
        }
        if is_torn {
            write!(f, "; its end was torn, and is mended")?;
        }
        Ok(())
    }
}

/// The line of a door that can't be opened.
#[derive(Clone, Copy)]
pub(crate) struct Faulty<'a> {
    pub(crate) address: &'a str,
    pub(crate) fault: DoorFault,
}

impl fmt::Display for Faulty<'_> {
    fn fmt<W: fmt::Write>(&self, f: &mut fmt::Formatter<W>) -> fmt::Result {
        write!(f, "tardisd: gate fault: {}: ", self.address)?;
        match self.fault {
            DoorFault::NoAddress => write!(
                f,
                "the address isn't unix:PATH or HOST:PORT, or its host isn't known"
            ),
            DoorFault::InUse => write!(
                f,
                "another server listens there: end that one, or name another address"
            ),
            DoorFault::Occupied => write!(
                f,
                "a file that is no socket stands there, and was left as it is: name another path"
            ),
            DoorFault::NoFolder => write!(
                f,
                "there is no such folder: make it, or name another path"
            ),
            DoorFault::LongPath => write!(
                f,
                "the path is longer than 107 bytes, or its folder's than 97: name a shorter one"
            ),
            DoorFault::Forbidden if path_of(self.address).is_some() => write!(
                f,
                "this user may not write there: name a path in a folder of the user's own"
            ),
            DoorFault::Forbidden => write!(
                f,
                "this user may not listen there: name a port above 1023"
            ),
            DoorFault::NotHere => write!(
                f,
                "the host is no address of this machine: name one of its own, or 0.0.0.0 for all of them"
            ),
            DoorFault::Refused(kind) => write!(f, "the system doesn't let it listen there: {kind}"),
        }
    }
}

/// The line of a file that can't be opened.
#[derive(Clone, Copy)]
pub(crate) struct Unopened<'a> {
    pub(crate) path: &'a str,
    pub(crate) reason: FileReason,
}

/// Why a file can't be opened.
#[derive(Clone, Copy)]
pub(crate) enum FileReason {
    /// Its folder isn't there.
    NoFolder,
    /// It isn't there, and isn't to be made.
    NoFile,
    /// It is a folder.
    Folder,
    /// It is there, and neither a regular file nor a folder.
    Irregular,
    /// This user may not write there.
    Forbidden,
    /// This user may not read it.
    Unreadable,
    /// The system refused for another reason.
    System(io::ErrorKind),
    /// It could be opened when it was tried once more.
    Passed,
}

impl fmt::Display for Unopened<'_> {
    fn fmt<W: fmt::Write>(&self, f: &mut fmt::Formatter<W>) -> fmt::Result {
        write!(f, "tardisd: {}: ", self.path)?;
        match self.reason {
            FileReason::NoFolder => write!(
                f,
                "there is no such folder: make it, or name another file"
            ),
            FileReason::NoFile => write!(f, "there is no such file: name one that is there"),
            FileReason::Folder => write!(f, "it is a folder: name a file in it"),
            FileReason::Irregular => write!(f, "it is no regular file: name another one"),
            FileReason::Forbidden => write!(
                f,
                "this user may not read and write it, or its folder: change who may, or name another file"
            ),
            FileReason::Unreadable => write!(
                f,
                "this user may not read it: change who may, or name another file"
            ),
            FileReason::System(kind) => write!(f, "the system doesn't open it: {kind}"),
            FileReason::Passed => write!(
                f,
                "the system didn't open it, and would now: start again"
            ),
        }
    }
}
