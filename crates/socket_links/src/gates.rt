//! A gate and a dial over sockets.

ghost use Rattle.std.specs.Prelude.{◌≡◌, None, IfOk, IsSome};
ghost use Rattle.tardis_io.specs.Faults.{HasCause};
ghost use Rattle.tardis_io.specs.Links.{HandsNext};

use crate::doors::{Door, Stream, connect, open_door};
use crate::links::SocketLink;
use std::fs::Files;
use std::io::ErrorKind;
use std::net::{Net, TcpListener, TcpStream};
use tardis_io::{Dial, Failed, Gate};

/// A gate over a listening socket. Each error of the system is counted. A connection that was lost before it was taken
/// up is passed over.
///
/// A Unix socket's path that a dead server left is taken over; a living one's isn't, and what stands at the path and is
/// no socket stays. A link is closed when it is put back.
///
/// How it is let go is written here, so that the crates above needn't prove it of what it is made of.
pub struct SocketGate<'a, R> {
    rt: &'a R,
    door: Option<Door>,
    faults: u64,
}

impl<R> Drop for SocketGate<'_, R> {
    fn drop(self) {
        let SocketGate {
            rt: _,
            door,
            faults: _,
        } = self;
        drop(door);
    }
}

/// A dial that connects over sockets. Each error of the system is counted. A link is closed when it is put back.
#[derive(Drop)]
pub struct SocketDial<'a, R> {
    rt: &'a R,
    faults: u64,
}

impl<'a, R> SocketGate<'a, R> {
    pub fn new(rt: &'a R) -> SocketGate<'a, R>
        ensures { result.faults ≡ 0 }
    {
        SocketGate {
            rt,
            door: None,
            faults: 0,
        }
    }

    /// How many errors were counted.
    pub fn faults(&self) -> u64
        ensures { result ≡ self.now.faults }
    {
        self.faults
    }
}

impl<'a, R> SocketDial<'a, R> {
    pub fn new(rt: &'a R) -> SocketDial<'a, R>
        ensures { result.faults ≡ 0 }
    {
        SocketDial { rt, faults: 0 }
    }

    /// How many errors were counted.
    pub fn faults(&self) -> u64
        ensures { result ≡ self.now.faults }
    {
        self.faults
    }
}

impl<R: Files + Net<Listener = TcpListener, Stream = TcpStream>> Gate for SocketGate<'_, R> {
    type Link = SocketLink;

    ghost told = { λ _. None };

    ghost faults = { λ g. g.faults };

    ghost is_bound = { λ g. IsSome g.door };

    fn bind(&mut self, address: &str) -> Result<(), Failed> {
        match open_door(self.rt, address) {
            Ok(door) => {
                self.door = Some(door);
                Ok(())
            }
            Err(_) => {
                self.faults = self.faults.saturating_add(1);
                Err(Failed)
            }
        }
    }

    fn next(&mut self) -> Result<Option<SocketLink>, Failed>
        requires bound { IsSome self.old.door }
        ensures cause { HasCause self.old.faults self.new.faults result }
        ensures told { HandsNext None None result }
        ensures bound { IsSome self.new.door }
        ensures some { IfOk result IsSome }
    {
        for _ in 0..u64::MAX {
            match accepted(&self.door) {
                Some(Ok(stream)) => return Ok(Some(SocketLink::new(stream))),
                Some(Err(kind)) => {
                    if !is_passed_over(kind) {
                        break;
                    }
                    self.faults = self.faults.saturating_add(1);
                }
                None => break,
            }
        }
        self.faults = self.faults.saturating_add(1);
        Err(Failed)
    }

    fn put_back(&mut self, session: u16, link: SocketLink) {
        let _ = (session, link);
    }
}

/// The next connection, or what the system says; nothing where no address was bound.
fn accepted(door: &Option<Door>) -> Option<Result<Stream, ErrorKind>> {
    match door {
        Some(door) => match door.accept() {
            Ok(stream) => Some(Ok(stream)),
            Err(error) => Some(Err(error.kind())),
        },
        None => None,
    }
}

/// Whether such an error is no reason to take no more connections.
fn is_passed_over(kind: ErrorKind) -> bool {
    kind == ErrorKind::Interrupted || kind == ErrorKind::ConnectionAborted
}

impl<R: Net<Listener = TcpListener, Stream = TcpStream>> Dial for SocketDial<'_, R> {
    type Link = SocketLink;

    ghost told = { λ _. None };

    ghost faults = { λ d. d.faults };

    fn call(&mut self, address: &str) -> Result<SocketLink, Failed> {
        match connect(self.rt, address) {
            Ok(stream) => Ok(SocketLink::new(stream)),
            Err(_) => {
                self.faults = self.faults.saturating_add(1);
                Err(Failed)
            }
        }
    }

    fn put_back(&mut self, link: SocketLink) {
        let _ = link;
    }
}
