//! Where connections come: a path of a Unix socket, or an address of TCP.

use crate::keepalives::keep_alive;
use crate::streams::Stream;
use crate::unix_doors::open_unix;
use mio::net::{TcpListener, UnixListener};
use mio::{Interest, Registry, Token};
use std::alloc::Global;
use std::fs::Files;
use std::io;
use std::net::{Net, SocketAddr, ToSocketAddrs};
use std::random::RandomSource;

/// No connection can come at an address.
#[derive(Clone, Copy, PartialEq, Eq)]
pub enum DoorFault {
    /// The address has none of the forms, or its host isn't known.
    NoAddress,
    /// A server that lives has the address.
    InUse,
    /// Something else than a socket stands at the path.
    Occupied,
    /// The folder of the path isn't there.
    NoFolder,
    /// The path has more than 107 bytes, or its folder's more than 97.
    LongPath,
    /// This user may not listen there.
    Forbidden,
    /// The host isn't one of this machine's addresses.
    NotHere,
    /// The system refused for another reason.
    Refused(io::ErrorKind),
}

impl DoorFault {
    /// What an error of the system says of a door.
    pub(crate) fn of(error: &io::Error) -> DoorFault {
        match error.kind() {
            io::ErrorKind::AddrInUse => DoorFault::InUse,
            io::ErrorKind::NotFound | io::ErrorKind::NotADirectory => DoorFault::NoFolder,
            io::ErrorKind::PermissionDenied => DoorFault::Forbidden,
            io::ErrorKind::AddrNotAvailable => DoorFault::NotHere,
            kind => DoorFault::Refused(kind),
        }
    }
}

/// Where connections come.
#[derive(Drop)]
pub(crate) enum Listener {
    Unix(UnixListener),
    Tcp(TcpListener),
}

/// A door: where connections come, and the number by which a hub is told through which door one came.
#[derive(Drop)]
pub struct Door {
    listener: Listener,
    number: u8,
    /// A connection may wait.
    knocked: bool,
}

/// What an address of a Unix socket begins with.
const UNIX: &str = "unix:";

/// Opens the door of this number at an address: `unix:` and a path, or `HOST:PORT`. A path that a dead server left is taken
/// over, and a living one's isn't. A Unix socket has this mode from the moment at which it stands at the path.
pub fn open_door<R: Files + Net + RandomSource>(
    rt: &R,
    alloc: Global,
    address: &str,
    mode: u32,
    number: u8,
) -> Result<Door, DoorFault> {
    let listener = match path_of(address) {
        Some(path) => Listener::Unix(open_unix(rt, alloc, path, mode)?),
        None => Listener::Tcp(open_tcp(rt, address)?),
    };
    Ok(Door {
        listener,
        number,
        knocked: true,
    })
}

/// The path of an address of a Unix socket.
pub fn path_of(address: &str) -> Option<&str> {
    address.strip_prefix(UNIX)
}

fn open_tcp<R: Net>(rt: &R, address: &str) -> Result<TcpListener, DoorFault> {
    let Ok(mut found) = address.to_socket_addrs(rt) else {
        return Err(DoorFault::NoAddress);
    };
    let Some(first) = found.next() else {
        return Err(DoorFault::NoAddress);
    };
    match TcpListener::bind(rt, first) {
        Ok(listener) => Ok(listener),
        Err(error) => Err(DoorFault::of(&error)),
    }
}

impl Door {
    /// Where it listens over TCP, with the port that was taken.
    pub fn socket_addr(&self) -> Option<SocketAddr> {
        match &self.listener {
            Listener::Unix(_) => None,
            Listener::Tcp(listener) => listener.local_addr().ok(),
        }
    }

    pub(crate) fn register(&mut self, registry: &Registry, token: Token) -> io::Result<()> {
        match &mut self.listener {
            Listener::Unix(listener) => registry.register(listener, token, Interest::READABLE),
            Listener::Tcp(listener) => registry.register(listener, token, Interest::READABLE),
        }
    }

    /// Notes that a connection may wait.
    pub(crate) fn knock(&mut self) {
        self.knocked = true;
    }

    /// Whether a connection may wait.
    pub(crate) fn is_knocked(&self) -> bool {
        self.knocked
    }

    /// The next connection, if one waits, and the number of the door.
    pub(crate) fn next(&mut self) -> Option<(Stream, u8)> {
        if !self.knocked {
            return None;
        }
        match self.accept() {
            Ok(stream) => Some((stream, self.number)),
            Err(error) => {
                // the one that was next is gone, and others may wait behind it
                self.knocked = is_passing(&error);
                None
            }
        }
    }

    fn accept(&self) -> io::Result<Stream> {
        match &self.listener {
            Listener::Unix(listener) => {
                let (stream, _) = listener.accept()?;
                Ok(Stream::Unix(stream))
            }
            Listener::Tcp(listener) => {
                let (stream, _) = listener.accept()?;
                let _ = stream.set_nodelay(true);
                keep_alive(&stream);
                Ok(Stream::Tcp(stream))
            }
        }
    }
}

/// Whether a call may be made again: a signal came, or the connection that it was about is gone.
pub(crate) fn is_passing(error: &io::Error) -> bool {
    matches!(
        error.kind(),
        io::ErrorKind::Interrupted | io::ErrorKind::ConnectionAborted
    )
}
