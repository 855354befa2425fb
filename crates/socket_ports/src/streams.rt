//! Connections over Unix sockets and TCP.

ghost use Rattle.std.specs.Prelude.{◌≡◌, ◌∷◌, length};
ghost use Rattle.std.specs.Int.{w32, to_be_bytes};
ghost use Rattle.std.specs.Io.{ReadsAtMost, WritesAtMost};

use crate::keepalives::keep_alive;
use mio::net::{TcpStream, UnixStream};
use mio::{Interest, Registry, Token};
use std::io::{self, Read, Write};
use std::net::{Shutdown, SocketAddr};
use wire_talk::reply_codes::REFUSED;

/// A connection.
#[derive(Drop)]
pub(crate) enum Stream {
    Unix(UnixStream),
    Tcp(TcpStream),
}

/// The refusal that there are as many connections as there may be. No site gives it: it is the edge's own (`docs/FORMATS.md`, 'Refusals of the edge').
const CONNECTIONS_FULL: u8 = 30;

/// What a connection is told that finds no room: the frame of a refusal, with how many connections there may be.
fn full(connections: u16) -> [u8; 10]
    ensures { result ≡ 0 ∷ 0 ∷ 0 ∷ 6 ∷ REFUSED ∷ CONNECTIONS_FULL ∷ to_be_bytes w32 connections }
{
    let [first, second, third, fourth] = (connections as u32).to_be_bytes();
    [
        0,
        0,
        0,
        6,
        REFUSED,
        CONNECTIONS_FULL,
        first,
        second,
        third,
        fourth,
    ]
}

impl Stream {
    pub(crate) fn register(
        &mut self,
        registry: &Registry,
        token: Token,
        interest: Interest,
    ) -> io::Result<()> {
        match self {
            Stream::Unix(stream) => registry.register(stream, token, interest),
            Stream::Tcp(stream) => registry.register(stream, token, interest),
        }
    }

    pub(crate) fn reregister(
        &mut self,
        registry: &Registry,
        token: Token,
        interest: Interest,
    ) -> io::Result<()> {
        match self {
            Stream::Unix(stream) => registry.reregister(stream, token, interest),
            Stream::Tcp(stream) => registry.reregister(stream, token, interest),
        }
    }

    pub(crate) fn read(&mut self, buf: &mut [u8]) -> io::Result<usize>
        ensures bound { ReadsAtMost result buf.new }
        ensures room { length buf.new ≡ length buf.old }
    {
        match self {
            Stream::Unix(stream) => stream.read(buf),
            Stream::Tcp(stream) => stream.read(buf),
        }
    }

    pub(crate) fn write(&mut self, bytes: &[u8]) -> io::Result<usize>
        ensures bound { WritesAtMost result bytes.now }
    {
        match self {
            Stream::Unix(stream) => stream.write(bytes),
            Stream::Tcp(stream) => stream.write(bytes),
        }
    }

    /// Where the connection comes from, if it is one over TCP.
    pub(crate) fn address(&self) -> Option<SocketAddr> {
        match self {
            Stream::Unix(_) => None,
            Stream::Tcp(stream) => stream.peer_addr().ok(),
        }
    }

    /// How a call went, once the system told that it did. A host that called itself reached nobody.
    pub(crate) fn outcome(&self) -> io::Result<()> {
        let fault = match self {
            Stream::Unix(stream) => stream.take_error()?,
            Stream::Tcp(stream) => stream.take_error()?,
        };
        if let Some(error) = fault {
            return Err(error);
        }
        match self {
            Stream::Unix(_) => Ok(()),
            Stream::Tcp(stream) => {
                if stream.peer_addr()? == stream.local_addr()? {
                    return Err(io::ErrorKind::ConnectionRefused.into());
                }
                let _ = stream.set_nodelay(true);
                keep_alive(stream);
                Ok(())
            }
        }
    }

    /// Tells the peer that there is no room for it beside so many connections. What it sent by now is read, so that the system, which gives up a connection
    /// with bytes that nobody read, delivers what was told.
    pub(crate) fn turn_away(mut self, connections: u16) {
        let _ = self.write(&full(connections));
        let _ = match &self {
            Stream::Unix(stream) => stream.shutdown(Shutdown::Write),
            Stream::Tcp(stream) => stream.shutdown(Shutdown::Write),
        };
        let mut unread = [0; 1024];
        let _ = self.read(&mut unread);
    }
}
