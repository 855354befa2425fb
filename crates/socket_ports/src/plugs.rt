//! A connection and what is known of it.

ghost use Rattle.std.specs.Prelude.{◌≡◌, ◌≤◌, [], Some, true, false, length};

use crate::streams::Stream;
use hub::Connection;
use mio::event::Event;
use mio::{Interest, Registry, Token};
use std::io;

/// What may be left to do for a connection, but for reading.
#[derive(Clone, Copy)]
pub(crate) enum Work {
    Write,
    Close,
}

/// A connection and what is known of it.
#[derive(Drop)]
pub(crate) struct Plug {
    stream: Stream,
    token: Token,
    /// A read may give bytes.
    readable: bool,
    /// A write may take bytes.
    writable: bool,
    /// The system is to tell when a write may take bytes.
    asked: bool,
    /// The peer said that it sends no more, and what it sent may be unread.
    closing: bool,
    /// All that the peer sent was read.
    ended: bool,
    /// No more can be read or written.
    gone: bool,
    /// When it asked last, took bytes or came, in milliseconds of the edge's clock.
    since: u64,
}

impl Plug {
    /// A connection that came, of which the system tells when something comes.
    pub(crate) fn new(
        mut stream: Stream,
        registry: &Registry,
        token: Token,
        now: u64,
    ) -> io::Result<Plug> {
        stream.register(registry, token, Interest::READABLE)?;
        Ok(Plug {
            stream,
            token,
            readable: true,
            writable: true,
            asked: false,
            closing: false,
            ended: false,
            gone: false,
            since: now,
        })
    }

    /// A connection that is called: the system tells when the call came through or failed.
    pub(crate) fn calling(
        mut stream: Stream,
        registry: &Registry,
        token: Token,
    ) -> io::Result<Plug> {
        stream.register(registry, token, Interest::READABLE | Interest::WRITABLE)?;
        Ok(Plug {
            stream,
            token,
            readable: false,
            writable: false,
            asked: true,
            closing: false,
            ended: false,
            gone: false,
            since: 0,
        })
    }

    pub(crate) fn stream(&self) -> &Stream {
        &self.stream
    }

    /// Whether the system told of a call how it went.
    pub(crate) fn is_settled(&self) -> bool {
        self.writable
    }

    pub(crate) fn is_readable(&self) -> bool {
        self.readable
    }

    pub(crate) fn is_writable(&self) -> bool {
        self.writable
    }

    /// Whether all that was sent was read, or no more can be.
    pub(crate) fn is_over(&self) -> bool {
        self.ended || self.gone
    }

    /// Notes that it asked, or took bytes.
    pub(crate) fn touch(&mut self, now: u64) {
        self.since = now;
    }

    /// For how many milliseconds it has asked nothing, and taken no bytes.
    pub(crate) fn silent_for(&self, now: u64) -> u64 {
        now.saturating_sub(self.since)
    }

    /// How many milliseconds are left of so many in which it may ask nothing.
    pub(crate) fn rests_for(&self, idle: u64, now: u64) -> u64 {
        idle.saturating_sub(self.silent_for(now))
    }

    /// Notes what the system told.
    pub(crate) fn note(&mut self, event: &Event, registry: &Registry) {
        if event.is_read_closed() {
            self.closing = true;
        }
        if event.is_readable() || event.is_read_closed() || event.is_error() {
            self.readable = true;
        }
        if event.is_writable() || event.is_write_closed() || event.is_error() {
            self.writable = true;
            if self.asked {
                self.asked = false;
                self.ask(registry, Interest::READABLE);
            }
        }
    }

    /// Whether it is about to end: the peer sends no more, or no more can be read or written.
    pub(crate) fn is_ending(&self) -> bool {
        self.closing || self.ended || self.gone
    }

    /// Whether it may give bytes, and the hub wants them.
    pub(crate) fn may_read(&self, connection: &Connection) -> bool
        ensures over { connection.now.long ≡ true → result ≡ false }
    {
        self.readable && !self.ended && !self.gone && connection.wants_read()
    }

    /// What else there is to do, by what the hub has of the connection.
    pub(crate) fn work(&self, connection: &Connection) -> Option<Work>
        ensures over { connection.now.long ≡ true → connection.now.waiting ≡ [] → result ≡ Some Work.Close }
    {
        if self.gone || connection.is_over() {
            Some(Work::Close)
        } else if connection.has_to_write() {
            if self.writable {
                Some(Work::Write)
            } else {
                None
            }
        } else if self.ended {
            Some(Work::Close)
        } else {
            None
        }
    }

    /// Reads once. After a read that didn't fill the buffer nothing is left, unless the peer said that it sends no more:
    /// then the end is still to be read.
    pub(crate) fn read(&mut self, buf: &mut [u8]) -> usize
        ensures bound { result ≤ length buf.new }
        ensures room { length buf.new ≡ length buf.old }
    {
        let room = buf.len();
        match self.stream.read(buf) {
            Ok(0) => {
                self.ended = true;
                0
            }
            Ok(count) => {
                if count < room && !self.closing {
                    self.readable = false;
                }
                count
            }
            Err(error) => {
                match error.kind() {
                    io::ErrorKind::WouldBlock => self.readable = false,
                    io::ErrorKind::Interrupted => {}
                    _ => self.gone = true,
                }
                0
            }
        }
    }

    /// Writes once. Where no byte can be written now the system is asked to tell when one can.
    pub(crate) fn write(&mut self, bytes: &[u8], registry: &Registry) -> usize
        ensures bound { result ≤ length bytes.now }
    {
        match self.stream.write(bytes) {
            Ok(count) => count,
            Err(error) => {
                match error.kind() {
                    io::ErrorKind::WouldBlock => {
                        self.writable = false;
                        self.asked = true;
                        self.ask(registry, Interest::READABLE | Interest::WRITABLE);
                    }
                    io::ErrorKind::Interrupted => {}
                    _ => self.gone = true,
                }
                0
            }
        }
    }

    fn ask(&mut self, registry: &Registry, interest: Interest) {
        if self
            .stream
            .reregister(registry, self.token, interest)
            .is_err()
        {
            self.gone = true;
        }
    }
}
