//! Where sockets come from: a path of a Unix socket, or an address of TCP.

ghost use Rattle.std.specs.Prelude.{◌≡◌, length};
ghost use Rattle.std.specs.Io.{ReadsAtMost, WritesAtMost};

use std::fs::{self, Files};
use std::io::{self, Error, ErrorKind, Read, Write};
use std::net::{Net, Shutdown, TcpListener, TcpStream};
use std::os::unix::fs::FileTypeExt;
use std::os::unix::net::{UnixListener, UnixStream};

/// Where connections come.
#[derive(Drop)]
pub(crate) enum Door {
    Unix(UnixListener),
    Tcp(TcpListener),
}

/// A connection.
#[derive(Drop)]
pub(crate) enum Stream {
    Unix(UnixStream),
    Tcp(TcpStream),
}

/// What an address of a Unix socket begins with.
const UNIX: &str = "unix:";

/// Opens the door at an address. A path that a dead server left is taken over, and a living one's isn't.
pub(crate) fn open_door<R: Files + Net<Listener = TcpListener, Stream = TcpStream>>(
    rt: &R,
    address: &str,
) -> io::Result<Door> {
    match address.strip_prefix(UNIX) {
        Some(path) => Ok(Door::Unix(open_unix(rt, path)?)),
        None => Ok(Door::Tcp(TcpListener::bind(rt, address)?)),
    }
}

fn open_unix<R: Files + Net>(rt: &R, path: &str) -> io::Result<UnixListener> {
    match UnixListener::bind(rt, path) {
        Err(error) if error.kind() == ErrorKind::AddrInUse => take_over(rt, path),
        bound => bound,
    }
}

/// Takes over a path that nobody listens at. What stands there and is no socket stays.
fn take_over<R: Files + Net>(rt: &R, path: &str) -> io::Result<UnixListener> {
    match UnixStream::connect(rt, path) {
        Ok(_) => return Err(Error::from(ErrorKind::AddrInUse)),
        Err(error) if error.kind() == ErrorKind::ConnectionRefused => {}
        Err(error) => return Err(error),
    }
    if !fs::symlink_metadata(rt, path)?.file_type().is_socket() {
        return Err(Error::from(ErrorKind::AddrInUse));
    }
    fs::remove_file(rt, path)?;
    UnixListener::bind(rt, path)
}

/// Connects to who listens at an address.
pub(crate) fn connect<R: Net<Listener = TcpListener, Stream = TcpStream>>(
    rt: &R,
    address: &str,
) -> io::Result<Stream> {
    match address.strip_prefix(UNIX) {
        Some(path) => Ok(Stream::Unix(UnixStream::connect(rt, path)?)),
        None => Ok(without_delay(TcpStream::connect(rt, address)?)),
    }
}

/// A TCP connection whose small writes aren't held back, where the system grants it.
fn without_delay(stream: TcpStream) -> Stream {
    let _ = stream.set_nodelay(true);
    Stream::Tcp(stream)
}

impl Door {
    /// Waits for a connection.
    pub(crate) fn accept(&self) -> io::Result<Stream> {
        match self {
            Door::Unix(listener) => {
                let (stream, _) = listener.accept()?;
                Ok(Stream::Unix(stream))
            }
            Door::Tcp(listener) => {
                let (stream, _) = listener.accept()?;
                Ok(without_delay(stream))
            }
        }
    }
}

impl Stream {
    pub(crate) fn read(&mut self, buf: &mut [u8]) -> io::Result<usize>
        ensures bound { ReadsAtMost result buf.new }
        ensures room { length buf.new ≡ length buf.old }
    {
        match self {
            Stream::Unix(stream) => stream.read(buf),
            Stream::Tcp(stream) => stream.read(buf),
        }
    }

    pub(crate) fn write(&mut self, bytes: &[u8]) -> io::Result<usize>
        ensures bound { WritesAtMost result bytes.now }
    {
        match self {
            Stream::Unix(stream) => stream.write(bytes),
            Stream::Tcp(stream) => stream.write(bytes),
        }
    }

    /// Tells the other side that no more bytes will come.
    pub(crate) fn finish(&self) -> io::Result<()> {
        match self {
            Stream::Unix(stream) => stream.shutdown(Shutdown::Write),
            Stream::Tcp(stream) => stream.shutdown(Shutdown::Write),
        }
    }
}
