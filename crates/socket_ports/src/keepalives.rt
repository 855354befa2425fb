//! TCP keepalive: where a connection is silent the system asks its other end whether it is still there, and gives the connection up
//! where no answer comes.

use libc::net as c;
use mio::net::TcpStream;
use std::os::fd::AsRawFd;

/// After so many seconds without a byte the system asks.
const IDLE: i32 = 60;

/// So many seconds lie between one question and the next.
const INTERVAL: i32 = 10;

/// So many questions without an answer end the connection.
const QUESTIONS: i32 = 6;

/// Has the system look after the connection. One that it doesn't look after is served all the same.
pub(crate) fn keep_alive(stream: &TcpStream) {
    let fd = stream.as_raw_fd();
    let (on, idle) = (option_value(1), option_value(IDLE));
    let (interval, questions) = (option_value(INTERVAL), option_value(QUESTIONS));
    unsafe {
        let _ = c::setsockopt(fd, c::SOL_SOCKET, c::SO_KEEPALIVE, &on, 4);
        let _ = c::setsockopt(fd, c::IPPROTO_TCP, c::TCP_KEEPIDLE, &idle, 4);
        let _ = c::setsockopt(fd, c::IPPROTO_TCP, c::TCP_KEEPINTVL, &interval, 4);
        let _ = c::setsockopt(fd, c::IPPROTO_TCP, c::TCP_KEEPCNT, &questions, 4);
    }
}

/// The number as an option's value, in the first four bytes.
fn option_value(number: i32) -> [u8; 16] {
    let mut value = [0; 16];
    value[..4].copy_from_slice(&number.to_ne_bytes());
    value
}
