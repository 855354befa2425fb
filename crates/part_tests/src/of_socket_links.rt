use socket_links::{SocketDial, SocketGate};
use std::fs::{self, Files};
use std::net::{Net, TcpListener, TcpStream};
use tardis_io::{Dial, Failed, Gate, Link};

/// Whether the link is given all of these, which must be some.
fn gives<L: Link>(link: &mut L, bytes: &[u8]) -> bool {
    !bytes.is_empty() && link.give(bytes) == Ok(bytes.len())
}

/// Whether one take of the link gives these, up to eight, and none at its end.
fn takes<L: Link>(link: &mut L, bytes: &[u8]) -> bool {
    let mut buf = [0u8; 8];
    match link.take(&mut buf) {
        Ok(count) => &buf[..count] == bytes,
        Err(Failed) => false,
    }
}

/// Whether the far link takes what the near one is given, and is given an answer.
fn is_answered<N: Link, F: Link>(near: &mut N, far: &mut F) -> bool {
    gives(near, b"ab") && takes(far, b"ab") && gives(far, b"c")
}

/// Whether the link takes the answer and then comes to its end.
fn is_ended<L: Link>(link: &mut L) -> bool {
    takes(link, b"c") && takes(link, b"")
}

/// Whether bytes go over a connection of these at the address, both ways, and one way to their end.
fn is_connected<R: Files + Net<Listener = TcpListener, Stream = TcpStream>>(
    gate: &mut SocketGate<'_, R>,
    dial: &mut SocketDial<'_, R>,
    address: &str,
) -> bool {
    let (Ok(()), Ok(mut near)) = (gate.bind(address), dial.call(address)) else {
        return false;
    };
    let Ok(Some(mut far)) = gate.next() else {
        return false;
    };
    let mut is_right = is_answered(&mut near, &mut far);
    far.finish();
    is_right = is_right && is_ended(&mut near);
    near.finish();
    is_right = is_right && near.read_faults() == 0 && far.write_faults() == 0;
    gate.put_back(1, far);
    dial.put_back(near);
    is_right
}

/// Whether they do so for a gate and a dial that count no fault.
fn talks<R: Files + Net<Listener = TcpListener, Stream = TcpStream>>(
    rt: &R,
    address: &str,
) -> bool {
    let mut gate = SocketGate::new(rt);
    let mut dial = SocketDial::new(rt);
    let is_right = is_connected(&mut gate, &mut dial, address)
        && gate.faults() == 0
        && dial.faults() == 0;
    drop(dial);
    drop(gate);
    is_right
}

/// The path of the socket.
const PATH: &str = "links.sock";

/// Its address.
const ADDRESS: &str = "unix:links.sock";

/// Whether the gate is bound at the path.
fn is_bound<G: Gate>(gate: &mut G) -> bool {
    gate.bind(ADDRESS) == Ok(())
}

/// Whether the gate fails to be bound at the path.
fn fails_to_bind<G: Gate>(gate: &mut G) -> bool {
    gate.bind(ADDRESS) == Err(Failed)
}

#[test]
fn bytes_go_over_sockets_of_both_kinds(rt: HostRuntime) {
    let _ = fs::remove_file(&rt, PATH);
    assert!(rt; talks(&rt, ADDRESS));
    // the path of a server that is gone is taken over
    assert!(rt; talks(&rt, ADDRESS));
    let mut gate = SocketGate::new(&rt);
    assert!(rt; is_bound(&mut gate));
    // one that lives keeps its path
    let mut other = SocketGate::new(&rt);
    assert!(rt; fails_to_bind(&mut other) && other.faults() == 1);
    fs::remove_file(&rt, PATH).expect(&rt, "the file");
    // a file that is no socket stays
    fs::write(&rt, PATH, b"kept").expect(&rt, "a file");
    assert!(rt; fails_to_bind(&mut other) && other.faults() == 2);
    fs::remove_file(&rt, PATH).expect(&rt, "the file");
    assert!(rt; talks(&rt, "127.0.0.1:47391"));
    drop(other);
    drop(gate);
}

/// Whether a link whose other side went, with bytes that it hadn't taken, tells both as faults: that nothing can be taken any
/// more, which isn't the end of what was sent, and that nothing can be given.
fn tells_faults<R: Files + Net<Listener = TcpListener, Stream = TcpStream>>(
    gate: &mut SocketGate<'_, R>,
    dial: &mut SocketDial<'_, R>,
    address: &str,
) -> bool {
    let (Ok(()), Ok(mut near)) = (gate.bind(address), dial.call(address)) else {
        return false;
    };
    let Ok(Some(far)) = gate.next() else {
        return false;
    };
    let is_given = gives(&mut near, b"ab");
    drop(far);
    let is_told = is_given && fails_to_take(&mut near) && fails_to_give(&mut near);
    let is_counted = near.read_faults() == 1 && near.write_faults() == 1;
    drop(near);
    is_told && is_counted
}

fn fails_to_take<L: Link>(link: &mut L) -> bool {
    link.take(&mut [0u8; 8]) == Err(Failed)
}

fn fails_to_give<L: Link>(link: &mut L) -> bool {
    link.give(b"c") == Err(Failed)
}

#[test]
fn a_link_that_was_lost_is_no_end(rt: HostRuntime) {
    let path = "lost.sock";
    let _ = fs::remove_file(&rt, path);
    let mut gate = SocketGate::new(&rt);
    let mut dial = SocketDial::new(&rt);
    assert!(rt; tells_faults(&mut gate, &mut dial, "unix:lost.sock"));
    fs::remove_file(&rt, path).expect(&rt, "the file");
    drop(dial);
    drop(gate);
}
