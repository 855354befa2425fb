//! The addresses of the words.

ghost use Rattle.std.specs.Prelude.{None};

use crate::devices::no_peer;
use crate::programs::comes_to;
use crate::servers::serve;
use memory_io::{MemoryDial, MemoryLink};
use tardis_io::{Failed, Gate, Status};

/// A gate without links that knows whether it was bound to `unix:s`.
#[derive(Drop)]
struct NotingGate {
    is_bound: bool,
}

impl Gate for NotingGate {
    type Link = MemoryLink;

    ghost told = { λ _. None };

    ghost faults = { λ _. 0 };

    ghost is_bound = { λ _. Unit {0} };

    fn bind(&mut self, address: &str) -> Result<(), Failed> {
        self.is_bound = address == "unix:s";
        Ok(())
    }

    fn next(&mut self) -> Result<Option<MemoryLink>, Failed> {
        Ok(None)
    }

    fn put_back(&mut self, session: u16, link: MemoryLink) {
        let _ = session;
        drop(link);
    }
}

/// Whether the dial was asked for these addresses, in order.
fn was_asked_for(dial: &MemoryDial<MemoryLink>, addresses: &[&str]) -> bool {
    let Some(asked) = dial.asked() else {
        return false;
    };
    for (place, address) in addresses.iter().enumerate() {
        match asked.get(place) {
            Some(found) if found.as_str() == *address => {}
            _ => return false,
        }
    }
    asked.len() == addresses.len()
}

#[test]
fn the_words_addresses_are_bound_and_called(rt: HostRuntime) {
    let line = "serve --listen unix:s --links 1 --peer unix:p --peer unix:q --rounds 2";
    let mut gate = NotingGate { is_bound: false };
    let mut dial = no_peer(&rt, rt.alloc());
    let ran = serve(&rt, rt.alloc(), line, &mut gate, &mut dial);
    assert!(rt; gate.is_bound);
    assert!(rt; was_asked_for(&dial, &["unix:p", "unix:q", "unix:p", "unix:q"]));
    assert!(rt; comes_to(ran, Status::DialFault, b""));
    drop(dial);
}
