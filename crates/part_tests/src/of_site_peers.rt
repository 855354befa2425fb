//! Exchanges of a peer: that memory suffices for them, and bytes from outside.

ghost use Rattle.std.specs.Prelude.{◌≡◌, ◌==◌, ◌∷◌, [], ℕ, true, length, if◌then◌else◌};
ghost use Rattle.std.specs.Prelude.{refl};

use rest_machine::InMemory;
use site_peers::{Deed, Failure, Peer};
use std::alloc::Global;
use tardis_base::{Machine, NoMemory, ReplyBuf};

/// Meets the peer of each introduction; replies to Stat that of the only site 3 states are known, to a record with a key of two bytes that there is no
/// room for it, and to everything else that it was applied.
#[derive(Drop)]
struct Replying {
    asked: u64,
}

impl Machine for Replying {
    ghost Plain = { Unit {0} };

    ghost plain = { record {
      step = λ s e. s;
      reply = λ s e. if length e.1 == 1 then 14 ∷ 0 ∷ 0 ∷ 0 ∷ 0 ∷ 0 ∷ 0 ∷ 0 ∷ 3 ∷ 0 ∷ 0 ∷ 0 ∷ 3 ∷ 0 ∷ 0 ∷ 0 ∷ 1 ∷ 0 ∷ 0 ∷ 1 ∷ 0 ∷ 0 ∷ 0 ∷ 3 ∷ 0 ∷ 0 ∷ 0 ∷ 0 ∷ 0 ∷ 0 ∷ 0 ∷ 0 ∷ 0 ∷ 0 ∷ [] else (if length e.1 == 22 then 72 ∷ 0 ∷ [] else (if length e.1 == 20 then 21 ∷ 20 ∷ 0 ∷ 0 ∷ 0 ∷ 4 ∷ [] else 17 ∷ []));
      is_sure = λ e. true;
    } };

    ghost stands = { λ m s. Unit {0} };

    ghost opening = { λ m. tt };

    fn act(&mut self, actor: u16, request: &[u8], out: &mut ReplyBuf) -> Result<(), NoMemory> {
        let _ = actor;
        self.asked = self.asked.wrapping_add(1);
        out.clear();
        if request.len() == 1 {
            out.push(&STATISTICS);
        } else if request.len() == 22 {
            out.push(&[72, 0]);
        } else if request.len() == 20 {
            out.push(&[21, 20, 0, 0, 0, 4]);
        } else {
            out.push(&[17]);
        }
        Ok(())
    }
}

const STATISTICS: [u8; 34] = [
    14, 0, 0, 0, 0, 0, 0, 0, 3, 0, 0, 0, 3, 0, 0, 0, 1, 0, 0, 1, 0, 0, 0, 3, 0, 0, 0, 0, 0, 0, 0,
    0, 0, 0,
];

/// The introduction of site 2 of 2, in its frame.
const INTRODUCTION: [u8; 25] = [
    0, 0, 0, 21, 71, 0, 2, 0, 2, 1, 2, 3, 4, 5, 6, 7, 8, 9, 10, 11, 12, 13, 14, 15, 16,
];

/// A batch of two records, which delete a key each, and of one consent; in its frame.
const BATCH: [u8; 58] = [
    0, 0, 0, 54, 16, 0, 2, 0, 2, 0, 0, 0, 1, 1, 0, 0, 0, 0, 0, 0, 1, 1, 97, 0, 0, 2, 0, 0, 0, 2, 1,
    0, 2, 0, 0, 0, 1, 1, 1, 98, 0, 1, 0, 2, 0, 0, 0, 1, 0, 0, 0, 0, 0, 0, 0, 0, 0, 2,
];

/// A batch of one record, which deletes a key of two bytes, in its frame.
const LONGER_KEY: [u8; 26] = [
    0, 0, 0, 22, 16, 0, 1, 0, 2, 0, 0, 0, 3, 1, 0, 0, 0, 0, 0, 0, 1, 2, 97, 98, 0, 0,
];

#[test]
fn exchanges_are_made(rt: HostRuntime) {
    let alloc = rt.alloc();
    let mut machine = InMemory {
        machine: Replying { asked: 0 },
    };
    let mut reply = ReplyBuf::new(alloc).expect(&rt, "memory");
    let mut peer = Peer::new(5);
    assert!(rt; peer.tick(alloc, &mut machine, 5, &mut reply) == Deed::Call);
    assert!(rt; peer.connected(alloc, &mut machine, 6, &mut reply) == Deed::Stay);
    assert!(rt; peer.to_write() == [0, 0, 0, 1, 71].as_slice());
    assert!(rt; peer.sent(7, 5) == Deed::Stay);
    assert!(rt; peer.receive(alloc, 8, &INTRODUCTION) == Deed::Stay);
    assert!(rt; peer.rests_for(8) == 0);
    assert!(rt; peer.tick(alloc, &mut machine, 9, &mut reply) == Deed::Stay);
    assert!(rt; peer.to_write() == [0, 0, 0, 6, 19, 1, 0, 0, 0, 3].as_slice());
    assert!(rt; peer.sent(9, 10) == Deed::Stay);
    assert!(rt; peer.receive(alloc, 10, &BATCH[..20]) == Deed::Stay);
    assert!(rt; peer.receive(alloc, 11, &BATCH[20..]) == Deed::Stay);
    assert!(rt; peer.rests_for(11) == 0);
    assert!(rt; peer.tick(alloc, &mut machine, 12, &mut reply) == Deed::Stay);
    assert!(rt; machine.machine.asked == 5);
    assert!(rt; peer.rests_for(13) == 4_999);
    // the record of the next answer finds no room
    assert!(rt; peer.tick(alloc, &mut machine, 5_012, &mut reply) == Deed::Stay);
    assert!(rt; peer.sent(5_012, 10) == Deed::Stay);
    assert!(rt; peer.receive(alloc, 5_013, &LONGER_KEY) == Deed::Stay);
    let why = Failure::NoRoom { records: 1 };
    assert!(rt;
        peer.tick(alloc, &mut machine, 5_014, &mut reply) == Deed::Fail { why, told: true }
    );
    assert!(rt; peer.rests_for(5_014) == 1_000);
}
