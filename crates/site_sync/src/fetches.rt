//! What a peer answers.

ghost use Rattle.std.specs.Prelude.{◌≡◌, ◌<◌, ◌≤◌, ℕ, List, [], length, Err, IfOk, IsTrue};
ghost use Rattle.tardis_base.specs.Sizes.{piece as most_taken};
ghost use Rattle.tardis_io.specs.Told.{WhileTold};
ghost use Rattle.tardis_io.specs.Faults.{Rose};
ghost use Rattle.wire_item.specs.Valid.{is_batch};
ghost use Rattle.site_sync.specs.Fetching.{Gave, Fetched, IsAnswer};

use crate::ends::SyncEnd;
use frame_cut::{Cut, FrameCutter};
use std::alloc::Global;
use talk_bytes::read_reply;
use tardis_base::{Batch, ReadFault, Reply};
use tardis_io::{Duplex, Failed, WriteFault, write_all};
use wire_talk::talk_has_one_spelling;

/// Gives a peer a request and reads the frame that it answers: the batch in it, or why there is none.
pub(crate) fn fetch<D: Duplex>(
    alloc: Global,
    device: &mut D,
    request: &[u8],
    cutter: &mut FrameCutter,
    piece: &mut [u8],
) -> Result<Batch, SyncEnd>
    requires fresh { cutter.old ≡ [] }
    requires room { (0 < length piece.old) × (length piece.old ≤ most_taken) }
    ensures valid { IfOk result (λ batch. IsTrue (is_batch batch)) }
    ensures gave { WhileTold (D.given device.old) (D.given device.new) (λ before after. Gave result before after request.now) }
    ensures fetched { WhileTold (D.left device.old) (D.left device.new) (Fetched result) }
    ensures read_later { D.take_faults device.old ≤ D.take_faults device.new }
    ensures write_later { D.faults device.old ≤ D.faults device.new }
    ensures read { result ≡ Err SyncEnd.ReadFault → Rose (D.take_faults device.old) (D.take_faults device.new) }
    ensures write { result ≡ Err SyncEnd.WriteFault → Rose (D.faults device.old) (D.faults device.new) }
    ensures no_dial { result ≡ Err SyncEnd.DialFault → ⊥ }
{
    match write_all(device, request) {
        Ok(()) => read_batch(alloc, device, cutter, piece),
        Err(WriteFault) => Err(SyncEnd::WriteFault),
    }
}

/// Reads the first frame of a link: the batch in it, or why there is none.
fn read_batch<D: Duplex>(
    alloc: Global,
    device: &mut D,
    cutter: &mut FrameCutter,
    piece: &mut [u8],
) -> Result<Batch, SyncEnd>
    requires fresh { cutter.old ≡ [] }
    requires room { (0 < length piece.old) × (length piece.old ≤ most_taken) }
    ensures fetched { WhileTold (D.left device.old) (D.left device.new) (Fetched result) }
    ensures valid { IfOk result (λ batch. IsTrue (is_batch batch)) }
    ensures given { D.given device.new ≡ D.given device.old }
    ensures faults { D.faults device.new ≡ D.faults device.old }
    ensures read_later { D.take_faults device.old ≤ D.take_faults device.new }
    ensures read { result ≡ Err SyncEnd.ReadFault → Rose (D.take_faults device.old) (D.take_faults device.new) }
    ensures write { result ≡ Err SyncEnd.WriteFault → ⊥ }
    ensures no_dial { result ≡ Err SyncEnd.DialFault → ⊥ }
{
    loop {
        match cutter.next() {
            Cut::Frame(body) => return batch_in(alloc, body),
            Cut::NeedMore => match device.take(piece) {
                Ok(0) => return Err(SyncEnd::Cut),
                Ok(count) => {
                    let _ = cutter.feed(&piece[..count]);
                }
                Err(Failed) => return Err(SyncEnd::ReadFault),
            },
            Cut::Long { len } => return Err(SyncEnd::LongFrame { len }),
        }
    }
}

/// The batch that a reply is.
fn batch_in(alloc: Global, body: &[u8]) -> Result<Batch, SyncEnd>
    ensures answer { IsAnswer body.now result }
    ensures valid { IfOk result (λ batch. IsTrue (is_batch batch)) }
{
    talk_has_one_spelling();
    match read_reply(alloc, body) {
        Ok(Reply::Batch { batch }) => Ok(batch),
        Ok(_) => Err(SyncEnd::BadReply),
        Err(ReadFault::Malformed) => Err(SyncEnd::BadReply),
        Err(ReadFault::NoMemory) => Err(SyncEnd::NoMemory),
    }
}
