//! An input that is read whole.

ghost use Rattle.std.specs.Prelude.{◌≡◌, ◌≤◌, ◌<◌, Err, length, IfOk};
ghost use Rattle.tardis_base.specs.Sizes.{piece as longest_piece};
ghost use Rattle.tardis_io.specs.Told.{WhileTold, Takes};
ghost use Rattle.tardis_io.specs.Faults.{HasCause, Rose};
ghost use Rattle.branch_export.specs.Imported.{IsRead};

use std::alloc::Global;
use tardis_base::PIECE;
use tardis_io::{Failed, Source};

/// Why an input wasn't read to its end.
#[derive(Clone, Copy)]
pub(crate) enum InputFault {
    ReadFault,
    NoMemory,
    /// 1,099,511,627,776 bytes were taken.
    Spent,
}

/// How many bytes are taken at most: 1 TiB.
const MOST_TAKEN: usize = 1_099_511_627_776;

/// All bytes of an input, up to its end.
///
/// They are taken in pieces of at most 65,536 bytes. The room for them doubles as they grow.
pub(crate) fn read_whole<I: Source>(alloc: Global, input: &mut I) -> Result<Vec<u8>, InputFault>
    ensures read { WhileTold (I.left input.old) (I.left input.new) (IsRead (λ bytes. bytes.items) result) }
    ensures later { I.faults input.old ≤ I.faults input.new }
    ensures cause { result ≡ Err InputFault.ReadFault → Rose (I.faults input.old) (I.faults input.new) }
{
    let Ok(mut piece) = vec![in alloc; 0; PIECE] else {
        return Err(InputFault::NoMemory);
    };
    read_by(alloc, input, piece.as_mut_slice())
}

/// The same, by pieces that come into this buffer.
fn read_by<I: Source>(alloc: Global, input: &mut I, piece: &mut [u8]) -> Result<Vec<u8>, InputFault>
    requires { length piece.old ≡ longest_piece }
    ensures read { WhileTold (I.left input.old) (I.left input.new) (IsRead (λ bytes. bytes.items) result) }
    ensures later { I.faults input.old ≤ I.faults input.new }
    ensures cause { result ≡ Err InputFault.ReadFault → Rose (I.faults input.old) (I.faults input.new) }
{
    let mut bytes = Vec::new(alloc);
    while bytes.len() < MOST_TAKEN {
        let size = PIECE.min(MOST_TAKEN - bytes.len());
        match take_front(input, piece, size) {
            Ok(0) => return Ok(bytes),
            Ok(count) => match bytes.extend_from_slice(&piece[..count]) {
                Ok(()) => {}
                Err(_) => return Err(InputFault::NoMemory),
            },
            Err(Failed) => return Err(InputFault::ReadFault),
        }
    }
    Err(InputFault::Spent)
}

/// Takes at most so many bytes into the front of a buffer.
fn take_front<I: Source>(input: &mut I, buf: &mut [u8], most: usize) -> Result<usize, Failed>
    requires some { 0 < most }
    requires room { most ≤ length buf.old }
    ensures bound { IfOk result (λ n. n ≤ most) }
    ensures bytes { WhileTold (I.left input.old) (I.left input.new) (λ before after. Takes before after result buf.new) }
    ensures cause { HasCause (I.faults input.old) (I.faults input.new) result }
    ensures room { length buf.new ≡ length buf.old }
{
    input.take(&mut buf[..most])
}
