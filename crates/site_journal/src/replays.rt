//! Reading a journal, and doing what it says.

ghost use Rattle.std.specs.Prelude.{◌≡◌, ◌+◌, ◌<◌, ◌≤◌, ◌++◌, [], ◌∷◌, ℕ, List, length, take, drop, map, IfOk, IfSome, IsErrOf};
ghost use Rattle.std.specs.Int.{w32, to_be_bytes};
ghost use Rattle.tardis_base.specs.Sizes.{longest_frame};
ghost use Rattle.tardis_io.specs.Faults.{HasCause, Rose};
ghost use Rattle.disk_store.specs.Disks.{longest_disk, AsHonest};
ghost use Rattle.site_journal.specs.Texts.{IsEntry};
ghost use Rattle.site_journal.specs.Moments.{WasRead};
ghost use Rattle.site_journal.specs.Replays.{IsNextEntry, Replayed};
ghost use Rattle.site_journal.specs.declared.replays.ReplayEnd.TheVariants.{DiskFailed};

use disk_store::Disk;
use frame_cut::event;
use tardis_base::{MAX_FRAME, Machine, NoMemory, ReplyBuf};
use tardis_io::Failed;

/// What was found on a disk: how many entries, where they end, and how many bytes there are.
#[derive(Clone, Copy)]
pub(crate) struct Found {
    pub(crate) entries: u64,
    pub(crate) place: u64,
    pub(crate) size: u64,
}

/// Why the entries weren't replayed.
#[derive(Clone, Copy)]
pub(crate) enum ReplayEnd {
    DiskFailed,
    NoMemory,
}

/// Has a machine at its opening state answer the entries that stand on a disk. `body` is room for one of them.
pub(crate) fn replay<M: Machine, K: Disk>(
    machine: &mut M,
    disk: &mut K,
    body: &mut [u8],
    out: &mut ReplyBuf,
) -> Result<Found, ReplayEnd>
    requires opening { M.stands machine.old (M.opening machine.old) }
    requires room { longest_frame ≤ length body.old }
    ensures replayed { IfOk result (λ found. Replayed M.Machine K.Disk machine.new disk.old found) }
    ensures opening { M.opening machine.new ≡ M.opening machine.old }
    ensures read { K.honest disk.old → WasRead K.Disk disk.old disk.new }
    ensures honest { AsHonest K.honest disk.old disk.new }
    ensures later { K.faults disk.old ≤ K.faults disk.new }
    ensures failed { IsErrOf result DiskFailed → Rose (K.faults disk.old) (K.faults disk.new) }
{
    let size = match disk.len() {
        Ok(size) => size,
        Err(Failed) => return Err(ReplayEnd::DiskFailed),
    };
    let mut place = 0;
    let mut entries = 0;
    loop {
        match next_entry(disk, place, size, body) {
            Ok(Some(count)) => {
                let (actor, request) = event(&body[..count]);
                match machine.act(actor, request, out) {
                    Ok(()) => {}
                    Err(NoMemory) => return Err(ReplayEnd::NoMemory),
                }
                place += 5 + count as u64;
                entries += 1;
            }
            Ok(None) => {
                return Ok(Found {
                    entries,
                    place,
                    size,
                });
            }
            Err(Failed) => return Err(ReplayEnd::DiskFailed),
        }
    }
}

/// The length of the entry at a place, which is read to the front of `body`; none where the entries end there.
pub(crate) fn next_entry<K: Disk>(
    disk: &mut K,
    place: u64,
    size: u64,
    body: &mut [u8],
) -> Result<Option<usize>, Failed>
    requires within { place ≤ size }
    requires size { K.honest disk.old → size ≡ length (K.reads disk.old) }
    requires room { longest_frame ≤ length body.old }
    ensures fits { IfOk result (λ next. IfSome next (λ count. (2 ≤ count) × (count ≤ longest_frame) × (place + 5 + count < size))) }
    ensures next { K.honest disk.old → IfOk result (λ next. IsNextEntry (drop place (K.reads disk.old)) body.new next) }
    ensures room { length body.new ≡ length body.old }
    ensures read { K.honest disk.old → WasRead K.Disk disk.old disk.new }
    ensures honest { AsHonest K.honest disk.old disk.new }
    ensures cause { HasCause (K.faults disk.old) (K.faults disk.new) result }
{
    if size - place < 8 {
        return Ok(None);
    }
    let mut mark = [0; 1];
    disk.read_at(place, &mut mark)?;
    let mut head = [0; 4];
    disk.read_at(place + 1, &mut head)?;
    let count = length_of(&head) as usize;
    if mark[0] != 1 {
        return Ok(None);
    }
    if count < 2 {
        return Ok(None);
    }
    if MAX_FRAME < count {
        return Ok(None);
    }
    if size - place - 5 <= count as u64 {
        return Ok(None);
    }
    disk.read_at(place + 5, &mut body[..count])?;
    Ok(Some(count))
}

/// The number that a length word spells.
fn length_of(head: &[u8]) -> u32
    requires { length head.now ≡ 4 }
    ensures { to_be_bytes w32 result ≡ head.now }
{
    let Some(word) = head.first_chunk::<4>() else {
        return 0;
    };
    u32::from_be_bytes(*word)
}
