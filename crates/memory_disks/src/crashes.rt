//! What a crash leaves of a disk in memory, by a choice.

ghost use Rattle.std.specs.Prelude.{◌≡◌, ◌≤◌, ℕ, take, drop, length, IfOk, OnOk};
ghost use Rattle.disk_store.specs.Disks.{Torn, Shortened};
ghost use Rattle.memory_disks.specs.Memory.{IsStep, Steps, used_of, with_written};
ghost use Rattle.memory_disks.specs.Crashes.{IsSettled, HasNoSync, read_after, read_after_all, IsPart};

use crate::histories::{Kept, overwrite};
use crate::mixes::{blend, fill_to};
use tardis_base::NoMemory;

/// Numbers that are taken off a number as its digits, the lowest first, each to a base of its own. Of 0 all are 0.
#[derive(Clone, Copy)]
pub(crate) struct Digits {
    left: u64,
}

/// Which of the bytes of a write are there: `junk` of its range from the front on hold junk, and over these stand the
/// written bytes from `from` to `to`.
#[derive(Clone, Copy)]
struct Part {
    junk: usize,
    from: usize,
    to: usize,
}

impl Digits {
    pub(crate) fn new(number: u64) -> Digits {
        Digits { left: number }
    }

    /// The next digit, from 0 to `most`.
    pub(crate) fn up_to(&mut self, most: usize) -> usize
        ensures { result ≤ most }
    {
        let Some(base) = (most as u64).checked_add(1) else {
            return 0;
        };
        let digit = self.left % base;
        self.left /= base;
        digit as usize
    }

    /// A byte.
    fn byte(&mut self) -> u8 {
        self.up_to(255) as u8
    }

    /// A part of a write of so many bytes: its front; the front, with junk behind it; the back, with junk in front of
    /// it; or junk alone.
    fn part(&mut self, count: usize) -> Part
        ensures { IsPart count result.junk result.from result.to }
    {
        let cut = count - self.up_to(count);
        match self.up_to(3) {
            0 => Part {
                junk: 0,
                from: 0,
                to: cut,
            },
            1 => Part {
                junk: count,
                from: 0,
                to: cut,
            },
            2 => Part {
                junk: count,
                from: cut,
                to: count,
            },
            _ => Part {
                junk: cut,
                from: cut,
                to: cut,
            },
        }
    }
}

/// How many of the calls there are up to the last sync, with it. A replacement that was done counts as one.
pub(crate) fn count_to_sync(calls: &[Kept]) -> usize
    ensures within { result ≤ length calls.now }
    ensures settled { IsSettled (take result calls.now) }
    ensures since { HasNoSync (drop result calls.now) }
{
    let mut count = calls.len();
    while count > 0 {
        if calls[count - 1].is_sync() {
            return count;
        }
        count -= 1;
    }
    0
}

/// Does all of these calls to the bytes, and gives the written bytes that are left.
pub(crate) fn redo<'a>(
    image: &mut Vec<u8>,
    calls: &[Kept],
    written: &'a [u8],
) -> Result<&'a [u8], NoMemory>
    requires { used_of calls.now ≤ length written.now }
    ensures image { OnOk result (image.new.items ≡ read_after_all image.old.items (with_written calls.now written.now)) }
    ensures left { IfOk result (λ left. left.now ≡ drop (used_of calls.now) written.now) }
{
    let (mut later, mut left) = (calls, written);
    while let Some((kept, rest)) = later.split_first() {
        let (bytes, others) = left.split_at(kept.used());
        redo_one(image, *kept, bytes)?;
        later = rest;
        left = others;
    }
    Ok(left)
}

/// Does a call to the bytes.
fn redo_one(image: &mut Vec<u8>, kept: Kept, bytes: &[u8]) -> Result<(), NoMemory>
    ensures { OnOk result (image.new.items ≡ read_after image.old.items (kept, bytes.now)) }
{
    match kept {
        Kept::Wrote { place, count: _ } => {
            let Ok(()) = image.reserve(bytes.len()) else {
                return Err(NoMemory);
            };
            overwrite(image, place as usize, bytes);
        }
        Kept::WroteBytewise { place, count: _ } => {
            fill_to(image, place as usize)?;
            let Ok(()) = image.reserve(bytes.len()) else {
                return Err(NoMemory);
            };
            overwrite(image, place as usize, bytes);
        }
        Kept::CutTo { len } => image.truncate(len as usize),
        Kept::Replaced { count: _ } => fill_with(image, bytes)?,
        Kept::Looked
        | Kept::Tore { .. }
        | Kept::ToreBytewise { .. }
        | Kept::MayCut { .. }
        | Kept::MayReplace { .. }
        | Kept::Synced => {}
    }
    Ok(())
}

/// Makes of the bytes what a crash may leave of them while none of these calls is synced, each in part, by the digits.
pub(crate) fn tear(
    image: &mut Vec<u8>,
    calls: &[Kept],
    written: &[u8],
    digits: Digits,
) -> Result<(), NoMemory>
    requires { used_of calls.now ≤ length written.now }
    ensures { OnOk result (Steps image.old.items (with_written calls.now written.now) image.new.items) }
{
    let (mut later, mut left, mut digits) = (calls, written, digits);
    while let Some((kept, rest)) = later.split_first() {
        let (bytes, others) = left.split_at(kept.used());
        tear_one(image, *kept, bytes, &mut digits)?;
        later = rest;
        left = others;
    }
    Ok(())
}

/// Makes of the bytes what a crash may leave of them while this call isn't synced.
fn tear_one(
    image: &mut Vec<u8>,
    kept: Kept,
    bytes: &[u8],
    digits: &mut Digits,
) -> Result<(), NoMemory>
    ensures { OnOk result (IsStep (kept, bytes.now) image.old.items image.new.items) }
{
    match kept {
        Kept::Wrote { place, count: _ } => write_part(image, place as usize, bytes, digits),
        Kept::Tore { place, count } => {
            let junk = digits.up_to(count);
            let byte = digits.byte();
            spoil(image, place as usize, junk, byte)
        }
        Kept::WroteBytewise { place, count: _ } => blend(image, place as usize, bytes, digits),
        Kept::ToreBytewise { place, count: _ } => blend(image, place as usize, bytes, digits),
        Kept::CutTo { len } => {
            let least = image.len().min(len as usize);
            let more = digits.up_to(image.len() - least);
            image.truncate(least + more);
            Ok(())
        }
        Kept::MayCut { len } => {
            let least = image.len().min(len as usize);
            let less = digits.up_to(image.len() - least);
            image.truncate(image.len() - less);
            Ok(())
        }
        Kept::MayReplace { count: _ } => match digits.up_to(1) {
            0 => Ok(()),
            _ => fill_with(image, bytes),
        },
        Kept::Looked | Kept::Synced | Kept::Replaced { .. } => Ok(()),
    }
}

/// Puts bytes in the place of all that are there.
fn fill_with(image: &mut Vec<u8>, bytes: &[u8]) -> Result<(), NoMemory>
    ensures { OnOk result (image.new.items ≡ bytes.now) }
{
    image.truncate(0);
    match image.extend_from_slice(bytes) {
        Ok(()) => Ok(()),
        Err(_) => Err(NoMemory),
    }
}

/// Writes bytes at a place in part, or nothing of them.
fn write_part(
    image: &mut Vec<u8>,
    place: usize,
    bytes: &[u8],
    digits: &mut Digits,
) -> Result<(), NoMemory>
    ensures { OnOk result (Torn place (length bytes.now) image.old.items image.new.items) }
{
    let part = digits.part(bytes.len());
    let byte = digits.byte();
    spoil(image, place, part.junk, byte)?;
    let Some(start) = place.checked_add(part.from) else {
        return Err(NoMemory);
    };
    put(image, start, &bytes[part.from..part.to])
}

/// Writes so many junk bytes at a place.
fn spoil(image: &mut Vec<u8>, place: usize, count: usize, byte: u8) -> Result<(), NoMemory>
    ensures { OnOk result (Torn place count image.old.items image.new.items) }
{
    let Ok(junk) = Vec::from_elem(*image.allocator(), byte, count) else {
        return Err(NoMemory);
    };
    put(image, place, junk.as_slice())
}

/// Writes bytes at a place. Where it is past the end, zeros fill what lies between; no bytes leave all as it is.
fn put(image: &mut Vec<u8>, place: usize, bytes: &[u8]) -> Result<(), NoMemory>
    ensures { OnOk result (Torn place (length bytes.now) image.old.items image.new.items) }
{
    if bytes.is_empty() {
        return Ok(());
    }
    if image.len() < place {
        let Ok(()) = image.resize(place, 0) else {
            return Err(NoMemory);
        };
    }
    let Ok(()) = image.reserve(bytes.len()) else {
        return Err(NoMemory);
    };
    overwrite(image, place, bytes);
    Ok(())
}
