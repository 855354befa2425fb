//! The record of a disk in memory: what it held at first, and what was done to it.

ghost use Rattle.std.specs.Prelude.{◌≡◌, ◌+◌, ◌<◌, ◌≤◌, true, false, [], ◌∷◌, ◌++◌, length, take, drop, vec_capacity, IfOk, OnOk};
ghost use Rattle.disk_store.specs.Disks.{with_bytes, Torn, Shortened};
ghost use Rattle.memory_disks.specs.Memory.{known_of, with_call, with_written, used, used_of, IsWrite, IsTorn, IsQuiet, IsImage, HasRoom, IsFull};
ghost use Rattle.memory_disks.specs.Crashes.{unused, IsSync, IsSince};
ghost use Rattle.memory_disks.specs.declared.histories.Kept.TheVariants.{CutTo, Replaced};

use crate::crashes::{Digits, count_to_sync, redo, tear};
use std::alloc::Global;
use std::marker::Model;
use tardis_base::NoMemory;

/// A call of a disk in memory.
#[derive(Clone, Copy)]
pub enum Kept {
    /// Nothing was changed.
    Looked,
    Wrote { place: u64, count: usize },
    /// A write of so many bytes failed.
    Tore { place: u64, count: usize },
    /// A bytewise write.
    WroteBytewise { place: u64, count: usize },
    /// A bytewise write of so many bytes failed. They are kept: of each of them a crash may leave it or the old one.
    ToreBytewise { place: u64, count: usize },
    CutTo { len: u64 },
    /// A cut failed.
    MayCut { len: u64 },
    Synced,
    /// So many bytes were put in the place of all, which counts as a sync of them.
    Replaced { count: usize },
    /// A replacement by so many bytes failed. They are kept: a crash may leave them, or what it might have left before.
    MayReplace { count: usize },
}

/// The bytes that a disk held at first and the calls since, in room that was taken at first. It is seen as these, and
/// keeps what a read gives.
#[derive(Drop)]
pub struct History {
    first: Vec<u8>,
    bytes: Vec<u8>,
    written: Vec<u8>,
    calls: Vec<Kept>,
    room: usize,
}

impl Model for History {
    ghost use Rattle.std.specs.Prelude.{◌≡◌, ◌+◌, ◌≤◌, length, vec_capacity};
    ghost use Rattle.memory_disks.specs.Memory.{Recorded, fresh, known_after, with_written, used_of};

    ghost Value = { Recorded };

    ghost view = { λ r. record { first = r.first.items; calls = with_written r.calls.items r.written.items; written = length r.written.items; room = r.room } };

    ghost invariant = { λ r. (r.bytes.items ≡ (known_after (fresh r.first.items) (with_written r.calls.items r.written.items)).reads)
        × (used_of r.calls.items ≡ length r.written.items) × (length r.bytes.items ≤ length r.first.items + length r.written.items)
        × (length r.first.items + r.room ≤ vec_capacity r.bytes) × (r.room ≤ vec_capacity r.written) × (r.room ≤ vec_capacity r.calls)
        × (length r.written.items ≤ r.room) × (length r.calls.items ≤ r.room) };
}

/// What the last good sync left, the calls since, and the bytes that they wrote.
#[derive(Drop)]
struct Settled<'a> {
    image: Vec<u8>,
    calls: &'a [Kept],
    written: &'a [u8],
}

impl History {
    /// The bytes, with nothing done to them, and room for so many calls and so many written bytes.
    pub(crate) fn new(alloc: Global, bytes: &[u8], room: usize) -> Result<History, NoMemory>
        ensures { IfOk result (λ r. r ≡ unused bytes.now room) }
    {
        let Ok(first) = Vec::from_slice(alloc, bytes) else {
            return Err(NoMemory);
        };
        let Ok(held) = with_room(alloc, bytes, room) else {
            return Err(NoMemory);
        };
        let Ok(written) = Vec::with_capacity(alloc, room) else {
            return Err(NoMemory);
        };
        let Ok(calls) = Vec::with_capacity(alloc, room) else {
            return Err(NoMemory);
        };
        Ok(History {
            first,
            bytes: held,
            written,
            calls,
            room,
        })
    }

    /// What a read gives.
    pub(crate) fn bytes(&self) -> &[u8]
        ensures { result.now ≡ (known_of self.now).reads }
    {
        self.bytes.as_slice()
    }

    /// For how many calls and written bytes there is room in all.
    pub(crate) fn room(&self) -> usize
        ensures { result ≡ self.now.room }
    {
        self.room
    }

    /// What a crash now leaves, by the choice: of 0 what a read gives, of 1 what the last good sync left, and of another
    /// number what its digits make of the calls since. A replacement that was done counts as a sync.
    pub(crate) fn image(&self, choice: u64) -> Result<Vec<u8>, NoMemory>
        ensures image { IfOk result (λ v. IsImage (known_of self.now) v.items) }
        ensures whole { choice ≡ 0 → IfOk result (λ v. v.items ≡ (known_of self.now).reads) }
        ensures none { choice ≡ 1 → IfOk result (λ v. v.items ≡ (known_of self.now).base) }
    {
        match choice {
            0 => copy_of(&self.bytes),
            1 => self.synced(),
            _ => self.torn(Digits::new(choice - 1)),
        }
    }

    /// What the last good sync left, and the calls since.
    fn settled(&self) -> Result<Settled<'_>, NoMemory>
        ensures image { IfOk result (λ s. s.image.items ≡ (known_of self.now).base) }
        ensures since { IfOk result (λ s. IsSince (known_of self.now) (with_written s.calls.now s.written.now)) }
        ensures written { IfOk result (λ s. used_of s.calls.now ≤ length s.written.now) }
    {
        let calls = self.calls.as_slice();
        let count = count_to_sync(calls);
        let mut image = copy_of(&self.first)?;
        let written = redo(&mut image, &calls[..count], self.written.as_slice())?;
        Ok(Settled {
            image,
            calls: &calls[count..],
            written,
        })
    }

    /// What the last good sync left.
    fn synced(&self) -> Result<Vec<u8>, NoMemory>
        ensures { IfOk result (λ v. v.items ≡ (known_of self.now).base) }
    {
        let Settled { image, .. } = self.settled()?;
        Ok(image)
    }

    /// What the last good sync left, with each call since in part, by the digits.
    fn torn(&self, digits: Digits) -> Result<Vec<u8>, NoMemory>
        ensures { IfOk result (λ v. IsImage (known_of self.now) v.items) }
    {
        let Settled {
            mut image,
            calls,
            written,
        } = self.settled()?;
        tear(&mut image, calls, written, digits)?;
        Ok(image)
    }

    /// Fills a buffer with the bytes from a place on.
    pub(crate) fn read(&self, place: u64, buf: &mut [u8])
        requires { place + length buf.old ≤ length (known_of self.now).reads }
        ensures { buf.new ≡ take (length buf.old) (drop place (known_of self.now).reads) }
    {
        copy_from(self.bytes.as_slice(), place as usize, buf);
    }

    /// Whether one more call that writes so many bytes finds room.
    pub(crate) fn has_room(&self, count: usize) -> bool
        ensures fits { result ≡ true → HasRoom self.now count }
        ensures full { result ≡ false → IsFull self.now count }
    {
        if self.calls.len() == self.room {
            return false;
        }
        if self.room - self.written.len() < count {
            return false;
        }
        true
    }

    /// Whether no call more finds room.
    pub(crate) fn is_full(&self) -> bool
        ensures room { result ≡ false → length self.now.calls < self.now.room }
        ensures full { result ≡ true → self.now.room ≤ length self.now.calls }
    {
        if self.calls.len() < self.room {
            return false;
        }
        true
    }

    /// Records a call that leaves what a read gives.
    pub(crate) fn note(&mut self, kept: Kept)
        requires quiet { IsQuiet kept }
        requires room { length self.old.calls < self.old.room }
        ensures { self.new ≡ with_call self.old kept [] }
    {
        push_call(&mut self.calls, kept);
    }

    /// Writes bytes, and records it as this.
    pub(crate) fn write(&mut self, kept: Kept, place: u64, bytes: &[u8])
        requires kept { IsWrite kept place (length bytes.now) }
        requires begin { place ≤ length (known_of self.old).reads }
        requires room { length self.old.calls < self.old.room }
        requires bytes { self.old.written + length bytes.now ≤ self.old.room }
        ensures { self.new ≡ with_call self.old kept bytes.now }
    {
        overwrite(&mut self.bytes, place as usize, bytes);
        push_bytes(&mut self.written, bytes);
        push_call(&mut self.calls, kept);
    }

    /// Records a call that failed, with its bytes.
    pub(crate) fn keep(&mut self, kept: Kept, bytes: &[u8])
        requires kept { IsTorn kept (length bytes.now) }
        requires room { length self.old.calls < self.old.room }
        requires bytes { self.old.written + length bytes.now ≤ self.old.room }
        ensures { self.new ≡ with_call self.old kept bytes.now }
    {
        push_bytes(&mut self.written, bytes);
        push_call(&mut self.calls, kept);
    }

    /// Puts bytes in the place of all that are there.
    pub(crate) fn replace(&mut self, bytes: &[u8])
        requires room { length self.old.calls < self.old.room }
        requires bytes { self.old.written + length bytes.now ≤ self.old.room }
        ensures { self.new ≡ with_call self.old (Replaced (length bytes.now)) bytes.now }
    {
        let count = bytes.len();
        self.bytes.truncate(0);
        push_bytes(&mut self.bytes, bytes);
        push_bytes(&mut self.written, bytes);
        push_call(&mut self.calls, Kept::Replaced { count });
    }

    /// Cuts the bytes behind a length off.
    pub(crate) fn cut(&mut self, len: u64)
        requires { length self.old.calls < self.old.room }
        ensures { self.new ≡ with_call self.old (CutTo len) [] }
    {
        self.bytes.truncate(len as usize);
        push_call(&mut self.calls, Kept::CutTo { len });
    }
}

impl Kept {
    /// Whether a crash leaves what a read gives after the call, and nothing else.
    pub(crate) fn is_sync(self) -> bool
        ensures sync { result ≡ true → IsSync self }
        ensures none { result ≡ false → IsSync self → ⊥ }
    {
        match self {
            Kept::Synced | Kept::Replaced { .. } => true,
            Kept::Looked
            | Kept::Wrote { .. }
            | Kept::Tore { .. }
            | Kept::WroteBytewise { .. }
            | Kept::ToreBytewise { .. }
            | Kept::CutTo { .. }
            | Kept::MayCut { .. }
            | Kept::MayReplace { .. } => false,
        }
    }

    /// How many bytes of the call are kept.
    pub(crate) fn used(self) -> usize
        ensures { result ≡ used self }
    {
        match self {
            Kept::Wrote { place: _, count }
            | Kept::WroteBytewise { place: _, count }
            | Kept::ToreBytewise { place: _, count }
            | Kept::Replaced { count }
            | Kept::MayReplace { count } => count,
            Kept::Looked
            | Kept::Tore { .. }
            | Kept::CutTo { .. }
            | Kept::MayCut { .. }
            | Kept::Synced => 0,
        }
    }
}

/// Records a call. It takes no memory.
fn push_call(calls: &mut Vec<Kept>, kept: Kept)
    requires { length calls.old.items < vec_capacity calls.old }
    ensures items { calls.new.items ≡ calls.old.items ++ kept ∷ [] }
    ensures room { vec_capacity calls.old ≤ vec_capacity calls.new }
{
    let _ = calls.push(kept);
}

/// Keeps bytes behind the others. It takes no memory.
fn push_bytes(written: &mut Vec<u8>, bytes: &[u8])
    requires { length written.old.items + length bytes.now ≤ vec_capacity written.old }
    ensures items { written.new.items ≡ written.old.items ++ bytes.now }
    ensures room { vec_capacity written.old ≤ vec_capacity written.new }
{
    let _ = written.extend_from_slice(bytes);
}

/// Fills a buffer with the bytes from a place on.
fn copy_from(bytes: &[u8], place: usize, buf: &mut [u8])
    requires { place + length buf.old ≤ length bytes.now }
    ensures { buf.new ≡ take (length buf.old) (drop place bytes.now) }
{
    let count = buf.len();
    let rest = &bytes[place..];
    buf.copy_from_slice(&rest[..count]);
}

/// A copy of the bytes.
fn copy_of(bytes: &Vec<u8>) -> Result<Vec<u8>, NoMemory>
    ensures { IfOk result (λ v. v.items ≡ bytes.now.items) }
{
    match Vec::from_slice(*bytes.allocator(), bytes.as_slice()) {
        Ok(copy) => Ok(copy),
        Err(_) => Err(NoMemory),
    }
}

/// A copy of the bytes, with room for so many more.
fn with_room(alloc: Global, bytes: &[u8], more: usize) -> Result<Vec<u8>, NoMemory>
    ensures bytes { IfOk result (λ v. v.items ≡ bytes.now) }
    ensures room { IfOk result (λ v. length bytes.now + more ≤ vec_capacity v) }
{
    let Some(room) = bytes.len().checked_add(more) else {
        return Err(NoMemory);
    };
    let Ok(mut held) = Vec::with_capacity(alloc, room) else {
        return Err(NoMemory);
    };
    let _ = held.extend_from_slice(bytes);
    Ok(held)
}

/// Puts bytes at a place over those that are there, and past the end. It takes no memory.
pub(crate) fn overwrite(buf: &mut Vec<u8>, place: usize, bytes: &[u8])
    requires { length buf.old.items + length bytes.now ≤ vec_capacity buf.old }
    ensures bytes { buf.new.items ≡ with_bytes buf.old.items place bytes.now }
    ensures room { vec_capacity buf.old ≤ vec_capacity buf.new }
{
    if place < buf.len() && bytes.len() <= buf.len() - place {
        buf[place..place + bytes.len()].copy_from_slice(bytes);
    } else {
        buf.truncate(place);
        let _ = buf.extend_from_slice(bytes);
    }
}
