//! Frames out of pieces of any size.

ghost use Rattle.std.specs.Prelude.{◌≡◌, ◌-◌, ◌<◌, ◌≤◌, ◌++◌, ◌==◌, [], length, take, min, not, IfOk};
ghost use Rattle.std.specs.Borrow.{sem};
ghost use Rattle.std.specs.Io.BufRead.{Rests};
ghost use Rattle.tardis_base.specs.declared.sizes.TheConstants.{PIECE};
ghost use Rattle.frame_cut.specs.declared.cutters.TheConstants.{ROOM};
ghost use Rattle.frame_cut.specs.Frames.{IsPartial};
ghost use Rattle.frame_cut.specs.Cuts.{IsNext, Leaves};
ghost use Rattle.frame_cut.specs.contracts.cutters.FrameCutter.{the_row};

use crate::heads::{Size, frame_size};
use crate::moves::keep_rest;
use std::alloc::Global;
use std::marker::Model;
use tardis_base::{MAX_FRAMED, NoMemory, PIECE};

/// A longest frame, and behind what may stand before its end a whole piece.
const ROOM: usize = MAX_FRAMED + PIECE;

/// What stands at the front of the bytes that are held.
#[derive(Clone, Copy)]
pub enum Cut<'a> {
    /// A whole frame with this body.
    Frame(&'a [u8]),
    /// No bytes, or a proper prefix of a frame.
    NeedMore,
    /// A length word above 1,048,576.
    Long { len: u32 },
}

/// Cuts a stream of bytes into the bodies of its frames, whatever the pieces in which the bytes come. It is seen as the
/// bytes that were fed to it and that no body handed out has used.
///
/// A body is lent where it stands. Bytes that are left over move at most once for each piece. All room is reserved at
/// first and none of it touched before bytes need it, so that a system which hands out pages when they are touched spends
/// few of them on a cutter whose pieces are small.
#[derive(Drop)]
pub struct FrameCutter {
    buf: Vec<u8>,
    start: usize,
}

impl Model for FrameCutter {
    ghost use Rattle.std.specs.Prelude.{List, ℕ, ◌≤◌, length, drop, vec_capacity};
    ghost use Rattle.frame_cut.specs.declared.cutters.TheConstants.{ROOM};

    ghost Value = { List ℕ };

    ghost view = { λ c. drop c.start c.buf.items };

    ghost invariant = { λ c. (c.start ≤ length c.buf.items) × (length c.buf.items ≤ ROOM) × (ROOM ≤ vec_capacity c.buf) };
}

impl FrameCutter {
    /// A cutter that holds nothing. It takes all its memory now.
    pub fn new(alloc: Global) -> Result<FrameCutter, NoMemory>
        ensures { IfOk result (λ c. c ≡ []) }
    {
        match Vec::with_capacity(alloc, ROOM) {
            Ok(buf) => Ok(FrameCutter { buf, start: 0 }),
            Err(_) => Err(NoMemory),
        }
    }

    /// Takes a front of the piece, and answers how many bytes. After `Cut::NeedMore` it takes all of a piece of at
    /// most `PIECE` bytes, and at least one byte of any other.
    pub fn feed(&mut self, piece: &[u8]) -> usize
        ensures held { self.new ≡ self.old ++ take result piece.now }
        ensures count { result ≡ min (length piece.now) (ROOM - length self.old) }
        ensures whole { IsPartial self.old → length piece.now ≤ PIECE → result ≡ length piece.now }
        ensures some { IsPartial self.old → 0 < length piece.now → 0 < result }
    {
        if self.start > 0 {
            keep_rest(&mut self.buf, self.start);
            self.start = 0;
        }
        let count = piece.len().min(ROOM - self.buf.len());
        let _ = self.buf.extend_from_slice(&piece[..count]);
        count
    }

    /// What stands at the front. A body that is handed out is no longer held.
    pub fn next(&mut self) -> Cut<'_>
        ensures* after { sem 𝓛 (Rests the_row self.entry (λ held. Leaves self.old result held)) }
        ensures cut { IsNext self.old result }
    {
        match frame_size(&self.buf[self.start..]) {
            Size::Body(count) => {
                let body = self.start + 4;
                self.start = body + count;
                Cut::Frame(&self.buf[body..body + count])
            }
            Size::Less => Cut::NeedMore,
            Size::TooLong(len) => Cut::Long { len },
        }
    }

    /// Whether bytes are held.
    pub fn holds_any(&self) -> bool
        ensures { result ≡ not (length self.now == 0) }
    {
        self.start < self.buf.len()
    }
}
