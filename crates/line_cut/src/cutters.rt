//! Lines out of pieces of any size.

ghost use Rattle.std.specs.Prelude.{◌≡◌, ◌+◌, ◌-◌, ◌<◌, ◌≤◌, ◌++◌, [], length, take, min, IfOk};
ghost use Rattle.std.specs.Borrow.{sem};
ghost use Rattle.std.specs.Io.BufRead.{Rests};
ghost use Rattle.tardis_base.specs.declared.sizes.TheConstants.{PIECE};
ghost use Rattle.line_cut.specs.declared.cutters.TheConstants.{ROOM};
ghost use Rattle.line_cut.specs.Lines.{IsLine};
ghost use Rattle.line_cut.specs.Cuts.{IsNext, Leaves};
ghost use Rattle.line_cut.specs.contracts.cutters.LineCutter.{the_row};

use crate::feeds::{Size, line_size};
use crate::moves::{move_to_front, put_at};
use std::alloc::Global;
use std::marker::Model;
use tardis_base::{MAX_FRAME, NoMemory, PIECE};

/// A longest line, and behind what may stand before its end a whole piece.
const ROOM: usize = MAX_FRAME + PIECE;

/// What stands at the front of the bytes that are held.
#[derive(Clone, Copy)]
pub enum Cut<'a> {
    /// A line, without the line feed that ends it.
    Line(&'a [u8]),
    /// At most 1,048,576 bytes, and no line feed.
    NeedMore,
    /// More than 1,048,576 bytes before the next line feed or the end.
    Long,
}

/// Cuts a stream of bytes into its lines, whatever the pieces in which the bytes come. It is seen as the bytes that were
/// fed to it and that no line handed out has used.
///
/// A line is lent where it stands. Bytes that are left over move at most once for each piece. Each call of `next` looks
/// through the bytes that are held up to the first line feed.
#[derive(Drop)]
pub struct LineCutter {
    buf: Vec<u8>,
    start: usize,
    end: usize,
}

impl Model for LineCutter {
    ghost use Rattle.std.specs.Prelude.{List, ℕ, ◌≡◌, ◌-◌, ◌≤◌, length, take, drop};
    ghost use Rattle.line_cut.specs.declared.cutters.TheConstants.{ROOM};

    ghost Value = { List ℕ };

    ghost view = { λ c. take (c.end - c.start) (drop c.start c.buf.items) };

    ghost invariant = { λ c. (c.start ≤ c.end) × (c.end ≤ ROOM) × (length c.buf.items ≡ ROOM) };
}

impl LineCutter {
    /// A cutter that holds nothing. It takes all its memory now.
    pub fn new(alloc: Global) -> Result<LineCutter, NoMemory>
        ensures { IfOk result (λ c. c ≡ []) }
    {
        match vec![in alloc; 0; ROOM] {
            Ok(buf) => Ok(LineCutter {
                buf,
                start: 0,
                end: 0,
            }),
            Err(_) => Err(NoMemory),
        }
    }

    /// Takes a front of the piece, and answers how many bytes. After `Cut::NeedMore` it takes all of a piece of at
    /// most `PIECE` bytes, and at least one byte of any other.
    pub fn feed(&mut self, piece: &[u8]) -> usize
        ensures held { self.new ≡ self.old ++ take result piece.now }
        ensures count { result ≡ min (length piece.now) (ROOM - length self.old) }
        ensures whole { IsLine self.old → length piece.now ≤ PIECE → result ≡ length piece.now }
        ensures some { IsLine self.old → 0 < length piece.now → 0 < result }
    {
        if self.start > 0 {
            move_to_front(self.buf.as_mut_slice(), self.start, self.end);
            self.end -= self.start;
            self.start = 0;
        }
        let count = piece.len().min(ROOM - self.end);
        put_at(self.buf.as_mut_slice(), self.end, &piece[..count]);
        self.end += count;
        count
    }

    /// What stands at the front. A line that is handed out is no longer held.
    pub fn next(&mut self) -> Cut<'_>
        ensures* after { sem 𝓛 (Rests the_row self.entry (λ held. Leaves self.old result held)) }
        ensures cut { IsNext self.old result }
    {
        match line_size(&self.buf[self.start..self.end]) {
            Size::Ended(count) => {
                let line = self.start;
                self.start = line + count + 1;
                Cut::Line(&self.buf[line..line + count])
            }
            Size::Less => Cut::NeedMore,
            Size::TooLong => Cut::Long,
        }
    }

    /// The bytes that are held: after `Cut::NeedMore`, at the end of the stream, the last line, which no line feed ends,
    /// where there are any.
    pub fn last(&self) -> &[u8]
        ensures { result.now ≡ self.now }
    {
        &self.buf[self.start..self.end]
    }
}
