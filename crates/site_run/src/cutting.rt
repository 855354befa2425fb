//! What cuts the bytes of an input into bodies: by frames, or by lines.

ghost use Rattle.std.specs.Prelude.{◌≡◌, ◌≤◌, ◌++◌, ℕ, List, [], length, IfOk};
ghost use Rattle.std.specs.Borrow.{sem};
ghost use Rattle.std.specs.Io.BufRead.{Rests};
ghost use Rattle.tardis_base.specs.Sizes.{piece as longest_piece};
ghost use Rattle.site_run.specs.Forms.{Form, frame_form, line_form};
ghost use Rattle.site_run.specs.Nexts.{IsNext, Leaves, IsLast};

use frame_cut::{Cut, FrameCutter};
use line_cut::{Cut as LineCut, LineCutter};
use std::alloc::Global;
use tardis_base::{MAX_FRAME, NoMemory};

/// What stands at the front of the bytes that are held.
#[derive(Clone, Copy)]
pub(crate) enum Next<'a> {
    /// A body.
    Body(&'a [u8]),
    /// Nothing, or bytes that more may make a body.
    Part,
    /// More than a body may have, which is told by this length.
    Long(u32),
}

/// What the bytes that are held are where the input ends.
#[derive(Clone, Copy)]
pub(crate) enum Last<'a> {
    /// No body.
    Nothing,
    /// One more body.
    OneMore(&'a [u8]),
    /// A body that is cut off.
    CutOff,
}

/// A way to cut a stream of bytes into bodies, whatever the pieces in which the bytes come.
pub(crate) trait Cutter: Sized + Drop {
    // the bytes that were fed and that no body handed out has used
    ghost held: { Self → List ℕ };

    // what is cut
    ghost form: { Form };

    /// A cutter that holds nothing.
    fn new(alloc: Global) -> Result<Self, NoMemory>
        ensures { IfOk result (λ c. held c ≡ []) };

    /// Takes all of a piece behind what may become a body.
    fn feed(&mut self, piece: &[u8])
        requires part { form.IsPart (held self.old) }
        requires size { length piece.now ≤ longest_piece }
        ensures { held self.new ≡ held self.old ++ piece.now };

    /// What stands at the front. A body that is handed out is no longer held.
    fn next(&mut self) -> Next<'_>
        ensures* after { sem 𝓛 (Rests Self.row self.entry (λ now. Leaves form (held self.old) result (held now))) }
        ensures cut { IsNext form (held self.old) result };

    /// What is held where the input ends.
    fn last(&self) -> Last<'_>
        requires { form.IsPart (held self.now) }
        ensures { IsLast form (held self.now) result };
}

impl Cutter for FrameCutter {
    ghost held = { λ c. c };

    ghost form = { frame_form };

    fn new(alloc: Global) -> Result<FrameCutter, NoMemory> {
        FrameCutter::new(alloc)
    }

    fn feed(&mut self, piece: &[u8]) {
        let _ = FrameCutter::feed(self, piece);
    }

    fn next(&mut self) -> Next<'_> {
        match FrameCutter::next(self) {
            Cut::Frame(body) => Next::Body(body),
            Cut::NeedMore => Next::Part,
            Cut::Long { len } => Next::Long(len),
        }
    }

    fn last(&self) -> Last<'_> {
        if self.holds_any() {
            Last::CutOff
        } else {
            Last::Nothing
        }
    }
}

/// The length that is told of a line that is too long.
const LONGER: u32 = MAX_FRAME as u32 + 1;

impl Cutter for LineCutter {
    ghost held = { λ c. c };

    ghost form = { line_form };

    fn new(alloc: Global) -> Result<LineCutter, NoMemory> {
        LineCutter::new(alloc)
    }

    fn feed(&mut self, piece: &[u8]) {
        let _ = LineCutter::feed(self, piece);
    }

    fn next(&mut self) -> Next<'_> {
        match LineCutter::next(self) {
            LineCut::Line(line) => Next::Body(line),
            LineCut::NeedMore => Next::Part,
            LineCut::Long => Next::Long(LONGER),
        }
    }

    fn last(&self) -> Last<'_> {
        let held = LineCutter::last(self);
        if held.is_empty() {
            Last::Nothing
        } else {
            Last::OneMore(held)
        }
    }
}
