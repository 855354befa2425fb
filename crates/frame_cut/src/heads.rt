//! The length word of a frame.

ghost use Rattle.std.specs.Prelude.{◌≡◌, ◌≤◌, ◌++◌, length};
ghost use Rattle.tardis_base.specs.Sizes.{longest_frame};
ghost use Rattle.frame_cut.specs.Frames.{frame};
ghost use Rattle.frame_cut.specs.Sizes.{IsSize};

use tardis_base::MAX_FRAME;

/// The longest body of a frame.
pub(crate) const LONGEST: u32 = MAX_FRAME as u32;

/// How long the body of the frame at the front is.
#[derive(Clone, Copy)]
pub(crate) enum Size {
    /// The frame is whole, and its body has so many bytes.
    Body(usize),
    /// The frame isn't whole yet.
    Less,
    /// The length word is above 1,048,576.
    TooLong(u32),
}

/// Reads the length word at the front.
pub(crate) fn frame_size(bytes: &[u8]) -> Size
    ensures { IsSize bytes.now result }
{
    let Some(head) = bytes.first_chunk::<4>() else {
        return Size::Less;
    };
    let len = u32::from_be_bytes(*head);
    if len > LONGEST {
        return Size::TooLong(len);
    }
    let count = len as usize;
    if bytes.len() - 4 < count {
        return Size::Less;
    }
    Size::Body(count)
}

/// Writes the length word that stands before this body in a frame.
pub fn put_frame(body: &[u8], head: &mut [u8; 4])
    requires { length body.now ≤ longest_frame }
    ensures { head.new ++ body.now ≡ frame body.now }
{
    *head = (body.len() as u32).to_be_bytes();
}
