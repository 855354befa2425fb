//! The line feed that ends a line.

ghost use Rattle.line_cut.specs.Sizes.{IsSize};

use memchr::memchr;
use tardis_base::MAX_FRAME;

/// How long the line at the front is.
#[derive(Clone, Copy)]
pub(crate) enum Size {
    /// A line feed stands behind so many bytes.
    Ended(usize),
    /// No line feed is there, and no more than 1,048,576 bytes.
    Less,
    /// More than 1,048,576 bytes stand before the next line feed or the end.
    TooLong,
}

/// Looks for the line feed that ends the first line.
pub(crate) fn line_size(bytes: &[u8]) -> Size
    ensures { IsSize bytes.now result }
{
    match memchr(b'\n', bytes) {
        Some(count) => {
            if count <= MAX_FRAME {
                Size::Ended(count)
            } else {
                Size::TooLong
            }
        }
        None => {
            if bytes.len() <= MAX_FRAME {
                Size::Less
            } else {
                Size::TooLong
            }
        }
    }
}
