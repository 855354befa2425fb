//! Bytes from one slice to the front of another.

ghost use Rattle.std.specs.Prelude.{◌≡◌, ◌++◌, length, take, drop, min};

/// Copies the front of `from` to the front of `to`: as many bytes as both have, and at most `most`.
pub(crate) fn move_front(from: &[u8], to: &mut [u8], most: usize) -> usize
    ensures count { result ≡ min most (min (length to.old) (length from.now)) }
    ensures front { to.new ≡ take result from.now ++ drop result to.old }
{
    let count = most.min(to.len().min(from.len()));
    to[..count].copy_from_slice(&from[..count]);
    count
}
