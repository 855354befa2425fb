//! Bytes that move within a buffer.

ghost use Rattle.std.specs.Prelude.{◌≡◌, ◌+◌, ◌-◌, ◌≤◌, ◌++◌, length, take, drop};

/// Moves the bytes from `start` to `end` to the front.
pub(crate) fn move_to_front(buf: &mut [u8], start: usize, end: usize)
    requires order { start ≤ end }
    requires within { end ≤ length buf.old }
    ensures front { take (end - start) buf.new ≡ take (end - start) (drop start buf.old) }
    ensures room { length buf.new ≡ length buf.old }
{
    buf.copy_within(start..end, 0);
}

/// Puts bytes into the buffer at `end`.
pub(crate) fn put_at(buf: &mut [u8], end: usize, bytes: &[u8])
    requires { end + length bytes.now ≤ length buf.old }
    ensures front { take (end + length bytes.now) buf.new ≡ take end buf.old ++ bytes.now }
    ensures room { length buf.new ≡ length buf.old }
{
    buf[end..end + bytes.len()].copy_from_slice(bytes);
}
