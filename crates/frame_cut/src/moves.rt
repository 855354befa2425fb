//! Bytes that move within a buffer.

ghost use Rattle.std.specs.Prelude.{◌≡◌, ◌-◌, ◌≤◌, length, take, drop, vec_capacity};

/// Keeps the bytes from `start` on, and the room. The cost grows with the bytes that are kept, which are moved.
#[tactic(auto, using(std::proofs::lemmas::List::take_rest))]
pub fn keep_rest(buf: &mut Vec<u8>, start: usize)
    requires { start ≤ length buf.old.items }
    ensures rest { buf.new.items ≡ drop start buf.old.items }
    ensures room { vec_capacity buf.new ≡ vec_capacity buf.old }
{
    let end = buf.len();
    move_to_front(buf.as_mut_slice(), start, end);
    buf.truncate(end - start);
}

/// Moves the bytes from `start` to `end` to the front.
fn move_to_front(buf: &mut [u8], start: usize, end: usize)
    requires order { start ≤ end }
    requires within { end ≤ length buf.old }
    ensures front { take (end - start) buf.new ≡ take (end - start) (drop start buf.old) }
    ensures room { length buf.new ≡ length buf.old }
{
    buf.copy_within(start..end, 0);
}
