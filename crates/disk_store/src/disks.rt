//! What a disk does, and what a crash may leave of it.

ghost use Rattle.std.specs.Prelude.{◌≡◌, ℕ, ◌+◌, ◌≤◌, true, false, List, length, take, drop, Ok, IfOk, OnOk};
ghost use Rattle.tardis_io.specs.Faults.{HasCause};
ghost use Rattle.disk_store.specs.Disks.{longest_disk, with_bytes, Torn, Shortened, Replaced, Follows, NoMore, Only, Elapses, AsHonest};

use tardis_io::Failed;

/// Bytes on a disk. A disk may be told to be honest; then it tells what a read gives, which images a crash may leave,
/// and which a crash at some moment since an earlier one might have left. One over a file of the system isn't told to
/// be honest, and tells nothing.
///
/// Until a sync, a crash may leave any bytes in a range that was written, and any of the lengths between. A call that
/// failed leaves its range in that same uncertainty.
pub trait Disk: Drop {
    // all that follows is claimed of it
    ghost honest: { Self → Type 0 };

    // what a read gives
    ghost reads: { Self → List ℕ };

    // the images that a crash now may leave
    ghost may_leave: { Self → List ℕ → Type 0 };

    // the moment, as a number that doesn't fall
    ghost moment: { Self → ℕ };

    // the images that a crash at some moment from that one on might have left
    ghost left_since: { Self → ℕ → List ℕ → Type 0 };

    // how many faults were counted
    ghost faults: { Self → ℕ };

    /// How many bytes there are: 2^63 at most.
    fn len(&mut self) -> Result<u64, Failed>
        ensures bound { IfOk result (λ count. count ≤ longest_disk) }
        ensures count { honest self.old → IfOk result (λ count. count ≡ length (reads self.old)) }
        ensures reads { honest self.old → reads self.new ≡ reads self.old }
        ensures crash { honest self.old → NoMore (may_leave self.old) (may_leave self.new) }
        ensures time { honest self.old → Elapses (moment self.old) (moment self.new) (left_since self.old) (left_since self.new) (may_leave self.new) }
        ensures honest { AsHonest honest self.old self.new }
        ensures cause { HasCause (faults self.old) (faults self.new) result };

    /// Fills `buf` with the bytes from `place` on. After a failure its bytes are of no meaning.
    fn read_at(&mut self, place: u64, buf: &mut [u8]) -> Result<(), Failed>
        requires { honest self.old → place + length buf.old ≤ length (reads self.old) }
        ensures bytes { honest self.old → OnOk result (buf.new ≡ take (length buf.old) (drop place (reads self.old))) }
        ensures reads { honest self.old → reads self.new ≡ reads self.old }
        ensures crash { honest self.old → NoMore (may_leave self.old) (may_leave self.new) }
        ensures time { honest self.old → Elapses (moment self.old) (moment self.new) (left_since self.old) (left_since self.new) (may_leave self.new) }
        ensures honest { AsHonest honest self.old self.new }
        ensures cause { HasCause (faults self.old) (faults self.new) result };

    /// Writes over what is there, and past the end.
    fn write_at(&mut self, place: u64, bytes: &[u8]) -> Result<(), Failed>
        requires begin { honest self.old → place ≤ length (reads self.old) }
        requires end { place + length bytes.now ≤ longest_disk }
        ensures written { honest self.old → OnOk result (reads self.new ≡ with_bytes (reads self.old) place bytes.now) }
        ensures crash { honest self.old → Follows (Torn place (length bytes.now)) (may_leave self.old) (may_leave self.new) }
        ensures time { honest self.old → Elapses (moment self.old) (moment self.new) (left_since self.old) (left_since self.new) (may_leave self.new) }
        ensures honest { AsHonest honest self.old self.new }
        ensures cause { HasCause (faults self.old) (faults self.new) result };

    /// Cuts the bytes behind a length off. It writes none.
    fn cut(&mut self, len: u64) -> Result<(), Failed>
        requires { honest self.old → len ≤ length (reads self.old) }
        ensures shorter { honest self.old → OnOk result (reads self.new ≡ take len (reads self.old)) }
        ensures crash { honest self.old → Follows (Shortened len) (may_leave self.old) (may_leave self.new) }
        ensures time { honest self.old → Elapses (moment self.old) (moment self.new) (left_since self.old) (left_since self.new) (may_leave self.new) }
        ensures honest { AsHonest honest self.old self.new }
        ensures cause { HasCause (faults self.old) (faults self.new) result };

    /// After it, a crash leaves what a read gives, and nothing else.
    fn sync(&mut self) -> Result<(), Failed>
        ensures durable { honest self.old → OnOk result (Only (reads self.old) (may_leave self.new)) }
        ensures reads { honest self.old → reads self.new ≡ reads self.old }
        ensures crash { honest self.old → NoMore (may_leave self.old) (may_leave self.new) }
        ensures time { honest self.old → Elapses (moment self.old) (moment self.new) (left_since self.old) (left_since self.new) (may_leave self.new) }
        ensures honest { AsHonest honest self.old self.new }
        ensures cause { HasCause (faults self.old) (faults self.new) result };

    /// Puts these bytes in the place of all that is there, in one step: a crash during the call leaves what it might have left before,
    /// or these; once it answers `true` it leaves these, and nothing else. `false` means that they couldn't be put beside the others, as
    /// where there is no room for both: then all is as before, and no fault is counted.
    fn replace(&mut self, bytes: &[u8]) -> Result<bool, Failed>
        requires { length bytes.now ≤ longest_disk }
        ensures replaced { honest self.old → result ≡ Ok true → (reads self.new ≡ bytes.now) × Only bytes.now (may_leave self.new) }
        ensures same { honest self.old → result ≡ Ok false → (reads self.new ≡ reads self.old) × NoMore (may_leave self.old) (may_leave self.new) }
        ensures crash { honest self.old → Replaced bytes.now (may_leave self.old) (may_leave self.new) }
        ensures time { honest self.old → Elapses (moment self.old) (moment self.new) (left_since self.old) (left_since self.new) (may_leave self.new) }
        ensures honest { AsHonest honest self.old self.new }
        ensures cause { HasCause (faults self.old) (faults self.new) result };

    // a crash now may leave what a read gives
    ghost reads_image: { (disk : Self) → honest disk → may_leave disk (reads disk) };

    // this moment is one of those since an earlier one
    ghost counts_now: { (disk : Self) (t : ℕ) (image : List ℕ) → t ≤ moment disk → may_leave disk image → left_since disk t image };

    // since this moment there is no other
    ghost only_now: { (disk : Self) (image : List ℕ) → left_since disk (moment disk) image → may_leave disk image };
}
