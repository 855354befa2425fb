//! Putting groups behind a log, in room of zeros.

ghost use Rattle.std.specs.Prelude.{◌≡◌, ◌+◌, ◌<◌, ◌≤◌, ◌++◌, [], ◌∷◌, ℕ, List, length, IfOk, OnOk};
ghost use Rattle.tardis_io.specs.Faults.{HasCause};
ghost use Rattle.disk_store.specs.Disks.{longest_disk, with_bytes, Bytewise, Follows, Elapses, LeavesOnly, AsHonest};
ghost use Rattle.log_text.specs.Texts.{entry, IsZeros};
ghost use Rattle.log_groups.specs.declared.fronts.LogFront.{LogFront};
ghost use Rattle.log_groups.specs.Items.{IsBody, group};
ghost use Rattle.site_log.specs.Sizes.{last_place, longest_text};
ghost use Rattle.site_log.specs.Images.{HoldsBodies};
ghost use Rattle.site_log.specs.Files.{IsAtRest, HoldsOneMore};

use disk_store::{BytewiseDisk, Disk};
use log_groups::group_laws;
use tardis_base::MAX_FRAME;
use tardis_io::Failed;

/// The last place at which an entry may begin.
pub const MAX_PLACE: u64 = 4_611_686_018_427_387_904;

/// The most bytes of an entry.
pub const MAX_TEXT: usize = 2 * MAX_FRAME + 1;

/// How many zeros are written ahead.
const AHEAD: u64 = 1_048_576;

/// How many zeros are written at once.
const CHUNK: usize = 4096;

/// Puts the text of the next group's entry at a place. It answers how many bytes the file has then: a zero stays behind the
/// text, and where none would, more are written before, and synced.
pub(crate) fn put<K: BytewiseDisk>(
    disk: &mut K,
    place: u64,
    room: u64,
    text: &[u8],
) -> Result<u64, Failed>
    requires size { K.honest disk.old → room ≡ length (K.reads disk.old) }
    requires place { place ≤ last_place }
    requires short { length text.now ≤ longest_text }
    ensures appended { K.honest disk.old → (front : LogFront) (bodies : List (List ℕ)) (body : List ℕ) → IsAtRest K.Disk disk.old front bodies place room
        → IsBody body → text.now ≡ entry (group front.life (length bodies) body)
        → IfOk result (λ now. IsAtRest K.Disk disk.new front (bodies ++ body ∷ []) (place + length text.now) now) }
    ensures any_moment { K.honest disk.old → (front : LogFront) (bodies : List (List ℕ)) (body : List ℕ) → IsAtRest K.Disk disk.old front bodies place room
        → IsBody body → text.now ≡ entry (group front.life (length bodies) body)
        → LeavesOnly K.moment K.left_since disk.old disk.new (HoldsOneMore front bodies body) }
    ensures size { K.honest disk.old → IfOk result (λ now. now ≡ length (K.reads disk.new)) }
    ensures within { IfOk result (λ now. place + length text.now < now) }
    ensures honest { AsHonest K.honest disk.old disk.new }
    ensures cause { HasCause (K.faults disk.old) (K.faults disk.new) result }
{
    let room = make_room(disk, room, place + text.len() as u64)?;
    append(disk, place, room, text)?;
    Ok(room)
}

/// Makes room for more than so many bytes, and answers how many the file has then.
fn make_room<K: BytewiseDisk>(disk: &mut K, room: u64, end: u64) -> Result<u64, Failed>
    requires size { K.honest disk.old → room ≡ length (K.reads disk.old) }
    requires end { end ≤ last_place + longest_text }
    ensures at_rest { K.honest disk.old → (front : LogFront) (bodies : List (List ℕ)) (place : ℕ) → IsAtRest K.Disk disk.old front bodies place room
        → IfOk result (λ now. IsAtRest K.Disk disk.new front bodies place now) }
    ensures any_moment { K.honest disk.old → (front : LogFront) (bodies : List (List ℕ)) (place : ℕ) → IsAtRest K.Disk disk.old front bodies place room
        → LeavesOnly K.moment K.left_since disk.old disk.new (HoldsBodies front bodies) }
    ensures size { K.honest disk.old → IfOk result (λ now. now ≡ length (K.reads disk.new)) }
    ensures more { IfOk result (λ now. end < now) }
    ensures honest { AsHonest K.honest disk.old disk.new }
    ensures cause { HasCause (K.faults disk.old) (K.faults disk.new) result }
{
    group_laws(); // for the proof alone
    if end < room {
        return Ok(room);
    }
    grow(disk, room, end + AHEAD)
}

/// Writes zeros behind the end of a file, until it has at least so many bytes, and syncs them.
fn grow<K: BytewiseDisk>(disk: &mut K, room: u64, wanted: u64) -> Result<u64, Failed>
    requires size { K.honest disk.old → room ≡ length (K.reads disk.old) }
    requires end { wanted + 4096 ≤ longest_disk }
    ensures at_rest { K.honest disk.old → (front : LogFront) (bodies : List (List ℕ)) (place : ℕ) → IsAtRest K.Disk disk.old front bodies place room
        → IfOk result (λ now. IsAtRest K.Disk disk.new front bodies place now) }
    ensures any_moment { K.honest disk.old → (front : LogFront) (bodies : List (List ℕ)) (place : ℕ) → IsAtRest K.Disk disk.old front bodies place room
        → LeavesOnly K.moment K.left_since disk.old disk.new (HoldsBodies front bodies) }
    ensures size { K.honest disk.old → IfOk result (λ now. now ≡ length (K.reads disk.new)) }
    ensures more { IfOk result (λ now. wanted ≤ now) }
    ensures honest { AsHonest K.honest disk.old disk.new }
    ensures cause { HasCause (K.faults disk.old) (K.faults disk.new) result }
{
    group_laws(); // for the proof alone
    let mut at = room;
    while at < wanted {
        write_zeros(disk, at)?;
        at += CHUNK as u64;
    }
    disk.sync()?;
    Ok(at)
}

/// Writes some zeros at a place, without a sync.
pub(crate) fn write_zeros<K: BytewiseDisk>(disk: &mut K, place: u64) -> Result<(), Failed>
    requires begin { K.honest disk.old → place ≤ length (K.reads disk.old) }
    requires end { place + 4096 ≤ longest_disk }
    ensures written { K.honest disk.old → (zeros : List ℕ) × (IsZeros zeros × (length zeros ≡ 4096)
        × OnOk result (K.reads disk.new ≡ with_bytes (K.reads disk.old) place zeros)
        × Follows (Bytewise place zeros) (K.may_leave disk.old) (K.may_leave disk.new)) }
    ensures time { K.honest disk.old → Elapses (K.moment disk.old) (K.moment disk.new) (K.left_since disk.old) (K.left_since disk.new) (K.may_leave disk.new) }
    ensures honest { AsHonest K.honest disk.old disk.new }
    ensures cause { HasCause (K.faults disk.old) (K.faults disk.new) result }
{
    disk.write_bytewise(place, &[0; CHUNK])
}

/// Writes the text of the next group's entry at a place, in room of zeros, and syncs it. So a crash leaves this group, or none.
fn append<K: BytewiseDisk>(disk: &mut K, place: u64, room: u64, text: &[u8]) -> Result<(), Failed>
    requires size { K.honest disk.old → room ≡ length (K.reads disk.old) }
    requires fits { place + length text.now ≤ room }
    requires end { place + length text.now ≤ longest_disk }
    ensures appended { K.honest disk.old → (front : LogFront) (bodies : List (List ℕ)) (body : List ℕ) → IsAtRest K.Disk disk.old front bodies place room
        → IsBody body → text.now ≡ entry (group front.life (length bodies) body)
        → OnOk result (IsAtRest K.Disk disk.new front (bodies ++ body ∷ []) (place + length text.now) room) }
    ensures any_moment { K.honest disk.old → (front : LogFront) (bodies : List (List ℕ)) (body : List ℕ) → IsAtRest K.Disk disk.old front bodies place room
        → IsBody body → text.now ≡ entry (group front.life (length bodies) body)
        → LeavesOnly K.moment K.left_since disk.old disk.new (HoldsOneMore front bodies body) }
    ensures size { K.honest disk.old → OnOk result (room ≡ length (K.reads disk.new)) }
    ensures honest { AsHonest K.honest disk.old disk.new }
    ensures cause { HasCause (K.faults disk.old) (K.faults disk.new) result }
{
    group_laws(); // for the proof alone
    disk.write_bytewise(place, text)?;
    disk.sync()
}
