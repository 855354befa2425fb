//! The script of an export: the frames that bring a fresh site to the same contents.

ghost use Rattle.std.specs.Prelude.{◌≡◌, ◌+◌, ◌*◌, ◌≤◌, ◌++◌, [], true, ℕ, List, length, IsTrue};
ghost use Rattle.tardis_base.specs.Sizes.{longest_frame, most_writes};
ghost use Rattle.tardis_base.specs.Valid.{is_key, is_value};
ghost use Rattle.tardis_base.specs.declared.requests.Request.TheVariants.{Open};
ghost use Rattle.tardis_io.specs.Told.{WhileTold};
ghost use Rattle.tardis_io.specs.Faults.{HasCause};
ghost use Rattle.frame_cut.specs.Frames.{frame};
ghost use Rattle.branch_export.specs.Exports.{Entry, IsExport};
ghost use Rattle.branch_export.specs.Scripts.{body, put, script_frames};
ghost use Rattle.branch_export.specs.Groups.{group_frames, BeginsWith, HasEntries};
ghost use Rattle.branch_export.specs.Readings.{IsJudged};
ghost use Rattle.branch_export.specs.Gathering.{Moves};

use crate::gathering::{flush, make_room};
use crate::writing::{LONGEST_ENTRY, write_entry};
use item_bytes::{Reader, write_u32};
use tardis_base::{MAX_WRITES, ReplyBuf};
use tardis_io::{Sink, WriteFault};

/// How many entries are put in one transaction, as many as it may write; the last one has the rest.
const GROUP: u64 = MAX_WRITES as u64;

/// Actor 1 opens a session that follows.
const OPENING: [u8; 8] = [0, 0, 0, 4, 0, 1, 1, 1];

/// Actor 1 begins a transaction at any state.
const BEGINNING: [u8; 8] = [0, 0, 0, 4, 0, 1, 2, 0];

/// Actor 1 commits without constraints, raises the floor, and collects up to 64 states.
const ENDING: [u8; 26] = [
    0, 0, 0, 6, 0, 1, 6, 0, 0, 0, 0, 0, 0, 3, 0, 1, 14, 0, 0, 0, 5, 0, 1, 15, 0, 64,
];

/// What stands before the entry in the body of a Put by actor 1.
const PUTTING: [u8; 3] = [0, 1, 4];

/// The most bytes of the frames of a group.
const LONGEST_GROUP: usize = BEGINNING.len()
    + MAX_WRITES * (4 + PUTTING.len() + LONGEST_ENTRY)
    + ENDING.len();

/// Writes the frames of the script of an export. Nothing is gathered yet.
pub(crate) fn write_script<O: Sink>(
    export: &[u8],
    gathered: &mut ReplyBuf,
    output: &mut O,
) -> Result<(), WriteFault>
    requires export { IsJudged export.now true }
    requires none { gathered.old ≡ [] }
    ensures script { (es : List Entry) → IsExport export.now es
        → WhileTold (O.given output.old) (O.given output.new) (λ before after. Moves before (script_frames es) after [] result) }
    ensures cause { HasCause (O.faults output.old) (O.faults output.new) result }
{
    let mut reader = Reader::new(export);
    let Some(count) = reader.u64() else {
        unreachable!();
    };
    gathered.push(&OPENING);
    let mut left = count;
    while left > 0 {
        let size = left.min(GROUP);
        match make_room(gathered, output, LONGEST_GROUP) {
            Ok(()) => {
                write_group(&mut reader, size, gathered);
                left -= size;
            }
            Err(WriteFault) => return Err(WriteFault),
        }
    }
    flush(gathered, output)
}

/// Writes the frames of a group of so many entries, which are read.
fn write_group(reader: &mut Reader<'_>, size: u64, out: &mut ReplyBuf)
    requires size { size ≤ most_writes }
    requires entries { HasEntries reader.old size }
    requires room { length out.old + 271010 ≤ longest_frame }
    ensures { (es : List Entry) (rest : List ℕ) → BeginsWith reader.old size es rest → (reader.new ≡ rest) × (out.new ≡ out.old ++ group_frames es) }
{
    out.push(&BEGINNING);
    for _place in 0..size {
        let Some(key) = reader.key() else {
            unreachable!();
        };
        let Some(value) = reader.value() else {
            unreachable!();
        };
        write_put(key, value, out);
    }
    out.push(&ENDING);
}

/// Writes the frame in which actor 1 puts the value.
fn write_put(key: &[u8], value: &[u8], out: &mut ReplyBuf)
    requires key { IsTrue (is_key key.now) }
    requires value { IsTrue (is_value value.now) }
    requires room { length out.old + 4234 ≤ longest_frame }
    ensures { out.new ≡ out.old ++ frame (body (put (key.now, value.now))) }
{
    let length = PUTTING.len() + 1 + key.len() + 2 + value.len();
    write_u32(length as u32, out);
    out.push(&PUTTING);
    write_entry(key, value, out);
}
