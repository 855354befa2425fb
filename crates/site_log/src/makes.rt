//! New files.

ghost use Rattle.std.specs.Prelude.{◌≡◌, ◌⊎◌, ◌≤◌, [], length, take, drop, replicate, max, IfOk, OnOk};
ghost use Rattle.std.specs.Bool.{Decides};
ghost use Rattle.tardis_io.specs.Faults.{HasCause};
ghost use Rattle.disk_store.specs.Disks.{Only, LeavesOnly, AsHonest};
ghost use Rattle.log_text.specs.Texts.{IsZeros, Mixed};
ghost use Rattle.log_groups.specs.declared.fronts.LogFront.{LogFront};
ghost use Rattle.log_groups.specs.Items.{log_name, IsFront};
ghost use Rattle.site_log.specs.News.{first_room, longest_front, IsNew};
ghost use Rattle.site_log.specs.Images.{HoldsBodies};
ghost use Rattle.site_log.specs.Files.{text_of, IsAtRest};

use crate::appends::write_zeros;
use disk_store::{BytewiseDisk, Disk};
use log_groups::group_laws;
use log_text::{log_laws, read_entry};
use std::alloc::Global;
use tardis_base::NoMemory;
use tardis_io::Failed;

/// How many zeros a new file has, at least, before its front is written.
pub const FIRST_ROOM: usize = 4096;

/// The most bytes of a front's entry.
pub const MAX_FRONT: usize = 128;

/// The name of the format, with which a front begins.
const NAME: [u8; 8] = *b"tardislg";

/// Whether a file is new.
pub(crate) fn is_new(bytes: &[u8], alloc: Global) -> Result<bool, NoMemory>
    ensures { IfOk result (λ is. Decides is (IsNew bytes.now)) }
{
    if is_zeros(bytes) {
        return Ok(true);
    }
    if !may_be_in_part(bytes) {
        return Ok(false);
    }
    let mut item = Vec::new(alloc);
    match read_entry(bytes, &mut item) {
        Ok(Some(_)) => Ok(false),
        Ok(None) => Ok(true),
        Err(NoMemory) => Err(NoMemory),
    }
}

/// Whether a file has a front in part, where it has no whole entry.
fn may_be_in_part(bytes: &[u8]) -> bool
    ensures { Decides result ((first_room ≤ length bytes.now) × Mixed (replicate 8 0) log_name (take 8 bytes.now) × IsZeros (drop longest_front bytes.now)) }
{
    if bytes.len() < FIRST_ROOM {
        return false;
    }
    is_name_in_part(&bytes[..8]) && is_zeros(&bytes[MAX_FRONT..])
}

/// Whether each byte is that of the name or a zero.
fn is_name_in_part(bytes: &[u8]) -> bool
    requires { length bytes.now ≡ 8 }
    ensures { Decides result (Mixed (replicate 8 0) log_name bytes.now) }
{
    for i in 0..8 {
        if !is_letter(bytes[i], NAME[i]) {
            return false;
        }
    }
    true
}

/// Whether a byte is this letter or a zero.
fn is_letter(byte: u8, letter: u8) -> bool
    ensures { Decides result ((byte ≡ 0) ⊎ (byte ≡ letter)) }
{
    byte == 0 || byte == letter
}

fn is_zeros(bytes: &[u8]) -> bool
    ensures { Decides result (IsZeros bytes.now) }
{
    for byte in bytes {
        if *byte != 0 {
            return false;
        }
    }
    true
}

/// Makes a new file: zeros over all that it may have, and then the text of a front. So a crash leaves a new file, or this front.
pub(crate) fn make<K: BytewiseDisk>(disk: &mut K, text: &[u8]) -> Result<(), Failed>
    requires short { length text.now ≤ longest_front }
    ensures made { K.honest disk.old → (front : LogFront) → IsFront front → text.now ≡ text_of front [] → IsNew (K.reads disk.old)
        → Only (K.reads disk.old) (K.may_leave disk.old)
        → OnOk result (IsAtRest K.Disk disk.new front [] (length text.now) (max (length (K.reads disk.old)) first_room)) }
    ensures any_moment { K.honest disk.old → (front : LogFront) → IsFront front → text.now ≡ text_of front [] → IsNew (K.reads disk.old)
        → Only (K.reads disk.old) (K.may_leave disk.old)
        → LeavesOnly K.moment K.left_since disk.old disk.new (λ image. IsNew image ⊎ HoldsBodies front [] image) }
    ensures honest { AsHonest K.honest disk.old disk.new }
    ensures cause { HasCause (K.faults disk.old) (K.faults disk.new) result }
{
    clear(disk)?;
    write_front(disk, text)
}

/// Writes zeros over all that a new file may have, and syncs them.
fn clear<K: BytewiseDisk>(disk: &mut K) -> Result<(), Failed>
    ensures cleared { K.honest disk.old → IsNew (K.reads disk.old) → OnOk result (IsZeros (K.reads disk.new) × Only (K.reads disk.new) (K.may_leave disk.new)) }
    ensures room { K.honest disk.old → OnOk result (length (K.reads disk.new) ≡ max (length (K.reads disk.old)) first_room) }
    ensures any_moment { K.honest disk.old → IsNew (K.reads disk.old) → Only (K.reads disk.old) (K.may_leave disk.old)
        → LeavesOnly K.moment K.left_since disk.old disk.new IsNew }
    ensures honest { AsHonest K.honest disk.old disk.new }
    ensures cause { HasCause (K.faults disk.old) (K.faults disk.new) result }
{
    log_laws(); // for the proof alone
    write_zeros(disk, 0)?;
    disk.sync() // before a front is written
}

/// Writes the text of a front over zeros, and syncs it.
fn write_front<K: BytewiseDisk>(disk: &mut K, text: &[u8]) -> Result<(), Failed>
    requires short { length text.now ≤ longest_front }
    ensures made { K.honest disk.old → (front : LogFront) → IsFront front → text.now ≡ text_of front [] → IsZeros (K.reads disk.old)
        → first_room ≤ length (K.reads disk.old)
        → OnOk result (IsAtRest K.Disk disk.new front [] (length text.now) (length (K.reads disk.old))) }
    ensures any_moment { K.honest disk.old → (front : LogFront) → IsFront front → text.now ≡ text_of front [] → IsZeros (K.reads disk.old)
        → first_room ≤ length (K.reads disk.old) → Only (K.reads disk.old) (K.may_leave disk.old)
        → LeavesOnly K.moment K.left_since disk.old disk.new (λ image. IsNew image ⊎ HoldsBodies front [] image) }
    ensures honest { AsHonest K.honest disk.old disk.new }
    ensures cause { HasCause (K.faults disk.old) (K.faults disk.new) result }
{
    log_laws(); // for the proof alone
    group_laws();
    disk.write_bytewise(0, text)?;
    disk.sync()
}
