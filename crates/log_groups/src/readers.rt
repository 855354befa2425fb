//! A log, read step by step.

ghost use Rattle.std.specs.Prelude.{◌≡◌, ◌≤◌, drop, length, IfOk};
ghost use Rattle.std.specs.Bool.{Decides};
ghost use Rattle.log_groups.specs.Items.{group};
ghost use Rattle.log_groups.specs.Fields.{front_of};
ghost use Rattle.log_groups.specs.Steps.{IsFirst, IsItemFirst, IsNextGroup};

use crate::endings::ending_of;
use crate::fronts::{LogFront, NAME, VERSION, spelled_front};
use crate::groups::{Ending, GROUP_HEAD, digest_of};
use log_text::{log_laws, read_entry};
use std::alloc::Global;
use tardis_base::NoMemory;

/// How many bytes a front's item has.
const FRONT_SIZE: usize = 48;

/// What stands first in the bytes of a file.
#[derive(Clone, Copy)]
pub enum FirstItem {
    /// A front, whose entry has so many bytes. Behind it the groups begin, with number 0.
    Front(LogFront, usize),
    /// It is no log of this format.
    NotALog,
    /// It is a log of another version of the format.
    OtherVersion(u16),
    /// It is a log of this version, and its front is damaged.
    BadFront,
}

/// What stands where a group would.
#[derive(Clone, Copy)]
pub enum NextGroup {
    /// The group, whose entry has so many bytes.
    Group(usize),
    /// The end of the log.
    End(Ending),
}

/// Reads the front at the beginning of a log's bytes. What `item` holds isn't said.
pub fn read_front(bytes: &[u8], item: &mut Vec<u8>, alloc: Global) -> Result<FirstItem, NoMemory>
    ensures first { IfOk result (λ first. IsFirst bytes.now first) }
{
    match read_entry(bytes, item) {
        Ok(Some(size)) => first_item(item.as_slice(), size, alloc),
        Ok(None) => Ok(FirstItem::NotALog),
        Err(NoMemory) => Err(NoMemory),
    }
}

/// Reads the group of this number, or how the log ends, from the bytes that stand behind the groups before it, up to the file's
/// end. Where there is a group, its body is what stands in `item` behind the first `GROUP_HEAD` bytes. The cost grows with the
/// entry's bytes; at the end, with all bytes that are left.
pub fn read_group(
    bytes: &[u8],
    life: &[u8; 16],
    number: u64,
    item: &mut Vec<u8>,
) -> Result<NextGroup, NoMemory>
    ensures next { IfOk result (λ next. IsNextGroup life.now number bytes.now (drop 16 item.new.items) next) }
{
    log_laws(); // for the proof alone
    match read_entry(bytes, item) {
        Ok(Some(size)) => {
            if is_group(item.as_slice(), life, number) {
                Ok(NextGroup::Group(size))
            } else {
                Ok(NextGroup::End(Ending::Damaged))
            }
        }
        Ok(None) => Ok(NextGroup::End(ending_of(bytes))),
        Err(NoMemory) => Err(NoMemory),
    }
}

/// Whether an item is the group of this number.
fn is_group(item: &[u8], life: &[u8; 16], number: u64) -> bool
    ensures { Decides result (item.now ≡ group life.now number (drop 16 item.now)) }
{
    if item.len() < GROUP_HEAD {
        return false;
    }
    let spelled = number.to_be_bytes();
    let digest = digest_of(life, &spelled, &item[GROUP_HEAD..]);
    item[..8] == spelled[..8] && item[8..16] == digest[..8]
}

/// What the first item is, whose entry has so many bytes.
fn first_item(item: &[u8], size: usize, alloc: Global) -> Result<FirstItem, NoMemory>
    ensures { IfOk result (λ first. IsItemFirst item.now size first) }
{
    let Some((name, behind)) = item.split_first_chunk::<8>() else {
        return Ok(FirstItem::NotALog);
    };
    let Some((version, _)) = behind.split_first_chunk::<2>() else {
        return Ok(FirstItem::NotALog);
    };
    if *name != NAME {
        return Ok(FirstItem::NotALog);
    }
    let version = u16::from_be_bytes(*version);
    if version != VERSION {
        return Ok(FirstItem::OtherVersion(version));
    }
    if item.len() != FRONT_SIZE {
        return Ok(FirstItem::BadFront);
    }
    let front = fields_of(item);
    let wanted = spelled_front(&front, alloc)?;
    if wanted.as_slice() == item {
        Ok(FirstItem::Front(front, size))
    } else {
        Ok(FirstItem::BadFront)
    }
}

/// The fields of a front's item.
fn fields_of(item: &[u8]) -> LogFront
    requires { length item.now ≡ 48 }
    ensures { result ≡ front_of item.now }
{
    let mut life = [0u8; 16];
    life.copy_from_slice(&item[24..40]);
    LogFront {
        sites: u16::from_be_bytes([item[10], item[11]]),
        own: u16::from_be_bytes([item[12], item[13]]),
        max_kept: u32::from_be_bytes([item[14], item[15], item[16], item[17]]),
        max_path: u32::from_be_bytes([item[18], item[19], item[20], item[21]]),
        max_sessions: u16::from_be_bytes([item[22], item[23]]),
        life,
    }
}
