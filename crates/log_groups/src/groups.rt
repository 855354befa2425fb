//! Groups, and how a log ends behind them.

ghost use Rattle.std.specs.Prelude.{◌≡◌, ◌+◌, ◌*◌, ◌≤◌, ◌++◌, if◌then◌else◌, is_ok, length, take, vec_len, vec_capacity, OnErr, OnOk, IsOk};
ghost use Rattle.std.specs.Int.{w64, to_be_bytes};
ghost use Rattle.sha2.specs.Sha256.{sha256};
ghost use Rattle.log_text.specs.Texts.{IsItem, coded, entry};
ghost use Rattle.log_groups.specs.Items.{IsBody, group};

use log_text::put_entry;
use sha2::{Digest, Sha256};
use tardis_base::{MAX_FRAME, NoMemory};

/// How many bytes stand before the body in a group's item: its number and its check.
pub const GROUP_HEAD: usize = 16;

/// The most bytes of a group's body.
pub const MAX_BODY: usize = MAX_FRAME - 16;

/// How a log ends.
#[derive(Clone, Copy, Debug, PartialEq, Eq)]
pub enum Ending {
    /// Behind the last group there are only zeros.
    Whole,
    /// There is what a crash may leave while a group is written. Zeros over it mend it.
    Torn,
    /// There is what no crash leaves.
    Damaged,
}

/// Appends the entry of the group of this number, or nothing. The body is read twice: for its digest, and to be put. The entry has
/// at most twice the item's bytes and one: where there is room for so many, no memory is taken.
#[tactic(auto, unfolding(crate::specs::Items::group, crate::specs::Items::check))]
pub fn put_group(
    log: &mut Vec<u8>,
    life: &[u8; 16],
    number: u64,
    body: &[u8],
) -> Result<(), NoMemory>
    requires { IsBody body.now }
    ensures items { log.new.items ≡ (if is_ok result then log.old.items ++ entry (group life.now number body.now) else log.old.items) }
    ensures succeeds { vec_len log.old + (2 * (16 + length body.now) + 1) ≤ vec_capacity log.old → IsOk result }
    ensures long { OnOk result (vec_len log.new ≤ vec_len log.old + (2 * (16 + length body.now) + 1)) }
    ensures room { vec_capacity log.old ≤ vec_capacity log.new }
{
    let before = log.len();
    match put_parts(log, life, &number.to_be_bytes(), body) {
        Ok(()) => Ok(()),
        Err(NoMemory) => {
            log.truncate(before);
            Err(NoMemory)
        }
    }
}

/// Appends the entry part by part. Some of them may stay where there is no memory.
fn put_parts(
    log: &mut Vec<u8>,
    life: &[u8; 16],
    number: &[u8; 8],
    body: &[u8],
) -> Result<(), NoMemory>
    requires { IsBody body.now }
    ensures all { OnOk result (log.new.items ≡ log.old.items ++ entry (number.now ++ take 8 (sha256 (life.now ++ number.now ++ body.now)) ++ body.now)) }
    ensures front { OnErr result (take (length log.old.items) log.new.items ≡ log.old.items) }
    ensures succeeds { vec_len log.old + (2 * (16 + length body.now) + 1) ≤ vec_capacity log.old → IsOk result }
    ensures long { OnOk result (vec_len log.new ≤ vec_len log.old + (2 * (16 + length body.now) + 1)) }
    ensures room { vec_capacity log.old ≤ vec_capacity log.new }
{
    put_part(log, number)?;
    let digest = digest_of(life, number, body);
    put_part(log, &digest[..8])?;
    put_entry(log, body)
}

pub(crate) fn digest_of(life: &[u8; 16], number: &[u8; 8], body: &[u8]) -> [u8; 32]
    ensures { result ≡ sha256 (life.now ++ number.now ++ body.now) }
{
    let mut hasher = Sha256::new();
    hasher.update(life);
    hasher.update(number);
    hasher.update(body);
    hasher.finalize()
}

/// Appends bytes as they are spelled in an entry, without its end.
fn put_part(log: &mut Vec<u8>, part: &[u8]) -> Result<(), NoMemory>
    requires { IsItem part.now }
    ensures items { log.new.items ≡ (if is_ok result then log.old.items ++ coded part.now else log.old.items) }
    ensures succeeds { vec_len log.old + (2 * length part.now + 1) ≤ vec_capacity log.old → IsOk result }
    ensures long { vec_len log.new ≤ vec_len log.old + 2 * length part.now }
    ensures room { vec_capacity log.old ≤ vec_capacity log.new }
{
    match put_entry(log, part) {
        Ok(()) => {
            log.pop();
            Ok(())
        }
        Err(NoMemory) => Err(NoMemory),
    }
}
