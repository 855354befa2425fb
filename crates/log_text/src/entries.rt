//! Entries, written and read.

ghost use Rattle.std.specs.Prelude.{◌≡◌, ◌+◌, ◌*◌, ◌≤◌, ◌++◌, if◌then◌else◌, is_ok, length, vec_len, vec_capacity, IfOk, IsOk};
ghost use Rattle.tardis_base.specs.Sizes.{longest_frame};
ghost use Rattle.log_text.specs.Texts.{IsItem, spelled, entry};
ghost use Rattle.log_text.specs.Fronts.{IsNext};

use crate::fronts::{Front, read_front};
use tardis_base::{MAX_FRAME, NoMemory};

/// Appends the entry of this item, or nothing. It takes the room first: at most twice the item's bytes and one.
pub fn put_entry(log: &mut Vec<u8>, item: &[u8]) -> Result<(), NoMemory>
    requires { IsItem item.now }
    ensures items { log.new.items ≡ (if is_ok result then log.old.items ++ entry item.now else log.old.items) }
    ensures succeeds { vec_len log.old + (2 * length item.now + 1) ≤ vec_capacity log.old → IsOk result }
    ensures long { vec_len log.new ≤ vec_len log.old + (2 * length item.now + 1) }
    ensures room { vec_capacity log.old ≤ vec_capacity log.new }
{
    match log.reserve(2 * item.len() + 1) {
        Ok(()) => {}
        Err(_) => return Err(NoMemory),
    }
    for byte in item {
        put_byte(log, *byte);
    }
    log.push_reserved(247);
    Ok(())
}

/// Appends a byte as it is spelled.
fn put_byte(log: &mut Vec<u8>, byte: u8)
    requires { vec_len log.old + 2 ≤ vec_capacity log.old }
    ensures items { log.new.items ≡ log.old.items ++ spelled byte }
    ensures len { vec_len log.new ≤ vec_len log.old + 2 }
    ensures room { vec_capacity log.new ≡ vec_capacity log.old }
{
    if byte == 0 {
        log.push_reserved(245);
    } else if byte >= 245 && byte <= 247 {
        log.push_reserved(246);
        log.push_reserved(byte - 244);
    } else {
        log.push_reserved(byte);
    }
}

/// Reads the whole entry that is next: how many bytes it has, and its item. Where none is, what `out` holds isn't said. Its
/// cost grows with the entry's bytes, and with nothing behind them.
pub fn read_entry(bytes: &[u8], out: &mut Vec<u8>) -> Result<Option<usize>, NoMemory>
    ensures next { IfOk result (λ found. IsNext bytes.now out.new.items found) }
    ensures succeeds { longest_frame ≤ vec_capacity out.old → IsOk result }
{
    out.clear();
    let mut at = 0;
    loop {
        match read_front(&bytes[at..]) {
            Front::End => return Ok(Some(at + 1)),
            Front::Byte(byte, width) => {
                if out.len() == MAX_FRAME {
                    return Ok(None);
                }
                match out.push(byte) {
                    Ok(()) => {}
                    Err(_) => return Err(NoMemory),
                }
                at += width;
            }
            Front::Stop => return Ok(None),
        }
    }
}
