//! Reading the bytes that words stand for, into room. No call takes memory.

ghost use Rattle.std.specs.Prelude.{◌≡◌, length, not};
ghost use Rattle.std.specs.List.{list_all};
ghost use Rattle.tardis_base.specs.Valid.{is_within};
ghost use Rattle.text_words.specs.Decodings.{IsDecoded};
ghost use Rattle.text_words.specs.Texts.{hex_bytes, unless_plain, word_bytes};
ghost use Rattle.text_words.specs.Words.{are_printed};
ghost use Rattle.std.specs.Bool.{then_some};

use crate::unread::{are_printed, is_plain};

/// The bytes of lower-case hexadecimal digits, and how many they are. None where the word has others, or where the room
/// is too small.
pub fn read_hex(word: &[u8], room: &mut [u8]) -> Option<usize>
    ensures bytes { IsDecoded (hex_bytes word.now) room.old room.new result }
    ensures room { length room.new ≡ length room.old }
{
    let count = word.len() / 2;
    if word.len() % 2 == 1 || count > room.len() || !is_lower_case(word) {
        return None;
    }
    match hex::decode_to_slice(word, &mut room[..count]) {
        Ok(()) => Some(count),
        Err(_) => None,
    }
}

/// Whether no byte is an upper-case hexadecimal digit.
fn is_lower_case(word: &[u8]) -> bool
    ensures { result ≡ list_all (λ b. not (is_within 65 70 b)) word.now }
{
    word.iter().all(|byte| !(b'A'..=b'F').contains(byte))
}

/// The bytes that the word stands for, and how many they are. None where it stands for none, or where the room is too
/// small.
pub fn read_bytes(word: &[u8], room: &mut [u8]) -> Option<usize>
    ensures bytes { IsDecoded (word_bytes word.now) room.old room.new result }
    ensures room { length room.new ≡ length room.old }
{
    match word.split_first() {
        Some((first, digits)) => {
            if *first == b'#' {
                read_unplain(digits, room)
            } else {
                read_plain(word, room)
            }
        },
        None => None,
    }
}

/// The bytes of hexadecimal digits, where they are not their own word.
fn read_unplain(digits: &[u8], room: &mut [u8]) -> Option<usize>
    ensures bytes { IsDecoded (unless_plain (hex_bytes digits.now)) room.old room.new result }
    ensures room { length room.new ≡ length room.old }
{
    let count = read_hex(digits, room)?;
    if is_plain(&room[..count]) {
        None
    } else {
        Some(count)
    }
}

/// The word itself, where its bytes are printed.
fn read_plain(word: &[u8], room: &mut [u8]) -> Option<usize>
    ensures bytes { IsDecoded (then_some (are_printed word.now) word.now) room.old room.new result }
    ensures room { length room.new ≡ length room.old }
{
    if word.len() > room.len() || !are_printed(word) {
        return None;
    }
    room[..word.len()].copy_from_slice(word);
    Some(word.len())
}
