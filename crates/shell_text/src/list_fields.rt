//! Writing the fields that are lists from the bytes of a spelling: their number is tested before the first is written.

ghost use Rattle.std.specs.Prelude.{◌≡◌, ◌++◌, codes, length};
ghost use Rattle.shell_text.specs.ReplyLines.{pair_word, site_line_word};
ghost use Rattle.tardis_base.specs.Sizes.{most_parents, most_sites};
ghost use Rattle.tardis_base.specs.Valid.{is_within};
ghost use Rattle.text_words.specs.Puts.{putting, puts, spaced, texts};
ghost use Rattle.text_words.specs.Words.{byte_word, id_word, number_word};
ghost use Rattle.wire_item.specs.Fronts.{counted, only_if, times};
ghost use Rattle.wire_item.specs.Readings.{id_front, key_front, parents_front, u16_front};
ghost use Rattle.wire_talk.specs.ReplyReadings.{children_front, path_front, site_lines_front};
ghost use Rattle.wire_talk.specs.Valid.{are_first_ids, are_first_keys, is_first_of};

use crate::field_words::say_numbered;
use crate::list_lines::{
    put_ascending_ids, put_ascending_keys, put_ids, put_pairs, put_site_lines,
};
use tardis_base::{MAX_NAMED, MAX_PARENTS, MAX_SITES};
use text_words::{LineBuf, Unread};

/// Writes the text, and then the parents of a state or other states of which there are 1 to 8 in ascending order.
pub fn put_parents(lead: &[u8], unread: &mut Unread, out: &mut LineBuf)
    ensures { putting unread.new out.new ≡ puts parents_front (texts lead.now (λ x. spaced (id_word x))) (putting unread.old out.old) }
{
    let count = match unread.u8() {
        Some(count) => count,
        None => return,
    };
    if is_parent_count(count) {
        put_ascending_ids(lead, count, unread, out);
    } else {
        unread.lose();
    }
}

pub fn put_children(unread: &mut Unread, out: &mut LineBuf)
    ensures { putting unread.new out.new
        ≡ puts children_front (λ xs. texts (codes " children" ++ spaced (number_word (length xs))) (λ x. spaced (id_word x)) xs) (putting unread.old out.old) }
{
    let count = match unread.u32() {
        Some(count) => count,
        None => return,
    };
    say_numbered(b" children", u64::from(count), unread, out);
    put_ids(b"", count, unread, out);
}

pub fn put_path(unread: &mut Unread, out: &mut LineBuf)
    ensures { putting unread.new out.new
        ≡ puts path_front (λ ps. texts (codes " path" ++ spaced (number_word (length ps))) (λ p. spaced (pair_word p)) ps) (putting unread.old out.old) }
{
    let count = match unread.u32() {
        Some(count) => count,
        None => return,
    };
    say_numbered(b" path", u64::from(count), unread, out);
    put_pairs(b"", count, unread, out);
}

pub fn put_sites(unread: &mut Unread, out: &mut LineBuf)
    ensures { putting unread.new out.new
        ≡ puts site_lines_front (λ ls. texts (codes " sites" ++ spaced (number_word (length ls))) (λ l. spaced (site_line_word l)) ls)
        (putting unread.old out.old) }
{
    let count = match unread.u8() {
        Some(count) => count,
        None => return,
    };
    if is_site_count(count) {
        say_numbered(b" sites", u64::from(count), unread, out);
        put_site_lines(b"", count, unread, out);
    } else {
        unread.lose();
    }
}

/// The first ids of so many.
pub fn put_first_ids(total: u32, unread: &mut Unread, out: &mut LineBuf)
    ensures { putting unread.new out.new
        ≡ puts (only_if (are_first_ids total) (counted u16_front (times id_front)))
        (texts (codes "states" ++ spaced (number_word total)) (λ x. spaced (id_word x))) (putting unread.old out.old) }
{
    let count = match unread.u16() {
        Some(count) => count,
        None => return,
    };
    if is_first_of(total, count) {
        say_numbered(b"states", u64::from(total), unread, out);
        put_ids(b"", u32::from(count), unread, out);
    } else {
        unread.lose();
    }
}

/// The first keys of so many.
pub fn put_first_keys(total: u32, unread: &mut Unread, out: &mut LineBuf)
    ensures { putting unread.new out.new
        ≡ puts (only_if (are_first_keys total) (counted u16_front (times key_front)))
        (texts (codes "keys" ++ spaced (number_word total)) (λ k. spaced (byte_word k))) (putting unread.old out.old) }
{
    let count = match unread.u16() {
        Some(count) => count,
        None => return,
    };
    if is_first_of(total, count) {
        say_numbered(b"keys", u64::from(total), unread, out);
        put_ascending_keys(b"", count, unread, out);
    } else {
        unread.lose();
    }
}

pub fn is_parent_count(count: u8) -> bool
    ensures { result ≡ is_within 1 most_parents count }
{
    (1..=MAX_PARENTS).contains(&usize::from(count))
}

pub fn is_site_count(count: u8) -> bool
    ensures { result ≡ is_within 1 most_sites count }
{
    (1..=MAX_SITES).contains(&u16::from(count))
}

fn is_first_of(total: u32, count: u16) -> bool
    ensures { result ≡ is_first_of total count }
{
    usize::from(count) == (total as usize).min(MAX_NAMED)
}
