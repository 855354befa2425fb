//! Writing lists from the bytes of a spelling.

ghost use Rattle.std.specs.Prelude.{◌≡◌, ◌∷◌, ◌++◌, true};
ghost use Rattle.std.specs.Option.{option_copied, option_map_or};
ghost use Rattle.shell_text.specs.ReplyLines.{pair_word, site_line_word};
ghost use Rattle.tardis_base.specs.Ids.{are_ascending, is_before};
ghost use Rattle.tardis_base.specs.Keys.{are_ascending_keys};
ghost use Rattle.text_words.specs.Puts.{putting, puts, spaced, texts};
ghost use Rattle.text_words.specs.Words.{byte_word, id_word, number_word};
ghost use Rattle.wire_item.specs.Fronts.{both, only_if, times};
ghost use Rattle.wire_item.specs.Readings.{id_front, key_front, parents_front, u32_front};
ghost use Rattle.wire_talk.specs.ReplyReadings.{site_line_front};

use tardis_base::{StateId, key_follows};
use text_words::{LineBuf, Unread};

fn put_site_line(unread: &mut Unread, out: &mut LineBuf)
    ensures { putting unread.new out.new ≡ puts site_line_front (λ l. spaced (site_line_word l)) (putting unread.old out.old) }
{
    unread.put_u32(out);
    unread.put_id_behind(b":", out);
    unread.put_u32_behind(b":", out);
}

fn put_pair(unread: &mut Unread, out: &mut LineBuf)
    ensures { putting unread.new out.new ≡ puts (both id_front u32_front) (λ p. spaced (pair_word p)) (putting unread.old out.old) }
{
    unread.put_id(out);
    unread.put_u32_behind(b":", out);
}

/// Writes the text, and then so many ids.
pub fn put_ids(lead: &[u8], count: u32, unread: &mut Unread, out: &mut LineBuf)
    ensures { putting unread.new out.new ≡ puts (times id_front count) (texts lead.now (λ x. spaced (id_word x))) (putting unread.old out.old) }
{
    unread.say(lead, out);
    for _place in 0..count {
        if unread.is_lost() {
            return;
        }
        unread.put_id(out);
    }
}

/// Writes the text, and then so many numbers of 32 bits.
pub fn put_numbers(lead: &[u8], count: u8, unread: &mut Unread, out: &mut LineBuf)
    ensures { putting unread.new out.new ≡ puts (times u32_front count) (texts lead.now (λ n. spaced (number_word n))) (putting unread.old out.old) }
{
    unread.say(lead, out);
    for _place in 0..count {
        if unread.is_lost() {
            return;
        }
        unread.put_u32(out);
    }
}

/// Writes the text, and then so many site lines.
pub fn put_site_lines(lead: &[u8], count: u8, unread: &mut Unread, out: &mut LineBuf)
    ensures { putting unread.new out.new ≡ puts (times site_line_front count) (texts lead.now (λ l. spaced (site_line_word l))) (putting unread.old out.old) }
{
    unread.say(lead, out);
    for _place in 0..count {
        if unread.is_lost() {
            return;
        }
        put_site_line(unread, out);
    }
}

/// Writes the text, and then so many pairs of a fork and a branch.
pub fn put_pairs(lead: &[u8], count: u32, unread: &mut Unread, out: &mut LineBuf)
    ensures { putting unread.new out.new ≡ puts (times (both id_front u32_front) count) (texts lead.now (λ p. spaced (pair_word p)))
        (putting unread.old out.old) }
{
    unread.say(lead, out);
    for _place in 0..count {
        if unread.is_lost() {
            return;
        }
        put_pair(unread, out);
    }
}

/// Writes the text, and then so many ids in ascending order.
pub fn put_ascending_ids(lead: &[u8], count: u8, unread: &mut Unread, out: &mut LineBuf)
    ensures { putting unread.new out.new
        ≡ puts (only_if are_ascending (times id_front count)) (texts lead.now (λ x. spaced (id_word x))) (putting unread.old out.old) }
{
    unread.say(lead, out);
    if unread.is_lost() {
        return;
    }
    let mut last = None;
    for _place in 0..count {
        let id = match unread.id() {
            Some(id) => id,
            None => return,
        };
        if !id_follows(last, id) {
            unread.lose();
            return;
        }
        unread.say_id(id, out);
        last = Some(id);
    }
}

/// Writes the text, and then so many keys in ascending order.
pub fn put_ascending_keys(lead: &[u8], count: u16, unread: &mut Unread, out: &mut LineBuf)
    ensures { putting unread.new out.new
        ≡ puts (only_if are_ascending_keys (times key_front count)) (texts lead.now (λ k. spaced (byte_word k))) (putting unread.old out.old) }
{
    unread.say(lead, out);
    if unread.is_lost() {
        return;
    }
    let mut last = None;
    for _place in 0..count {
        let key = match unread.key() {
            Some(key) => key,
            None => return,
        };
        if !key_follows(last, key) {
            unread.lose();
            return;
        }
        unread.say_bytes(key, out);
        last = Some(key);
    }
}

/// Whether the id may stand behind this one in ascending order, by its site and then its number; the first may be any.
pub fn id_follows(last: Option<StateId>, id: StateId) -> bool
    ensures { result ≡ option_map_or (λ before. is_before before id) last true }
{
    match last {
        Some(before) => {
            before.site < id.site || before.site == id.site && before.sequence < id.sequence
        },
        None => true,
    }
}
