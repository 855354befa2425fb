//! Writing a name and the fields behind it from the bytes of a spelling.

ghost use Rattle.std.specs.Prelude.{◌≡◌, ◌++◌};
ghost use Rattle.text_words.specs.Puts.{putting, puts, says, spaced};
ghost use Rattle.text_words.specs.Words.{byte_word, id_word, number_word};
ghost use Rattle.wire_item.specs.Fronts.{both};
ghost use Rattle.wire_item.specs.Readings.{id_front, key_front, u16_front, u32_front, u64_front, u8_front, value_front};

use text_words::{LineBuf, Unread};

/// Writes a name and a number.
pub fn say_numbered(name: &[u8], number: u64, unread: &mut Unread, out: &mut LineBuf)
    ensures { putting unread.new out.new ≡ says (name.now ++ spaced (number_word number)) (putting unread.old out.old) }
{
    unread.say(name, out);
    unread.say_number(number, out);
}

pub fn put_u8(name: &[u8], unread: &mut Unread, out: &mut LineBuf)
    ensures { putting unread.new out.new ≡ puts u8_front (λ x. name.now ++ spaced (number_word x)) (putting unread.old out.old) }
{
    unread.say(name, out);
    unread.put_u8(out);
}

pub fn put_u16(name: &[u8], unread: &mut Unread, out: &mut LineBuf)
    ensures { putting unread.new out.new ≡ puts u16_front (λ x. name.now ++ spaced (number_word x)) (putting unread.old out.old) }
{
    unread.say(name, out);
    unread.put_u16(out);
}

pub fn put_u32(name: &[u8], unread: &mut Unread, out: &mut LineBuf)
    ensures { putting unread.new out.new ≡ puts u32_front (λ x. name.now ++ spaced (number_word x)) (putting unread.old out.old) }
{
    unread.say(name, out);
    unread.put_u32(out);
}

pub fn put_u64(name: &[u8], unread: &mut Unread, out: &mut LineBuf)
    ensures { putting unread.new out.new ≡ puts u64_front (λ x. name.now ++ spaced (number_word x)) (putting unread.old out.old) }
{
    unread.say(name, out);
    unread.put_u64(out);
}

pub fn put_id(name: &[u8], unread: &mut Unread, out: &mut LineBuf)
    ensures { putting unread.new out.new ≡ puts id_front (λ x. name.now ++ spaced (id_word x)) (putting unread.old out.old) }
{
    unread.say(name, out);
    unread.put_id(out);
}

pub fn put_key(name: &[u8], unread: &mut Unread, out: &mut LineBuf)
    ensures { putting unread.new out.new ≡ puts key_front (λ x. name.now ++ spaced (byte_word x)) (putting unread.old out.old) }
{
    unread.say(name, out);
    unread.put_key(out);
}

pub fn put_two_ids(name: &[u8], unread: &mut Unread, out: &mut LineBuf)
    ensures { putting unread.new out.new
        ≡ puts (both id_front id_front) (λ p. (name.now ++ spaced (id_word p.0)) ++ spaced (id_word p.1)) (putting unread.old out.old) }
{
    put_id(name, unread, out);
    unread.put_id(out);
}

pub fn put_id_and_u32(name: &[u8], unread: &mut Unread, out: &mut LineBuf)
    ensures { putting unread.new out.new
        ≡ puts (both id_front u32_front) (λ p. (name.now ++ spaced (id_word p.0)) ++ spaced (number_word p.1)) (putting unread.old out.old) }
{
    put_id(name, unread, out);
    unread.put_u32(out);
}

pub fn put_u16_and_id(name: &[u8], unread: &mut Unread, out: &mut LineBuf)
    ensures { putting unread.new out.new
        ≡ puts (both u16_front id_front) (λ p. (name.now ++ spaced (number_word p.0)) ++ spaced (id_word p.1)) (putting unread.old out.old) }
{
    put_u16(name, unread, out);
    unread.put_id(out);
}

pub fn put_u16_and_u32(name: &[u8], unread: &mut Unread, out: &mut LineBuf)
    ensures { putting unread.new out.new
        ≡ puts (both u16_front u32_front) (λ p. (name.now ++ spaced (number_word p.0)) ++ spaced (number_word p.1)) (putting unread.old out.old) }
{
    put_u16(name, unread, out);
    unread.put_u32(out);
}

pub fn put_id_and_value(name: &[u8], unread: &mut Unread, out: &mut LineBuf)
    ensures { putting unread.new out.new
        ≡ puts (both id_front value_front) (λ p. (name.now ++ spaced (id_word p.0)) ++ spaced (byte_word p.1)) (putting unread.old out.old) }
{
    put_id(name, unread, out);
    unread.put_value(out);
}

pub fn put_key_and_value(name: &[u8], unread: &mut Unread, out: &mut LineBuf)
    ensures { putting unread.new out.new
        ≡ puts (both key_front value_front) (λ p. (name.now ++ spaced (byte_word p.0)) ++ spaced (byte_word p.1)) (putting unread.old out.old) }
{
    put_key(name, unread, out);
    unread.put_value(out);
}

pub fn put_key_and_id(name: &[u8], unread: &mut Unread, out: &mut LineBuf)
    ensures { putting unread.new out.new
        ≡ puts (both key_front id_front) (λ p. (name.now ++ spaced (byte_word p.0)) ++ spaced (id_word p.1)) (putting unread.old out.old) }
{
    put_key(name, unread, out);
    unread.put_id(out);
}
