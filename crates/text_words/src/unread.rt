//! The bytes of a spelling from which words are written.

ghost use Rattle.std.specs.Prelude.{◌≡◌, ◌++◌, None, Some, is_none};
ghost use Rattle.std.specs.Option.{option_copied};
ghost use Rattle.text_words.specs.Puts.{TakesNext, is_read, putting, puts, says, spaced};
ghost use Rattle.text_words.specs.Words.{are_printed, byte_word, hex_word, id_word, is_plain, number_word};
ghost use Rattle.wire_item.specs.Fronts.{bytes_front};
ghost use Rattle.wire_item.specs.Readings.{id_front, key_front, u16_front, u32_front, u64_front, u8_front, value_front};

use crate::line_bufs::LineBuf;
use item_bytes::Reader;
use itoa::Buffer;
use std::marker::Model;
use tardis_base::StateId;

/// The bytes that are left of a spelling, until something else is met.
#[derive(Drop)]
pub struct Unread<'a> {
    reader: Reader<'a>,
    is_lost: bool,
}

impl<'a> Model for Unread<'a> {
    ghost use Rattle.std.specs.Prelude.{List, ℕ, Option, Some, None, if◌then◌else◌};

    ghost Value = { Option (List ℕ) };

    ghost view = { λ u. if u.is_lost then None else Some u.reader };
}

impl<'a> Unread<'a> {
    pub fn new(bytes: &'a [u8]) -> Unread<'a>
        ensures { result ≡ Some bytes.now }
    {
        Unread {
            reader: Reader::new(bytes),
            is_lost: false,
        }
    }

    /// Whether nothing else was met, and no bytes are left.
    pub fn is_read(&self) -> bool
        ensures { result ≡ is_read self.now }
    {
        !self.is_lost && self.reader.is_done()
    }

    /// Whether something else than the spelling was met, or the line was too long.
    pub fn is_lost(&self) -> bool
        ensures { result ≡ is_none self.now }
    {
        self.is_lost
    }

    /// Something else than the spelling was met.
    pub fn lose(&mut self)
        ensures { self.new ≡ None }
    {
        self.is_lost = true;
    }

    pub fn u8(&mut self) -> Option<u8>
        ensures { TakesNext u8_front self.old result self.new }
    {
        if self.is_lost {
            return None;
        }
        let taken = self.reader.u8();
        self.is_lost = taken.is_none();
        taken
    }

    pub fn u16(&mut self) -> Option<u16>
        ensures { TakesNext u16_front self.old result self.new }
    {
        if self.is_lost {
            return None;
        }
        let taken = self.reader.u16();
        self.is_lost = taken.is_none();
        taken
    }

    pub fn u32(&mut self) -> Option<u32>
        ensures { TakesNext u32_front self.old result self.new }
    {
        if self.is_lost {
            return None;
        }
        let taken = self.reader.u32();
        self.is_lost = taken.is_none();
        taken
    }

    pub fn id(&mut self) -> Option<StateId>
        ensures { TakesNext id_front self.old result self.new }
    {
        if self.is_lost {
            return None;
        }
        let taken = self.reader.id();
        self.is_lost = taken.is_none();
        taken
    }

    /// The bytes of a key.
    pub fn key(&mut self) -> Option<&'a [u8]>
        ensures { TakesNext key_front self.old (option_copied result) self.new }
    {
        if self.is_lost {
            return None;
        }
        let taken = self.reader.key();
        self.is_lost = taken.is_none();
        taken
    }

    /// So many bytes.
    pub fn counted_bytes(&mut self, count: u8) -> Option<&'a [u8]>
        ensures { TakesNext (bytes_front count) self.old (option_copied result) self.new }
    {
        if self.is_lost {
            return None;
        }
        let taken = self.reader.bytes(usize::from(count));
        self.is_lost = taken.is_none();
        taken
    }

    /// Writes the text.
    pub fn say(&mut self, text: &[u8], out: &mut LineBuf)
        ensures { putting self.new out.new ≡ says text.now (putting self.old out.old) }
    {
        if !out.push(text) {
            self.is_lost = true;
        }
    }

    /// Writes the text, and then the bytes in hexadecimal.
    pub fn say_hex(&mut self, lead: &[u8], bytes: &[u8], out: &mut LineBuf)
        ensures { putting self.new out.new ≡ says (lead.now ++ hex_word bytes.now) (putting self.old out.old) }
    {
        self.say(lead, out);
        for byte in bytes {
            let mut digits = [0; 2];
            let _ = hex::encode_to_slice([*byte], &mut digits);
            self.say(&digits, out);
        }
    }

    /// Writes the text, and then the number behind it.
    pub fn say_digits(&mut self, lead: &[u8], number: u64, out: &mut LineBuf)
        ensures { putting self.new out.new ≡ says (lead.now ++ number_word number) (putting self.old out.old) }
    {
        let mut digits = Buffer::new();
        self.say(lead, out);
        self.say(digits.format(number).as_bytes(), out);
    }

    /// Writes the number as a word.
    pub fn say_number(&mut self, number: u64, out: &mut LineBuf)
        ensures { putting self.new out.new ≡ says (spaced (number_word number)) (putting self.old out.old) }
    {
        let mut digits = Buffer::new();
        self.say(b" ", out);
        self.say(digits.format(number).as_bytes(), out);
    }

    /// Writes the id as a word.
    pub fn say_id(&mut self, id: StateId, out: &mut LineBuf)
        ensures { putting self.new out.new ≡ says (spaced (id_word id)) (putting self.old out.old) }
    {
        let mut digits = Buffer::new();
        self.say_number(u64::from(id.site), out);
        self.say(b".", out);
        self.say(digits.format(id.sequence).as_bytes(), out);
    }

    /// Writes the word of the bytes.
    pub fn say_bytes(&mut self, bytes: &[u8], out: &mut LineBuf)
        ensures { putting self.new out.new ≡ says (spaced (byte_word bytes.now)) (putting self.old out.old) }
    {
        if is_plain(bytes) {
            self.say(b" ", out);
            self.say(bytes, out);
        } else {
            self.say_hex(b" #", bytes, out);
        }
    }

    /// Writes the text, and then the number behind it.
    pub fn put_u32_behind(&mut self, lead: &[u8], out: &mut LineBuf)
        ensures { putting self.new out.new ≡ puts u32_front (λ n. lead.now ++ number_word n) (putting self.old out.old) }
    {
        if self.is_lost {
            return;
        }
        match self.reader.u32() {
            Some(number) => self.say_digits(lead, u64::from(number), out),
            None => self.is_lost = true,
        }
    }

    /// Writes the text, and then the id behind it.
    pub fn put_id_behind(&mut self, lead: &[u8], out: &mut LineBuf)
        ensures { putting self.new out.new ≡ puts id_front (λ x. lead.now ++ id_word x) (putting self.old out.old) }
    {
        if self.is_lost {
            return;
        }
        match self.reader.id() {
            Some(id) => {
                self.say_digits(lead, u64::from(id.site), out);
                self.say_digits(b".", u64::from(id.sequence), out);
            },
            None => self.is_lost = true,
        }
    }

    pub fn put_u8(&mut self, out: &mut LineBuf)
        ensures { putting self.new out.new ≡ puts u8_front (λ n. spaced (number_word n)) (putting self.old out.old) }
    {
        if self.is_lost {
            return;
        }
        match self.reader.u8() {
            Some(number) => self.say_number(u64::from(number), out),
            None => self.is_lost = true,
        }
    }

    pub fn put_u16(&mut self, out: &mut LineBuf)
        ensures { putting self.new out.new ≡ puts u16_front (λ n. spaced (number_word n)) (putting self.old out.old) }
    {
        if self.is_lost {
            return;
        }
        match self.reader.u16() {
            Some(number) => self.say_number(u64::from(number), out),
            None => self.is_lost = true,
        }
    }

    pub fn put_u32(&mut self, out: &mut LineBuf)
        ensures { putting self.new out.new ≡ puts u32_front (λ n. spaced (number_word n)) (putting self.old out.old) }
    {
        if self.is_lost {
            return;
        }
        match self.reader.u32() {
            Some(number) => self.say_number(u64::from(number), out),
            None => self.is_lost = true,
        }
    }

    pub fn put_u64(&mut self, out: &mut LineBuf)
        ensures { putting self.new out.new ≡ puts u64_front (λ n. spaced (number_word n)) (putting self.old out.old) }
    {
        if self.is_lost {
            return;
        }
        match self.reader.u64() {
            Some(number) => self.say_number(number, out),
            None => self.is_lost = true,
        }
    }

    pub fn put_id(&mut self, out: &mut LineBuf)
        ensures { putting self.new out.new ≡ puts id_front (λ x. spaced (id_word x)) (putting self.old out.old) }
    {
        if self.is_lost {
            return;
        }
        match self.reader.id() {
            Some(id) => self.say_id(id, out),
            None => self.is_lost = true,
        }
    }

    pub fn put_key(&mut self, out: &mut LineBuf)
        ensures { putting self.new out.new ≡ puts key_front (λ k. spaced (byte_word k)) (putting self.old out.old) }
    {
        if self.is_lost {
            return;
        }
        match self.reader.key() {
            Some(key) => self.say_bytes(key, out),
            None => self.is_lost = true,
        }
    }

    pub fn put_value(&mut self, out: &mut LineBuf)
        ensures { putting self.new out.new ≡ puts value_front (λ v. spaced (byte_word v)) (putting self.old out.old) }
    {
        if self.is_lost {
            return;
        }
        match self.reader.value() {
            Some(value) => self.say_bytes(value, out),
            None => self.is_lost = true,
        }
    }
}

/// Whether the bytes are their own word.
pub(crate) fn is_plain(bytes: &[u8]) -> bool
    ensures { result ≡ is_plain bytes.now }
{
    match bytes.first() {
        Some(first) => *first != b'#' && are_printed(bytes),
        None => false,
    }
}

pub(crate) fn are_printed(bytes: &[u8]) -> bool
    ensures { result ≡ are_printed bytes.now }
{
    bytes.iter().all(|byte| (33..=126).contains(byte))
}
