//! The text that is left of a line, from whose front words are read.

ghost use Rattle.std.specs.Prelude.{◌≡◌, ◌++◌, ◌∷◌, ◌==◌, ◌≤◌, ◌^◌, [], length, option_map};
ghost use Rattle.tardis_base.specs.Valid.{is_id};
ghost use Rattle.text_words.specs.Texts.{behind, id_until, number_of, number_until, spaces, until};

use itoa::Buffer;
use memchr::memchr;
use std::marker::Model;
use tardis_base::StateId;

/// The text that is left of a line. A space stands behind its last word too.
#[derive(Drop)]
pub struct Words<'a> {
    left: &'a [u8],
    is_over: bool,
}

impl<'a> Model for Words<'a> {
    ghost use Rattle.std.specs.Prelude.{List, ℕ, [], ◌∷◌, ◌++◌, if◌then◌else◌};

    ghost Value = { List ℕ };

    ghost view = { λ w. if w.is_over then [] else w.left.now ++ 32 ∷ [] };
}

impl<'a> Words<'a> {
    pub fn new(line: &'a [u8]) -> Words<'a>
        ensures { result ≡ line.now ++ 32 ∷ [] }
    {
        Words {
            left: line,
            is_over: false,
        }
    }

    /// The same text.
    pub fn again(&self) -> Words<'a>
        ensures { result ≡ self.now }
    {
        Words {
            left: self.left,
            is_over: self.is_over,
        }
    }

    /// Whether nothing is left.
    pub fn is_over(&self) -> bool
        ensures { result ≡ (length self.now == 0) }
    {
        self.is_over
    }

    /// How many words are left.
    pub fn count(&self) -> usize
        ensures { result ≡ spaces self.now }
    {
        if self.is_over {
            return 0;
        }
        let mut count = 1;
        for byte in self.left {
            if *byte == b' ' {
                count += 1;
            }
        }
        count
    }

    /// What stands behind this byte, where it stands at the front.
    fn behind_byte(&self, byte: u8) -> Option<Words<'a>>
        ensures { result ≡ behind (byte ∷ []) self.now }
    {
        if self.is_over {
            return None;
        }
        match self.left.split_first() {
            Some((first, left)) => {
                if byte == *first {
                    Some(Words {
                        left,
                        is_over: false,
                    })
                } else {
                    None
                }
            },
            None => {
                if byte == b' ' {
                    Some(Words {
                        left: self.left,
                        is_over: true,
                    })
                } else {
                    None
                }
            },
        }
    }

    /// What stands behind these bytes, where they stand at the front.
    pub fn behind(&self, prefix: &[u8]) -> Option<Words<'a>>
        ensures { result ≡ behind prefix.now self.now }
    {
        let mut words = Words {
            left: self.left,
            is_over: self.is_over,
        };
        for byte in prefix {
            words = words.behind_byte(*byte)?;
        }
        Some(words)
    }

    /// The word before this byte, and what stands behind the byte.
    pub fn until(&self, end: u8) -> Option<(&'a [u8], Words<'a>)>
        ensures { option_map (λ read. (read.0.now, read.1)) result ≡ until end self.now }
    {
        if self.is_over {
            return None;
        }
        match memchr(end, self.left) {
            Some(place) => Some((
                &self.left[..place],
                Words {
                    left: &self.left[place + 1..],
                    is_over: false,
                },
            )),
            None => {
                if end == b' ' {
                    Some((
                        self.left,
                        Words {
                            left: self.left,
                            is_over: true,
                        },
                    ))
                } else {
                    None
                }
            },
        }
    }

    /// A number of 8 bits.
    pub fn u8(&self, end: u8) -> Option<(u8, Words<'a>)>
        ensures { result ≡ number_until 256 end self.now }
    {
        match self.until(end) {
            Some((word, words)) => match number_of(word, 256) {
                Some(number) => Some((number as u8, words)),
                None => None,
            },
            None => None,
        }
    }

    /// A number of 16 bits.
    pub fn u16(&self, end: u8) -> Option<(u16, Words<'a>)>
        ensures { result ≡ number_until (2 ^ 16) end self.now }
    {
        match self.until(end) {
            Some((word, words)) => match number_of(word, 65_536) {
                Some(number) => Some((number as u16, words)),
                None => None,
            },
            None => None,
        }
    }

    /// A number of 32 bits.
    pub fn u32(&self, end: u8) -> Option<(u32, Words<'a>)>
        ensures { result ≡ number_until (2 ^ 32) end self.now }
    {
        match self.until(end) {
            Some((word, words)) => match number_of(word, 4_294_967_296) {
                Some(number) => Some((number as u32, words)),
                None => None,
            },
            None => None,
        }
    }

    /// A number of 64 bits.
    pub fn u64(&self, end: u8) -> Option<(u64, Words<'a>)>
        ensures { result ≡ number_until (2 ^ 64) end self.now }
    {
        match self.until(end) {
            Some((word, words)) => match number_of(word, 18_446_744_073_709_551_616) {
                Some(number) => Some((number as u64, words)),
                None => None,
            },
            None => None,
        }
    }

    pub fn id(&self, end: u8) -> Option<(StateId, Words<'a>)>
        ensures { result ≡ id_until end self.now }
    {
        match self.u16(b'.') {
            Some((site, words)) => match words.u32(end) {
                Some((sequence, words)) => {
                    let id = StateId { site, sequence };
                    if is_id(id) { Some((id, words)) } else { None }
                },
                None => None,
            },
            None => None,
        }
    }
}

fn is_id(id: StateId) -> bool
    ensures { result ≡ is_id id }
{
    (id.site == 0) == (id.sequence == 0)
}

/// The number below the limit for which the word stands.
fn number_of(word: &[u8], limit: u128) -> Option<u128>
    requires { limit ≤ 2 ^ 64 }
    ensures { result ≡ number_of limit word.now }
{
    let mut number = 0;
    for byte in word {
        if !byte.is_ascii_digit() || number >= limit {
            return None;
        }
        number = number * 10 + u128::from(*byte - b'0');
    }
    let mut digits = Buffer::new();
    if number < limit && digits.format(number).as_bytes() == word {
        Some(number)
    } else {
        None
    }
}
