//! Introductions, written and read.

ghost use Rattle.std.specs.Prelude.{◌≡◌, ◌+◌, ◌≤◌, ◌++◌, length};
ghost use Rattle.tardis_base.specs.Sizes.{longest_frame};
ghost use Rattle.wire_item.specs.Takings.{Takes};
ghost use Rattle.wire_lives.specs.Spellings.{is_placed, introduction_spelling};
ghost use Rattle.wire_lives.specs.Readings.{behind_code, introduction_of, life_in};
ghost use Rattle.wire_lives.specs.Laws.{IntroductionsHaveOneSpelling, IntroductionsHaveTheirLength};

use crate::life_codes::LIFE;
use item_bytes::{Reader, write_u8, write_u16};
use tardis_base::{ReplyBuf, checked_bytes};

/// Who a site is.
#[derive(Clone, Copy)]
pub struct Introduction {
    /// Its number, from 1.
    pub number: u16,
    /// How many sites there are.
    pub sites: u16,
    /// Its life: 16 bytes that were drawn when its history began.
    pub life: [u8; 16],
}

/// Writes the introduction's 21 bytes.
pub fn write_introduction(introduction: &Introduction, out: &mut ReplyBuf)
    requires { length out.old + 21 ≤ longest_frame }
    ensures { out.new ≡ out.old ++ introduction_spelling introduction.now }
{
    write_u8(LIFE, out);
    write_u16(introduction.number, out);
    write_u16(introduction.sites, out);
    out.push(&introduction.life);
}

/// The introduction that the bytes spell; None where they spell none.
pub fn read_introduction(bytes: &[u8]) -> Option<Introduction>
    ensures { result ≡ introduction_of bytes.now }
{
    let mut reader = Reader::new(bytes);
    let code = reader.u8()?;
    if code != LIFE {
        return None;
    }
    let introduction = fields(&mut reader)?;
    if reader.is_done() {
        Some(introduction)
    } else {
        None
    }
}

/// What stands behind the code.
fn fields(reader: &mut Reader<'_>) -> Option<Introduction>
    ensures { Takes behind_code reader.old result reader.new }
{
    let number = reader.u16()?;
    let sites = reader.u16()?;
    let life = as_array(reader.bytes(16)?);
    let introduction = Introduction {
        number,
        sites,
        life,
    };
    if is_placed(&introduction) {
        Some(introduction)
    } else {
        None
    }
}

/// Whether the site is one of these sites.
fn is_placed(introduction: &Introduction) -> bool
    ensures { result ≡ is_placed introduction.now }
{
    (1..=introduction.sites).contains(&introduction.number)
}

/// The life that the bytes are; None where they aren't 16.
pub fn read_life(bytes: &[u8]) -> Option<[u8; 16]>
    ensures { result ≡ life_in bytes.now }
{
    match checked_bytes(bytes).as_array::<16>() {
        Some(life) => Some(*life),
        None => None,
    }
}

/// These 16 bytes.
fn as_array(bytes: &[u8]) -> [u8; 16]
    requires { length bytes.now ≡ 16 }
    ensures { result ≡ bytes.now }
{
    match bytes.as_array::<16>() {
        Some(life) => *life,
        None => [0; 16],
    }
}

/// Each introduction has one spelling, of 21 bytes, and bytes are read as the one that they spell. This call does nothing.
pub fn introductions_have_one_spelling()
    ensures one { IntroductionsHaveOneSpelling }
    ensures length { IntroductionsHaveTheirLength }
{}
