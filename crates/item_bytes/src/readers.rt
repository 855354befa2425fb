//! A reader of the bytes that are left, which takes numbers, ids, keys and values from their front.

ghost use Rattle.std.specs.Prelude.{◌≡◌, ◌==◌, length, nat_le};
ghost use Rattle.std.specs.Option.{option_copied};
ghost use Rattle.tardis_base.specs.Sizes.{longest_key, longest_value};
ghost use Rattle.tardis_base.specs.Valid.{is_id, is_within};
ghost use Rattle.wire_item.specs.Fronts.{bytes_front};
ghost use Rattle.wire_item.specs.Readings.{id_front, key_front, u16_front, u32_front, u64_front, u8_front, value_front};
ghost use Rattle.wire_item.specs.Takings.{Takes};

use std::marker::Model;
use tardis_base::{MAX_KEY, MAX_VALUE, StateId, checked_bytes};

/// The bytes that are left of a spelling. After a call that answers None nothing is known of them.
#[derive(Drop)]
pub struct Reader<'a> {
    left: &'a [u8],
}

impl<'a> Model for Reader<'a> {
    ghost use Rattle.std.specs.Prelude.{List, ℕ};

    ghost Value = { List ℕ };

    ghost view = { λ r. r.left.now };
}

impl<'a> Reader<'a> {
    pub fn new(bytes: &'a [u8]) -> Reader<'a>
        ensures { result ≡ bytes.now }
    {
        Reader { left: bytes }
    }

    /// Whether no bytes are left.
    pub fn is_done(&self) -> bool
        ensures { result ≡ (length self.now == 0) }
    {
        self.left.is_empty()
    }

    /// So many bytes.
    pub fn bytes(&mut self, count: usize) -> Option<&'a [u8]>
        ensures { Takes (bytes_front count) self.old (option_copied result) self.new }
    {
        if self.left.len() < count {
            return None;
        }
        let (taken, left) = checked_bytes(self.left).split_at(count);
        self.left = left;
        Some(taken)
    }

    /// As many bytes as the array has.
    fn array<const N: usize>(&mut self) -> Option<[u8; N]>
        ensures { Takes (bytes_front N) self.old result self.new }
    {
        let (taken, left) = checked_bytes(self.left).split_first_chunk::<N>()?;
        self.left = left;
        Some(*taken)
    }

    pub fn u8(&mut self) -> Option<u8>
        ensures { Takes u8_front self.old result self.new }
    {
        let bytes = self.array::<1>()?;
        Some(u8::from_be_bytes(bytes))
    }

    pub fn u16(&mut self) -> Option<u16>
        ensures { Takes u16_front self.old result self.new }
    {
        let bytes = self.array::<2>()?;
        Some(u16::from_be_bytes(bytes))
    }

    pub fn u32(&mut self) -> Option<u32>
        ensures { Takes u32_front self.old result self.new }
    {
        let bytes = self.array::<4>()?;
        Some(u32::from_be_bytes(bytes))
    }

    pub fn u64(&mut self) -> Option<u64>
        ensures { Takes u64_front self.old result self.new }
    {
        let bytes = self.array::<8>()?;
        Some(u64::from_be_bytes(bytes))
    }

    pub fn id(&mut self) -> Option<StateId>
        ensures { Takes id_front self.old result self.new }
    {
        let site = self.u16()?;
        let sequence = self.u32()?;
        let id = StateId { site, sequence };
        if is_id(id) { Some(id) } else { None }
    }

    /// The bytes of a key.
    pub fn key(&mut self) -> Option<&'a [u8]>
        ensures { Takes key_front self.old (option_copied result) self.new }
    {
        let count = self.u8()?;
        if is_key_length(count) {
            self.bytes(usize::from(count))
        } else {
            None
        }
    }

    /// The bytes of a value.
    pub fn value(&mut self) -> Option<&'a [u8]>
        ensures { Takes value_front self.old (option_copied result) self.new }
    {
        let count = self.u16()?;
        if is_value_length(count) {
            self.bytes(usize::from(count))
        } else {
            None
        }
    }
}

fn is_id(id: StateId) -> bool
    ensures { result ≡ is_id id }
{
    (id.site == 0) == (id.sequence == 0)
}

fn is_key_length(count: u8) -> bool
    ensures { result ≡ is_within 1 longest_key count }
{
    (1..=MAX_KEY).contains(&usize::from(count))
}

fn is_value_length(count: u16) -> bool
    ensures { result ≡ nat_le count longest_value }
{
    usize::from(count) <= MAX_VALUE
}
