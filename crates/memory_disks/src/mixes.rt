//! What a crash leaves of a bytewise write, by a choice.

ghost use Rattle.std.specs.Prelude.{◌≡◌, ◌+◌, ◌≤◌, length, OnOk};
ghost use Rattle.disk_store.specs.Disks.{Bytewise};
ghost use Rattle.memory_disks.specs.Memory.{with_zeros};

use crate::crashes::Digits;
use tardis_base::NoMemory;

/// Which bytes of a bytewise write are there, by their numbers in it. For a write of up to 32 bytes each choice of them is one
/// of these.
#[derive(Clone, Copy)]
enum Mix {
    /// Those before a number.
    Front(usize),
    /// All but one.
    Without(usize),
    /// Those whose number, so much further on and times an odd one, has this bit.
    Scattered { shift: usize, odd: u64, bit: u32 },
    /// Those before a number, and of each 32 behind it those whose bit is set.
    Chosen { from: usize, bits: u32 },
}

impl Mix {
    /// A mix of a write of so many bytes: a front first, then all without one, then others.
    fn new(digits: &mut Digits, count: usize, missing: usize) -> Mix {
        match digits.up_to(3) {
            0 => Mix::Front(count.saturating_sub(missing)),
            1 => Mix::Without(missing),
            2 => Mix::Scattered {
                shift: missing,
                odd: (digits.up_to(31) as u64) * 2 + 1,
                bit: digits.up_to(7) as u32,
            },
            _ => Mix::Chosen {
                from: count.saturating_sub(missing),
                bits: digits.up_to(u32::MAX as usize) as u32,
            },
        }
    }

    /// Whether the byte of this number is there.
    fn has(self, number: usize) -> bool {
        match self {
            Mix::Front(end) => number < end,
            Mix::Without(one) => number != one,
            Mix::Scattered { shift, odd, bit } => {
                let at = (number as u64).wrapping_add(shift as u64);
                at.wrapping_mul(odd).wrapping_shr(bit) % 2 == 1
            }
            Mix::Chosen { from, bits } => {
                number < from || bits.wrapping_shr(((number - from) % 32) as u32) % 2 == 1
            }
        }
    }
}

/// Writes bytes at a place in part, bytewise: those that a mix has, over what is there and zeros past the end, of which
/// so many are cut off again.
pub(crate) fn blend(
    image: &mut Vec<u8>,
    place: usize,
    bytes: &[u8],
    digits: &mut Digits,
) -> Result<(), NoMemory>
    ensures { OnOk result (Bytewise place bytes.now image.old.items image.new.items) }
{
    let Some(end) = place.checked_add(bytes.len()) else {
        return Err(NoMemory);
    };
    let missing = digits.up_to(bytes.len());
    let less = digits.up_to(end.saturating_sub(image.len()));
    let mix = Mix::new(digits, bytes.len(), missing);
    fill_to(image, end)?;
    mix_in(image, place, bytes, mix);
    image.truncate(image.len() - less);
    Ok(())
}

/// Puts zeros behind the bytes up to a place.
pub(crate) fn fill_to(image: &mut Vec<u8>, place: usize) -> Result<(), NoMemory>
    ensures { OnOk result (image.new.items ≡ with_zeros image.old.items place) }
{
    if image.len() < place {
        let Ok(()) = image.resize(place, 0) else {
            return Err(NoMemory);
        };
    }
    Ok(())
}

/// Puts those of the bytes that the mix has over what is there.
fn mix_in(image: &mut Vec<u8>, place: usize, bytes: &[u8], mix: Mix)
    requires { place + length bytes.now ≤ length image.old.items }
    ensures mixed { Bytewise place bytes.now image.old.items image.new.items }
    ensures len { length image.new.items ≡ length image.old.items }
{
    for number in 0..bytes.len() {
        if mix.has(number) {
            image[place + number] = bytes[number];
        }
    }
}
