//! Numbers that fit 32 bits.

ghost use Rattle.std.specs.Prelude.{◌≡◌, ◌+◌, ◌<◌, IfOk, OnErr};

use tardis_base::NoMemory;

/// The number. Of things so many that their number doesn't fit no memory holds all.
pub fn in_u32(number: usize) -> Result<u32, NoMemory>
    ensures is { IfOk result (λ n. n ≡ number) }
    ensures above { OnErr result (4294967295 < number) }
{
    if number <= 0xffff_ffff {
        Ok(number as u32)
    } else {
        Err(NoMemory)
    }
}

/// The sum, where it fits.
pub fn sum_in_u32(a: usize, b: usize) -> Result<u32, NoMemory>
    ensures is { IfOk result (λ n. n ≡ a + b) }
    ensures above { OnErr result (4294967295 < a + b) }
{
    match a.checked_add(b) {
        Some(sum) => in_u32(sum),
        None => Err(NoMemory),
    }
}
