//! Numbers in decimal, and what two sides that count come to.

ghost use Rattle.std.specs.Prelude.{◌≡◌, ◌+ℤ◌, ◌-ℤ◌, IfOk};
ghost use Rattle.std.specs.Fmt.{signed_decimal};
ghost use Rattle.join_rules.specs.Values.{number_in, number_of, base_number, fitting, total, written_number};
ghost use Rattle.join_rules.specs.Sides.{base_of};
ghost use Rattle.join_rules.specs.Numbers.{ReadAs};

use crate::values::Base;
use itoa::Buffer;
use std::alloc::Global;
use std::str;
use tardis_base::{BytesFault, NoMemory, Value, Write};

/// What both sides write, less the base.
pub(crate) fn merged_counts(
    alloc: Global,
    base: Base<'_>,
    a: &Write,
    b: &Write,
) -> Result<Option<Write>, NoMemory>
    ensures { IfOk result (λ value. value ≡ written_number (total (base_number (base_of base.entry)) (number_of a.now) (number_of b.now))) }
{
    match total(base, a, b) {
        Some(number) => Ok(Some(Write::Put(text_of(alloc, number)?))),
        None => Ok(None),
    }
}

fn total(base: Base<'_>, a: &Write, b: &Write) -> Option<i64>
    ensures { result ≡ total (base_number (base_of base.entry)) (number_of a.now) (number_of b.now) }
{
    let base = base_number(base)?;
    let a = number_of(a)?;
    let b = number_of(b)?;
    fitting(less_base(a, b, base))
}

/// Both numbers, less the base.
fn less_base(a: i64, b: i64, base: i64) -> i128
    ensures { result ≡ (a +ℤ b) -ℤ base }
{
    i128::from(a) + i128::from(b) - i128::from(base)
}

/// The number, where it fits 64 bits.
fn fitting(number: i128) -> Option<i64>
    ensures { result ≡ fitting number }
{
    match i64::try_from(number) {
        Ok(number) => Some(number),
        Err(_) => None,
    }
}

/// The number of a base. Without one it is 0; one that isn't known has none.
fn base_number(base: Base<'_>) -> Option<i64>
    ensures { result ≡ base_number (base_of base.entry) }
{
    match base {
        Base::Unknown => None,
        Base::Absent => Some(0),
        Base::Is(write) => number_of(write),
    }
}

/// The number that is written; a deletion is 0.
pub(crate) fn number_of(write: &Write) -> Option<i64>
    ensures { result ≡ number_of write.now }
{
    match write {
        Write::Put(value) => number_in(value.as_slice()),
        Write::Delete => Some(0),
    }
}

/// The number that the text is the decimal form of.
fn number_in(text: &[u8]) -> Option<i64>
    ensures { result ≡ number_in text.now }
{
    match read(text) {
        Some(number) => {
            let mut buffer = Buffer::new();
            if buffer.format(number).as_bytes() == text {
                Some(number)
            } else {
                None
            }
        }
        None => None,
    }
}

/// The number that std reads in the text, which also takes leading zeros and a plus.
fn read(text: &[u8]) -> Option<i64>
    ensures { ReadAs text.now result }
{
    match str::from_utf8(text) {
        Ok(text) => match text.parse::<i64>() {
            Ok(number) => Some(number),
            Err(_) => None,
        },
        Err(_) => None,
    }
}

/// The value that writes the number.
fn text_of(alloc: Global, number: i64) -> Result<Value, NoMemory>
    ensures { IfOk result (λ value. value ≡ signed_decimal number) }
{
    let mut buffer = Buffer::new();
    match Value::new(alloc, buffer.format(number).as_bytes()) {
        Ok(value) => Ok(value),
        Err(BytesFault::NoMemory) => Err(NoMemory),
        Err(BytesFault::Length) => unreachable!(),
    }
}
