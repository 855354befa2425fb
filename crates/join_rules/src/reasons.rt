//! Why rules give a key no value.

ghost use Rattle.std.specs.Prelude.{◌≡◌};
ghost use Rattle.join_rules.specs.Sides.{base_of, side_of};
ghost use Rattle.join_rules.specs.Reasons.{is_no_number, is_no_set, no_sum, no_union, no_changes, cause};

use crate::counts::number_of;
use crate::sets::set_of;
use crate::values::{Base, Side};
use rule_list::Rule;
use tardis_base::Write;

/// Why rules give a key no value.
#[derive(Clone, Copy)]
pub enum NoValue {
    /// Its rule is `refuse`, or it has none.
    NoRule,
    /// What a side wrote, or what both began with, is no number.
    NotANumber,
    /// What a side wrote, or what both began with, is no set.
    NotASet,
    /// Its rule needs what both sides began with, and they parted at several states.
    NoBase,
    /// The sum doesn't fit 64 bits.
    OutOfRange,
    /// The set is longer than a value may be.
    TooLong,
}

/// Why the rule gives no value to a key with this base and these two sides, where it gives none.
pub(crate) fn cause(rule: Rule, base: Base<'_>, a: Side<'_>, b: Side<'_>) -> NoValue
    ensures { result ≡ cause rule (base_of base.entry) (side_of a.entry) (side_of b.entry) }
{
    match rule {
        Rule::Last => NoValue::NoRule,
        Rule::Count => no_sum(base, a.write, b.write),
        Rule::Set => no_union(a.write, b.write),
        Rule::Set3 => no_changes(base, a.write, b.write),
        Rule::Refuse => NoValue::NoRule,
    }
}

/// Why two sides have no sum.
fn no_sum(base: Base<'_>, a: &Write, b: &Write) -> NoValue
    ensures { result ≡ no_sum (base_of base.entry) a.now b.now }
{
    if is_no_number(a) || is_no_number(b) {
        return NoValue::NotANumber;
    }
    match base {
        Base::Unknown => NoValue::NoBase,
        Base::Absent => NoValue::OutOfRange,
        Base::Is(write) => {
            if is_no_number(write) {
                NoValue::NotANumber
            } else {
                NoValue::OutOfRange
            }
        },
    }
}

/// Why two sides have no union.
fn no_union(a: &Write, b: &Write) -> NoValue
    ensures { result ≡ no_union a.now b.now }
{
    if is_no_set(a) || is_no_set(b) {
        NoValue::NotASet
    } else {
        NoValue::TooLong
    }
}

/// Why two sides have no union since the base.
fn no_changes(base: Base<'_>, a: &Write, b: &Write) -> NoValue
    ensures { result ≡ no_changes (base_of base.entry) a.now b.now }
{
    if is_no_set(a) || is_no_set(b) {
        return NoValue::NotASet;
    }
    match base {
        Base::Unknown => NoValue::NoBase,
        Base::Absent => NoValue::TooLong,
        Base::Is(write) => {
            if is_no_set(write) {
                NoValue::NotASet
            } else {
                NoValue::TooLong
            }
        },
    }
}

/// Whether what is written is no number.
fn is_no_number(write: &Write) -> bool
    ensures { result ≡ is_no_number write.now }
{
    number_of(write).is_none()
}

/// Whether what is written is no set.
fn is_no_set(write: &Write) -> bool
    ensures { result ≡ is_no_set write.now }
{
    match set_of(write) {
        Some(_) => false,
        None => true,
    }
}
