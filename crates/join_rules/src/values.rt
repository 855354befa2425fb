//! The value that a rule gives to a key that two sides wrote.

ghost use Rattle.std.specs.Prelude.{◌≡◌, IfOk};
ghost use Rattle.join_rules.specs.Values.{last, merged};
ghost use Rattle.join_rules.specs.Sides.{base_of, side_of};

use crate::counts::merged_counts;
use crate::sets::merged_sets;
use crate::three_way::merged_changes;
use rule_list::Rule;
use std::alloc::Global;
use tardis_base::{NoMemory, StateId, Write};

/// One of two sides: the latest writer of the key, and what it wrote.
#[derive(Clone, Copy)]
pub struct Side<'a> {
    pub writer: StateId,
    pub write: &'a Write,
}

/// What both sides began with.
#[derive(Clone, Copy)]
pub enum Base<'a> {
    /// They parted at more than one state.
    Unknown,
    /// The key was never written where they parted.
    Absent,
    Is(&'a Write),
}

/// The value that the rule gives to a key with this base and these two sides, whose writers differ; None where it gives
/// none. Which side comes first doesn't matter (`sides_may_be_exchanged`).
///
/// The cost grows with the lengths of the values.
pub fn merged(
    alloc: Global,
    rule: Rule,
    base: Base<'_>,
    a: Side<'_>,
    b: Side<'_>,
) -> Result<Option<Write>, NoMemory>
    ensures { IfOk result (λ value. value ≡ merged rule (base_of base.entry) (side_of a.entry) (side_of b.entry)) }
{
    match rule {
        Rule::Last => Ok(Some(last(a, b).copy()?)),
        Rule::Count => merged_counts(alloc, base, a.write, b.write),
        Rule::Set => merged_sets(alloc, a.write, b.write),
        Rule::Set3 => merged_changes(alloc, base, a.write, b.write),
        Rule::Refuse => Ok(None),
    }
}

/// What the side with the greater writer wrote.
fn last<'a>(a: Side<'a>, b: Side<'a>) -> &'a Write
    ensures { result.now ≡ last (side_of a.entry) (side_of b.entry) }
{
    if a.writer < b.writer {
        b.write
    } else {
        a.write
    }
}
