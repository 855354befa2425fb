//! Sets that two sides changed: what both kept, and what either added.

ghost use Rattle.std.specs.Prelude.{◌≡◌, IsTrue, IfOk, IfSome};
ghost use Rattle.std.specs.List.{join_with_byte};
ghost use Rattle.join_rules.specs.Values.{are_items, base_set, set_of, three_way, united_since};
ghost use Rattle.join_rules.specs.Sides.{base_of};
ghost use Rattle.join_rules.specs.Passing.{from_item, begins_with, stays_first};

use crate::parts::Parts;
use crate::sets::{put_item, set_of, written_text};
use crate::unions::Union;
use crate::values::Base;
use std::alloc::{AllocError, Global};
use tardis_base::{NoMemory, Write};

/// What both sides made of the base's set.
pub(crate) fn merged_changes(
    alloc: Global,
    base: Base<'_>,
    a: &Write,
    b: &Write,
) -> Result<Option<Write>, NoMemory>
    ensures { IfOk result (λ value. value ≡ united_since (base_set (base_of base.entry)) (set_of a.now) (set_of b.now)) }
{
    let Some(base) = base_set(base) else {
        return Ok(None);
    };
    let Some(left) = set_of(a) else {
        return Ok(None);
    };
    let Some(right) = set_of(b) else {
        return Ok(None);
    };
    let text = three_way_text(alloc, base, left, right)?;
    written_text(alloc, text.as_slice())
}

/// The set of a base. Where nothing was written it is empty; one that isn't known has none.
fn base_set(base: Base<'_>) -> Option<Parts<'_>>
    ensures is { result ≡ base_set (base_of base.entry) }
    ensures items { IfSome result (λ items. IsTrue (are_items items)) }
{
    match base {
        Base::Unknown => None,
        Base::Absent => Some(Parts::none()),
        Base::Is(write) => set_of(write),
    }
}

/// The items of both sides that stay, with a comma between each two. The base is gone through once, each side twice.
fn three_way_text(
    alloc: Global,
    mut base: Parts<'_>,
    mut left: Parts<'_>,
    mut right: Parts<'_>,
) -> Result<Vec<u8>, AllocError>
    requires base { IsTrue (are_items base) }
    requires left { IsTrue (are_items left) }
    requires right { IsTrue (are_items right) }
    ensures { IfOk result (λ text. text.items ≡ join_with_byte 44 (three_way base.entry left.entry right.entry)) }
{
    let mut text = Vec::new(alloc);
    for item in Union::new(left.again(), right.again()) {
        base = from_item(base, item);
        left = from_item(left, item);
        right = from_item(right, item);
        if stays_first(&base, &left, &right, item) {
            put_item(&mut text, item)?;
        }
    }
    Ok(text)
}

/// The items without those that stand before this one.
fn from_item<'a>(items: Parts<'a>, item: &[u8]) -> Parts<'a>
    ensures { result ≡ from_item item.now items.entry }
{
    let mut left = items;
    while let Some((first, rest)) = left.split_first() {
        if !first.cmp(item).is_lt() {
            return left;
        }
        left = rest;
    }
    left
}

/// Whether the item stays, where it is the first of each of these sets that has it.
fn stays_first(base: &Parts<'_>, left: &Parts<'_>, right: &Parts<'_>, item: &[u8]) -> bool
    ensures { result ≡ stays_first base.now left.now right.now item.now }
{
    !begins_with(base, item) || begins_with(left, item) && begins_with(right, item)
}

/// Whether the item is the first of these.
fn begins_with(items: &Parts<'_>, item: &[u8]) -> bool
    ensures { result ≡ begins_with item.now items.now }
{
    match items.split_first() {
        Some((first, _)) => first == item,
        None => false,
    }
}
