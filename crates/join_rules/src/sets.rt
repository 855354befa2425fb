//! Sets of items, with a comma between each two, and the union of two.

ghost use Rattle.std.specs.Prelude.{◌≡◌, IsTrue, IfOk, IfSome, OnOk, length, nat_le};
ghost use Rattle.std.specs.Bool.{then_some};
ghost use Rattle.std.specs.List.{join_with_byte};
ghost use Rattle.tardis_base.specs.Sizes.{longest_value};
ghost use Rattle.tardis_base.specs.declared.records.Write.TheVariants.{Put};
ghost use Rattle.join_rules.specs.Values.{are_items, set_of, set_in, union, united};
ghost use Rattle.join_rules.specs.Joining.{with_item};

use crate::parts::Parts;
use crate::unions::Union;
use std::alloc::{AllocError, Global};
use tardis_base::{BytesFault, NoMemory, Value, Write};

/// What both sides write, as one set.
pub(crate) fn merged_sets(alloc: Global, a: &Write, b: &Write) -> Result<Option<Write>, NoMemory>
    ensures { IfOk result (λ value. value ≡ united (set_of a.now) (set_of b.now)) }
{
    let Some(left) = set_of(a) else {
        return Ok(None);
    };
    let Some(right) = set_of(b) else {
        return Ok(None);
    };
    let text = union_text(alloc, left, right)?;
    written_text(alloc, text.as_slice())
}

/// What writes the text as a value, where it isn't too long.
pub(crate) fn written_text(alloc: Global, text: &[u8]) -> Result<Option<Write>, NoMemory>
    ensures { IfOk result (λ value. value ≡ then_some (nat_le (length text.now) longest_value) (Put text.now)) }
{
    match Value::new(alloc, text) {
        Ok(value) => Ok(Some(Write::Put(value))),
        Err(BytesFault::Length) => Ok(None),
        Err(BytesFault::NoMemory) => Err(NoMemory),
    }
}

/// The items of the set that is written; a deletion is the empty set.
pub(crate) fn set_of(write: &Write) -> Option<Parts<'_>>
    ensures is { result ≡ set_of write.now }
    ensures items { IfSome result (λ items. IsTrue (are_items items)) }
{
    match write {
        Write::Put(value) => set_in(value.as_slice()),
        Write::Delete => Some(Parts::none()),
    }
}

/// The items of the set that is written so.
fn set_in(text: &[u8]) -> Option<Parts<'_>>
    ensures is { result ≡ set_in text.now }
    ensures items { IfSome result (λ items. IsTrue (are_items items)) }
{
    if text.is_empty() {
        return Some(Parts::none());
    }
    if are_items(Parts::new(text)) {
        Some(Parts::new(text))
    } else {
        None
    }
}

/// Whether each item stands before the next, and none is empty.
fn are_items(items: Parts<'_>) -> bool
    ensures { result ≡ are_items items.entry }
{
    let mut before: &[u8] = &[];
    for item in items {
        if !before.cmp(item).is_lt() {
            return false;
        }
        before = item;
    }
    true
}

/// The items of both sets, with a comma between each two.
fn union_text(alloc: Global, left: Parts<'_>, right: Parts<'_>) -> Result<Vec<u8>, AllocError>
    requires left { IsTrue (are_items left) }
    requires right { IsTrue (are_items right) }
    ensures { IfOk result (λ text. text.items ≡ join_with_byte 44 (union left.entry right.entry)) }
{
    let mut text = Vec::new(alloc);
    for item in Union::new(left, right) {
        put_item(&mut text, item)?;
    }
    Ok(text)
}

/// Puts the item at the end of the text: behind a comma, unless that is empty.
pub(crate) fn put_item(text: &mut Vec<u8>, item: &[u8]) -> Result<(), AllocError>
    ensures { OnOk result (text.new.items ≡ with_item text.old.items item.now) }
{
    if text.is_empty() {
        text.extend_from_slice(item)?;
        return Ok(());
    }
    text.push(b',')?;
    text.extend_from_slice(item)?;
    Ok(())
}
