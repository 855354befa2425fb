//! The leaves that rules don't settle, and why.

ghost use Rattle.std.specs.Prelude.{◌≡◌, ◌++◌, Some, IsTrue, IfOk, OnOk, List, map, filter_map, if◌then◌else◌};
ghost use Rattle.std.specs.List.{list_all};
ghost use Rattle.tardis_base.specs.declared.ids.StateId.{StateId};
ghost use Rattle.state_dag.specs.Table.{id_at, is_slot};
ghost use Rattle.join_rules.specs.Valued.{written_base};
ghost use Rattle.join_rules.specs.Values.{Unknown};
ghost use Rattle.tardis_base.specs.Ids.{is_among};
ghost use Rattle.record_store.specs.Stands.{StoreStands};
ghost use Rattle.plain_site.specs.Site.{Site};
ghost use Rattle.plain_site.specs.Sound.{IsSound};
ghost use Rattle.join_rules.specs.Joints.{in_order};
ghost use Rattle.join_rules.specs.Searches.{DifferentLeaves};
ghost use Rattle.join_rules.specs.Reasons.{cause_over, unjoined_of, unjoined_pairs};
ghost use Rattle.join_rules.specs.Unsettled.{HasCause, HasReason, IsUnjoined, IsUnjoinedTwo, with_found};

use crate::joints::{comes_first, last_ones};
use crate::reasons::{NoValue, cause};
use crate::settling::{Settled, base_of, began, parting, read, settle};
use crate::values::Side;
use record_store::RecordStore;
use rule_list::{Rule, RuleList, rule_for};
use std::alloc::Global;
use tardis_base::{Key, NoMemory, Slot, StateId, Write};

/// Why rules don't settle two leaves.
#[derive(Drop)]
pub enum Reason {
    /// They have more than 64 conflict keys: so many.
    TooWide { keys: u32 },
    /// The least of their conflict keys that has no value, and why.
    Key { key: Key, cause: NoValue },
}

/// Two leaves that rules don't settle, the lesser id first, and why.
#[derive(Drop)]
pub struct Unjoined {
    pub first: StateId,
    pub second: StateId,
    pub reason: Reason,
}

/// Each two of the 16 leaves that arrived last that the rules don't settle, in the order in which `first_joint` looks at them.
///
/// The cost is that of `settle` for each two of these leaves, and of two more for each that isn't settled. There are 120 pairs at most.
pub fn unjoined_leaves(
    alloc: Global,
    store: &RecordStore,
    rules: &RuleList,
) -> Result<Vec<Unjoined>, NoMemory>
    ensures { (site : Site) → StoreStands store.now site.dag site.collected → IsSound site
        → IfOk result (λ found. found.items ≡ unjoined_pairs rules.now site.dag) }
{
    let leaves = last_ones(store.dag().leaf_slots());
    let mut found = Vec::new(alloc);
    for place in 0..leaves.len() {
        put_with(
            alloc,
            store,
            rules,
            leaves[place],
            &leaves[place + 1..],
            &mut found,
        )?;
    }
    Ok(found)
}

/// Puts this leaf with each of these others that rules don't settle with it behind those that were found.
fn put_with(
    alloc: Global,
    store: &RecordStore,
    rules: &RuleList,
    leaf: Slot,
    others: &[Slot],
    found: &mut Vec<Unjoined>,
) -> Result<(), NoMemory>
    requires leaf { IsTrue (is_slot store.now.table leaf) }
    requires others { IsTrue (list_all (is_slot store.now.table) others.now) }
    ensures { (site : Site) → StoreStands store.now site.dag site.collected → IsSound site → (x : StateId) (ys : List StateId)
        → id_at store.now.table leaf ≡ Some x → map (id_at store.now.table) others.now ≡ map (λ y. Some y) ys
        → ((y : StateId) → IsTrue (is_among y ys) → DifferentLeaves site.dag x y)
        → OnOk result (found.new.items ≡ found.old.items ++ filter_map (unjoined_of rules.now site.dag) (map (in_order x) ys)) }
{
    for place in 0..others.len() {
        let two = unjoined_two(alloc, store, rules, leaf, others[place])?;
        put(found, two)?;
    }
    Ok(())
}

/// Puts these two behind those that were found, where they are there.
fn put(found: &mut Vec<Unjoined>, two: Option<Unjoined>) -> Result<(), NoMemory>
    ensures { OnOk result (found.new.items ≡ with_found found.old.items two) }
{
    match two {
        Some(two) => {
            found.push(two)?;
            Ok(())
        },
        None => Ok(()),
    }
}

/// These two leaves, where the rules don't settle them.
fn unjoined_two(
    alloc: Global,
    store: &RecordStore,
    rules: &RuleList,
    a: Slot,
    b: Slot,
) -> Result<Option<Unjoined>, NoMemory>
    requires a { IsTrue (is_slot store.now.table a) }
    requires b { IsTrue (is_slot store.now.table b) }
    ensures { IsUnjoinedTwo store.now rules.now a b result }
{
    if comes_first(store.dag(), a, b) {
        unjoined_in_order(alloc, store, rules, a, b)
    } else {
        unjoined_in_order(alloc, store, rules, b, a)
    }
}

/// These two leaves, of which the first has the lesser id, where the rules don't settle them.
fn unjoined_in_order(
    alloc: Global,
    store: &RecordStore,
    rules: &RuleList,
    a: Slot,
    b: Slot,
) -> Result<Option<Unjoined>, NoMemory>
    requires a { IsTrue (is_slot store.now.table a) }
    requires b { IsTrue (is_slot store.now.table b) }
    ensures { IsUnjoined store.now rules.now a b result }
{
    let first = store.dag().id_of(a);
    let second = store.dag().id_of(b);
    match reason_of(alloc, store, rules, a, b)? {
        Some(reason) => Ok(Some(Unjoined {
            first,
            second,
            reason,
        })),
        None => Ok(None),
    }
}

/// Why the rules don't settle the states of these slots; none where they do.
fn reason_of(
    alloc: Global,
    store: &RecordStore,
    rules: &RuleList,
    a: Slot,
    b: Slot,
) -> Result<Option<Reason>, NoMemory>
    requires a { IsTrue (is_slot store.now.table a) }
    requires b { IsTrue (is_slot store.now.table b) }
    ensures { HasReason store.now rules.now a b result }
{
    match settle(alloc, store, rules, a, b)? {
        Settled::Wide(keys) => Ok(Some(Reason::TooWide { keys })),
        Settled::Unmerged(key) => {
            let cause = cause_of(alloc, store, rules, a, b, &key)?;
            Ok(Some(Reason::Key { key, cause }))
        },
        Settled::Values(_) => Ok(None),
    }
}

/// Why the rules give the key no value over the states of these slots.
fn cause_of(
    alloc: Global,
    store: &RecordStore,
    rules: &RuleList,
    a: Slot,
    b: Slot,
    key: &Key,
) -> Result<NoValue, NoMemory>
    requires a { IsTrue (is_slot store.now.table a) }
    requires b { IsTrue (is_slot store.now.table b) }
    ensures { HasCause store.now rules.now a b key.now result }
{
    let parting = parting(alloc, store.dag(), a, b)?;
    let left = read(store, a, key)?;
    let right = read(store, b, key)?;
    let began = began(store, parting, key)?;
    Ok(cause_of_reads(
        rule_for(rules, key),
        parting.is_some(),
        &began,
        &left,
        &right,
    ))
}

/// Why a rule gives no value, where both sides are there.
fn cause_of_reads(
    rule: Rule,
    is_known: bool,
    began: &Option<(StateId, Write)>,
    left: &Option<(StateId, Write)>,
    right: &Option<(StateId, Write)>,
) -> NoValue
    ensures { result ≡ cause_over rule (if is_known then written_base began.now else Unknown) left.now right.now }
{
    let Some((writer, write)) = left else {
        return NoValue::NoRule;
    };
    let a = Side {
        writer: *writer,
        write,
    };
    let Some((writer, write)) = right else {
        return NoValue::NoRule;
    };
    let b = Side {
        writer: *writer,
        write,
    };
    cause(rule, base_of(is_known, began), a, b)
}
