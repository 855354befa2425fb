//! The values of the conflict keys of two states.

ghost use Rattle.std.specs.Prelude.{◌≡◌, [], ◌∷◌, IsTrue, Some, List, IfOk, IfSome, if◌then◌else◌};
ghost use Rattle.tardis_base.specs.declared.ids.StateId.{StateId};
ghost use Rattle.tardis_base.specs.declared.records.Record.{Record};
ghost use Rattle.plain_dag.specs.Forks.{fork_points};
ghost use Rattle.plain_dag.specs.Writers.{read};
ghost use Rattle.state_dag.specs.Table.{id_at, is_slot};
ghost use Rattle.record_store.specs.Stands.{StoreStands};
ghost use Rattle.version_list.specs.Reads.{found};
ghost use Rattle.join_rules.specs.Valued.{merged_sides, value_of, written_base};
ghost use Rattle.join_rules.specs.Values.{Unknown};
ghost use Rattle.join_rules.specs.Sides.{base_of};
ghost use Rattle.join_rules.specs.Settlings.{SettlesAs, PartsAs, ValuesAs, IsParting, BeganAs, only};

use crate::values::{Base, Side, merged};
use conflict_keys::conflicts;
use fork_points::{StatePage, fork_points};
use record_store::RecordStore;
use rule_list::{Rule, RuleList, rule_for};
use state_dag::StateDag;
use std::alloc::Global;
use tardis_base::{Found, Key, MAX_WRITES, NoMemory, Slot, StateId, Write, WriteSet};

/// What was found of the conflict keys of two states.
#[derive(Drop)]
pub enum Settled {
    /// There are too many.
    Wide(u32),
    /// The least to which the rules give no value.
    Unmerged(Key),
    /// The value of each.
    Values(WriteSet),
}

/// The most conflict keys that are settled: as many as one transaction writes.
const MOST_KEYS: u32 = MAX_WRITES as u32;

/// Settles the conflict keys of the states of these slots by rules: each gets the value that its rule gives, from what is
/// read of it at the two and where they part.
///
/// The cost is that of `conflict_keys::conflicts` and of `fork_points::fork_points`; each conflict key costs three reads, a
/// copy of what they find, and its value.
pub fn settle(
    alloc: Global,
    store: &RecordStore,
    rules: &RuleList,
    a: Slot,
    b: Slot,
) -> Result<Settled, NoMemory>
    requires a { IsTrue (is_slot store.now.table a) }
    requires b { IsTrue (is_slot store.now.table b) }
    ensures { SettlesAs store.now rules.now a b result }
{
    let page = conflicts(alloc, store, &[a, b], &[])?;
    if page.total > MOST_KEYS {
        return Ok(Settled::Wide(page.total));
    }
    let parting = parting(alloc, store.dag(), a, b)?;
    values_of(alloc, store, rules, parting, a, b, page.first.as_slice())
}

/// The slot of the state where the two part, if that is one alone.
pub(crate) fn parting(
    alloc: Global,
    dag: &StateDag,
    a: Slot,
    b: Slot,
) -> Result<Option<Slot>, NoMemory>
    requires a { IsTrue (is_slot dag.now a) }
    requires b { IsTrue (is_slot dag.now b) }
    ensures slot { IfOk result (λ slot. IfSome slot (λ s. IsTrue (is_slot dag.now s))) }
    ensures parts { PartsAs dag.now a b result }
{
    let page = fork_points(alloc, dag, &[a, b])?;
    match only(&page) {
        Some(state) => Ok(dag.slot_of(state)),
        None => Ok(None),
    }
}

/// The state of a page of one.
fn only(page: &StatePage) -> Option<StateId>
    ensures { result ≡ only page.now.total page.now.first }
{
    if page.total != 1 {
        return None;
    }
    match page.first.as_slice().first() {
        Some(state) => Some(*state),
        None => None,
    }
}

/// The values of these keys; or the first that has none.
fn values_of(
    alloc: Global,
    store: &RecordStore,
    rules: &RuleList,
    parting: Option<Slot>,
    a: Slot,
    b: Slot,
    keys: &[Key],
) -> Result<Settled, NoMemory>
    requires parting { IfSome parting (λ s. IsTrue (is_slot store.now.table s)) }
    requires a { IsTrue (is_slot store.now.table a) }
    requires b { IsTrue (is_slot store.now.table b) }
    ensures { ValuesAs store.now rules.now parting a b keys.now result }
{
    let mut writes = WriteSet::new(alloc);
    for key in keys {
        let own = key.copy()?;
        match value_of(alloc, store, rules, parting, a, b, key)? {
            Some(write) => writes.insert(own, write)?,
            None => return Ok(Settled::Unmerged(own)),
        }
    }
    Ok(Settled::Values(writes))
}

/// The value that the rules give to the key.
fn value_of(
    alloc: Global,
    store: &RecordStore,
    rules: &RuleList,
    parting: Option<Slot>,
    a: Slot,
    b: Slot,
    key: &Key,
) -> Result<Option<Write>, NoMemory>
    requires parting { IfSome parting (λ s. IsTrue (is_slot store.now.table s)) }
    requires a { IsTrue (is_slot store.now.table a) }
    requires b { IsTrue (is_slot store.now.table b) }
    ensures { (rs : List Record) (ks : List StateId) → StoreStands store.now rs ks → (x y : StateId) → id_at store.now.table a ≡ Some x
        → id_at store.now.table b ≡ Some y → IsParting store.now.table (fork_points rs (x ∷ y ∷ [])) parting
        → IfOk result (λ value. value ≡ value_of rules.now rs x y key.now) }
{
    let left = read(store, a, key)?;
    let right = read(store, b, key)?;
    let began = began(store, parting, key)?;
    merged_reads(
        alloc,
        rule_for(rules, key),
        parting.is_some(),
        &began,
        &left,
        &right,
    )
}

/// The value of a rule, where both sides are there.
fn merged_reads(
    alloc: Global,
    rule: Rule,
    is_known: bool,
    began: &Option<(StateId, Write)>,
    left: &Option<(StateId, Write)>,
    right: &Option<(StateId, Write)>,
) -> Result<Option<Write>, NoMemory>
    ensures { IfOk result (λ value. value ≡ merged_sides rule (if is_known then written_base began.now else Unknown) left.now right.now) }
{
    let Some((writer, write)) = left else {
        return Ok(None);
    };
    let a = Side {
        writer: *writer,
        write,
    };
    let Some((writer, write)) = right else {
        return Ok(None);
    };
    let b = Side {
        writer: *writer,
        write,
    };
    merged(alloc, rule, base_of(is_known, began), a, b)
}

/// The base that was read.
pub(crate) fn base_of(is_known: bool, began: &Option<(StateId, Write)>) -> Base<'_>
    ensures { base_of result ≡ (if is_known then written_base began.now else Unknown) }
{
    if !is_known {
        return Base::Unknown;
    }
    match began {
        Some((_, write)) => Base::Is(write),
        None => Base::Absent,
    }
}

/// What is read of the key where the two states part; nothing where that isn't known.
pub(crate) fn began(
    store: &RecordStore,
    parting: Option<Slot>,
    key: &Key,
) -> Result<Option<(StateId, Write)>, NoMemory>
    requires { IfSome parting (λ s. IsTrue (is_slot store.now.table s)) }
    ensures { BeganAs store.now parting key.now result }
{
    match parting {
        Some(slot) => read(store, slot, key),
        None => Ok(None),
    }
}

/// A copy of what is read of the key at the state of this slot.
pub(crate) fn read(
    store: &RecordStore,
    slot: Slot,
    key: &Key,
) -> Result<Option<(StateId, Write)>, NoMemory>
    requires { IsTrue (is_slot store.now.table slot) }
    ensures { (rs : List Record) (ks : List StateId) → StoreStands store.now rs ks → (x : StateId) → id_at store.now.table slot ≡ Some x
        → IfOk result (λ copy. copy ≡ read rs key.now x) }
{
    copied(store.read_at(slot, key))
}

/// A copy of what was found.
fn copied(what: Found<'_>) -> Result<Option<(StateId, Write)>, NoMemory>
    ensures { IfOk result (λ copy. copy ≡ found what.entry) }
{
    match what {
        Found::Value { writer, value } => Ok(Some((writer, Write::Put(value.copy()?)))),
        Found::Deleted { writer } => Ok(Some((writer, Write::Delete))),
        Found::Absent => Ok(None),
    }
}
