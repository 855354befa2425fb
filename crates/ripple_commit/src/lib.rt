//! Where a transaction lands: from its read state down to the first child that brings no news of a guarded key, and on
//! from there. The rule is stated in `docs/MODEL.md`.
#![tactic(auto)]

ghost use Rattle.std.specs.Prelude.{◌≡◌, ℕ, false, Some, List, take, is_some, IsTrue, IsFalse, IfSome};
ghost use Rattle.std.specs.List.{list_any, list_all};
ghost use Rattle.std.specs.Option.{option_and_then};
ghost use Rattle.tardis_base.specs.declared.ids.StateId.{StateId};
ghost use Rattle.tardis_base.specs.declared.records.Record.{Record};
ghost use Rattle.tardis_base.specs.Ids.{is_among};
ghost use Rattle.tardis_base.specs.Keys.{keys_of};
ghost use Rattle.plain_dag.specs.States.{children};
ghost use Rattle.plain_dag.specs.Above.{is_above};
ghost use Rattle.plain_dag.specs.Landing.{is_news, passes, first_passing, landing, guarded};
ghost use Rattle.plain_dag.specs.Collection.{is_kept};
ghost use Rattle.state_dag.specs.Table.{id_at, is_slot};
ghost use Rattle.record_store.specs.Stands.{StoreStands};
ghost use Rattle.ripple_commit.specs.Commits.{IsTrueAt};

use bitflags::Flags;
use record_store::RecordStore;
use tardis_base::{EndFlags, Key, KeySet, Slot, Write, WriteSet};

/// How many children are few enough that nobody asks which of them need not be tried.
const FEW: usize = 3;

/// The slot of the state under which a transaction commits that read the state at `read`.
///
/// Nothing below the read state may be collected. The cost grows with the number of children that are tried on the way,
/// and for each with the guarded keys, as `RecordStore::is_news` does: no state's id is looked up. Of a state with many children
/// those aren't tried of which it is noted that they bring news of a guarded key (`RecordStore::tried_children`).
pub fn landing(
    store: &RecordStore,
    read: Slot,
    flags: EndFlags,
    reads: &KeySet,
    writes: &WriteSet,
) -> Slot
    requires { IsTrue (is_slot store.now.table read) }
    ensures slot { IsTrue (is_slot store.now.table result) }
    ensures landing { (rs : List Record) (ks : List StateId) → StoreStands store.now rs ks → (x : StateId) → id_at store.now.table read ≡ Some x
        → ((y : StateId) → IsTrue (is_above rs x y) → IsFalse (is_among y ks))
        → id_at store.now.table result ≡ Some (landing rs (guarded flags reads.now (keys_of writes.now)) x) }
    ensures commit { (rs : List Record) (ks : List StateId) → StoreStands store.now rs ks → (x : StateId) → id_at store.now.table read ≡ Some x
        → ((y : StateId) → IsTrue (is_above rs x y) → IsFalse (is_among y ks)) → (y : StateId) → id_at store.now.table result ≡ Some y
        → IsTrueAt rs flags reads.now (keys_of writes.now) x y }
{
    let mut at = read;
    for _reached in store.dag().arrival(read)..store.dag().known() {
        match first_passing(store, at, flags, reads, writes) {
            Some(child) => at = child,
            None => return at,
        }
    }
    at
}

/// The slot of the first child that passes, if one does.
fn first_passing(
    store: &RecordStore,
    from: Slot,
    flags: EndFlags,
    reads: &KeySet,
    writes: &WriteSet,
) -> Option<Slot>
    requires { IsTrue (is_slot store.now.table from) }
    ensures slot { IfSome result (λ s. IsTrue (is_slot store.now.table s)) }
    ensures first { (rs : List Record) (ks : List StateId) → StoreStands store.now rs ks → (x : StateId) → id_at store.now.table from ≡ Some x
        → ((c : StateId) → IsTrue (is_among c (children rs x)) → IsFalse (is_among c ks))
        → option_and_then (id_at store.now.table) result ≡ first_passing rs (guarded flags reads.now (keys_of writes.now)) x }
{
    let children = store.dag().child_slots(from);
    for place in tried(store, from, children.len(), flags, reads, writes)..children.len() {
        let child = children[place];
        if !has_news(store, from, child, flags, reads, writes) {
            return Some(child);
        }
    }
    None
}

/// How many of the first of so many children need not be tried, since it is noted that they bring news of a guarded key.
fn tried(
    store: &RecordStore,
    from: Slot,
    number: usize,
    flags: EndFlags,
    reads: &KeySet,
    writes: &WriteSet,
) -> usize
    requires { IsTrue (is_slot store.now.table from) }
    ensures { (rs : List Record) (ks : List StateId) → StoreStands store.now rs ks → (x : StateId) → id_at store.now.table from ≡ Some x
        → ((c : StateId) → IsTrue (is_among c (children rs x)) → IsFalse (is_among c ks))
        → list_any (passes rs (guarded flags reads.now (keys_of writes.now)) x) (take result (children rs x)) ≡ false }
{
    if number <= FEW {
        return 0;
    }
    if flags.contains(EndFlags::SER) {
        let tried = tried_for_reads(store, from, reads.as_slice());
        if tried > 0 {
            return tried;
        }
    }
    if flags.contains(EndFlags::SI) {
        return tried_for_writes(store, from, writes.as_slice());
    }
    0
}

fn tried_for_reads(store: &RecordStore, from: Slot, keys: &[Key]) -> usize
    requires { IsTrue (is_slot store.now.table from) }
    ensures { (rs : List Record) (ks : List StateId) → StoreStands store.now rs ks → (x : StateId) → id_at store.now.table from ≡ Some x
        → ((c : StateId) → IsTrue (is_among c (children rs x)) → IsFalse (is_among c ks))
        → IsTrue (list_all (λ c. list_any (is_news rs x c) keys.now) (take result (children rs x))) }
{
    for key in keys {
        let tried = store.tried_children(from, key);
        if tried > 0 {
            return tried;
        }
    }
    0
}

fn tried_for_writes(store: &RecordStore, from: Slot, writes: &[(Key, Write)]) -> usize
    requires { IsTrue (is_slot store.now.table from) }
    ensures { (rs : List Record) (ks : List StateId) → StoreStands store.now rs ks → (x : StateId) → id_at store.now.table from ≡ Some x
        → ((c : StateId) → IsTrue (is_among c (children rs x)) → IsFalse (is_among c ks))
        → IsTrue (list_all (λ c. list_any (is_news rs x c) (keys_of writes.now)) (take result (children rs x))) }
{
    for write in writes {
        let tried = store.tried_children(from, &write.0);
        if tried > 0 {
            return tried;
        }
    }
    0
}

/// Whether a guarded key is news of the child.
fn has_news(
    store: &RecordStore,
    from: Slot,
    child: Slot,
    flags: EndFlags,
    reads: &KeySet,
    writes: &WriteSet,
) -> bool
    requires from { IsTrue (is_slot store.now.table from) }
    requires child { IsTrue (is_slot store.now.table child) }
    ensures { (rs : List Record) (ks : List StateId) → StoreStands store.now rs ks → (x c : StateId) → id_at store.now.table from ≡ Some x
        → id_at store.now.table child ≡ Some c → result ≡ list_any (is_news rs x c) (guarded flags reads.now (keys_of writes.now)) }
{
    if flags.contains(EndFlags::SER) && is_read_news(store, from, child, reads.as_slice()) {
        return true;
    }
    flags.contains(EndFlags::SI) && is_written_news(store, from, child, writes.as_slice())
}

fn is_read_news(store: &RecordStore, from: Slot, child: Slot, keys: &[Key]) -> bool
    requires from { IsTrue (is_slot store.now.table from) }
    requires child { IsTrue (is_slot store.now.table child) }
    ensures { (rs : List Record) (ks : List StateId) → StoreStands store.now rs ks → (x c : StateId) → id_at store.now.table from ≡ Some x
        → id_at store.now.table child ≡ Some c → result ≡ list_any (is_news rs x c) keys.now }
{
    for key in keys {
        if store.is_news(from, child, key) {
            return true;
        }
    }
    false
}

fn is_written_news(store: &RecordStore, from: Slot, child: Slot, writes: &[(Key, Write)]) -> bool
    requires from { IsTrue (is_slot store.now.table from) }
    requires child { IsTrue (is_slot store.now.table child) }
    ensures { (rs : List Record) (ks : List StateId) → StoreStands store.now rs ks → (x c : StateId) → id_at store.now.table from ≡ Some x
        → id_at store.now.table child ≡ Some c → result ≡ list_any (is_news rs x c) (keys_of writes.now) }
{
    for write in writes {
        if store.is_news(from, child, &write.0) {
            return true;
        }
    }
    false
}
