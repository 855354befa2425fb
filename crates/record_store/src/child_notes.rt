//! Which children of a state are known to bring news of a key, so that nobody who looks for a landing has to try them.
//!
//! Of a state with many children it is noted how many of the first have it as their only parent and hold one key. Nothing but
//! speed rests on a note: where there is no memory for one, none is made.

ghost use Rattle.std.specs.Prelude.{◌≡◌, ◌⊎◌, [], Some, true, IsTrue, IfSome};
ghost use Rattle.std.specs.List.{list_all};
ghost use Rattle.std.specs.Option.{option_copied};
ghost use Rattle.tardis_base.specs.declared.ids.StateId.{StateId};
ghost use Rattle.tardis_base.specs.declared.ids.Slot.{Slot};
ghost use Rattle.state_dag.specs.Table.{id_at, is_slot, only_parent_at};
ghost use Rattle.record_store.specs.declared.child_notes.ChildNote.{ChildNote};
ghost use Rattle.record_store.specs.ChildNotes.{note_for, is_child_with, IsTrueNote, AreTrueNotes, IsApart};

use crate::is_in;
use indexmap::IndexMap;
use state_dag::StateDag;
use std::alloc::Global;
use std::marker::Model;
use tardis_base::{Key, Slot, StateId};
use version_list::{KeyChunks, VersionList};

/// How many children are few enough that all are tried.
const FEW: usize = 3;

/// So many of the first children of a state have it as their only parent, and hold this key.
#[derive(Drop)]
pub(crate) struct ChildNote {
    pub key: Key,
    pub count: usize,
}

/// What is noted of the states.
#[derive(Drop)]
pub(crate) struct ChildNotes {
    notes: IndexMap<Slot, ChildNote>,
}

impl Model for ChildNotes {
    ghost use Rattle.std.specs.Prelude.{List};
    ghost use Rattle.tardis_base.specs.declared.ids.Slot.{Slot};
    ghost use Rattle.record_store.specs.declared.child_notes.ChildNote.{ChildNote};

    ghost Value = { List (Slot × ChildNote) };

    ghost view = { λ s. s.notes.entries };
}

impl ChildNotes {
    /// Nothing is noted. It takes no memory.
    pub(crate) fn new(alloc: Global) -> ChildNotes
        ensures { result ≡ [] }
    {
        ChildNotes {
            notes: IndexMap::new(alloc),
        }
    }

    /// What is noted of the state at the slot.
    pub(crate) fn at(&self, slot: Slot) -> Option<&ChildNote>
        ensures { option_copied result ≡ note_for slot self.now }
    {
        self.notes.get(&slot)
    }

    /// Notes this of the state at the slot, if there is memory for it.
    fn put(&mut self, slot: Slot, note: ChildNote)
        ensures { (q : Slot) (n : ChildNote) → note_for q self.new ≡ Some n → (note_for q self.old ≡ Some n) ⊎ ((q ≡ slot) × (n ≡ note)) }
    {
        match self.notes.insert(slot, note) {
            Ok(_) => {},
            Err(_) => {},
        }
    }

    /// Takes what is noted of the state at the slot.
    fn take(&mut self, slot: Slot) -> Option<ChildNote>
        ensures taken { result ≡ note_for slot self.old }
        ensures others { (q : Slot) (n : ChildNote) → note_for q self.new ≡ Some n → (q ≡ slot → ⊥) × (note_for q self.old ≡ Some n) }
    {
        self.notes.swap_remove(&slot)
    }

    /// Whether nothing is noted.
    fn is_empty(&self) -> bool
        ensures { result ≡ true → self.now ≡ [] }
    {
        self.notes.is_empty()
    }

    /// Lets go of all that is noted.
    pub(crate) fn clear(&mut self)
        ensures { self.new ≡ [] }
    {
        self.notes.clear();
    }
}

/// Lets go of what is noted of the state at the slot, and of what is noted of its parent, where it has only one. It takes no
/// memory. Where anything is noted, the cost grows with the logarithm of the number of kept states.
pub(crate) fn forget_child(notes: &mut ChildNotes, dag: &StateDag, slot: Slot)
    requires { IsTrue (is_slot dag.now slot) }
    ensures { (q : Slot) (n : ChildNote) → note_for q notes.new ≡ Some n → IsApart dag.now slot q × (note_for q notes.old ≡ Some n) }
{
    if notes.is_empty() {
        return;
    }
    drop(notes.take(slot));
    if let Some(parent) = slot_of_parent(dag, slot) {
        drop(notes.take(parent));
    }
}

/// Where the only parent of the state at the slot stands, if it is kept.
fn slot_of_parent(dag: &StateDag, slot: Slot) -> Option<Slot>
    requires { IsTrue (is_slot dag.now slot) }
    ensures { (x : StateId) → only_parent_at dag.now slot ≡ Some x → (q : Slot) → id_at dag.now q ≡ Some x → result ≡ Some q }
{
    match dag.only_parent(slot) {
        Some(parent) => dag.slot_of(parent),
        None => None,
    }
}

/// Notes of a state that is the only parent of one that has just come how many of its children need not be tried, where it has
/// many.
///
/// Where it has few, or where there are several parents, it takes constant time. Else a note that is there is lengthened, at the
/// cost of looking a key up among those of one child. Each time that the number of children has doubled, and the note doesn't
/// reach as far, a key is looked for that they all hold.
pub(crate) fn note_children(
    notes: &mut ChildNotes,
    dag: &StateDag,
    versions: &VersionList,
    parents: &[Slot],
)
    requires slots { IsTrue (list_all (is_slot dag.now) parents.now) }
    requires so { AreTrueNotes dag.now versions.now notes.old }
    ensures { AreTrueNotes dag.now versions.now notes.new }
{
    if let [parent] = parents {
        if dag.child_slots(*parent).len() > FEW {
            note_many(notes, dag, versions, *parent);
        }
    }
}

/// Notes of the state at the slot how many of its children need not be tried.
fn note_many(notes: &mut ChildNotes, dag: &StateDag, versions: &VersionList, slot: Slot)
    requires slot { IsTrue (is_slot dag.now slot) }
    requires so { AreTrueNotes dag.now versions.now notes.old }
    ensures { AreTrueNotes dag.now versions.now notes.new }
{
    let old = notes.take(slot);
    if let Some(note) = next_note(dag, versions, slot, old) {
        notes.put(slot, note);
    }
}

/// What is to be noted of the state at the slot, of which this was noted.
fn next_note(
    dag: &StateDag,
    versions: &VersionList,
    slot: Slot,
    old: Option<ChildNote>,
) -> Option<ChildNote>
    requires slot { IsTrue (is_slot dag.now slot) }
    requires so { IfSome old (IsTrueNote dag.now versions.now slot) }
    ensures { IfSome result (IsTrueNote dag.now versions.now slot) }
{
    let many = dag.child_slots(slot).len();
    let note = lengthened(dag, versions, slot, old);
    if count_of(&note) < many && many.is_power_of_two() {
        if let Some(new) = new_note(dag, versions, slot) {
            return Some(new);
        }
    }
    note
}

fn count_of(note: &Option<ChildNote>) -> usize {
    match note {
        Some(note) => note.count,
        None => 0,
    }
}

/// The note with one child more, where that one holds the key too.
fn lengthened(
    dag: &StateDag,
    versions: &VersionList,
    slot: Slot,
    old: Option<ChildNote>,
) -> Option<ChildNote>
    requires slot { IsTrue (is_slot dag.now slot) }
    requires so { IfSome old (IsTrueNote dag.now versions.now slot) }
    ensures { IfSome result (IsTrueNote dag.now versions.now slot) }
{
    match old {
        Some(note) => {
            let more = count_with_next(dag, versions, slot, &note);
            Some(ChildNote {
                count: more,
                ..note
            })
        },
        None => None,
    }
}

/// How many of the first children the note may speak of: one more where that one holds the key too.
fn count_with_next(dag: &StateDag, versions: &VersionList, slot: Slot, note: &ChildNote) -> usize
    requires slot { IsTrue (is_slot dag.now slot) }
    requires so { IsTrueNote dag.now versions.now slot note.now }
    ensures { IsTrueNote dag.now versions.now slot (record note.now { count = result }) }
{
    match dag.child_slots(slot).get(note.count) {
        Some(child) if is_child_with(dag, versions, dag.id_of(slot), *child, &note.key) => {
            note.count + 1
        },
        _ => note.count,
    }
}

/// A note of all children of the state at the slot, if there is a key that they all hold.
fn new_note(dag: &StateDag, versions: &VersionList, slot: Slot) -> Option<ChildNote>
    requires { IsTrue (is_slot dag.now slot) }
    ensures { IfSome result (IsTrueNote dag.now versions.now slot) }
{
    let children = dag.child_slots(slot);
    let last = children.last()?;
    let parent = dag.id_of(slot);
    let key = common_key(dag, versions, parent, children, versions.keys_at(*last))?;
    match key.copy() {
        Ok(key) => Some(ChildNote {
            key,
            count: children.len(),
        }),
        Err(_) => None,
    }
}

/// The first of these keys that all these states hold, which have this one as their only parent.
fn common_key<'a>(
    dag: &StateDag,
    versions: &VersionList,
    parent: StateId,
    children: &[Slot],
    chunks: &'a KeyChunks,
) -> Option<&'a Key>
    requires { IsTrue (list_all (is_slot dag.now) children.now) }
    ensures { IfSome result (λ key. IsTrue (list_all (is_child_with dag.now versions.now parent key.now) children.now)) }
{
    for chunk in chunks {
        for key in chunk.as_slice() {
            if are_children_with(dag, versions, parent, children, key) {
                return Some(key);
            }
        }
    }
    None
}

/// Whether all these states have this one as their only parent, and hold the key.
fn are_children_with(
    dag: &StateDag,
    versions: &VersionList,
    parent: StateId,
    children: &[Slot],
    key: &Key,
) -> bool
    requires { IsTrue (list_all (is_slot dag.now) children.now) }
    ensures { IsTrue result → IsTrue (list_all (is_child_with dag.now versions.now parent key.now) children.now) }
{
    for child in children {
        if !is_child_with(dag, versions, parent, *child, key) {
            return false;
        }
    }
    true
}

/// Whether the state at the slot has this one as its only parent, and holds the key.
fn is_child_with(
    dag: &StateDag,
    versions: &VersionList,
    parent: StateId,
    child: Slot,
    key: &Key,
) -> bool
    requires { IsTrue (is_slot dag.now child) }
    ensures { result ≡ is_child_with dag.now versions.now parent key.now child }
{
    match dag.only_parent(child) {
        Some(only) => parent == only && is_in(key, versions.keys_at(child)),
        None => false,
    }
}
