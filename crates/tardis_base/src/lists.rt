//! Lists that contracts see as lists, and sets of keys and of writes in ascending order of their keys.

ghost use Rattle.std.specs.Prelude.{◌≡◌, ◌<◌, ◌==◌, ◌&&◌, Some, List, [], ◌∷◌, ◌++◌, nat_eq, length, slice_get, IsTrue, IsOk, IfOk, OnOk, OnErr};
ghost use Rattle.std.specs.List.{list_all};
ghost use Rattle.std.specs.List.Sorted.{IsBinarySearchResult, IsSearchInRange};
ghost use Rattle.std.specs.Option.{option_copied};
ghost use Rattle.std.specs.Ordering.{nat_cmp};
ghost use Rattle.std.specs.Cmp.{partial_equiv_from_equiv};
ghost use Rattle.std.specs.Cmp.Lexicographic.{pointwise, slice_cmp, lists_per, lists_equiv, nat_list_eq_equiv};
ghost use Rattle.std.specs.Slice.Iter.{iter_rest};
ghost use Rattle.tardis_base.specs.Bytes.{is_key, is_write};
ghost use Rattle.tardis_base.specs.Same.{same_writes, same_writes-equiv};
ghost use Rattle.tardis_base.specs.Keys.{are_ascending_keys, is_key_among, with_key, keys_of, has_key, write_of, with_write};

use crate::byte_types::Key;
use crate::faults::NoMemory;
use crate::ids::StateId;
use crate::records::{Consent, Record, Write};
use std::alloc::Global;
use std::marker::Model;
use std::slice;

/// A list that grows at its end.
#[derive(Drop)]
pub struct ListOf<T> {
    items: Vec<T>,
}

impl<T> Model for ListOf<T> {
    ghost use Rattle.std.specs.Prelude.{List};

    ghost Value = { List T };

    ghost view = { λ l. l.items.items };
}

pub type StateList = ListOf<StateId>;

pub type KeyList = ListOf<Key>;

pub type RecordList = ListOf<Record>;

pub type ConsentList = ListOf<Consent>;

/// Pairs of a fork and the number of one of its branches.
pub type PathList = ListOf<(StateId, u32)>;

pub type CountList = ListOf<u32>;

pub type ByteList = ListOf<u8>;

/// Keys in ascending order, each once.
#[derive(Drop)]
pub struct KeySet {
    keys: Vec<Key>,
}

impl Model for KeySet {
    ghost use Rattle.std.specs.Prelude.{List, ℕ, IsTrue};
    ghost use Rattle.std.specs.List.{list_all};

    ghost Value = { List (List ℕ) };

    ghost use Rattle.tardis_base.specs.Bytes.{is_key};
    ghost use Rattle.tardis_base.specs.Same.{same_writes, same_writes-equiv};
    ghost use Rattle.tardis_base.specs.Keys.{are_ascending_keys};

    ghost view = { λ s. s.keys.items };

    ghost invariant = { λ s. IsTrue (are_ascending_keys s.keys.items) × IsTrue (list_all is_key s.keys.items) };
}

/// Writes in ascending order of their keys, one for each key.
#[derive(Drop)]
pub struct WriteSet {
    writes: Vec<(Key, Write)>,
}

impl Model for WriteSet {
    ghost use Rattle.std.specs.Prelude.{List, ℕ, ◌&&◌, IsTrue};
    ghost use Rattle.std.specs.List.{list_all};
    ghost use Rattle.tardis_base.specs.declared.records.Write.{Write};

    ghost Value = { List (List ℕ × Write) };

    ghost use Rattle.tardis_base.specs.Bytes.{is_key, is_write};
    ghost use Rattle.tardis_base.specs.Same.{same_writes, same_writes-equiv};
    ghost use Rattle.tardis_base.specs.Keys.{are_ascending_keys, keys_of};

    ghost view = { λ s. s.writes.items };

    ghost invariant = { λ s. IsTrue (are_ascending_keys (keys_of s.writes.items)) × IsTrue (list_all (λ w. is_key w.0 && is_write w.1) s.writes.items) };
}

impl<T> ListOf<T> {
    /// The empty list. It takes no memory.
    pub fn new(alloc: Global) -> ListOf<T>
        ensures { result ≡ [] }
    {
        ListOf {
            items: Vec::new(alloc),
        }
    }

    pub fn len(&self) -> usize
        ensures { result ≡ length self.now }
    {
        self.items.len()
    }

    pub fn is_empty(&self) -> bool
        ensures { result ≡ (length self.now == 0) }
    {
        self.items.is_empty()
    }

    /// The item at this place, counted from 0.
    pub fn at(&self, place: usize) -> &T
        requires { place < length self.now }
        ensures { slice_get self.now place ≡ Some result.now }
    {
        &self.items[place]
    }

    /// Puts the item at the end. With no memory the item is dropped.
    pub fn push(&mut self, item: T) -> Result<(), NoMemory>
    where
        T: Drop,
        ensures added { OnOk result (self.new ≡ self.old ++ item ∷ []) }
        ensures same { OnErr result (self.new ≡ self.old) }
    {
        self.items.push(item)?;
        Ok(())
    }

    pub fn as_slice(&self) -> &[T]
        ensures { result.now ≡ self.now }
    {
        self.items.as_slice()
    }

    pub fn iter(&self) -> slice::Iter<'_, T>
        ensures { iter_rest result ≡ self.now }
    {
        self.items.iter()
    }

    /// The list of these items. It takes no memory.
    pub fn from_vec(items: Vec<T>) -> ListOf<T>
        ensures { result ≡ items.items }
    {
        ListOf { items }
    }

    /// The items of this list. It takes no memory.
    pub fn into_vec(self) -> Vec<T>
        ensures { result.items ≡ self }
    {
        self.items
    }
}

impl<T: Copy> ListOf<T> {
    /// An equal list, in memory of its own.
    pub fn copy(&self) -> Result<ListOf<T>, NoMemory>
        ensures { IfOk result (λ list. list ≡ self.now) }
    {
        let items = Vec::from_slice(*self.items.allocator(), self.items.as_slice())?;
        Ok(ListOf { items })
    }
}

impl KeySet {
    /// No keys. It takes no memory.
    pub fn new(alloc: Global) -> KeySet
        ensures { result ≡ [] }
    {
        KeySet {
            keys: Vec::new(alloc),
        }
    }

    pub fn len(&self) -> usize
        ensures count { result ≡ length self.now }
        ensures ascending { IsTrue (are_ascending_keys self.now) }
        ensures valid { IsTrue (list_all is_key self.now) }
    {
        self.keys.len()
    }

    pub fn is_empty(&self) -> bool
        ensures { result ≡ (length self.now == 0) }
    {
        self.keys.is_empty()
    }

    /// The key at this place, counted from 0.
    pub fn at(&self, place: usize) -> &Key
        requires { place < length self.now }
        ensures { slice_get self.now place ≡ Some result.now }
    {
        &self.keys[place]
    }

    pub fn as_slice(&self) -> &[Key]
        ensures same { result.now ≡ self.now }
        ensures ascending { IsTrue (are_ascending_keys self.now) }
        ensures valid { IsTrue (list_all is_key self.now) }
    {
        self.keys.as_slice()
    }

    /// Whether the key is one of these, by a binary search.
    pub fn contains(&self, key: &Key) -> bool
        ensures { result ≡ is_key_among key.now self.now }
    {
        place_of_key(self.keys.as_slice(), key).is_ok()
    }

    /// Puts the key in its place. An equal key that is there stays, and then no memory is taken.
    ///
    /// The cost grows with the number of keys behind that place.
    pub fn insert(&mut self, key: Key) -> Result<(), NoMemory>
        ensures added { OnOk result (self.new ≡ with_key key self.old) }
        ensures same { OnErr result (self.new ≡ self.old) }
        ensures known { IsTrue (is_key_among key self.old) → IsOk result }
    {
        let _ = key.as_slice(); // for the proof alone
        match place_of_key(self.keys.as_slice(), &key) {
            Ok(_) => Ok(()),
            Err(place) => {
                self.keys.insert(place, key)?;
                Ok(())
            },
        }
    }
}

impl WriteSet {
    /// No writes. It takes no memory.
    pub fn new(alloc: Global) -> WriteSet
        ensures { result ≡ [] }
    {
        WriteSet {
            writes: Vec::new(alloc),
        }
    }

    pub fn len(&self) -> usize
        ensures count { result ≡ length self.now }
        ensures ascending { IsTrue (are_ascending_keys (keys_of self.now)) }
        ensures valid { IsTrue (list_all (λ w. is_key w.0 && is_write w.1) self.now) }
    {
        self.writes.len()
    }

    pub fn is_empty(&self) -> bool
        ensures { result ≡ (length self.now == 0) }
    {
        self.writes.is_empty()
    }

    /// The key and the write at this place, counted from 0.
    pub fn at(&self, place: usize) -> &(Key, Write)
        requires { place < length self.now }
        ensures { slice_get self.now place ≡ Some result.now }
    {
        &self.writes[place]
    }

    pub fn as_slice(&self) -> &[(Key, Write)]
        ensures same { result.now ≡ self.now }
        ensures ascending { IsTrue (are_ascending_keys (keys_of self.now)) }
        ensures valid { IsTrue (list_all (λ w. is_key w.0 && is_write w.1) self.now) }
    {
        self.writes.as_slice()
    }

    /// What is written to the key, found by a binary search; None exactly where nothing is.
    pub fn get(&self, key: &Key) -> Option<&Write>
        ensures { option_copied result ≡ write_of key.now self.now }
    {
        let writes = self.writes.as_slice();
        match place_of_write(writes, key) {
            Ok(place) => Some(&writes[place].1),
            Err(_) => None,
        }
    }

    /// Whether the key is written, by a binary search.
    pub fn contains(&self, key: &Key) -> bool
        ensures { result ≡ has_key key.now self.now }
    {
        place_of_write(self.writes.as_slice(), key).is_ok()
    }

    /// Puts the write in its place. It replaces what was written to the key, and then no memory is taken.
    ///
    /// The cost grows with the number of writes behind that place.
    pub fn insert(&mut self, key: Key, write: Write) -> Result<(), NoMemory>
        ensures added { OnOk result (self.new ≡ with_write key write self.old) }
        ensures same { OnErr result (self.new ≡ self.old) }
        ensures known { IsTrue (has_key key self.old) → IsOk result }
    {
        let _ = key.as_slice(); // for the proof alone
        let _ = write.value(); // for the proof alone
        match place_of_write(self.writes.as_slice(), &key) {
            Ok(place) => {
                self.writes[place] = (key, write);
                Ok(())
            },
            Err(place) => {
                self.writes.insert(place, (key, write))?;
                Ok(())
            },
        }
    }

    /// The keys and writes of this set, by ascending keys. It takes no memory.
    pub fn into_vec(self) -> Vec<(Key, Write)>
        ensures same { result.items ≡ self }
        ensures ascending { IsTrue (are_ascending_keys (keys_of self)) }
        ensures valid { IsTrue (list_all (λ w. is_key w.0 && is_write w.1) self) }
    {
        self.writes
    }

    /// Equal writes, in memory of their own.
    pub fn copy(&self) -> Result<WriteSet, NoMemory>
        ensures { IfOk result (λ writes. writes ≡ self.now) }
    {
        let writes = copied_writes(*self.writes.allocator(), self.writes.as_slice())?;
        Ok(WriteSet { writes })
    }
}

impl<T: PartialEq> PartialEq for ListOf<T> {
    ghost eq = { pointwise T.eq };

    ghost laws = { lists_per T.laws };

    fn eq(&self, other: &ListOf<T>) -> bool {
        self.items == other.items
    }
}

impl<T: Eq> Eq for ListOf<T> {
    ghost laws = { lists_equiv T.Eq.laws };
}

impl PartialEq for KeySet {
    ghost eq = { pointwise (pointwise nat_eq) };

    ghost laws = { partial_equiv_from_equiv (lists_equiv nat_list_eq_equiv) };

    fn eq(&self, other: &KeySet) -> bool {
        self.keys == other.keys
    }
}

impl Eq for KeySet {
    ghost laws = { lists_equiv nat_list_eq_equiv };
}

impl PartialEq for WriteSet {
    ghost eq = { same_writes };

    ghost laws = { partial_equiv_from_equiv same_writes-equiv };

    fn eq(&self, other: &WriteSet) -> bool {
        self.writes == other.writes
    }
}

impl Eq for WriteSet {
    ghost laws = { same_writes-equiv };
}

/// The list with the item behind its end, where there was memory for both.
pub fn pushed<T: Drop>(
    list: Result<ListOf<T>, NoMemory>,
    item: Result<T, NoMemory>,
) -> Result<ListOf<T>, NoMemory>
    ensures { (xs : List T) (x : T) → IfOk list (λ l. l ≡ xs) → IfOk item (λ i. i ≡ x) → IfOk result (λ l. l ≡ xs ++ x ∷ []) }
{
    let mut list = list?;
    list.push(item?)?;
    Ok(list)
}

/// Where the key is among these, or else where it would be.
fn place_of_key(keys: &[Key], key: &Key) -> Result<usize, usize>
    ensures bound { IsSearchInRange result (length keys.now) }
    ensures place { IsBinarySearchResult (λ k. slice_cmp nat_cmp k key.now) keys.now result }
{
    keys.binary_search(key)
}

/// Where the write to the key is among these, or else where it would be.
fn place_of_write(writes: &[(Key, Write)], key: &Key) -> Result<usize, usize>
    ensures bound { IsSearchInRange result (length writes.now) }
    ensures place { IsBinarySearchResult (λ w. slice_cmp nat_cmp w.0 key.now) writes.now result }
{
    writes.binary_search_by(|write| write.0.cmp(key))
}

fn copied_writes(alloc: Global, writes: &[(Key, Write)]) -> Result<Vec<(Key, Write)>, NoMemory>
    ensures { IfOk result (λ copies. copies.items ≡ writes.now) }
{
    let mut copies = Vec::with_capacity(alloc, writes.len())?;
    for (key, write) in writes {
        copies.push((key.copy()?, write.copy()?))?;
    }
    Ok(copies)
}
