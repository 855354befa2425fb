//! Keys and values: short byte strings of bounded length.

ghost use Rattle.std.specs.Prelude.{◌≡◌, ◌≤◌, ◌↔◌, ◌∷◌, [], Some, false, nat_eq, nat_le, length, refl, true, IsTrue, OnOk, IfOk};
ghost use Rattle.std.specs.Option.{option_copied, option_map_or};
ghost use Rattle.std.specs.Ordering.{nat_cmp};
ghost use Rattle.std.specs.Cmp.Lexicographic.{pointwise, slice_cmp, nat_list_eq_equiv, nat_list_cmp_total, texts_ties, texts_po};
ghost use Rattle.std.specs.Cmp.{partial_equiv_from_equiv};
ghost use Rattle.std.specs.Cmp.Rules.{hashing};
ghost use Rattle.std.proofs.Common.{rules};
ghost use Rattle.tardis_base.specs.Keys.{is_key_before};
ghost use Rattle.tardis_base.specs.Sizes.{longest_key, longest_value};
ghost use Rattle.tardis_base.specs.Valid.{is_within, are_bytes, is_key, is_value};

use crate::faults::{BytesFault, NoMemory};
use crate::sizes::{MAX_KEY, MAX_VALUE};
use std::alloc::Global;
use std::cmp::Ordering;
use std::hash::{Hash, Hasher};
use std::marker::Model;

/// A key: 1 to 128 bytes.
#[derive(Drop)]
pub struct Key {
    bytes: Vec<u8>,
}

impl Model for Key {
    ghost use Rattle.std.specs.Prelude.{List, ℕ, ◌≤◌, length};
    ghost use Rattle.tardis_base.specs.Sizes.{longest_key};

    ghost Value = { List ℕ };

    ghost view = { λ k. k.bytes.items };

    ghost invariant = { λ k. (1 ≤ length k.bytes.items) × (length k.bytes.items ≤ longest_key) };
}

/// A value: 0 to 4,096 bytes.
#[derive(Drop)]
pub struct Value {
    bytes: Vec<u8>,
}

impl Model for Value {
    ghost use Rattle.std.specs.Prelude.{List, ℕ, ◌≤◌, length};
    ghost use Rattle.tardis_base.specs.Sizes.{longest_value};

    ghost Value = { List ℕ };

    ghost view = { λ v. v.bytes.items };

    ghost invariant = { λ v. length v.bytes.items ≤ longest_value };
}

impl Key {
    /// The key of these bytes, which are copied.
    pub fn new(alloc: Global, bytes: &[u8]) -> Result<Key, BytesFault>
        ensures key { IfOk result (λ key. key ≡ bytes.now) }
        ensures length { (result ≡ Err BytesFault.Length) ↔ (is_within 1 longest_key (length bytes.now) ≡ false) }
        ensures valid { OnOk result (IsTrue (is_key bytes.now)) }
        ensures room { result ≡ Err BytesFault.NoMemory → IsTrue (is_key bytes.now) }
    {
        let bytes = checked_bytes(bytes);
        if bytes.is_empty() || bytes.len() > MAX_KEY {
            return Err(BytesFault::Length);
        }
        match Vec::from_slice(alloc, bytes) {
            Ok(bytes) => Ok(Key { bytes }),
            Err(_) => Err(BytesFault::NoMemory),
        }
    }

    pub fn as_slice(&self) -> &[u8]
        ensures same { result.now ≡ self.now }
        ensures valid { IsTrue (is_key self.now) }
    {
        checked_bytes(self.bytes.as_slice())
    }

    /// An equal key, in memory of its own.
    pub fn copy(&self) -> Result<Key, NoMemory>
        ensures { IfOk result (λ key. key ≡ self.now) }
    {
        let bytes = Vec::from_slice(*self.bytes.allocator(), self.bytes.as_slice())?;
        Ok(Key { bytes })
    }
}

impl Value {
    /// The value of these bytes, which are copied.
    pub fn new(alloc: Global, bytes: &[u8]) -> Result<Value, BytesFault>
        ensures value { IfOk result (λ value. value ≡ bytes.now) }
        ensures length { (result ≡ Err BytesFault.Length) ↔ (nat_le (length bytes.now) longest_value ≡ false) }
        ensures valid { OnOk result (IsTrue (is_value bytes.now)) }
        ensures room { result ≡ Err BytesFault.NoMemory → IsTrue (is_value bytes.now) }
    {
        let bytes = checked_bytes(bytes);
        if bytes.len() > MAX_VALUE {
            return Err(BytesFault::Length);
        }
        match Vec::from_slice(alloc, bytes) {
            Ok(bytes) => Ok(Value { bytes }),
            Err(_) => Err(BytesFault::NoMemory),
        }
    }

    pub fn as_slice(&self) -> &[u8]
        ensures same { result.now ≡ self.now }
        ensures valid { IsTrue (is_value self.now) }
    {
        checked_bytes(self.bytes.as_slice())
    }

    /// An equal value, in memory of its own.
    pub fn copy(&self) -> Result<Value, NoMemory>
        ensures { IfOk result (λ value. value ≡ self.now) }
    {
        let bytes = Vec::from_slice(*self.bytes.allocator(), self.bytes.as_slice())?;
        Ok(Value { bytes })
    }
}

/// The same bytes, which proofs then know to be numbers below 256.
pub fn checked_bytes(bytes: &[u8]) -> &[u8]
    ensures same { result.now ≡ bytes.now }
    ensures bytes { IsTrue (are_bytes bytes.now) }
{
    bytes
}

/// Whether the key may stand behind the last one in ascending order. Behind none any may.
pub fn key_follows(last: Option<&[u8]>, key: &[u8]) -> bool
    ensures { result ≡ option_map_or (λ before. is_key_before before key.now) (option_copied last.entry) true }
{
    match last {
        Some(before) => before.cmp(key).is_lt(),
        None => true,
    }
}

impl PartialEq for Key {
    ghost eq = { pointwise nat_eq };

    ghost laws = { partial_equiv_from_equiv nat_list_eq_equiv };

    fn eq(&self, other: &Key) -> bool {
        self.bytes == other.bytes
    }
}

impl Eq for Key {
    ghost laws = { nat_list_eq_equiv };
}

impl PartialOrd for Key {
    ghost partial_cmp = { λ x y. Some (slice_cmp nat_cmp x y) };

    ghost laws = { texts_po };

    fn partial_cmp(&self, other: &Key) -> Option<Ordering> {
        Some(self.cmp(other))
    }
}

impl Ord for Key {
    ghost cmp = { slice_cmp nat_cmp };

    ghost total = { nat_list_cmp_total };

    ghost matches_partial_cmp = { λ x y. refl };

    ghost matches_eq = { texts_ties };

    fn cmp(&self, other: &Key) -> Ordering {
        self.bytes.cmp(&other.bytes)
    }
}

impl Hash for Key {
    ghost hash_input = { λ k. k ∷ [] };

    ghost respects_eq = { Prim.search (hashing, rules) };

    /// All bytes in one write, since a hasher takes many at a time. Of a key alone that tells as much as its length would.
    fn hash<H: Hasher>(&self, state: &mut H) {
        state.write(&self.bytes);
    }
}

impl PartialEq for Value {
    ghost eq = { pointwise nat_eq };

    ghost laws = { partial_equiv_from_equiv nat_list_eq_equiv };

    fn eq(&self, other: &Value) -> bool {
        self.bytes == other.bytes
    }
}

impl Eq for Value {
    ghost laws = { nat_list_eq_equiv };
}
