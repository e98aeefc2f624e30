//! The map and its calls.
ghost use Rattle.std.specs.Prelude.{◌≡◌, map, nat_eq, OnOk, OnErr, IfOk, IsSome, IsOk};
ghost use Rattle.std.specs.List.{IsDistinct};
ghost use Rattle.std.specs.List.Sorted.{IsPermutation, IsNonDecreasingBy};
ghost use Rattle.std.specs.Map.{keys_of};
ghost use Rattle.std.specs.FinMap as finite;

use std::alloc::{AllocError, Global};
use std::collections::HashMap;
use std::marker::Model;

/// A map from `u64` keys to values. Contracts see a finite map, whose entries rise by key.
#[derive(Drop)]
pub struct NumberMap<V> {
    hash: HashMap<u64, V>,
    alloc: Global,
}

impl<V> Model for NumberMap<V> {
    ghost use Rattle.std.specs.FinMap as finite;
    ghost use Rattle.std.specs.Ordering.{nat_cmp};
    ghost use Rattle.std.specs.Coded.{coded_ℕ};

    ghost Value = { finite.FinMap nat_cmp V };

    ghost coded = { finite.code coded_ℕ V.code };

    ghost view = { λ a. finite.from_entries a.hash.entries };
}

impl<V: Copy> NumberMap<V> {
    /// An empty map; it allocates nothing yet.
    pub fn new(alloc: Global) -> NumberMap<V>
        ensures { result ≡ finite.empty }
    {
        NumberMap {
            hash: HashMap::new(alloc),
            alloc,
        }
    }

    /// The value of a key.
    pub fn get(&self, key: u64) -> Option<V>
        ensures { result ≡ finite.get self.now key }
    {
        self.hash.get(&key).copied()
    }

    /// Gives a key its value. If an allocation fails, nothing changes; a key that is there needs none.
    pub fn insert(&mut self, key: u64, value: V) -> Result<(), AllocError>
        ensures inserted { OnOk result (self.new ≡ finite.insert self.old key value) }
        ensures refused { OnErr result (self.new ≡ self.old) }
        ensures known { IsSome (finite.get self.old key) → IsOk result }
    {
        self.hash.insert(key, value)?;
        Ok(())
    }

    /// Drops all entries and keeps the memory. Its time is in proportion to that memory.
    pub fn clear(&mut self)
        ensures { self.new ≡ finite.empty }
    {
        self.hash.clear();
    }

    /// Another map with the same entries.
    pub fn try_clone(&self) -> Result<NumberMap<V>, AllocError>
        ensures { IfOk result (λ copy. copy ≡ self.now) }
    {
        let mut entries = self.entries()?;
        let mut copy = NumberMap::new(self.alloc);
        while let Some(entry) = entries.pop() {
            copy.insert(entry.0, entry.1)?;
        }
        Ok(copy)
    }

    /// The keys with their values, by rising key.
    pub fn entries(&self) -> Result<Vec<(u64, V)>, AllocError>
        ensures { IfOk result (λ entries. entries.items ≡ finite.entries self.now) }
    {
        let mut entries = collect_hash_entries(self.alloc, &self.hash)?;
        sort_entries_by_key(&mut entries)?;
        Ok(entries)
    }
}

/// The entries in the order of the hash map.
fn collect_hash_entries<V: Copy>(
    alloc: Global,
    hash: &HashMap<u64, V>,
) -> Result<Vec<(u64, V)>, AllocError>
    ensures pairs { IfOk result (λ pairs. pairs.items ≡ map (λ entry. (entry.0, entry.1))
        hash.now.entries) }
    ensures distinct { IsDistinct nat_eq (keys_of hash.now.entries) }
{
    hash.iter()
        .map(|(key, value)| (*key, *value))
        .collect(alloc)
}

/// Sorts by key.
fn sort_entries_by_key<V: Copy>(pairs: &mut Vec<(u64, V)>) -> Result<(), AllocError>
    ensures sorted { OnOk result (IsNonDecreasingBy (λ pair. pair.0) pairs.new.items) }
    ensures permuted { IsPermutation pairs.old.items pairs.new.items }
{
    pairs.sort_by_key(|pair| pair.0)
}
