//! A flat memory of words.
ghost use Rattle.std.specs.Prelude.{◌≡◌, ℕ, OnErr, OnOk, IfOk, IsOk, IsSome};
ghost use Rattle.std.specs.FinMap as finite;
ghost use Rattle.physiological_order.specs.Order.{address, flat, flat_received};
ghost use Rattle.physiological_order.specs.Words.{words_after};

use crate::operation::Op;
use crate::word_addr::WordAddr;
use number_map::NumberMap;
use std::alloc::{AllocError, Global};
use std::marker::Model;

/// A map from words to values. Contracts see the words that were set, by number; every other word is 0.
#[derive(Drop)]
pub struct Memory {
    words: NumberMap<u64>,
    alloc: Global,
}

impl Model for Memory {
    ghost use Rattle.std.specs.Prelude.{ℕ, ◌<◌, ◌^◌, IsSome};
    ghost use Rattle.std.specs.FinMap as finite;
    ghost use Rattle.std.specs.Ordering.{nat_cmp};
    ghost use Rattle.std.specs.Coded.{coded_ℕ};

    ghost Value = { finite.FinMap nat_cmp ℕ };

    ghost coded = { finite.code coded_ℕ coded_ℕ };

    ghost view = { λ a. a.words };

    ghost invariant = { λ a. (word : ℕ) → IsSome (finite.get a.words word) → word < 2 ^ 61 };
}

impl Memory {
    /// A memory of zeros.
    pub fn new(alloc: Global) -> Memory
        ensures { result ≡ finite.empty }
    {
        Memory {
            words: NumberMap::new(alloc),
            alloc,
        }
    }

    /// The value of the word: 0 if it was never set.
    pub fn get(&self, addr: WordAddr) -> u64
        ensures { result ≡ flat self.now addr }
    {
        self.words.get(addr.word()).unwrap_or(0)
    }

    /// Sets the word; one that was set before needs no allocation.
    pub fn set(&mut self, addr: WordAddr, value: u64) -> Result<(), AllocError>
        ensures set { OnOk result (self.new ≡ finite.insert self.old addr value) }
        ensures refused { OnErr result (self.new ≡ self.old) }
        ensures known { IsSome (finite.get self.old addr) → IsOk result }
    {
        self.words.insert(addr.word(), value)?;
        Ok(())
    }

    /// Performs the operation, and answers what it receives: the word's value before it, or `None` for a store. A load
    /// allocates nothing, nor does a store or a swap of a word that was set before.
    pub fn perform(&mut self, op: Op) -> Result<Option<u64>, AllocError>
        ensures received { IfOk result (λ received. received ≡ flat_received (flat self.old) op) }
        ensures performed { OnOk result (self.new ≡ words_after self.old op) }
        ensures refused { OnErr result (self.new ≡ self.old) }
        ensures load { (a : ℕ) → op ≡ Op.Load a → IsOk result }
        ensures known { IsSome (finite.get self.old (address op)) → IsOk result }
    {
        match op {
            Op::Load(addr) => Ok(Some(self.get(addr))),
            Op::Store(addr, value) => {
                self.set(addr, value)?;
                Ok(None)
            }
            Op::Swap(addr, value) => {
                let before = self.get(addr);
                self.set(addr, value)?;
                Ok(Some(before))
            }
        }
    }

    /// Another memory with the same words.
    pub fn try_clone(&self) -> Result<Memory, AllocError>
        ensures { IfOk result (λ copy. copy ≡ self.now) }
    {
        Ok(Memory {
            words: self.words.try_clone()?,
            alloc: self.alloc,
        })
    }

    /// The words that were set, with their values, by rising address.
    pub fn words(&self) -> Result<Vec<(WordAddr, u64)>, AllocError>
        ensures { IfOk result (λ words. words.items ≡ finite.entries self.now) }
    {
        let entries = self.words.entries()?;
        let mut words = Vec::with_capacity(self.alloc, entries.len())?;
        for entry in &entries {
            words.push((WordAddr::at(entry.0), entry.1))?;
        }
        Ok(words)
    }
}
