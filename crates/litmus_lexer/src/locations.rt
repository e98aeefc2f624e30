//! The locations of a text, in the order in which they were first named.

ghost use Rattle.std.specs.Prelude.{◌≡◌, ◌++◌, [], ◌∷◌, ◌≤◌, ◌<◌, length, slice_get, option_map, OnOk, OnErr};
ghost use Rattle.litmus_lexer.specs.Naming.{place_of};

use crate::limits::MOST_LOCATIONS;
use indexmap::IndexSet;
use std::alloc::{AllocError, Global};
use std::marker::Model;

/// The names of locations in the order in which they were first seen. A location's number is the
/// index of its name, counted from 0.
#[derive(Drop)]
pub struct Locations {
    names: IndexSet<Vec<u8>>,
    alloc: Global,
}

impl Model for Locations {
    ghost use Rattle.std.specs.Prelude.{ℕ, List, map, ◌≤◌, length};
    ghost use Rattle.litmus_lexer.specs.declared.limits.TheConstants.{MOST_LOCATIONS};

    ghost Value = { List (List ℕ) };

    ghost view = { λ l. map (λ name. name.items) l.names.keys };

    ghost invariant = { λ l. length l.names.keys ≤ MOST_LOCATIONS };
}

impl Locations {
    /// No location.
    pub fn new(alloc: Global) -> Locations
        ensures { result ≡ [] }
    {
        Locations {
            names: IndexSet::new(alloc),
            alloc,
        }
    }

    /// How many there are, at most 64.
    pub fn len(&self) -> usize
        ensures count { result ≡ length self.now }
        ensures few { result ≤ MOST_LOCATIONS }
    {
        self.names.len()
    }

    /// The index of a name, or how many names there are if it is not among them.
    pub fn index(&self, name: &[u8]) -> usize
        ensures index { result ≡ place_of name.now self.now }
        ensures within { result ≤ length self.now }
    {
        match self.names.get_index_of(name) {
            Some(index) => index,
            None => self.len(),
        }
    }

    /// The name of the location of this number, if there is one.
    pub fn name(&self, number: usize) -> Option<&[u8]>
        ensures { option_map (λ name. name.now) result ≡ slice_get self.now number }
    {
        let name = self.names.get_index(number)?;
        Some(name)
    }

    /// Adds a name after the others; if allocation fails, the names are unchanged.
    pub fn push(&mut self, name: &[u8]) -> Result<(), AllocError>
        requires room { length self.old < MOST_LOCATIONS }
        requires absent { place_of name.now self.old ≡ length self.old }
        ensures pushed { OnOk result (self.new ≡ self.old ++ name.now ∷ []) }
        ensures refused { OnErr result (self.new ≡ self.old) }
    {
        let copy = Vec::from_slice(self.alloc, name)?;
        self.names.insert(copy)?;
        Ok(())
    }
}
