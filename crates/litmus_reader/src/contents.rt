//! What the text of a litmus test says.

ghost use Rattle.std.specs.Prelude.{◌≡◌, ◌≤◌, ◌<◌, [], length, replicate, slice_get, option_map, true};
ghost use Rattle.std.specs.List.{list_all};
ghost use Rattle.litmus_parser.specs.TreeViews.{tree_of};
ghost use Rattle.litmus_reader.specs.Seen.{seen_in};
ghost use Rattle.litmus_reader.specs.WellFormed.{is_of_thread, is_there};

use crate::threads::ThreadState;
use litmus_lexer::Locations;
use litmus_parser::{Cell, Expr, Item, Name, Quantifier};
use std::alloc::Global;

/// A litmus test, with the names of its condition's expression, each once.
#[derive(Drop)]
pub struct Test {
    pub(crate) name: Vec<u8>,
    pub(crate) locations: Locations,
    pub(crate) items: Vec<Item>,
    pub(crate) threads: u8,
    pub(crate) cells: Vec<Cell>,
    pub(crate) quantifier: Quantifier,
    pub(crate) expr: Expr,
    pub(crate) seen: Vec<Name>,
    pub(crate) alloc: Global,
    ghost few: { (0 < threads) × (threads ≤ 16) },
    ghost all_seen: { seen.items ≡ seen_in (tree_of expr) [] },
    ghost cells_there: { list_all (is_of_thread threads) cells.items ≡ true },
    ghost names_there: { list_all (is_there threads (length locations)) seen.items ≡ true },
}

impl Test {
    ghost use Rattle.litmus_reader.specs.TestViews.{test_of};
    ghost use Rattle.litmus_reader.specs.ThreadSteps.{settled_thread, with_items};

    /// The name of the test: 1 to 128 letters, digits and `_ + . - [ ]`.
    pub fn name(&self) -> &[u8]
        ensures { result.now ≡ (test_of self.now).name }
    {
        &self.name
    }

    /// What the condition asks of the end states.
    pub fn condition(&self) -> Quantifier
        ensures { result ≡ (test_of self.now).quantifier }
    {
        self.quantifier
    }

    /// The names in the condition, each once, in the order in which they are first seen.
    pub fn seen(&self) -> &[Name]
        ensures { result.now ≡ (test_of self.now).seen }
    {
        &self.seen
    }

    /// How many threads there are, 1 to 16; they are numbered from 0.
    pub fn threads(&self) -> usize
        ensures count { result ≡ (test_of self.now).threads }
        ensures few { (0 < result) × (result ≤ 16) }
    {
        usize::from(self.threads)
    }

    /// How many locations there are, at most 64; their words are numbered from 0.
    pub fn locations(&self) -> usize
        ensures count { result ≡ length (test_of self.now).locations }
        ensures few { result ≤ 64 }
    {
        self.locations.len()
    }

    /// The name of the location of this number, if there is one: a letter or `_`, then letters,
    /// digits and `_`.
    pub fn location(&self, number: u8) -> Option<&[u8]>
        ensures { option_map (λ name. name.now) result
            ≡ slice_get (test_of self.now).locations number }
    {
        self.locations.name(usize::from(number))
    }

    /// A thread as the test opens it; one that is not there has finished.
    pub fn start(&self, thread: u8) -> ThreadState<'_>
        ensures { result ≡ settled_thread thread (with_items thread (test_of self.now).items
            (replicate 32 0)) (test_of self.now).cells }
    {
        ThreadState::open(thread, &self.items, &self.cells)
    }
}
