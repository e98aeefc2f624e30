//! End states, and whether the condition's expression holds in them.

ghost use Rattle.std.specs.Prelude.{◌≡◌, ◌++◌, ◌∷◌, [], IfOk, OnOk, map};
ghost use Rattle.litmus_parser.specs.TreeViews.{tree_of};
ghost use Rattle.litmus_reader.specs.TestViews.{test_of};
ghost use Rattle.litmus_reader.specs.Truth.{end_value, value_of, holds};

use crate::contents::Test;
use crate::threads::ThreadState;
use litmus_parser::{Expr, Name, same_name};
use std::alloc::AllocError;
use std::marker::Model;

/// The values that the names in a condition have after a run.
#[derive(Drop)]
pub struct EndState {
    values: Vec<u64>,
}

impl Model for EndState {
    ghost use Rattle.std.specs.Prelude.{ℕ, List};

    ghost Value = { List ℕ };

    ghost view = { λ s. s.values.items };
}

impl EndState {
    /// The values of the names that the condition names, in the order of `Test::seen`.
    pub fn values(&self) -> &[u64]
        ensures { result.now ≡ self.now }
    {
        &self.values
    }
}

/// A register's value in its thread, or a location's in memory; 0 if it is not there.
fn end_value(threads: &[ThreadState<'_>], memory: &[u64], name: Name) -> u64
    ensures { result ≡ end_value threads.now memory.now name }
{
    match name {
        Name::Register(thread, register) => match threads.get(usize::from(thread)) {
            Some(state) => state.register(register),
            None => 0,
        },
        Name::Location(location) => match memory.get(usize::from(location)) {
            Some(value) => *value,
            None => 0,
        },
    }
}

fn push_value(values: &mut Vec<u64>, value: u64) -> Result<(), AllocError>
    ensures { OnOk result (values.new.items ≡ values.old.items ++ value ∷ []) }
{
    values.push(value)?;
    Ok(())
}

/// The value that goes with a name, or 0 if the name is not seen.
#[tactic(auto, unfolding(crate::specs::Truth::value_of))]
fn value_of_name(seen: &[Name], values: &[u64], name: Name) -> u64
    ensures { result ≡ value_of seen.now values.now name }
{
    let mut names = seen;
    let mut left = values;
    while let Some((other, rest)) = names.split_first() {
        let Some((value, more)) = left.split_first() else {
            return 0;
        };
        if same_name(*other, name) {
            return *value;
        }
        names = rest;
        left = more;
    }
    0
}

fn expression_holds(expr: &Expr, seen: &[Name], values: &[u64]) -> bool
    ensures { result ≡ holds (value_of seen.now values.now) (tree_of expr.now) }
{
    match expr {
        Expr::Is(name, value) => value_of_name(seen, values, *name) == u64::from(*value),
        Expr::And(a, b) => expression_holds(a, seen, values) && expression_holds(b, seen, values),
        Expr::Or(a, b) => expression_holds(a, seen, values) || expression_holds(b, seen, values),
    }
}

impl Test {
    fn end_values(
        &self,
        threads: &[ThreadState<'_>],
        memory: &[u64],
    ) -> Result<Vec<u64>, AllocError>
        ensures { IfOk result (λ values.
            values.items ≡ map (end_value threads.now memory.now) (test_of self.now).seen) }
    {
        let mut values = Vec::new(self.alloc);
        let mut left = self.seen();
        while let Some((name, rest)) = left.split_first() {
            push_value(&mut values, end_value(threads, memory, *name))?;
            left = rest;
        }
        Ok(values)
    }

    /// The end state of a run: asks for each thread's state, in the order of the threads, and for
    /// each location's value by the location's number.
    pub fn end(&self, threads: &[ThreadState<'_>], memory: &[u64]) -> Result<EndState, AllocError>
        ensures values { IfOk result (λ state.
            state ≡ map (end_value threads.now memory.now) (test_of self.now).seen) }
        // The expression holds in it exactly when it holds of the registers and the memory.
        ensures truth { IfOk result (λ state.
            holds (value_of (test_of self.now).seen state) (test_of self.now).tree
            ≡ holds (end_value threads.now memory.now) (test_of self.now).tree) }
    {
        let values = self.end_values(threads, memory)?;
        Ok(EndState { values })
    }

    /// Whether the condition's expression holds in an end state of this test.
    pub fn state_holds(&self, state: &EndState) -> bool
        ensures { result ≡
            holds (value_of (test_of self.now).seen state.now) (test_of self.now).tree }
    {
        self.values_hold(&state.values)
    }

    /// Whether it holds if the names of the condition have these values, in the order of `Test::seen`.
    pub fn values_hold(&self, values: &[u64]) -> bool
        ensures { result ≡
            holds (value_of (test_of self.now).seen values.now) (test_of self.now).tree }
    {
        expression_holds(&self.expr, &self.seen, values)
    }
}
