//! Reading a whole text.

ghost use Rattle.std.specs.Prelude.{◌≡◌, ◌≢◌, ◌<◌, ◌≤◌, ◌⊎◌, ℕ, [], Ok, Err, IfOk, IfErr, OnOk, length};
ghost use Rattle.std.specs.List.{list_any};
ghost use Rattle.litmus_lexer.specs.Reading.{Gives};
ghost use Rattle.litmus_parser.specs.Names.{same_name};
ghost use Rattle.litmus_parser.specs.TreeViews.{tree_of};
ghost use Rattle.litmus_reader.specs.Litmus.{Litmus};
ghost use Rattle.litmus_reader.specs.TestViews.{test_of};
ghost use Rattle.litmus_reader.specs.Seen.{seen_in, with_name};
ghost use Rattle.litmus_reader.specs.ReadingTest.{is_cut_short, test_at, IsReadOrNoMemory};
ghost use Rattle.litmus_reader.specs.Grammar.{whole_test, IsTest};
ghost use Rattle.litmus_reader.specs.Faults.{FaultBefore, good_lines, Fault};
ghost use Rattle.litmus_lexer.specs.declared.errors.Kind.TheVariants.{NoMemory};
ghost use Rattle.litmus_parser.specs.Header.{text_pieces, preamble};
ghost use Rattle.piece_forms.specs.Reading.{reads};

use crate::contents::Test;
use litmus_lexer::{Cursor, Kind, LitmusError, Locations, MOST_BYTES, MOST_THREADS, ReadError};
use litmus_parser::{
    Expr, Name, read_block, read_condition, read_preamble, read_table, readable_lines, same_name,
};
use std::alloc::{AllocError, Global};

fn is_name_seen(seen: &[Name], name: Name) -> bool
    ensures { result ≡ list_any (λ other. same_name other name) seen.now }
{
    seen.iter().any(|other| same_name(*other, name))
}

fn add_seen_name(seen: &mut Vec<Name>, name: Name) -> Result<(), AllocError>
    ensures { OnOk result (seen.new.items ≡ with_name seen.old.items name) }
{
    if is_name_seen(seen, name) {
        return Ok(());
    }
    seen.push(name)?;
    Ok(())
}

/// Adds the names of an expression, each once, in the order in which they are first seen.
fn add_seen_names(seen: &mut Vec<Name>, expr: &Expr) -> Result<(), AllocError>
    ensures { OnOk result (seen.new.items ≡ seen_in (tree_of expr.now) seen.old.items) }
{
    match expr {
        Expr::Is(name, _) => add_seen_name(seen, *name),
        Expr::And(a, b) | Expr::Or(a, b) => {
            add_seen_names(seen, a)?;
            add_seen_names(seen, b)
        }
    }
}

/// The parts of a text, one after the other.
#[tactic(auto, unfolding(crate::specs::Grammar::whole_test))]
fn read_parts<'a>(alloc: Global, text: &'a [u8]) -> Result<(Test, Cursor<'a>), ReadError>
    requires { length text.now ≤ MOST_BYTES }
    ensures read { Gives (λ r. (test_of r.0, r.1.line, r.1.pieces)) result
        (reads whole_test 1 (text_pieces text.now [])) }
    ensures early { (e : LitmusError) → reads preamble 1 (text_pieces text.now []) ≡ Err e →
        (result ≡ Err (ReadError.Fault e)) × (e.kind ≢ Kind.NoMemory) }
{
    let (name, body) = read_preamble(text)?;
    let mut locations = Locations::new(alloc);
    let (items, after) = read_block(alloc, &mut locations, Cursor::new(body))?;
    let (threads, cells, after) = read_table(alloc, &items, after)?;
    let (quantifier, expr, end) = read_condition(alloc, &items, threads, &mut locations, after)?;
    let name = Vec::from_slice(alloc, name)?;
    let mut seen = Vec::new(alloc);
    add_seen_names(&mut seen, &expr)?;
    let test = Test {
        name,
        locations,
        items,
        threads,
        cells,
        quantifier,
        expr,
        seen,
        alloc,
    };
    Ok((test, end))
}

fn is_cut_short(kind: Kind) -> bool
    ensures { result ≡ is_cut_short kind }
{
    matches!(kind, Kind::CutShort)
}

#[tactic(auto, unfolding(crate::specs::ReadingTest::test_at))]
fn read_litmus_text(alloc: Global, text: &[u8]) -> Result<Test, LitmusError>
    ensures told { IsReadOrNoMemory test_of result (test_at text.now) }
    ensures large { MOST_BYTES < length text.now →
        result ≡ Err (record { line = 1; kind = Kind.TooLarge }) }
    ensures early { (e : LitmusError) →
        reads preamble 1 (text_pieces (good_lines text.now) []) ≡ Err e →
        IfErr result (λ f. f.kind ≢ Kind.NoMemory) }
{
    if text.len() > MOST_BYTES {
        return Err(LitmusError {
            line: 1,
            kind: Kind::TooLarge,
        });
    }
    let (lines, beyond) = readable_lines(text);
    match read_parts(alloc, lines) {
        Ok((test, _)) => {
            if is_cut_short(beyond.kind) {
                Ok(test)
            } else {
                Err(beyond)
            }
        }
        Err(ReadError::Memory) => Err(LitmusError {
            line: 0,
            kind: Kind::NoMemory,
        }),
        Err(ReadError::Fault(fault)) => {
            if is_cut_short(fault.kind) {
                Err(beyond)
            } else {
                Err(fault)
            }
        }
    }
}

/// Reads the text of a litmus test, at most 65,536 bytes.
///
/// A text that is refused is answered by its first fault, front to back: the line, counted from
/// 1, and the kind. If allocation fails the answer is `NoMemory` with line 0.
pub fn read(alloc: Global, text: &[u8]) -> Result<Test, LitmusError>
    // What is read is what the text says.
    ensures found { IfOk result (λ test. IsTest text.now (test_of test)) }
    // Every text of the grammar is read, as the test that it stands for, unless memory ran out.
    ensures only { (test : Litmus) → IsTest text.now test →
        IsReadOrNoMemory test_of result (Ok test) }
    // It has 1 to 16 threads.
    ensures few { IfOk result (λ test.
        (0 < (test_of test).threads) × ((test_of test).threads ≤ MOST_THREADS)) }
    // A fault has its kind's cause in its line, unless memory ran out.
    ensures fault { IfErr result (λ e.
        (e ≡ record { line = 0; kind = NoMemory }) ⊎ Fault text.now e.kind e.line) }
    // A text with a fault before its initial block is told its fault: that takes no memory.
    ensures early { (kind : Kind) (n : ℕ) → FaultBefore (good_lines text.now) kind n →
        IfErr result (λ e. (e.kind ≢ Kind.NoMemory) × Fault text.now e.kind e.line) }
    // A text that is too long wants no memory.
    ensures large { MOST_BYTES < length text.now →
        result ≡ Err (record { line = 1; kind = Kind.TooLarge }) }
    // The test or the first fault, front to back, unless memory ran out.
    ensures told { IsReadOrNoMemory test_of result (test_at text.now) }
{
    read_litmus_text(alloc, text)
}
