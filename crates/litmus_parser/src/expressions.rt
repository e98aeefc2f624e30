//! The expression of a condition.

ghost use Rattle.std.specs.Prelude.{◌≡◌, IfOk};
ghost use Rattle.litmus_lexer.specs.Reading.{Gives};
ghost use Rattle.piece_forms.specs.Forms.{turn};
ghost use Rattle.piece_forms.specs.Reading.{reads};
ghost use Rattle.litmus_parser.specs.TreeViews.{tree_of};
ghost use Rattle.litmus_parser.specs.Names.{address_of};
ghost use Rattle.litmus_parser.specs.Condition.{sign_of, join_of, further, joined, chain, part_of, factor};

use crate::atoms::{read_factor_start, read_value_register};
use crate::items::{Opening, read_equals_value};
use crate::syntax::{Expr, Item, Name};
use litmus_lexer::{CLOSING_PARENTHESIS, COLON, Cursor, Kind, Locations, MOST_ATOMS, ReadError};
use piece_forms::{expect_sign, skip_word};
use std::alloc::{AllocError, Global};

/// What joins the parts of an expression: `or` its terms, `and` the factors of a term.
#[derive(Clone, Copy)]
pub enum Connective {
    And,
    Or,
}

fn join_expressions(
    alloc: Global,
    connective: Connective,
    left: Expr,
    right: Expr,
) -> Result<Expr, AllocError>
    ensures { IfOk result (λ expr.
        tree_of expr ≡ join_of connective (tree_of left) (tree_of right)) }
{
    let left = Box::new(alloc, left)?;
    let right = Box::new(alloc, right)?;
    Ok(match connective {
        Connective::And => Expr::And(left, right),
        Connective::Or => Expr::Or(left, right),
    })
}

/// The sign of the connective.
fn connective_sign(connective: Connective) -> &'static [u8]
    ensures { result.now ≡ sign_of connective }
{
    match connective {
        Connective::And => &[b'/', b'\\'],
        Connective::Or => &[b'\\', b'/'],
    }
}

/// Parts with the connective between.
#[cycle(expression)]
pub fn expression<'a>(
    alloc: Global,
    items: &[Item],
    threads: u8,
    locations: &mut Locations,
    atoms: u16,
    depth: u8,
    connective: Connective,
    cursor: Cursor<'a>,
) -> Result<(Expr, u16, Cursor<'a>), ReadError>
    ensures { Gives (λ r. ((tree_of r.0, (locations.new, r.1)), r.2.line, r.2.pieces)) result
        (reads (chain connective (part_of connective (address_of items.now) threads depth)
        (locations.old, atoms)) cursor.entry.line cursor.entry.pieces) }
{
    let (first, mut atoms, mut at) = read_expression_part(
        alloc, items, threads, locations, atoms, depth, connective, cursor,
    )?;
    let mut left = first;
    for _ in 0..MOST_ATOMS {
        let (more, joined, count, after) = read_next_part(
            alloc, items, threads, locations, atoms, depth, connective, left, at,
        )?;
        left = joined;
        atoms = count;
        at = after;
        if !more {
            return Ok((left, atoms, at));
        }
    }
    Err(at.fault(Kind::TooLarge))
}

/// A further part after the connective's sign, if there is one.
#[cycle(expression)]
fn read_next_part<'a>(
    alloc: Global,
    items: &[Item],
    threads: u8,
    locations: &mut Locations,
    atoms: u16,
    depth: u8,
    connective: Connective,
    left: Expr,
    at: Cursor<'a>,
) -> Result<(bool, Expr, u16, Cursor<'a>), ReadError>
    ensures { Gives (λ r. ((r.0, (tree_of r.1, (locations.new, r.2))), r.3.line, r.3.pieces)) result
        (reads (turn (further connective)
        (joined connective (part_of connective (address_of items.now) threads depth))
        (tree_of left, (locations.old, atoms))) at.entry.line at.entry.pieces) }
{
    let (more, after) = skip_word(&at, connective_sign(connective));
    if !more {
        return Ok((false, left, atoms, after));
    }
    let (right, atoms, after) = read_expression_part(
        alloc, items, threads, locations, atoms, depth, connective, after,
    )?;
    let joined = join_expressions(alloc, connective, left, right)?;
    Ok((true, joined, atoms, after))
}

/// A part that the connective joins.
#[cycle(expression)]
fn read_expression_part<'a>(
    alloc: Global,
    items: &[Item],
    threads: u8,
    locations: &mut Locations,
    atoms: u16,
    depth: u8,
    connective: Connective,
    cursor: Cursor<'a>,
) -> Result<(Expr, u16, Cursor<'a>), ReadError>
    ensures { Gives (λ r. ((tree_of r.0, (locations.new, r.1)), r.2.line, r.2.pieces)) result
        (reads (part_of connective (address_of items.now) threads depth (locations.old, atoms))
        cursor.entry.line cursor.entry.pieces) }
{
    match connective {
        Connective::And => factor(alloc, items, threads, locations, atoms, depth, cursor),
        Connective::Or => expression(
            alloc,
            items,
            threads,
            locations,
            atoms,
            depth,
            Connective::And,
            cursor,
        ),
    }
}

/// An atom, or an expression in parentheses that may be that deep.
#[cycle(expression)]
#[tactic(auto, unfolding(crate::specs::Condition::inner))]
fn factor<'a>(
    alloc: Global,
    items: &[Item],
    threads: u8,
    locations: &mut Locations,
    atoms: u16,
    depth: u8,
    cursor: Cursor<'a>,
) -> Result<(Expr, u16, Cursor<'a>), ReadError>
    ensures { Gives (λ r. ((tree_of r.0, (locations.new, r.1)), r.2.line, r.2.pieces)) result
        (reads (factor (address_of items.now) threads depth (locations.old, atoms))
        cursor.entry.line cursor.entry.pieces) }
{
    let (start, atoms, after) = read_factor_start(threads, depth, locations, atoms, cursor)?;
    match start {
        Some(Opening::OfThread(thread)) => {
            let after = expect_sign(after, Kind::BadCondition, COLON)?;
            let (register, after) = read_value_register(items, thread, after)?;
            let (value, after) = read_equals_value(after, Kind::BadCondition)?;
            Ok((
                Expr::Is(Name::Register(thread, register), value),
                atoms,
                after,
            ))
        }
        Some(Opening::OfLocation(number)) => {
            let (value, after) = read_equals_value(after, Kind::BadCondition)?;
            Ok((Expr::Is(Name::Location(number), value), atoms, after))
        }
        None => {
            let (inner, atoms, after) = expression(
                alloc,
                items,
                threads,
                locations,
                atoms,
                depth - 1,
                Connective::Or,
                after,
            )?;
            let after = expect_sign(after, Kind::BadCondition, CLOSING_PARENTHESIS)?;
            Ok((inner, atoms, after))
        }
    }
}
