//! The rows of the table, cell by cell.

ghost use Rattle.std.specs.Prelude.{◌≡◌, ◌<◌, ◌+◌, ◌++◌, [], ◌∷◌, Ok, true, if◌then◌else◌};
ghost use Rattle.litmus_lexer.specs.Reading.{Gives};
ghost use Rattle.litmus_lexer.specs.Pieces.{pieces_of};
ghost use Rattle.piece_forms.specs.Places.{InLine};
ghost use Rattle.piece_forms.specs.Forms.{Gives as Given, Refuses, taken, is_sign, perhaps, here, many};
ghost use Rattle.piece_forms.specs.Reading.{reads};
ghost use Rattle.litmus_lexer.specs.declared.errors.Kind.TheVariants.{BadInstruction};
ghost use Rattle.litmus_parser.specs.Names.{address_of};
ghost use Rattle.litmus_parser.specs.Verdicts.{meaning};
ghost use Rattle.litmus_parser.specs.Table.{ends_here, has_shape, filled, cell, column, row};

use crate::forms::{Form, read_instruction_form};
use crate::instructions::instruction_of_form;
use crate::syntax::{Cell, Instruction, Item, Width};
use litmus_lexer::{BAR, Cursor, Kind, ReadError, SEMICOLON, Token, next_token};
use piece_forms::{expect_line_end, next_piece_or_line_end};

fn is_at_line_end(text: &[u8]) -> bool
    ensures { result ≡ ends_here (pieces_of text.now) }
{
    matches!(next_token(text), None | Some((Token::LineEnd, _)))
}

/// Whether a line has so many `|`, then a `;`, and nothing after it.
#[tactic(auto, unfolding(crate::specs::Table::has_shape))]
fn has_row_shape(bars: u8, text: &[u8]) -> bool
    ensures { result ≡ has_shape bars (pieces_of text.now) }
{
    let mut left = bars;
    let mut rest = text;
    while let Some((token, after)) = next_token(rest) {
        match token {
            Token::LineEnd => return false,
            Token::Sign(SEMICOLON) => return left == 0 && is_at_line_end(after),
            Token::Sign(BAR) => {
                if left == 0 {
                    return false;
                }
                left -= 1;
            }
            _ => {}
        }
        rest = after;
    }
    false
}

fn push_cell(cells: &mut Vec<Cell>, cell: Cell) -> Result<(), ReadError>
    ensures { Gives (λ _. cells.new.items) result (Ok (cells.old.items ++ cell ∷ [])) }
{
    cells.push(cell)?;
    Ok(())
}

/// Whether the cell ends with its sign here; and the position after it.
fn skip_cell_end<'a>(closing: u8, cursor: Cursor<'a>) -> (bool, Cursor<'a>)
    ensures { reads (perhaps InLine (is_sign closing)) cursor.entry.line cursor.entry.pieces
        ≡ Ok (result.0, result.1.line, result.1.pieces) }
{
    match next_piece_or_line_end(&cursor) {
        (Some(Token::Sign(sign)), after) if sign == closing => (true, after),
        _ => (false, cursor),
    }
}

/// What a form means, and the position after the sign that ends its cell.
fn read_cell_end<'a>(
    items: &[Item],
    thread: u8,
    width: Option<Width>,
    form: Form,
    closing: u8,
    cursor: Cursor<'a>,
) -> Result<((Instruction, Option<Width>), Cursor<'a>), ReadError>
    ensures { Gives (λ r. (r.0, r.1.line, r.1.pieces)) result
        (reads (here BadInstruction
        (λ piece. if is_sign closing piece
        then taken (meaning (address_of items.now) thread width form)
        else Refuses BadInstruction))
        cursor.entry.line cursor.entry.pieces) }
{
    match next_piece_or_line_end(&cursor) {
        (Some(Token::Sign(sign)), after) if sign == closing => {
            let meant = instruction_of_form(items, thread, width, form, &cursor)?;
            Ok((meant, after))
        }
        _ => Err(cursor.fault(Kind::BadInstruction)),
    }
}

/// An instruction and the sign that ends its cell.
#[tactic(auto, unfolding(crate::specs::Table::filled))]
fn read_instruction<'a>(
    items: &[Item],
    cells: &mut Vec<Cell>,
    thread: u8,
    width: Option<Width>,
    closing: u8,
    cursor: Cursor<'a>,
) -> Result<(Option<Width>, Cursor<'a>), ReadError>
    ensures { Gives (λ r. ((cells.new.items, r.0), r.1.line, r.1.pieces)) result
        (reads (filled (address_of items.now) thread closing (cells.old.items, width))
        cursor.entry.line cursor.entry.pieces) }
{
    let (form, after) = read_instruction_form(cursor)?;
    let ((instruction, width), after) = read_cell_end(items, thread, width, form, closing, after)?;
    push_cell(
        cells,
        Cell {
            thread,
            instruction,
        },
    )?;
    Ok((width, after))
}

/// A blank cell or an instruction, and the sign that ends it.
#[tactic(auto, unfolding(crate::specs::Table::cell))]
fn read_cell<'a>(
    items: &[Item],
    cells: &mut Vec<Cell>,
    thread: u8,
    width: Option<Width>,
    closing: u8,
    cursor: Cursor<'a>,
) -> Result<(Option<Width>, Cursor<'a>), ReadError>
    ensures { Gives (λ r. ((cells.new.items, r.0), r.1.line, r.1.pieces)) result
        (reads (cell (address_of items.now) thread closing (cells.old.items, width))
        cursor.entry.line cursor.entry.pieces) }
{
    let (ended, after) = skip_cell_end(closing, cursor);
    if ended {
        return Ok((width, after));
    }
    read_instruction(items, cells, thread, width, closing, after)
}

/// The cell of a thread, with `|` after it, or `;` for the last one.
#[tactic(auto, unfolding(crate::specs::Table::column))]
fn read_thread_cell<'a>(
    items: &[Item],
    cells: &mut Vec<Cell>,
    threads: u8,
    thread: u8,
    width: Option<Width>,
    cursor: Cursor<'a>,
) -> Result<(Option<Width>, Cursor<'a>), ReadError>
    requires { thread < threads }
    ensures { Gives (λ r. ((thread + 1, (cells.new.items, r.0)), r.1.line, r.1.pieces)) result
        (reads (column (address_of items.now) threads (thread, (cells.old.items, width)))
        cursor.entry.line cursor.entry.pieces) }
{
    let closing = if thread + 1 == threads {
        SEMICOLON
    } else {
        BAR
    };
    let (width, after) = read_cell(items, cells, thread, width, closing, cursor)?;
    Ok((width, after))
}

/// The cells of all threads.
fn read_thread_cells<'a>(
    items: &[Item],
    cells: &mut Vec<Cell>,
    threads: u8,
    width: Option<Width>,
    cursor: Cursor<'a>,
) -> Result<(Option<Width>, Cursor<'a>), ReadError>
    ensures { Gives (λ r. ((threads, (cells.new.items, r.0)), r.1.line, r.1.pieces)) result
        (reads (many Given (λ c. Given true) (column (address_of items.now) threads) threads
        (0, (cells.old.items, width))) cursor.entry.line cursor.entry.pieces) }
{
    let mut width = width;
    let mut at = cursor;
    for thread in 0..threads {
        let (kept, after) = read_thread_cell(items, cells, threads, thread, width, at)?;
        width = kept;
        at = after;
    }
    Ok((width, at))
}

/// A row: its shape is tested before its cells.
#[tactic(auto, unfolding(crate::specs::Table::row))]
pub fn read_row<'a>(
    items: &[Item],
    cells: &mut Vec<Cell>,
    threads: u8,
    width: Option<Width>,
    cursor: Cursor<'a>,
) -> Result<(Option<Width>, Cursor<'a>), ReadError>
    ensures { Gives (λ r. ((cells.new.items, r.0), r.1.line, r.1.pieces)) result
        (reads (row (address_of items.now) threads (cells.old.items, width))
        cursor.entry.line cursor.entry.pieces) }
{
    if !has_row_shape(threads.saturating_sub(1), cursor.rest()) {
        return Err(cursor.fault(Kind::BadTable));
    }
    let (width, after) = read_thread_cells(items, cells, threads, width, cursor)?;
    let after = expect_line_end(after, Kind::BadTable)?;
    Ok((width, after))
}
