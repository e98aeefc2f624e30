//! The table: the header row and the rows.

ghost use Rattle.std.specs.Prelude.{◌≡◌, ◌<◌, ◌≤◌, ◌+◌, IfOk, OnOk, None, option_map};
ghost use Rattle.std.specs.List.{find};
ghost use Rattle.litmus_lexer.specs.Views.{view_read, view_as};
ghost use Rattle.litmus_lexer.specs.Reading.{Gives};
ghost use Rattle.litmus_lexer.specs.Spelling.{thread_named};
ghost use Rattle.litmus_lexer.specs.declared.errors.Kind.TheVariants.{TooLarge, BadTable};
ghost use Rattle.piece_forms.specs.Forms.{either_sign, one, here, turn, many, refused};
ghost use Rattle.piece_forms.specs.Reading.{reads};
ghost use Rattle.litmus_parser.specs.Keywords.{quantifier_of};
ghost use Rattle.litmus_parser.specs.Names.{address_of};
ghost use Rattle.litmus_parser.specs.Table.{heading, separator, further_heading, header, is_absent};
ghost use Rattle.litmus_parser.specs.Table.{row_or_condition, counted_row, rows, table};

use crate::cells::read_row;
use crate::forms::same_word;
use crate::syntax::{Cell, Item, Name, Quantifier, Width};
use litmus_lexer::{
    BAR, Cursor, Kind, MOST_ROWS, MOST_THREADS, ReadError, SEMICOLON, Token, small_number,
};
use piece_forms::{expect_line_end, next_piece, next_piece_or_line_end, next_piece_position};
use std::alloc::Global;

/// The number of the thread that a heading names, at most 16.
fn thread_named(word: &[u8]) -> Option<u8>
    ensures { result ≡ thread_named word.now }
{
    match word {
        [b'P', number @ ..] => small_number(number, MOST_THREADS),
        _ => None,
    }
}

/// The first heading.
fn read_first_heading<'a>(cursor: Cursor<'a>) -> Result<Cursor<'a>, ReadError>
    ensures { Gives (λ at. (tt, at.line, at.pieces)) result
        (reads (one (heading 0)) cursor.entry.line cursor.entry.pieces) }
{
    match next_piece(&cursor) {
        (Some(Token::Word(word)), after) => match thread_named(word) {
            Some(0) => Ok(after),
            _ => Err(after.fault(Kind::BadTable)),
        },
        (Some(_), after) => Err(after.fault(Kind::BadTable)),
        (None, end) => Err(end.fault(Kind::CutShort)),
    }
}

/// Whether a further heading follows: the position after a `|`, or a `;`.
fn read_heading_separator<'a>(cursor: Cursor<'a>) -> Result<(bool, Cursor<'a>), ReadError>
    ensures { Gives view_read result
        (reads (here BadTable (either_sign BadTable BAR SEMICOLON)) cursor.entry.line
        cursor.entry.pieces) }
{
    match next_piece_or_line_end(&cursor) {
        (Some(Token::Sign(BAR)), after) => Ok((true, after)),
        (Some(Token::Sign(SEMICOLON)), after) => Ok((false, after)),
        _ => Err(cursor.fault(Kind::BadTable)),
    }
}

/// The heading of a thread after the first one.
fn read_thread_heading<'a>(thread: u8, cursor: Cursor<'a>) -> Result<Cursor<'a>, ReadError>
    ensures read { Gives (λ at. (tt, at.line, at.pieces)) result
        (reads (here BadTable (heading thread)) cursor.entry.line cursor.entry.pieces) }
    ensures few { OnOk result (thread < MOST_THREADS) }
{
    match next_piece_or_line_end(&cursor) {
        (Some(Token::Word(word)), after) => {
            if thread_named(word) != Some(thread) {
                return Err(cursor.fault(Kind::BadTable));
            }
            if thread >= MOST_THREADS {
                return Err(cursor.fault(Kind::TooLarge));
            }
            Ok(after)
        }
        _ => Err(cursor.fault(Kind::BadTable)),
    }
}

/// A further heading, if one follows.
fn read_next_heading<'a>(
    threads: u8,
    cursor: Cursor<'a>,
) -> Result<(bool, u8, Cursor<'a>), ReadError>
    requires { threads ≤ MOST_THREADS }
    ensures read { Gives (λ r. ((r.0, r.1), r.2.line, r.2.pieces)) result
        (reads (turn separator further_heading threads) cursor.entry.line
        cursor.entry.pieces) }
    ensures few { IfOk result (λ r. (threads ≤ r.1) × (r.1 ≤ MOST_THREADS)) }
{
    let (more, after) = read_heading_separator(cursor)?;
    if !more {
        return Ok((false, threads, after));
    }
    let after = read_thread_heading(threads, after)?;
    Ok((true, threads + 1, after))
}

/// The headings `P0 | P1 | ..` after the first: how many threads there are.
fn read_later_headings<'a>(cursor: Cursor<'a>) -> Result<(u8, Cursor<'a>), ReadError>
    ensures read { Gives view_read result
        (reads (many (refused BadTable) separator further_heading
        MOST_THREADS 1)
        cursor.entry.line cursor.entry.pieces) }
    ensures few { IfOk result (λ r. (0 < r.0) × (r.0 ≤ MOST_THREADS)) }
{
    let mut threads = 1;
    let mut at = cursor;
    for _ in 0..MOST_THREADS {
        let (more, count, after) = read_next_heading(threads, at)?;
        threads = count;
        at = after;
        if !more {
            return Ok((threads, at));
        }
    }
    Err(at.fault(Kind::BadTable))
}

/// The header row, after blank lines.
#[tactic(auto, unfolding(crate::specs::Table::header))]
fn read_header_row<'a>(cursor: Cursor<'a>) -> Result<(u8, Cursor<'a>), ReadError>
    ensures read { Gives view_read result (reads header cursor.entry.line cursor.entry.pieces) }
    // There are 1 to 16 threads.
    ensures few { IfOk result (λ r. (0 < r.0) × (r.0 ≤ MOST_THREADS)) }
{
    let after = read_first_heading(cursor)?;
    let (threads, after) = read_later_headings(after)?;
    let after = expect_line_end(after, Kind::BadTable)?;
    Ok((threads, after))
}

fn names_absent_thread(name: Name, threads: u8) -> bool
    ensures { result ≡ is_absent threads name }
{
    match name {
        Name::Register(thread, _) => thread >= threads,
        Name::Location(_) => false,
    }
}

/// The first item for a thread that the table does not have.
fn item_of_absent_thread(items: &[Item], threads: u8) -> Option<&Item>
    ensures { option_map (λ item. item.now) result
        ≡ find (λ item. is_absent threads item.name) items.now }
{
    items
        .iter()
        .find(|item| names_absent_thread(item.name, threads))
}

/// What a keyword asks.
pub fn quantifier_named(word: &[u8]) -> Option<Quantifier>
    ensures { result ≡ quantifier_of word.now }
{
    if same_word(word, b"exists") {
        return Some(Quantifier::Exists);
    }
    if same_word(word, b"~exists") {
        return Some(Quantifier::NotExists);
    }
    if same_word(word, b"forall") {
        return Some(Quantifier::Forall);
    }
    None
}

/// Whether a further row begins, or the condition; and where it does.
fn table_row_begins<'a>(count: u16, cursor: Cursor<'a>) -> Result<(bool, Cursor<'a>), ReadError>
    ensures { Gives view_read result
        (reads (one (row_or_condition count)) cursor.entry.line cursor.entry.pieces) }
{
    match next_piece(&cursor) {
        (Some(Token::Word(word)), after) => {
            if quantifier_named(word).is_some() {
                return Ok((false, next_piece_position(&cursor)));
            }
            if count >= MOST_ROWS {
                return Err(after.fault(Kind::TooLarge));
            }
            Ok((true, next_piece_position(&cursor)))
        }
        (Some(_), after) => {
            if count >= MOST_ROWS {
                return Err(after.fault(Kind::TooLarge));
            }
            Ok((true, next_piece_position(&cursor)))
        }
        (None, end) => Err(end.fault(Kind::CutShort)),
    }
}

/// The next row, unless the condition begins there; and whether it was a row.
#[tactic(auto, unfolding(crate::specs::Table::counted_row))]
fn read_next_row<'a>(
    items: &[Item],
    cells: &mut Vec<Cell>,
    threads: u8,
    count: u16,
    width: Option<Width>,
    cursor: Cursor<'a>,
) -> Result<(bool, u16, Option<Width>, Cursor<'a>), ReadError>
    requires { count < 65535 }
    ensures read { Gives (λ r. ((r.0, (r.1, (cells.new.items, r.2))), r.3.line, r.3.pieces)) result
        (reads (turn (λ t. one (row_or_condition t.0)) (counted_row (address_of items.now) threads)
        (count, (cells.old.items, width))) cursor.entry.line cursor.entry.pieces) }
    ensures more { IfOk result (λ r. r.1 ≤ count + 1) }
{
    let (more, at) = table_row_begins(count, cursor)?;
    if !more {
        return Ok((false, count, width, at));
    }
    let (width, after) = read_row(items, cells, threads, width, at)?;
    Ok((true, count + 1, width, after))
}

fn read_rows_into<'a>(
    items: &[Item],
    cells: &mut Vec<Cell>,
    threads: u8,
    cursor: Cursor<'a>,
) -> Result<(u16, Option<Width>, Cursor<'a>), ReadError>
    ensures { Gives (λ r. ((r.0, (cells.new.items, r.1)), r.2.line, r.2.pieces)) result
        (reads (many (refused TooLarge) (λ t. one (row_or_condition t.0))
        (counted_row (address_of items.now) threads)
        (MOST_ROWS + 1) (0, (cells.old.items, None))) cursor.entry.line cursor.entry.pieces) }
{
    let mut count = 0;
    let mut width = None;
    let mut at = cursor;
    for _ in 0..MOST_ROWS + 1 {
        let (more, rows, kept, after) = read_next_row(items, cells, threads, count, width, at)?;
        count = rows;
        width = kept;
        at = after;
        if !more {
            return Ok((count, width, at));
        }
    }
    Err(at.fault(Kind::TooLarge))
}

/// The instructions of all rows in reading order, and the position at which the condition begins.
#[tactic(auto, unfolding(crate::specs::Table::rows))]
fn read_rows<'a>(
    alloc: Global,
    items: &[Item],
    threads: u8,
    cursor: Cursor<'a>,
) -> Result<(Vec<Cell>, Cursor<'a>), ReadError>
    ensures { Gives (view_as (λ cells. cells.items)) result
        (reads (rows (address_of items.now) threads) cursor.entry.line cursor.entry.pieces) }
{
    let mut cells = Vec::new(alloc);
    let (_, _, after) = read_rows_into(items, &mut cells, threads, cursor)?;
    Ok((cells, after))
}

/// How many threads there are, their instructions, and the position at which the condition begins.
#[tactic(auto, unfolding(crate::specs::Table::table))]
pub fn read_table<'a>(
    alloc: Global,
    items: &[Item],
    cursor: Cursor<'a>,
) -> Result<(u8, Vec<Cell>, Cursor<'a>), ReadError>
    ensures read { Gives (λ r. ((r.0, r.1.items), r.2.line, r.2.pieces)) result
        (reads (table items.now) cursor.entry.line cursor.entry.pieces) }
    // There are 1 to 16 threads.
    ensures few { IfOk result (λ r. (0 < r.0) × (r.0 ≤ MOST_THREADS)) }
{
    let (threads, after) = read_header_row(cursor)?;
    if let Some(item) = item_of_absent_thread(items, threads) {
        return Err(ReadError::at(item.line, Kind::BadInitial));
    }
    let (cells, after) = read_rows(alloc, items, threads, after)?;
    Ok((threads, cells, after))
}
