//! The initial block.

ghost use Rattle.std.specs.Prelude.{◌≡◌, [], None, IfOk};
ghost use Rattle.litmus_lexer.specs.Views.{view_read};
ghost use Rattle.litmus_lexer.specs.Reading.{Gives};
ghost use Rattle.litmus_lexer.specs.declared.errors.Kind.TheVariants.{BadInitial};
ghost use Rattle.piece_forms.specs.Forms.{one, either_sign, until, refused};
ghost use Rattle.piece_forms.specs.Reading.{reads};
ghost use Rattle.litmus_parser.specs.Block.{added, with_names, item_or_brace};
ghost use Rattle.litmus_parser.specs.Block.{whole_item, entry, block};

use crate::items::{Opening, is_name_set, item_opening, read_rest_of_item};
use crate::syntax::Item;
use litmus_lexer::{
    CLOSING_BRACE, Cursor, Kind, Locations, MOST_BYTES, MOST_THREADS, OPENING_BRACE, ReadError,
    SEMICOLON, Token,
};
use piece_forms::{expect_line_end, expect_sign, next_piece};
use std::alloc::Global;

/// Whether an item may follow: the position after a `;` or a `}`.
fn read_item_separator<'a>(cursor: Cursor<'a>) -> Result<(bool, Cursor<'a>), ReadError>
    ensures { Gives view_read result
        (reads (one (either_sign BadInitial SEMICOLON CLOSING_BRACE))
        cursor.entry.line cursor.entry.pieces) }
{
    match next_piece(&cursor) {
        (Some(Token::Sign(SEMICOLON)), after) => Ok((true, after)),
        (Some(Token::Sign(CLOSING_BRACE)), after) => Ok((false, after)),
        (Some(_), after) => Err(after.fault(Kind::BadInitial)),
        (None, end) => Err(end.fault(Kind::CutShort)),
    }
}

/// Adds an item, unless an earlier one sets the same name.
#[tactic(auto, unfolding(crate::specs::Block::added))]
fn add_item(items: &mut Vec<Item>, item: Item) -> Result<(), ReadError>
    ensures { Gives (λ _. items.new.items) result (added items.old.items item) }
{
    if is_name_set(items, item.name) {
        return Err(ReadError::at(item.line, Kind::DoubleInitial));
    }
    items.push(item)?;
    Ok(())
}

/// The rest of an item that begins with this, and whether an item may follow.
#[tactic(auto, unfolding(crate::specs::Block::whole_item))]
fn read_whole_item<'a>(
    items: &mut Vec<Item>,
    locations: &mut Locations,
    opening: Opening,
    cursor: Cursor<'a>,
) -> Result<(bool, Cursor<'a>), ReadError>
    ensures { Gives (λ r. ((r.0, (items.new.items, locations.new)), r.1.line, r.1.pieces)) result
        (reads (whole_item items.old.items (opening, locations.old))
        cursor.entry.line cursor.entry.pieces) }
{
    let (item, after) = read_rest_of_item(locations, opening, cursor)?;
    add_item(items, item)?;
    let (more, after) = read_item_separator(after)?;
    Ok((more, after))
}

/// What an item begins with, or nothing after the closing brace.
fn read_item_or_brace<'a>(
    locations: &mut Locations,
    cursor: Cursor<'a>,
) -> Result<(Option<Opening>, Cursor<'a>), ReadError>
    ensures read { Gives (λ r. (with_names r.0 locations.new, r.1.line, r.1.pieces)) result
        (reads (one (item_or_brace locations.old)) cursor.entry.line cursor.entry.pieces) }
    ensures same { IfOk result (λ r. r.0 ≡ None → locations.new ≡ locations.old) }
{
    match next_piece(&cursor) {
        (Some(Token::Word(first)), after) => {
            let opening = item_opening(MOST_THREADS, locations, first, &after, Kind::BadInitial)?;
            Ok((Some(opening), after))
        }
        (Some(Token::Sign(CLOSING_BRACE)), after) => Ok((None, after)),
        (Some(_), after) => Err(after.fault(Kind::BadInitial)),
        (None, end) => Err(end.fault(Kind::CutShort)),
    }
}

/// One item and the separator after it, or the closing brace; and whether an item may follow.
#[tactic(auto, unfolding(crate::specs::Block::entry))]
fn read_block_entry<'a>(
    items: &mut Vec<Item>,
    locations: &mut Locations,
    cursor: Cursor<'a>,
) -> Result<(bool, Cursor<'a>), ReadError>
    ensures { Gives (λ r. ((r.0, (items.new.items, locations.new)), r.1.line, r.1.pieces)) result
        (reads (entry (items.old.items, locations.old)) cursor.entry.line cursor.entry.pieces) }
{
    let (opening, after) = read_item_or_brace(locations, cursor)?;
    match opening {
        Some(opening) => read_whole_item(items, locations, opening, after),
        None => Ok((false, after)),
    }
}

/// The items up to the closing brace, and the position after it.
fn read_items<'a>(
    alloc: Global,
    locations: &mut Locations,
    cursor: Cursor<'a>,
) -> Result<(Vec<Item>, Cursor<'a>), ReadError>
    ensures { Gives (λ r. ((r.0.items, locations.new), r.1.line, r.1.pieces)) result
        (reads (until (refused BadInitial) entry MOST_BYTES ([], locations.old))
        cursor.entry.line cursor.entry.pieces) }
{
    let mut items = Vec::new(alloc);
    let mut at = cursor;
    for _ in 0..MOST_BYTES {
        let (more, after) = read_block_entry(&mut items, locations, at)?;
        at = after;
        if !more {
            return Ok((items, at));
        }
    }
    Err(at.fault(Kind::BadInitial))
}

/// The items of the initial block, and the line after it.
#[tactic(auto, unfolding(crate::specs::Block::block))]
pub fn read_block<'a>(
    alloc: Global,
    locations: &mut Locations,
    cursor: Cursor<'a>,
) -> Result<(Vec<Item>, Cursor<'a>), ReadError>
    ensures { Gives (λ r. ((r.0.items, locations.new), r.1.line, r.1.pieces)) result
        (reads (block locations.old) cursor.entry.line cursor.entry.pieces) }
{
    let after = expect_sign(cursor, Kind::BadInitial, OPENING_BRACE)?;
    let (items, after) = read_items(alloc, locations, after)?;
    let after = expect_line_end(after, Kind::BadInitial)?;
    Ok((items, after))
}
