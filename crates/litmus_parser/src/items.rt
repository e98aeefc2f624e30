//! The items of the initial block.

ghost use Rattle.std.specs.Prelude.{◌≡◌, option_map, is_some};
ghost use Rattle.std.specs.List.{list_any, find};
ghost use Rattle.litmus_lexer.specs.Views.{view_read, view_as};
ghost use Rattle.litmus_lexer.specs.Reading.{Gives};
ghost use Rattle.litmus_lexer.specs.Spelling.{register_of};
ghost use Rattle.litmus_lexer.specs.declared.errors.Kind.TheVariants.{BadInitial};
ghost use Rattle.piece_forms.specs.Forms.{one, word};
ghost use Rattle.piece_forms.specs.Reading.{reads, judged};
ghost use Rattle.litmus_parser.specs.Names.{same_name, address_of};
ghost use Rattle.litmus_parser.specs.Words.{value, equals, location, named_register, opening};
ghost use Rattle.litmus_parser.specs.Block.{setting, rest_of_item};

use crate::syntax::{Item, Name, Setting};
use litmus_lexer::{
    COLON, Cursor, EQUALS, Kind, LAST_THREAD, Locations, MOST_LOCATIONS, ReadError, Token,
    VALUE_BOUND, capped_number, is_location, is_number, register_number, small_number,
};
use piece_forms::{expect_sign, next_piece};

/// What an item begins with.
#[derive(Clone, Copy)]
pub enum Opening {
    OfThread(u8),
    OfLocation(u8),
}

/// Whether two names are the same.
pub fn same_name(a: Name, b: Name) -> bool
    ensures { result ≡ same_name a b }
{
    a == b
}

/// Whether one of the items sets the name.
pub fn is_name_set(items: &[Item], name: Name) -> bool
    ensures { result ≡ list_any (λ item. same_name item.name name) items.now }
{
    items.iter().any(|item| same_name(item.name, name))
}

/// The first of the items that sets the name.
fn first_item_setting(items: &[Item], name: Name) -> Option<&Item>
    ensures { option_map (λ item. item.now) result
        ≡ find (λ item. same_name item.name name) items.now }
{
    items.iter().find(|item| same_name(item.name, name))
}

/// The location to which the first of the items that set the thread's register sets it, if it
/// sets it to one.
pub fn address_register_location(items: &[Item], thread: u8, register: u8) -> Option<u8>
    ensures { result ≡ address_of items.now thread register }
{
    let item = first_item_setting(items, Name::Register(thread, register))?;
    match item.setting {
        Setting::Address(location) => Some(location),
        Setting::Number(_) => None,
    }
}

/// Whether the items set the thread's register to a location.
pub fn is_address_register(items: &[Item], thread: u8, register: u8) -> bool
    ensures { result ≡ is_some (address_of items.now thread register) }
{
    address_register_location(items, thread, register).is_some()
}

/// The number of the location that a word names, which is new if it was not named before.
#[tactic(auto, unfolding(crate::specs::Words::location))]
pub fn find_or_add_location(
    locations: &mut Locations,
    word: &[u8],
    at: &Cursor<'_>,
    kind: Kind,
) -> Result<u8, ReadError>
    ensures { Gives (λ number. (number, locations.new)) result
        (judged (location kind word.now locations.old) at.now.line) }
{
    if !is_location(word) {
        return Err(at.fault(kind));
    }
    let index = locations.index(word);
    if index < locations.len() {
        return Ok(index as u8);
    }
    let number = locations.len();
    if number >= MOST_LOCATIONS {
        return Err(at.fault(Kind::TooLarge));
    }
    locations.push(word)?;
    Ok(number as u8)
}

/// The number that a word says, if it is a value.
fn value_of_word(word: &[u8], at: &Cursor<'_>, kind: Kind) -> Result<u32, ReadError>
    ensures { Gives (λ n. n) result (judged (value kind word.now) at.now.line) }
{
    if !is_number(word) {
        return Err(at.fault(kind));
    }
    let value = capped_number(word);
    if value == VALUE_BOUND {
        return Err(at.fault(Kind::ValueRange));
    }
    Ok(value)
}

/// A number that is a value.
fn read_value<'a>(cursor: Cursor<'a>, kind: Kind) -> Result<(u32, Cursor<'a>), ReadError>
    ensures { Gives view_read result
        (reads (one (word kind (value kind))) cursor.entry.line cursor.entry.pieces) }
{
    match next_piece(&cursor) {
        (Some(Token::Word(word)), after) => {
            let value = value_of_word(word, &after, kind)?;
            Ok((value, after))
        }
        (Some(_), after) => Err(after.fault(kind)),
        (None, end) => Err(end.fault(Kind::CutShort)),
    }
}

/// What stands after the name in an atom, or in an item of a location: `=` and a number.
pub fn read_equals_value<'a>(cursor: Cursor<'a>, kind: Kind) -> Result<(u32, Cursor<'a>), ReadError>
    ensures { Gives view_read result (reads (equals kind) cursor.entry.line cursor.entry.pieces) }
{
    let after = expect_sign(cursor, kind, EQUALS)?;
    let (value, after) = read_value(after, kind)?;
    Ok((value, after))
}

/// What an item or an atom that begins with this word begins with: one of the threads, or a
/// location.
pub fn item_opening(
    threads: u8,
    locations: &mut Locations,
    word: &[u8],
    at: &Cursor<'_>,
    kind: Kind,
) -> Result<Opening, ReadError>
    ensures { Gives (λ opening. (opening, locations.new)) result
        (judged (opening kind threads word.now locations.old) at.now.line) }
{
    match small_number(word, LAST_THREAD) {
        Some(thread) if thread < threads => Ok(Opening::OfThread(thread)),
        Some(_) => Err(at.fault(kind)),
        None => {
            let number = find_or_add_location(locations, word, at, kind)?;
            Ok(Opening::OfLocation(number))
        }
    }
}

/// What a word sets a register to.
fn setting_of_word(
    locations: &mut Locations,
    word: &[u8],
    at: &Cursor<'_>,
) -> Result<Setting, ReadError>
    ensures { Gives (λ setting. (setting, locations.new)) result
        (judged (setting locations.old word.now) at.now.line) }
{
    if is_number(word) {
        let value = value_of_word(word, at, Kind::BadInitial)?;
        return Ok(Setting::Number(value));
    }
    let number = find_or_add_location(locations, word, at, Kind::BadInitial)?;
    Ok(Setting::Address(number))
}

fn read_setting<'a>(
    locations: &mut Locations,
    cursor: Cursor<'a>,
) -> Result<(Setting, Cursor<'a>), ReadError>
    ensures { Gives (view_as (λ read. (read, locations.new))) result
        (reads (one (word BadInitial (setting locations.old)))
        cursor.entry.line cursor.entry.pieces) }
{
    match next_piece(&cursor) {
        (Some(Token::Word(word)), after) => {
            let setting = setting_of_word(locations, word, &after)?;
            Ok((setting, after))
        }
        (Some(_), after) => Err(after.fault(Kind::BadInitial)),
        (None, end) => Err(end.fault(Kind::CutShort)),
    }
}

/// A register other than x0.
fn read_settable_register<'a>(cursor: Cursor<'a>) -> Result<(u8, Cursor<'a>), ReadError>
    ensures { Gives view_read result
        (reads (one (word BadInitial (λ w. named_register BadInitial (register_of w))))
        cursor.entry.line cursor.entry.pieces) }
{
    match next_piece(&cursor) {
        (Some(Token::Word(word)), after) => match register_number(word) {
            None | Some(0) => Err(after.fault(Kind::BadInitial)),
            Some(register) => Ok((register, after)),
        },
        (Some(_), after) => Err(after.fault(Kind::BadInitial)),
        (None, end) => Err(end.fault(Kind::CutShort)),
    }
}

/// The rest of an item that begins with this.
#[tactic(auto, unfolding(crate::specs::Block::rest_of_item))]
pub fn read_rest_of_item<'a>(
    locations: &mut Locations,
    opening: Opening,
    cursor: Cursor<'a>,
) -> Result<(Item, Cursor<'a>), ReadError>
    ensures { Gives (view_as (λ read. (read, locations.new))) result
        (reads (rest_of_item (opening, locations.old)) cursor.entry.line cursor.entry.pieces) }
{
    let line = cursor.line();
    match opening {
        Opening::OfThread(thread) => {
            let after = expect_sign(cursor, Kind::BadInitial, COLON)?;
            let (register, after) = read_settable_register(after)?;
            let after = expect_sign(after, Kind::BadInitial, EQUALS)?;
            let (setting, after) = read_setting(locations, after)?;
            Ok((
                Item {
                    line,
                    name: Name::Register(thread, register),
                    setting,
                },
                after,
            ))
        }
        Opening::OfLocation(number) => {
            let (value, after) = read_equals_value(cursor, Kind::BadInitial)?;
            Ok((
                Item {
                    line,
                    name: Name::Location(number),
                    setting: Setting::Number(value),
                },
                after,
            ))
        }
    }
}
