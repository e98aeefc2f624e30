//! The atoms of a condition.

ghost use Rattle.std.specs.Prelude.{◌≡◌, ◌<◌, None, IfOk};
ghost use Rattle.litmus_lexer.specs.Views.{view_read};
ghost use Rattle.litmus_lexer.specs.Reading.{Gives};
ghost use Rattle.litmus_lexer.specs.declared.errors.Kind.TheVariants.{BadCondition};
ghost use Rattle.piece_forms.specs.Forms.{one, word};
ghost use Rattle.piece_forms.specs.Reading.{reads};
ghost use Rattle.litmus_parser.specs.Condition.{start};
ghost use Rattle.litmus_parser.specs.Names.{address_of};
ghost use Rattle.litmus_parser.specs.Verdicts.{value_register};

use crate::items::{Opening, is_address_register, item_opening};
use crate::syntax::Item;
use litmus_lexer::{
    Cursor, Kind, Locations, MOST_ATOMS, OPENING_PARENTHESIS, ReadError, Token, register_number,
};
use piece_forms::next_piece;

/// What a factor begins with, or nothing for a parenthesis; how many atoms there are with it; and
/// the position after it.
pub fn read_factor_start<'a>(
    threads: u8,
    depth: u8,
    locations: &mut Locations,
    atoms: u16,
    cursor: Cursor<'a>,
) -> Result<(Option<Opening>, u16, Cursor<'a>), ReadError>
    ensures read { Gives (λ r. ((r.0, (locations.new, r.1)), r.2.line, r.2.pieces)) result
        (reads (one (start threads depth (locations.old, atoms)))
        cursor.entry.line cursor.entry.pieces) }
    ensures deep { IfOk result (λ r. r.0 ≡ None → 0 < depth) }
{
    match next_piece(&cursor) {
        (Some(Token::Word(word)), after) => {
            let start = item_opening(threads, locations, word, &after, Kind::BadCondition)?;
            if atoms >= MOST_ATOMS {
                return Err(after.fault(Kind::TooLarge));
            }
            Ok((Some(start), atoms + 1, after))
        }
        (Some(Token::Sign(OPENING_PARENTHESIS)), after) => {
            if depth == 0 {
                return Err(after.fault(Kind::TooLarge));
            }
            Ok((None, atoms, after))
        }
        (Some(_), after) => Err(after.fault(Kind::BadCondition)),
        (None, end) => Err(end.fault(Kind::CutShort)),
    }
}

/// A register of the thread that holds values.
#[tactic(auto, unfolding(crate::specs::Verdicts::value_in))]
pub fn read_value_register<'a>(
    items: &[Item],
    thread: u8,
    cursor: Cursor<'a>,
) -> Result<(u8, Cursor<'a>), ReadError>
    ensures { Gives view_read result (reads
        (one (word BadCondition (value_register (address_of items.now) thread)))
        cursor.entry.line cursor.entry.pieces) }
{
    match next_piece(&cursor) {
        (Some(Token::Word(word)), after) => match register_number(word) {
            None | Some(0) => Err(after.fault(Kind::BadCondition)),
            Some(register) => {
                if is_address_register(items, thread, register) {
                    return Err(after.fault(Kind::AddressAsValue));
                }
                Ok((register, after))
            }
        },
        (Some(_), after) => Err(after.fault(Kind::BadCondition)),
        (None, end) => Err(end.fault(Kind::CutShort)),
    }
}
