//! The condition: its keyword, its expression and the end of the text.

ghost use Rattle.litmus_lexer.specs.Views.{view_read};
ghost use Rattle.litmus_lexer.specs.Reading.{Gives};
ghost use Rattle.std.specs.Prelude.{ok_or};
ghost use Rattle.litmus_lexer.specs.declared.errors.Kind.TheVariants.{BadTable};
ghost use Rattle.piece_forms.specs.Forms.{one, word};
ghost use Rattle.piece_forms.specs.Reading.{reads};
ghost use Rattle.litmus_parser.specs.Keywords.{quantifier_of};
ghost use Rattle.litmus_parser.specs.TreeViews.{tree_of};
ghost use Rattle.litmus_parser.specs.Names.{address_of};
ghost use Rattle.litmus_parser.specs.Condition.{condition};

use crate::expressions::{Connective, expression};
use crate::syntax::{Expr, Item, Quantifier};
use crate::table::quantifier_named;
use litmus_lexer::{Cursor, Kind, Locations, MOST_DEPTH, ReadError, Token};
use piece_forms::{expect_end, next_piece};
use std::alloc::Global;

fn read_quantifier<'a>(cursor: Cursor<'a>) -> Result<(Quantifier, Cursor<'a>), ReadError>
    ensures { Gives view_read result (reads
        (one (word BadTable (λ w. ok_or (quantifier_of w) BadTable)))
        cursor.entry.line cursor.entry.pieces) }
{
    match next_piece(&cursor) {
        (Some(Token::Word(word)), after) => match quantifier_named(word) {
            Some(quantifier) => Ok((quantifier, after)),
            None => Err(after.fault(Kind::BadTable)),
        },
        (Some(_), after) => Err(after.fault(Kind::BadTable)),
        (None, end) => Err(end.fault(Kind::CutShort)),
    }
}

/// The condition, and the end of the text.
#[tactic(auto, unfolding(crate::specs::Condition::condition))]
pub fn read_condition<'a>(
    alloc: Global,
    items: &[Item],
    threads: u8,
    locations: &mut Locations,
    cursor: Cursor<'a>,
) -> Result<(Quantifier, Expr, Cursor<'a>), ReadError>
    ensures { Gives (λ r. ((r.0, tree_of r.1, locations.new), r.2.line, r.2.pieces)) result
        (reads (condition (address_of items.now) threads locations.old)
        cursor.entry.line cursor.entry.pieces) }
{
    let (quantifier, after) = read_quantifier(cursor)?;
    let (expr, _, after) = expression(
        alloc,
        items,
        threads,
        locations,
        0,
        MOST_DEPTH,
        Connective::Or,
        after,
    )?;
    let end = expect_end(after, Kind::BadCondition)?;
    Ok((quantifier, expr, end))
}
