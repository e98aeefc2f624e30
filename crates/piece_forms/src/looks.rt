//! Looks at the next piece, behind line ends or in the line.

ghost use Rattle.std.specs.Prelude.{◌≡◌, ◌≢◌, ◌+◌, option_map, Ok, IfErr};
ghost use Rattle.litmus_lexer.specs.declared.errors.ReadError.TheVariants.{Memory};
ghost use Rattle.litmus_lexer.specs.TokenPieces.{piece_of};
ghost use Rattle.litmus_lexer.specs.Reading.{Gives};
ghost use Rattle.piece_forms.specs.Places.{Beyond, seen, behind, from_next, ends_ahead, first_piece, behind_first};
ghost use Rattle.piece_forms.specs.Places.{line_behind_first};
ghost use Rattle.piece_forms.specs.Forms.{is_word, one, here, sign, perhaps, line_end, no_more};
ghost use Rattle.piece_forms.specs.Reading.{reads};

use litmus_lexer::{Cursor, Kind, ReadError, Token};

/// The next piece behind the line ends that come first, if there is one, and the position after
/// it, or the end.
fn next_piece_past_line_ends<'a>(cursor: &Cursor<'a>) -> (Option<Token<'a>>, Cursor<'a>)
    ensures piece { option_map piece_of result.0 ≡ seen Beyond cursor.now.pieces }
    ensures rest { result.1.pieces ≡ behind Beyond cursor.now.pieces }
    ensures line { result.1.line ≡ cursor.now.line + ends_ahead cursor.now.pieces }
{
    let at = next_piece_position(cursor);
    match at.piece() {
        Some((token, after)) => (Some(token), after),
        None => (None, at),
    }
}

/// The position of the next piece, or the end.
pub fn next_piece_position<'a>(cursor: &Cursor<'a>) -> Cursor<'a>
    ensures rest { result.pieces ≡ from_next cursor.now.pieces }
    ensures line { result.line ≡ cursor.now.line + ends_ahead cursor.now.pieces }
{
    cursor.past_line_ends()
}

/// The next piece, if there is one, and the position after it, or the end.
#[tactic(auto, unfolding(crate::specs::Places::from_next, crate::specs::Places::ends_ahead))]
pub fn next_piece<'a>(cursor: &Cursor<'a>) -> (Option<Token<'a>>, Cursor<'a>)
    ensures piece { option_map piece_of result.0 ≡ seen Beyond cursor.now.pieces }
    ensures rest { result.1.pieces ≡ behind Beyond cursor.now.pieces }
    ensures line { result.1.line ≡ cursor.now.line + ends_ahead cursor.now.pieces }
{
    match cursor.piece() {
        Some((Token::Word(word), after)) => (Some(Token::Word(word)), after),
        Some((Token::Sign(sign), after)) => (Some(Token::Sign(sign)), after),
        // Most pieces are looked at once.
        Some((Token::LineEnd, _)) | None => next_piece_past_line_ends(cursor),
    }
}

/// The position after this sign; anything else is a fault of this kind, and the end is `CutShort`.
pub fn expect_sign<'a>(cursor: Cursor<'a>, kind: Kind, wanted: u8) -> Result<Cursor<'a>, ReadError>
    ensures read { Gives (λ at. (tt, at.line, at.pieces)) result
        (reads (one (sign kind wanted)) cursor.entry.line cursor.entry.pieces) }
    // It takes no memory.
    ensures sure { IfErr result (λ e. e ≢ Memory) }
{
    match next_piece(&cursor) {
        (Some(Token::Sign(found)), after) if found == wanted => Ok(after),
        (Some(_), after) => Err(after.fault(kind)),
        (None, end) => Err(end.fault(Kind::CutShort)),
    }
}

/// Whether this word comes next; and the position after it, or that of what comes next.
pub fn skip_word<'a>(cursor: &Cursor<'a>, wanted: &[u8]) -> (bool, Cursor<'a>)
    ensures { reads (perhaps Beyond (is_word wanted.now)) cursor.now.line cursor.now.pieces
        ≡ Ok (result.0, result.1.line, result.1.pieces) }
{
    match next_piece(cursor) {
        (Some(Token::Word(word)), after) if word == wanted => (true, after),
        _ => (false, next_piece_position(cursor)),
    }
}

/// The end of the text; a further piece is a fault of this kind.
pub fn expect_end<'a>(cursor: Cursor<'a>, kind: Kind) -> Result<Cursor<'a>, ReadError>
    ensures read { Gives (λ at. (tt, at.line, at.pieces)) result
        (reads (no_more kind) cursor.entry.line cursor.entry.pieces) }
    // It takes no memory.
    ensures sure { IfErr result (λ e. e ≢ Memory) }
{
    match next_piece(&cursor) {
        (Some(_), after) => Err(after.fault(kind)),
        (None, _) => Ok(next_piece_position(&cursor)),
    }
}

/// The first piece, if there is one, and the position after it.
#[tactic(auto, unfolding(crate::specs::Places::from_next, crate::specs::Places::ends_ahead))]
pub fn next_piece_or_line_end<'a>(cursor: &Cursor<'a>) -> (Option<Token<'a>>, Cursor<'a>)
    ensures piece { option_map piece_of result.0 ≡ first_piece cursor.now.pieces }
    ensures rest { result.1.pieces ≡ behind_first cursor.now.pieces }
    ensures line { result.1.line ≡ line_behind_first cursor.now.line cursor.now.pieces }
{
    match cursor.piece() {
        Some((Token::Word(word), after)) => (Some(Token::Word(word)), after),
        Some((Token::Sign(sign), after)) => (Some(Token::Sign(sign)), after),
        Some((Token::LineEnd, after)) => (Some(Token::LineEnd), after),
        None => (None, next_piece_position(cursor)),
    }
}

/// The position after this sign of the line; anything else is a fault of this kind.
pub fn expect_sign_in_line<'a>(
    cursor: Cursor<'a>,
    kind: Kind,
    wanted: u8,
) -> Result<Cursor<'a>, ReadError>
    ensures read { Gives (λ at. (tt, at.line, at.pieces)) result
        (reads (here kind (sign kind wanted)) cursor.entry.line cursor.entry.pieces) }
    // It takes no memory.
    ensures sure { IfErr result (λ e. e ≢ Memory) }
{
    match next_piece_or_line_end(&cursor) {
        (Some(Token::Sign(found)), after) if found == wanted => Ok(after),
        _ => Err(cursor.fault(kind)),
    }
}

/// The next line, if nothing more stands in this one; anything else is a fault of this kind.
pub fn expect_line_end<'a>(cursor: Cursor<'a>, kind: Kind) -> Result<Cursor<'a>, ReadError>
    ensures read { Gives (λ at. (tt, at.line, at.pieces)) result
        (reads (line_end kind) cursor.entry.line cursor.entry.pieces) }
    // It takes no memory.
    ensures sure { IfErr result (λ e. e ≢ Memory) }
{
    match next_piece_or_line_end(&cursor) {
        (Some(Token::LineEnd), after) => Ok(after),
        (Some(_), _) => Err(cursor.fault(kind)),
        (None, _) => Ok(cursor),
    }
}
