//! How far a text is read: by lines before the initial block, then by pieces.

ghost use Rattle.std.specs.Prelude.{◌≡◌, ◌+◌, ◌<◌, ◌^◌, [], ◌∷◌, length, MatchOption, IfSome};
ghost use Rattle.litmus_lexer.specs.declared.errors.ReadError.TheVariants.{Fault};
ghost use Rattle.litmus_lexer.specs.Pieces.{pieces_of};
ghost use Rattle.litmus_lexer.specs.TokenPieces.{piece_of};
ghost use Rattle.litmus_lexer.specs.Positions.{line_after, past_line_ends};

use crate::errors::{Kind, ReadError};
use crate::tokens::{Token, next_token};
use std::marker::Model;

/// The lines that are left, and the number of the first of them, counted from 1.
#[derive(Clone, Copy, Debug)]
pub struct HeaderLines<'a> {
    pub line: usize,
    pub rest: &'a [u8],
    ghost in_range: { line + length rest.now < 2 ^ 63 },
}

impl<'a> HeaderLines<'a> {
    /// A fault of this kind in the first of the lines.
    pub fn fault(self, kind: Kind) -> ReadError
        ensures { result ≡ Fault (record { line = self.entry.line; kind = kind }) }
    {
        ReadError::at(self.line, kind)
    }
}

/// A position in a text: the pieces that are left, and the number of the line in which they
/// begin, counted from 1.
#[derive(Debug, Drop)]
pub struct Cursor<'a> {
    line: usize,
    rest: &'a [u8],
}

impl<'a> Model for Cursor<'a> {
    ghost use Rattle.std.specs.Prelude.{◌+◌, ◌<◌, ◌^◌, length};
    ghost use Rattle.litmus_lexer.specs.Pieces.{pieces_of};
    ghost use Rattle.litmus_lexer.specs.Positions.{TextPosition};

    ghost Value = { TextPosition };

    ghost view = { λ c. record { line = c.line; pieces = pieces_of c.rest.now } };

    ghost invariant = { λ c. c.line + length c.rest.now < 2 ^ 63 };
}

impl<'a> Cursor<'a> {
    /// The start of the first of these lines.
    pub fn new(lines: HeaderLines<'a>) -> Cursor<'a>
        ensures { result ≡
            record { line = lines.entry.line; pieces = pieces_of lines.entry.rest.now } }
    {
        Cursor {
            line: lines.line,
            rest: lines.rest,
        }
    }

    /// The number of the line.
    pub fn line(&self) -> usize
        ensures { result ≡ self.now.line }
    {
        self.line
    }

    /// The text that is left.
    pub fn rest(&self) -> &'a [u8]
        ensures { pieces_of result.now ≡ self.now.pieces }
    {
        self.rest
    }

    /// The next piece, and the position after it.
    pub fn piece(&self) -> Option<(Token<'a>, Cursor<'a>)>
        ensures pieces { MatchOption result (self.now.pieces ≡ [])
            (λ r. self.now.pieces ≡ piece_of r.0 ∷ r.1.pieces) }
        ensures line { IfSome result (λ r. r.1.line ≡ line_after (piece_of r.0) self.now.line) }
    {
        let (token, rest) = next_token(self.rest)?;
        let line = match token {
            Token::LineEnd => self.line + 1,
            _ => self.line,
        };
        Some((token, Cursor { line, rest }))
    }

    /// The position after the line ends that come next.
    #[tactic(auto, unfolding(crate::specs::Positions::past_line_ends))]
    pub fn past_line_ends(&self) -> Cursor<'a>
        ensures { result ≡ past_line_ends self.now.line self.now.pieces }
    {
        let mut at = Cursor {
            line: self.line,
            rest: self.rest,
        };
        while let Some((token, after)) = at.piece() {
            if let Token::LineEnd = token {
                at = after;
            } else {
                return at;
            }
        }
        at
    }

    /// A fault of this kind in the line.
    pub fn fault(&self, kind: Kind) -> ReadError
        ensures { result ≡ Fault (record { line = self.now.line; kind = kind }) }
    {
        ReadError::at(self.line(), kind)
    }
}
