//! What the shape of a row is. The function does nothing: its contract is the law.

ghost use Rattle.std.specs.Prelude.{◌≡◌, ℕ, true, List};
ghost use Rattle.litmus_lexer.specs.Pieces.{Piece};
ghost use Rattle.litmus_parser.specs.Shapes.{IsShaped};
ghost use Rattle.litmus_parser.specs.Table.{has_shape};

/// A row has its shape exactly if `bars` bars stand in front of its first semicolon, and the line ends after that.
pub fn rows_have_this_shape()
    ensures shaped { (bars : ℕ) (pieces : List Piece) → IsShaped bars pieces →
        has_shape bars pieces ≡ true }
    ensures only { (bars : ℕ) (pieces : List Piece) → has_shape bars pieces ≡ true →
        IsShaped bars pieces }
{}
