//! What the lines of a text are. The function does nothing: its contract is the law.

ghost use Rattle.std.specs.Prelude.{◌≡◌, ◌<◌, ℕ, List, [], ◌∷◌, length};
ghost use Rattle.text_lines.specs.Lines.{before_line_feed, behind_line_feed, lines_of};

/// An empty text has no lines. The lines of any other are its first line, and then those of what follows it, which is
/// shorter.
pub fn a_text_is_its_lines()
    ensures none { lines_of [] ≡ [] }
    ensures first { (text : List ℕ) → 0 < length text →
        lines_of text ≡ before_line_feed text ∷ lines_of (behind_line_feed text) }
    ensures shorter { (text : List ℕ) → 0 < length text →
        length (behind_line_feed text) < length text }
{}
