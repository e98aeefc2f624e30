//! The lines before the initial block.

ghost use Rattle.std.specs.Prelude.{◌≡◌, ◌≤◌, ◌+◌, ◌-◌, ℕ, [], length, true, false, IfOk, IfErr};
ghost use Rattle.text_lines.specs.Lines.{behind_line_feed};
ghost use Rattle.litmus_lexer.specs.Pieces.{pieces_of};
ghost use Rattle.litmus_lexer.specs.Reading.{Gives};
ghost use Rattle.litmus_lexer.specs.declared.errors.Kind.TheVariants.{BadHeader, CutShort as Short};
ghost use Rattle.piece_forms.specs.Forms.{one, line_end, turn, many, refused};
ghost use Rattle.piece_forms.specs.Reading.{reads};
ghost use Rattle.litmus_parser.specs.Header.{text_pieces, behind_lines, title, line_or_block, preamble};
ghost use Rattle.litmus_parser.specs.Header.{TakesNoMemory};

use litmus_lexer::{
    HeaderLines, Kind, MOST_BYTES, ReadError, begins_block, is_header_line, read_title,
};
use text_lines::split_line;

/// The name in the first line, and the second line.
fn read_title_line<'a>(text: &'a [u8]) -> Result<(&'a [u8], HeaderLines<'a>), ReadError>
    requires { length text.now ≤ MOST_BYTES }
    ensures read { Gives (λ r. (r.0.now, r.1.line, text_pieces r.1.rest.now [])) result
        (reads title 1 (text_pieces text.now [])) }
    ensures second { IfOk result (λ r.
        (r.1.line ≡ 2) × (r.1.rest.now ≡ behind_line_feed text.now)) }
    ensures sure { IfErr result TakesNoMemory }
{
    let start = HeaderLines {
        line: 1,
        rest: text,
    };
    if text.is_empty() {
        return Err(start.fault(Kind::CutShort));
    }
    let (line, rest) = split_line(text);
    match read_title(line) {
        Some(name) => Ok((name, HeaderLines { line: 2, rest })),
        None => Err(start.fault(Kind::BadHeader)),
    }
}

/// The line after a header line, or the first line of the initial block; and whether it was a
/// header line.
fn read_header_line<'a>(cursor: HeaderLines<'a>) -> Result<(bool, HeaderLines<'a>), ReadError>
    ensures read { Gives (λ r. ((r.0, tt), r.1.line, text_pieces r.1.rest.now [])) result
        (reads (turn (λ _. one line_or_block) (λ _. line_end BadHeader) tt) cursor.entry.line
        (text_pieces cursor.entry.rest.now [])) }
    ensures block { IfOk result (λ r. r.0 ≡ false →
        text_pieces r.1.rest.now [] ≡ pieces_of r.1.rest.now) }
    ensures next { IfOk result (λ r. r.0 ≡ true → (r.1.line ≡ cursor.entry.line + 1) ×
        (r.1.rest.now ≡ behind_line_feed cursor.entry.rest.now)) }
    ensures same { IfOk result (λ r. r.0 ≡ false → (r.1.line ≡ cursor.entry.line) ×
        (r.1.rest.now ≡ cursor.entry.rest.now)) }
    ensures sure { IfErr result TakesNoMemory }
{
    if cursor.rest.is_empty() {
        return Err(cursor.fault(Kind::CutShort));
    }
    let (line, rest) = split_line(cursor.rest);
    if begins_block(line) {
        return Ok((false, cursor));
    }
    if !is_header_line(line) {
        return Err(cursor.fault(Kind::BadHeader));
    }
    Ok((
        true,
        HeaderLines {
            line: cursor.line + 1,
            rest,
        },
    ))
}

/// The first line of the initial block.
fn read_header_lines<'a>(cursor: HeaderLines<'a>) -> Result<HeaderLines<'a>, ReadError>
    ensures read { Gives (λ r. (tt, r.line, pieces_of r.rest.now)) result
        (reads (many (refused Short) (λ _. one line_or_block) (λ _. line_end BadHeader)
        MOST_BYTES tt)
        cursor.entry.line (text_pieces cursor.entry.rest.now [])) }
    ensures body { IfOk result (λ r. (n : ℕ) × (r.line ≡ cursor.entry.line + n) ×
        (r.rest.now ≡ behind_lines n cursor.entry.rest.now)) }
    ensures sure { IfErr result TakesNoMemory }
{
    let mut at = cursor;
    for _ in 0..MOST_BYTES {
        let (more, after) = read_header_line(at)?;
        at = after;
        if !more {
            return Ok(at);
        }
    }
    Err(at.fault(Kind::CutShort))
}

/// The name of the test, and the first line of the initial block.
#[tactic(auto, unfolding(crate::specs::Header::preamble))]
pub fn read_preamble<'a>(text: &'a [u8]) -> Result<(&'a [u8], HeaderLines<'a>), ReadError>
    requires { length text.now ≤ MOST_BYTES }
    ensures read { Gives (λ r. (r.0.now, r.1.line, pieces_of r.1.rest.now)) result
        (reads preamble 1 (text_pieces text.now [])) }
    // What is left are the bytes from that line on.
    ensures body { IfOk result (λ r. r.1.rest.now ≡ behind_lines (r.1.line - 1) text.now) }
    // It takes no memory.
    ensures sure { IfErr result TakesNoMemory }
{
    let (name, second) = read_title_line(text)?;
    let body = read_header_lines(second)?;
    Ok((name, body))
}
