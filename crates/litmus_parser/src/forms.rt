//! Instructions as they are written.

ghost use Rattle.std.specs.Prelude.{◌≡◌, ok_or};
ghost use Rattle.std.specs.Str.{bytes_eq};
ghost use Rattle.litmus_lexer.specs.Views.{view_read};
ghost use Rattle.litmus_lexer.specs.Reading.{Gives};
ghost use Rattle.piece_forms.specs.Reading.{reads};
ghost use Rattle.litmus_parser.specs.Mnemonics.{mnemonic_of, is_fence_set};
ghost use Rattle.litmus_parser.specs.Instructions.{passes, operand, register, number, base, offset, swapped};
ghost use Rattle.litmus_parser.specs.Instructions.{numbered, or_numbered, sets, operands, instruction};
ghost use Rattle.litmus_lexer.specs.declared.errors.Kind.TheVariants.{BadInstruction};

use crate::syntax::Width;
use litmus_lexer::{
    CLOSING_PARENTHESIS, COMMA, Cursor, Kind, MOST_ORI, OPENING_PARENTHESIS, ReadError, Token,
    VALUE_BOUND, capped_number, is_number, register_number,
};
use piece_forms::{expect_sign_in_line, next_piece_or_line_end};

/// What the first word of an instruction names.
#[derive(Clone, Copy)]
pub enum Mnemonic {
    Load(Width),
    Store(Width),
    Swap(Width),
    Li,
    Ori,
    Fence,
}

/// An instruction as it is written; a number above every value is `VALUE_BOUND`.
#[derive(Clone, Copy)]
pub enum Form {
    Load(Width, u8, u8),
    Store(Width, u8, u8),
    Swap(Width, u8, u8, u8),
    /// A register, its value and the greatest value that is allowed.
    Set(u8, u32, u32),
    Fence,
}

/// Whether two words are the same.
pub fn same_word(word: &[u8], wanted: &[u8]) -> bool
    ensures { result ≡ bytes_eq word.now wanted.now }
{
    word == wanted
}

/// What a mnemonic names; the suffix of a swap has no effect.
pub fn mnemonic_named(word: &[u8]) -> Option<Mnemonic>
    ensures { result ≡ mnemonic_of word.now }
{
    if same_word(word, b"lw") {
        return Some(Mnemonic::Load(Width::Single));
    }
    if same_word(word, b"ld") {
        return Some(Mnemonic::Load(Width::Double));
    }
    if same_word(word, b"sw") {
        return Some(Mnemonic::Store(Width::Single));
    }
    if same_word(word, b"sd") {
        return Some(Mnemonic::Store(Width::Double));
    }
    if same_word(word, b"li") {
        return Some(Mnemonic::Li);
    }
    if same_word(word, b"ori") {
        return Some(Mnemonic::Ori);
    }
    if same_word(word, b"fence") {
        return Some(Mnemonic::Fence);
    }
    if same_word(word, b"amoswap.w")
        || same_word(word, b"amoswap.w.aq")
        || same_word(word, b"amoswap.w.rl")
    {
        return Some(Mnemonic::Swap(Width::Single));
    }
    if same_word(word, b"amoswap.d")
        || same_word(word, b"amoswap.d.aq")
        || same_word(word, b"amoswap.d.rl")
    {
        return Some(Mnemonic::Swap(Width::Double));
    }
    None
}

fn is_fence_set(word: &[u8]) -> bool
    ensures { result ≡ is_fence_set word.now }
{
    matches!(word, b"r" | b"w" | b"rw")
}

/// A register.
fn read_register<'a>(cursor: Cursor<'a>) -> Result<(u8, Cursor<'a>), ReadError>
    ensures { Gives view_read result (reads register cursor.entry.line cursor.entry.pieces) }
{
    match next_piece_or_line_end(&cursor) {
        (Some(Token::Word(word)), after) => match register_number(word) {
            Some(number) => Ok((number, after)),
            None => Err(cursor.fault(Kind::BadInstruction)),
        },
        _ => Err(cursor.fault(Kind::BadInstruction)),
    }
}

/// A number of any size.
fn read_number<'a>(cursor: Cursor<'a>) -> Result<(u32, Cursor<'a>), ReadError>
    ensures { Gives view_read result (reads number cursor.entry.line cursor.entry.pieces) }
{
    match next_piece_or_line_end(&cursor) {
        (Some(Token::Word(word)), after) => {
            if !is_number(word) {
                return Err(cursor.fault(Kind::BadInstruction));
            }
            Ok((capped_number(word), after))
        }
        _ => Err(cursor.fault(Kind::BadInstruction)),
    }
}

/// This word.
fn expect_operand_word<'a>(cursor: Cursor<'a>, wanted: &[u8]) -> Result<Cursor<'a>, ReadError>
    ensures { Gives (λ at. (tt, at.line, at.pieces)) result
        (reads (operand (λ w. passes (bytes_eq w wanted.now))) cursor.entry.line
        cursor.entry.pieces) }
{
    match next_piece_or_line_end(&cursor) {
        (Some(Token::Word(word)), after) if same_word(word, wanted) => Ok(after),
        _ => Err(cursor.fault(Kind::BadInstruction)),
    }
}

/// `r`, `w` or `rw`.
fn read_fence_set<'a>(cursor: Cursor<'a>) -> Result<Cursor<'a>, ReadError>
    ensures { Gives (λ at. (tt, at.line, at.pieces)) result
        (reads (operand (λ w. passes (is_fence_set w))) cursor.entry.line cursor.entry.pieces) }
{
    match next_piece_or_line_end(&cursor) {
        (Some(Token::Word(word)), after) => {
            if is_fence_set(word) {
                Ok(after)
            } else {
                Err(cursor.fault(Kind::BadInstruction))
            }
        }
        _ => Err(cursor.fault(Kind::BadInstruction)),
    }
}

/// What a mnemonic names, and the position after it.
fn read_mnemonic<'a>(cursor: Cursor<'a>) -> Result<(Mnemonic, Cursor<'a>), ReadError>
    ensures { Gives view_read result
        (reads (operand (λ w. ok_or (mnemonic_of w) BadInstruction))
        cursor.entry.line cursor.entry.pieces) }
{
    match next_piece_or_line_end(&cursor) {
        (Some(Token::Word(word)), after) => match mnemonic_named(word) {
            Some(mnemonic) => Ok((mnemonic, after)),
            None => Err(cursor.fault(Kind::BadInstruction)),
        },
        _ => Err(cursor.fault(Kind::BadInstruction)),
    }
}

/// `xB` in parentheses.
#[tactic(auto, unfolding(crate::specs::Instructions::base))]
fn read_base_register<'a>(cursor: Cursor<'a>) -> Result<(u8, Cursor<'a>), ReadError>
    ensures { Gives view_read result (reads base cursor.entry.line cursor.entry.pieces) }
{
    let after = expect_sign_in_line(cursor, Kind::BadInstruction, OPENING_PARENTHESIS)?;
    let (base, after) = read_register(after)?;
    let after = expect_sign_in_line(after, Kind::BadInstruction, CLOSING_PARENTHESIS)?;
    Ok((base, after))
}

/// `xR,0(xB)`.
#[tactic(auto, unfolding(crate::specs::Instructions::offset))]
fn read_offset_operands<'a>(cursor: Cursor<'a>) -> Result<((u8, u8), Cursor<'a>), ReadError>
    ensures { Gives view_read result (reads offset cursor.entry.line cursor.entry.pieces) }
{
    let (first, after) = read_register(cursor)?;
    let after = expect_sign_in_line(after, Kind::BadInstruction, COMMA)?;
    let after = expect_operand_word(after, b"0")?;
    let (base, after) = read_base_register(after)?;
    Ok(((first, base), after))
}

/// `xD,xS,(xB)`.
#[tactic(auto, unfolding(crate::specs::Instructions::swapped))]
fn read_swap_operands<'a>(cursor: Cursor<'a>) -> Result<((u8, u8, u8), Cursor<'a>), ReadError>
    ensures { Gives view_read result (reads swapped cursor.entry.line cursor.entry.pieces) }
{
    let (target, after) = read_register(cursor)?;
    let after = expect_sign_in_line(after, Kind::BadInstruction, COMMA)?;
    let (source, after) = read_register(after)?;
    let after = expect_sign_in_line(after, Kind::BadInstruction, COMMA)?;
    let (base, after) = read_base_register(after)?;
    Ok(((target, source, base), after))
}

/// `xD,N`.
#[tactic(auto, unfolding(crate::specs::Instructions::numbered))]
fn read_li_operands<'a>(cursor: Cursor<'a>) -> Result<((u8, u32), Cursor<'a>), ReadError>
    ensures { Gives view_read result (reads numbered cursor.entry.line cursor.entry.pieces) }
{
    let (target, after) = read_register(cursor)?;
    let after = expect_sign_in_line(after, Kind::BadInstruction, COMMA)?;
    let (value, after) = read_number(after)?;
    Ok(((target, value), after))
}

/// `xD,x0,N`.
#[tactic(auto, unfolding(crate::specs::Instructions::or_numbered))]
fn read_ori_operands<'a>(cursor: Cursor<'a>) -> Result<((u8, u32), Cursor<'a>), ReadError>
    ensures { Gives view_read result (reads or_numbered cursor.entry.line cursor.entry.pieces) }
{
    let (target, after) = read_register(cursor)?;
    let after = expect_sign_in_line(after, Kind::BadInstruction, COMMA)?;
    let after = expect_operand_word(after, b"x0")?;
    let after = expect_sign_in_line(after, Kind::BadInstruction, COMMA)?;
    let (value, after) = read_number(after)?;
    Ok(((target, value), after))
}

/// `A,B` of a fence.
#[tactic(auto, unfolding(crate::specs::Instructions::sets))]
fn read_fence_operands<'a>(cursor: Cursor<'a>) -> Result<Cursor<'a>, ReadError>
    ensures { Gives (λ at. (tt, at.line, at.pieces)) result
        (reads sets cursor.entry.line cursor.entry.pieces) }
{
    let after = read_fence_set(cursor)?;
    let after = expect_sign_in_line(after, Kind::BadInstruction, COMMA)?;
    let after = read_fence_set(after)?;
    Ok(after)
}

/// The operands of a mnemonic.
#[tactic(auto, unfolding(crate::specs::Instructions::operands))]
fn read_operands<'a>(
    mnemonic: Mnemonic,
    cursor: Cursor<'a>,
) -> Result<(Form, Cursor<'a>), ReadError>
    ensures { Gives view_read result (reads (operands mnemonic) cursor.entry.line cursor.entry.pieces) }
{
    match mnemonic {
        Mnemonic::Load(width) => {
            let ((target, base), after) = read_offset_operands(cursor)?;
            Ok((Form::Load(width, target, base), after))
        }
        Mnemonic::Store(width) => {
            let ((source, base), after) = read_offset_operands(cursor)?;
            Ok((Form::Store(width, source, base), after))
        }
        Mnemonic::Swap(width) => {
            let ((target, source, base), after) = read_swap_operands(cursor)?;
            Ok((Form::Swap(width, target, source, base), after))
        }
        Mnemonic::Li => {
            let ((target, value), after) = read_li_operands(cursor)?;
            Ok((Form::Set(target, value, VALUE_BOUND - 1), after))
        }
        Mnemonic::Ori => {
            let ((target, value), after) = read_ori_operands(cursor)?;
            Ok((Form::Set(target, value, MOST_ORI), after))
        }
        Mnemonic::Fence => {
            let after = read_fence_operands(cursor)?;
            Ok((Form::Fence, after))
        }
    }
}

/// An instruction as it is written.
#[tactic(auto, unfolding(crate::specs::Instructions::instruction))]
pub fn read_instruction_form<'a>(cursor: Cursor<'a>) -> Result<(Form, Cursor<'a>), ReadError>
    ensures { Gives view_read result (reads instruction cursor.entry.line cursor.entry.pieces) }
{
    let (mnemonic, after) = read_mnemonic(cursor)?;
    let (form, after) = read_operands(mnemonic, after)?;
    Ok((form, after))
}
