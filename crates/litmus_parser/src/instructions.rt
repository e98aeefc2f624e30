//! What an instruction may say: its numbers, its width, its registers.

ghost use Rattle.litmus_lexer.specs.Reading.{Gives};
ghost use Rattle.piece_forms.specs.Reading.{judged};
ghost use Rattle.litmus_parser.specs.Names.{address_of};
ghost use Rattle.litmus_parser.specs.Verdicts.{kept, value_in, base_in, meaning};

use crate::forms::Form;
use crate::items::{address_register_location, is_address_register};
use crate::syntax::{Instruction, Item, Width};
use litmus_lexer::{Cursor, Kind, ReadError};

/// The width of the text after a memory instruction of this width.
#[tactic(auto, unfolding(crate::specs::Verdicts::kept))]
fn common_width(
    width: Option<Width>,
    own: Width,
    at: &Cursor<'_>,
) -> Result<Option<Width>, ReadError>
    ensures { Gives (λ w. w) result (judged (kept width own) at.now.line) }
{
    match width {
        None => Ok(Some(own)),
        Some(first) => {
            if first == own {
                Ok(width)
            } else {
                Err(at.fault(Kind::MixedWidth))
            }
        }
    }
}

/// The register, unless it is an address register.
#[tactic(auto, unfolding(crate::specs::Verdicts::value_in))]
fn check_value_register(
    items: &[Item],
    thread: u8,
    register: u8,
    at: &Cursor<'_>,
) -> Result<u8, ReadError>
    ensures { Gives (λ r. r) result
        (judged (value_in (address_of items.now) thread register) at.now.line) }
{
    if is_address_register(items, thread, register) {
        return Err(at.fault(Kind::AddressAsValue));
    }
    Ok(register)
}

/// The location that an address register holds.
#[tactic(auto, unfolding(crate::specs::Verdicts::base_in))]
fn base_location(items: &[Item], thread: u8, register: u8, at: &Cursor<'_>) -> Result<u8, ReadError>
    ensures { Gives (λ r. r) result
        (judged (base_in (address_of items.now) thread register) at.now.line) }
{
    match address_register_location(items, thread, register) {
        Some(location) => Ok(location),
        None => Err(at.fault(Kind::ValueAsAddress)),
    }
}

/// The instruction that a thread's form stands for, and the width of the text after it: the
/// number is tested first, then the width, then the registers from the left.
#[tactic(auto, unfolding(crate::specs::Verdicts::meaning))]
pub fn instruction_of_form(
    items: &[Item],
    thread: u8,
    width: Option<Width>,
    form: Form,
    at: &Cursor<'_>,
) -> Result<(Instruction, Option<Width>), ReadError>
    ensures { Gives (λ r. r) result
        (judged (meaning (address_of items.now) thread width form) at.now.line) }
{
    match form {
        Form::Load(own, target, base) => {
            let width = common_width(width, own, at)?;
            let target = check_value_register(items, thread, target, at)?;
            let location = base_location(items, thread, base, at)?;
            Ok((Instruction::Load { target, location }, width))
        }
        Form::Store(own, source, base) => {
            let width = common_width(width, own, at)?;
            let source = check_value_register(items, thread, source, at)?;
            let location = base_location(items, thread, base, at)?;
            Ok((Instruction::Store { source, location }, width))
        }
        Form::Swap(own, target, source, base) => {
            let width = common_width(width, own, at)?;
            let target = check_value_register(items, thread, target, at)?;
            let source = check_value_register(items, thread, source, at)?;
            let location = base_location(items, thread, base, at)?;
            Ok((
                Instruction::Swap {
                    target,
                    source,
                    location,
                },
                width,
            ))
        }
        Form::Set(target, value, most) => {
            if value > most {
                return Err(at.fault(Kind::ValueRange));
            }
            let target = check_value_register(items, thread, target, at)?;
            Ok((Instruction::Set { target, value }, width))
        }
        Form::Fence => Ok((Instruction::Fence, width)),
    }
}
