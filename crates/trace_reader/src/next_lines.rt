//! The next line of a text, with what is wrong with its length.

ghost use Rattle.std.specs.Prelude.{◌≡◌, ◌≤◌, ◌<◌, ◌+◌, ◌⊎◌, ◌++◌, suc, length, IfOk, IfErr, OnOk, MatchOption};
ghost use Rattle.trace_lines.specs.declared.errors.Kind.TheVariants.{Read, TooLong};
ghost use Rattle.trace_reader.specs.Ahead.{ahead, Both};
ghost use Rattle.text_lines.specs.Lines.{lines_of};
ghost use Rattle.trace_reader.specs.Outcomes.{whole, BeginTooLong, IsFound};

use crate::blocks::Block;
use crate::limits::{MOST_BYTES, MOST_NUMBERED};
use byte_streams::Source;
use trace_lines::{Kind, TraceError};

/// Reads until the next line is in front of the block, after `number` lines of at most `most`: how many bytes it has,
/// or nothing at the end of the text.
pub(crate) fn next_line<S: Source>(
    block: &mut Block,
    source: &mut S,
    number: usize,
    most: usize,
) -> Result<Option<usize>, TraceError>
    requires few { number ≤ most }
    requires numbered { most ≤ MOST_NUMBERED }
    ensures next { IfOk result (λ found. Both (S.remaining source.old) (S.remaining source.new)
        (λ before after. IsFound found (ahead block.old ++ before) (ahead block.new) after)) }
    ensures short { IfOk result (λ found. MatchOption found (Unit {0})
        (λ n. (n ≤ MOST_BYTES) × (n ≤ length (ahead block.new)) × (number < most))) }
    ensures kept { Both (S.remaining source.old) (S.remaining source.new)
        (λ before after. ahead block.old ++ before ≡ ahead block.new ++ after) }
    ensures none_failed { OnOk result (S.failures source.new ≡ S.failures source.old) }
    ensures fault { IfErr result (λ e.
        ((e ≡ whole Read) × (S.failures source.new ≡ suc (S.failures source.old)))
        ⊎ ((e ≡ record { line = suc number; kind = TooLong })
        × (S.failures source.new ≡ S.failures source.old)
        × Both (S.remaining source.old) (S.remaining source.new)
        (λ before after. BeginTooLong most (suc number) (lines_of (ahead block.old ++ before))))) }
{
    match block.find_line(source) {
        Err(_) => Err(TraceError {
            line: 0,
            kind: Kind::Read,
        }),
        Ok(None) => Ok(None),
        Ok(Some(length)) => {
            if length > MOST_BYTES || number >= most {
                Err(TraceError {
                    line: number + 1,
                    kind: Kind::TooLong,
                })
            } else {
                Ok(Some(length))
            }
        }
    }
}
