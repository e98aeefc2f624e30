//! Reading a whole text, line after line, by any rule that tells what a line says.

ghost use Rattle.std.specs.Prelude.{◌≡◌, [], List, Ok, Err, IfErr, IfSome, OnOk};
ghost use Rattle.byte_streams.specs.Device.{AtEnd};
ghost use Rattle.text_lines.specs.Lines.{lines_of};
ghost use Rattle.trace_reader.specs.Outcomes.{Refused};
ghost use Rattle.trace_reader.specs.Reading.{read_from};

use crate::blocks::Block;
use crate::limits::MOST_LINES;
use crate::next_lines::next_line;
use byte_streams::Source;
use trace_lines::TraceError;

/// What is made of a text, a line at a time.
pub(crate) trait FromLines {
    ghost use Rattle.std.specs.Prelude.{◌≡◌, ◌<◌, ◌++◌, ◌⊎◌, ℕ, List, Option, Some, Result, Ok, Err, IfErr, OnOk};
    ghost use Rattle.trace_lines.specs.declared.errors.Kind.{Kind};
    ghost use Rattle.trace_lines.specs.declared.errors.Kind.TheVariants.{NoMemory};
    ghost use Rattle.trace_lines.specs.Fields.{fields_of};
    ghost use Rattle.trace_reader.specs.Outcomes.{whole, IsOfLine};
    ghost use Rattle.trace_reader.specs.Reading.{list_of_option};

    /// What lines leave for those behind them.
    ghost State: { Type 0 };

    /// What a line tells.
    ghost Item: { Type 0 };

    /// What a line says, behind lines that left a state: the next state, and what it tells, if anything.
    ghost says: { State → List (List ℕ) → Result (State × Option Item) Kind };

    /// The state before the first line.
    ghost first: { State };

    /// What the lines so far told is kept, and so is the state that they left.
    ghost holds: { Self → List Item → State → Type 0 };

    /// Adds what the line with this number says.
    fn add_line(&mut self, number: usize, line: &[u8]) -> Result<(), TraceError>
        requires some { 0 < number }
        requires held { (told : List Item) × (state : State) × holds self.old told state }
        ensures added { OnOk result ((told : List Item) (state : State) → holds self.old told state →
            (next : State) × (said : Option Item) × (says state (fields_of line.now) ≡ Ok (next, said))
            × holds self.new (told ++ list_of_option said) next) }
        ensures fault { IfErr result (λ e.
            (told : List Item) (state : State) → holds self.old told state →
            ((e ≡ whole NoMemory) × ((next : State) × (item : Item)
            × (says state (fields_of line.now) ≡ Ok (next, Some item))))
            ⊎ (IsOfLine e × (e.line ≡ number) × (says state (fields_of line.now) ≡ Err e.kind))) };
}

/// Reads all that a source has, and adds what its lines say.
pub(crate) fn read_lines<S: Source, L: FromLines>(
    source: &mut S,
    kept: &mut L,
) -> Result<(), TraceError>
    requires { L.holds kept.old [] L.first }
    ensures told { OnOk result (IfSome (S.remaining source.old) (λ bytes.
        (told : List L.Item) × (state : L.State)
        × (read_from L.says 1 L.first (lines_of bytes) ≡ Ok told) × L.holds kept.new told state)) }
    ensures end { OnOk result (IfSome (S.remaining source.old)
        (λ known. AtEnd (S.remaining source.new))) }
    ensures none_failed { OnOk result (S.failures source.new ≡ S.failures source.old) }
    ensures fault { IfErr result (Refused (read_from L.says 1 L.first) (S.failures source.old)
        (S.failures source.new) (S.remaining source.old)) }
{
    let mut block = Block::new();
    let mut number = 0;
    'lines: while let Some(length) = next_line(&mut block, source, number, MOST_LINES)? {
        number += 1;
        kept.add_line(number, block.front(length))?;
        block.remove_line(length);
    }
    Ok(())
}
