//! Reading the text of records.

ghost use Rattle.std.specs.Prelude.{◌≡◌, ◌⊎◌, ◌++◌, List, Option, Some, Ok, Err, IfOk, IfErr, IfSome, OnOk};
ghost use Rattle.byte_streams.specs.Device.{AtEnd};
ghost use Rattle.physiological_order.specs.declared.operation.Record.{Record};
ghost use Rattle.trace_lines.specs.declared.errors.Kind.TheVariants.{NoMemory};
ghost use Rattle.trace_lines.specs.Fields.{fields_of};
ghost use Rattle.trace_lines.specs.Reading.{record_line_at};
ghost use Rattle.trace_reader.specs.Causes.{RecordFault};
ghost use Rattle.trace_reader.specs.Grammar.{AreRecords};
ghost use Rattle.trace_reader.specs.Outcomes.{whole, Refused, GivesList, IsCaused};
ghost use Rattle.trace_reader.specs.Reading.{list_of_option, records_at, records_in};

use crate::whole_texts::{FromLines, read_lines};
use byte_streams::Source;
use physiological_order::{Op, Record};
use std::alloc::Global;
use trace_lines::{Kind, TraceError, record_line};

// The records so far.
#[derive(Drop)]
struct Records {
    records: Vec<Record>,
}

impl FromLines for Records {
    ghost use Rattle.std.specs.Prelude.{◌≡◌};
    ghost use Rattle.physiological_order.specs.declared.operation.Record.{Record};
    ghost use Rattle.trace_reader.specs.Reading.{record_said};

    ghost State = { Unit {0} };

    ghost Item = { Record };

    ghost says = { record_said };

    ghost first = { tt };

    ghost holds = { λ kept told none. kept.records.items ≡ told };

    fn add_line(&mut self, number: usize, line: &[u8]) -> Result<(), TraceError> {
        // The check finds what a record holds only where the function names its type.
        let _inside: Option<Op> = None;
        match record_line(line) {
            Err(kind) => Err(TraceError { line: number, kind }),
            Ok(None) => Ok(()),
            Ok(Some(record)) => match self.records.push(record) {
                Ok(()) => Ok(()),
                Err(_) => Err(TraceError {
                    line: 0,
                    kind: Kind::NoMemory,
                }),
            },
        }
    }
}

fn read_record_text<S: Source>(alloc: Global, source: &mut S) -> Result<Vec<Record>, TraceError>
    ensures told { IfOk result (λ records. IfSome (S.remaining source.old)
        (λ bytes. records_at bytes ≡ Ok records.items)) }
    ensures end { OnOk result (IfSome (S.remaining source.old)
        (λ known. AtEnd (S.remaining source.new))) }
    ensures none_failed { OnOk result (S.failures source.new ≡ S.failures source.old) }
    ensures fault { IfErr result (Refused records_in (S.failures source.old)
        (S.failures source.new) (S.remaining source.old)) }
{
    let mut kept = Records {
        records: Vec::new(alloc),
    };
    read_lines(source, &mut kept)?;
    Ok(kept.records)
}

/// Reads all that a source has as the text of records, at most 16,777,216 lines of at most 256 bytes, and gives them
/// in the order in which they are written (docs/TEXTS.md).
///
/// A text that is refused is answered by its first fault: the number of the line, counted from 1, and the kind.
/// `TooLong` if a line has more bytes or there are more lines; the other kinds as `record_line` gives them. If a call
/// of the source failed the answer is `Read`, and if an allocation failed `NoMemory`, both with line 0.
pub fn read_records<S: Source>(alloc: Global, source: &mut S) -> Result<Vec<Record>, TraceError>
    // What is read is what the text says.
    ensures found { IfOk result (λ records. IfSome (S.remaining source.old)
        (λ bytes. AreRecords bytes records.items)) }
    // Every text of the grammar is read, as the records that it stands for.
    ensures only { IfSome (S.remaining source.old) (λ bytes.
        (records : List Record) → AreRecords bytes records → GivesList records result) }
    // The fault of a line has its cause there.
    ensures fault { IfErr result (IsCaused RecordFault (S.remaining source.old)) }
    // The records as they are read from the front.
    ensures told { IfOk result (λ records. IfSome (S.remaining source.old)
        (λ bytes. records_at bytes ≡ Ok records.items)) }
    // The first fault; memory is refused only where a record stands before any fault.
    ensures refused { IfErr result (Refused records_in (S.failures source.old)
        (S.failures source.new) (S.remaining source.old)) }
    ensures none_failed { OnOk result (S.failures source.new ≡ S.failures source.old) }
    ensures end { OnOk result (IfSome (S.remaining source.old)
        (λ known. AtEnd (S.remaining source.new))) }
{
    read_record_text(alloc, source)
}
