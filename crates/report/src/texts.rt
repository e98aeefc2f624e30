//! The texts of traces and of records from their sources.
ghost use Rattle.std.specs.Prelude.{◌≡◌, IfOk, IfErr, IfSome, OnOk};
ghost use Rattle.byte_streams.specs.Device.{AtEnd};
ghost use Rattle.trace_reader.specs.Reading.{steps_in, records_in};
ghost use Rattle.report.specs.Refusals.{IsRead, IsUnread, refusal};
ghost use Rattle.trace_reader.specs.Outcomes.{WantsMemory};
ghost use Rattle.report.specs.Reports.{IsTraceFault};
ghost use Rattle.report.specs.Verdicts.{AreRead, IsRecordsFault};

use byte_streams::Source;
use physiological_order::Record;
use run_results::RunError;
use std::alloc::Global;
use trace_lines::{Kind, TraceError};
use trace_reader::{Trace, read, read_records};

/// Why a text is refused: a failed call and lack of memory are no faults of it.
pub(crate) fn trace_refusal(error: TraceError) -> RunError
    ensures { result ≡ refusal error }
{
    match error.kind {
        Kind::Read => RunError::Read,
        Kind::NoMemory => RunError::NoMemory,
        _ => RunError::Trace(error),
    }
}

/// The trace that is all that the source has.
pub(crate) fn trace_of_source<S: Source>(alloc: Global, source: &mut S) -> Result<Trace, RunError>
    ensures read { IfOk result (IsRead (S.remaining source.old)) }
    ensures end { OnOk result (IfSome (S.remaining source.old)
        (λ known. AtEnd (S.remaining source.new))) }
    ensures none_failed { OnOk result (S.failures source.new ≡ S.failures source.old) }
    ensures refused { IfErr result (IsUnread (IsTraceFault (S.remaining source.old))
        (WantsMemory steps_in (S.remaining source.old))
        (S.failures source.old) (S.failures source.new)) }
{
    match read(alloc, source) {
        Ok(trace) => Ok(trace),
        Err(error) => Err(trace_refusal(error)),
    }
}

/// The records that are all that the source has.
pub(crate) fn records_of_source<S: Source>(
    alloc: Global,
    source: &mut S,
) -> Result<Vec<Record>, RunError>
    ensures read { IfOk result (λ records. AreRead (S.remaining source.old) records.items) }
    ensures end { OnOk result (IfSome (S.remaining source.old)
        (λ known. AtEnd (S.remaining source.new))) }
    ensures none_failed { OnOk result (S.failures source.new ≡ S.failures source.old) }
    ensures refused { IfErr result (IsUnread (IsRecordsFault (S.remaining source.old))
        (WantsMemory records_in (S.remaining source.old))
        (S.failures source.old) (S.failures source.new)) }
{
    match read_records(alloc, source) {
        Ok(records) => Ok(records),
        Err(error) => Err(trace_refusal(error)),
    }
}
