//! The memory that a text opens, from its source.
ghost use Rattle.std.specs.Prelude.{◌≡◌, IfErr, IfOk, IfSome, OnOk};
ghost use Rattle.byte_streams.specs.Device.{AtEnd};
ghost use Rattle.report.specs.Openings.{HasNoOpening, IsOpened, as_opening};
ghost use Rattle.report.specs.Refusals.{refusal};

use crate::texts::trace_refusal;
use byte_streams::Source;
use physiological_order::Memory;
use run_results::RunError;
use std::alloc::Global;
use trace_lines::TraceError;
use trace_reader::read_opening;

// Why an opening is refused.
fn opening_refusal(error: TraceError) -> RunError
    ensures { result ≡ as_opening (refusal error) }
{
    match trace_refusal(error) {
        RunError::Trace(fault) => RunError::Opening(fault),
        other => other,
    }
}

/// The memory that opens as all that the source has says: each line's word with its value, and all others with 0. A
/// text that is refused is Opening, a failed call Read and a failed allocation NoMemory.
pub fn opening_of<S: Source>(alloc: Global, source: &mut S) -> Result<Memory, RunError>
    ensures read { IfOk result (IsOpened (S.remaining source.old)) }
    ensures end { OnOk result (IfSome (S.remaining source.old)
        (λ known. AtEnd (S.remaining source.new))) }
    ensures none_failed { OnOk result (S.failures source.new ≡ S.failures source.old) }
    ensures refused { IfErr result (HasNoOpening (S.remaining source.old)
        (S.failures source.old) (S.failures source.new)) }
{
    match read_opening(alloc, source) {
        Ok(memory) => Ok(memory),
        Err(error) => Err(opening_refusal(error)),
    }
}
