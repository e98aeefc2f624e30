//! The programs of a trace's cores.
ghost use Rattle.std.specs.Prelude.{◌≡◌, IfOk};
ghost use Rattle.trace_reader.specs.Steps.{trace_cores};
ghost use Rattle.report.specs.Runs.{programs_below};

use programs::StepProgram;
use std::alloc::{AllocError, Global};
use trace_reader::Trace;

/// The steps of each core as its program.
pub(crate) fn programs_of_trace<'a>(
    alloc: Global,
    trace: &'a Trace,
) -> Result<Vec<StepProgram<'a>>, AllocError>
    ensures { IfOk result (λ programs. programs.items ≡
        programs_below trace.now (trace_cores trace.now)) }
{
    let mut programs = Vec::new(alloc);
    for core in 0..trace.cores() {
        programs.push(StepProgram::new(trace.steps(core)))?;
    }
    Ok(programs)
}
