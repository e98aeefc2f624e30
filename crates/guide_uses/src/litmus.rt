//! Runs a litmus test from a text in memory to a report in memory.
ghost use Rattle.std.specs.Prelude.{IfOk};
ghost use Rattle.report.specs.Litmus.{IsLitmusReport};

use report::{Done, FromRead, LitmusOptions, RunError, ToWrite, run_litmus};
use std::alloc::Global;
use std::rt::Clock;
use std::thread::Threads;

/// Runs the test as the options say; threads may share runs by seeds. Answers whether every run was all done, and the
/// report: each end state in it is one that sequential consistency allows.
pub fn run_text<R: Threads + Clock + Sync>(
    rt: &R,
    alloc: Global,
    text: &[u8],
    options: &LitmusOptions,
) -> Result<(Done, Vec<u8>), RunError>
    ensures { IfOk result (λ ran.
        IsLitmusReport options.now text.now ran.0.all_done ran.1.items) }
{
    let mut source = FromRead::new(text);
    let mut sink = ToWrite::new(Vec::new(alloc));
    let done = run_litmus(rt, alloc, &mut source, &mut sink, options)?;
    Ok((done, sink.into_inner()))
}
