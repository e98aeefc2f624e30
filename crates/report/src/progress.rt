//! Tells how far a run is while it goes on.
ghost use Rattle.std.specs.Prelude.{◌≡◌, ◌≤◌, ◌+◌, ◌++◌, codes, false, length, None, true};
ghost use Rattle.report.specs.Progress.{amount, progress_line, times_passed};
ghost use Rattle.report.specs.StreamParts.{HasGoneOut, is_due, line_if};

use arrayvec::ArrayVec;
use byte_streams::{DeviceError, Sink, write_all};
use itoa::Buffer;
use streamed_runs::StreamedRun;

// A line of six numbers of at most 40 digits each, and the words between them. It allocates nothing.
type ProgressLine = ArrayVec<u8, 320>;

// How often so many million operations are completed; never, if no number is given, or 0.
fn multiples_completed(every: Option<u64>, completed: usize) -> u128
    ensures { result ≡ times_passed every completed }
{
    match every {
        None | Some(0) => 0,
        Some(millions) => completed as u128 / (u128::from(millions) * 1_000_000),
    }
}

// More bytes after those of the line.
fn put_progress_bytes(line: &mut ProgressLine, bytes: &[u8])
    requires { length line.old.items + length bytes.now ≤ 320 }
    ensures { line.new.items ≡ line.old.items ++ bytes.now }
{
    let _fits = line.try_extend_from_slice(bytes);
}

// A number more, and what it is of.
fn put_progress_amount(line: &mut ProgressLine, number: u128, of_what: &[u8])
    requires { length line.old.items + 40 + length of_what.now ≤ 320 }
    ensures text { line.new.items ≡ line.old.items ++ amount number of_what.now }
    ensures short { length line.new.items ≤ length line.old.items + 40 + length of_what.now }
{
    let mut digits = Buffer::new();
    put_progress_bytes(line, digits.format(number).as_bytes());
    put_progress_bytes(line, of_what);
}

// The line of a run.
fn progress_line(run: &StreamedRun) -> ProgressLine
    ensures { result.items ≡ progress_line run.now.kinds.completed run.now.stale run.now.machine }
{
    let mut line = ProgressLine::new();
    put_progress_bytes(&mut line, b"tardis: ");
    let counts = run.counts();
    put_progress_amount(&mut line, run.kinds().completed as u128, b" operations, ");
    put_progress_amount(&mut line, counts.renewals, b" renewals, ");
    put_progress_amount(&mut line, counts.upgrades, b" upgrades, ");
    put_progress_amount(&mut line, counts.flushes, b" flushes, ");
    put_progress_amount(&mut line, counts.write_backs, b" write-backs, ");
    put_progress_amount(&mut line, u128::from(run.stale_hits()), b" stale hits\n");
    line
}

/// Tells how far the run is if a line is due behind its last piece, and if no write failed before. `before` is how many
/// operations were completed before that piece. The result is whether no write has failed yet.
pub(crate) fn write_progress_if_due<E: Sink>(
    errors: &mut E,
    goes: bool,
    every: Option<u64>,
    before: usize,
    run: &StreamedRun,
) -> bool
    ensures told { goes ≡ true → HasGoneOut result (E.contents errors.old) (E.contents errors.new)
        (E.failures errors.old) (E.failures errors.new)
        (line_if (is_due every before run.now.kinds.completed) run.now) }
    ensures stays { goes ≡ false → (result ≡ false) × (errors.new ≡ errors.old) }
    ensures quiet { every ≡ None → errors.new ≡ errors.old }
{
    if !goes {
        return false;
    }
    if multiples_completed(every, before) >= multiples_completed(every, run.kinds().completed) {
        return true;
    }
    let line = progress_line(run);
    match write_all(errors, line.as_slice()) {
        Ok(()) => true,
        Err(DeviceError) => false,
    }
}
