//! From a litmus text to the list of its ends: of a text in memory, or from a source to a sink.
ghost use Rattle.std.specs.Prelude.{◌≡◌, ◌≢◌, ◌+◌, IfErr, IfOk, IsErrOf, true};
ghost use Rattle.byte_streams.specs.Whole.{TakesAtMost};
ghost use Rattle.report.specs.Answers.{FailuresAreCounted, IsCutOff, IsReported};
ghost use Rattle.report.specs.Bytes.{OfBytes};
ghost use Rattle.report.specs.Ends.{HasNoEnds, HasNoEndsInMemory, IsEndsReport};

use crate::every_text::ends_list_text;
use crate::litmus::litmus_test_of;
use crate::outputs::{Report, layout_of, write_report};
use crate::sources::read_text;
use byte_streams::{Sink, Source};
use run_options::EndsOptions;
use run_results::{Done, RunError};
use sequential_ends::{EndsError, list_ends};
use std::alloc::{AllocError, Global};

/// Reads a litmus test to the end of the source, and writes the list of its ends: those of the sequential machine, all
/// of them and no other. If the source has more bytes than a litmus text may have, the call doesn't read it to its
/// end. Read takes precedence over Litmus, that over TooManyStates, and Write comes last; on any error but Write the
/// sink is unchanged.
pub fn run_ends<S: Source, K: Sink>(
    alloc: Global,
    source: &mut S,
    sink: &mut K,
    options: &EndsOptions,
) -> Result<Done, RunError>
    ensures reported { IfOk result (λ done. OfBytes (S.remaining source.old) (λ bytes.
        IsReported (IsEndsReport options.now bytes done.all_done)
        (K.contents sink.old) (K.contents sink.new))) }

    // Why there is no list, or not all of it.
    ensures refused { IfErr result (λ e. e ≢ RunError.Read → e ≢ RunError.Write →
        OfBytes (S.remaining source.old) (λ bytes. HasNoEnds options.now bytes e)) }
    ensures cut_off { IsErrOf result RunError.Write → OfBytes (S.remaining source.old) (λ bytes.
        (all_done : _) × IsCutOff (IsEndsReport options.now bytes all_done)
        (K.contents sink.old) (K.contents sink.new)) }

    // A litmus text has at most 65,536 bytes, and at most one block of 4,096 is taken beyond them.
    ensures taken { TakesAtMost (65536 + 4096) (S.remaining source.old) (S.remaining source.new) }

    // Failures are told, and nothing else is written.
    ensures counted { FailuresAreCounted result
        (S.failures source.old) (S.failures source.new)
        (K.failures sink.old) (K.failures sink.new) }
    ensures nothing { IfErr result (λ e. e ≢ RunError.Write → sink.new ≡ sink.old) }
{
    let bytes = read_text(alloc, source)?;
    let report = ends_report(alloc, &bytes, options)?;
    let done = Done {
        all_done: report.all_done,
    };
    write_report(sink, &report.text, done)
}

/// The list of the ends of the litmus test that a text is: those of the sequential machine, all of them and no other.
/// Litmus takes precedence over TooManyStates. NoMemory comes only of a test, or of a text of at most 65,536 bytes
/// without a fault before its initial block.
pub fn ends_report(alloc: Global, text: &[u8], options: &EndsOptions) -> Result<Report, RunError>
    ensures report { IfOk result (λ report.
        IsEndsReport options.now text.now report.all_done report.text.items) }
    ensures refused { IfErr result (HasNoEndsInMemory options.now text.now) }
{
    let test = match litmus_test_of(alloc, text) {
        Ok(test) => test,
        Err(error) => return Err(error),
    };
    let most = options.most_states;
    let every = match list_ends(alloc, &test, most as usize, options.orders) {
        Ok(every) => every,
        Err(EndsError::TooMany(enough)) => {
            return Err(RunError::TooManyStates(most, enough as u64));
        }
        Err(EndsError::NoMemory) => return Err(RunError::NoMemory),
    };
    let layout = layout_of(options.json);
    match ends_list_text(alloc, layout, &test, &every, options.orders) {
        Ok(text) => Ok(Report {
            text,
            all_done: true,
        }),
        Err(AllocError) => Err(RunError::NoMemory),
    }
}
