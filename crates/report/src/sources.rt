//! The text that a source has, or the error if it has none.
ghost use Rattle.std.specs.Prelude.{◌≡◌, ◌+◌, IfOk, IfErr, OnOk};
ghost use Rattle.byte_streams.specs.Whole.{ReadsAll, TakesAtMost};
ghost use Rattle.report.specs.Bytes.{HasNoText};

use byte_streams::{ReadError, Source, read_all};
use litmus_lexer::{Kind, LitmusError, MOST_BYTES};
use run_results::RunError;
use std::alloc::Global;

/// All the bytes that the source has, if they are few enough for a litmus text.
pub(crate) fn read_text<S: Source>(alloc: Global, source: &mut S) -> Result<Vec<u8>, RunError>
    ensures all { IfOk result (λ bytes. ReadsAll (S.remaining source.old) bytes.items) }
    ensures none_failed { OnOk result (S.failures source.new ≡ S.failures source.old) }
    ensures none { IfErr result (HasNoText (S.remaining source.old)
        (S.failures source.old) (S.failures source.new)) }
    ensures taken { TakesAtMost (65536 + 4096) (S.remaining source.old) (S.remaining source.new) }
{
    match read_all(alloc, source, MOST_BYTES) {
        Ok(bytes) => Ok(bytes),
        Err(ReadError::Device) => Err(RunError::Read),
        Err(ReadError::NoMemory) => Err(RunError::NoMemory),
        Err(ReadError::TooMany) => Err(RunError::Litmus(LitmusError {
            line: 1,
            kind: Kind::TooLarge,
        })),
    }
}
