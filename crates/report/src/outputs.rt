//! A report, and writing a whole text to a sink, with the error if that fails.
ghost use Rattle.std.specs.Prelude.{◌≡◌, IfOk, IfErr, OnOk};
ghost use Rattle.byte_streams.specs.Device.{Grows};
ghost use Rattle.report.specs.Answers.{IsWriteError};
ghost use Rattle.report.specs.Layouts.{layout_of};

use byte_streams::{DeviceError, Sink, write_all};
use report_lines::Layout;
use run_results::{Done, RunError};

/// A text to write, and whether it says that all is done, or legal.
#[derive(Drop)]
pub struct Report {
    pub text: Vec<u8>,
    pub all_done: bool,
}

/// How a report is laid out: as one JSON object if that is asked for, else in lines.
pub fn layout_of(json: bool) -> Layout
    ensures { result ≡ layout_of json }
{
    if json { Layout::Json } else { Layout::Lines }
}

/// Writes the text.
pub(crate) fn write_text<K: Sink>(sink: &mut K, text: &[u8]) -> Result<(), RunError>
    ensures all { OnOk result (Grows (K.contents sink.old) (K.contents sink.new) text.now) }
    ensures none_failed { OnOk result (K.failures sink.new ≡ K.failures sink.old) }
    ensures failed { IfErr result (IsWriteError
        (K.contents sink.old) (K.contents sink.new) (K.failures sink.old) (K.failures sink.new)
        text.now) }
{
    match write_all(sink, text) {
        Ok(()) => Ok(()),
        Err(DeviceError) => Err(RunError::Write),
    }
}

/// Writes the text, and answers whether it says that all is done.
pub fn write_report<K: Sink>(sink: &mut K, text: &[u8], done: Done) -> Result<Done, RunError>
    ensures done { IfOk result (λ answer. answer ≡ done) }
    ensures all { OnOk result (Grows (K.contents sink.old) (K.contents sink.new) text.now) }
    ensures none_failed { OnOk result (K.failures sink.new ≡ K.failures sink.old) }
    ensures failed { IfErr result (IsWriteError
        (K.contents sink.old) (K.contents sink.new) (K.failures sink.old) (K.failures sink.new)
        text.now) }
{
    write_text(sink, text)?;
    Ok(done)
}
