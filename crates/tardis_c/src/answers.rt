//! What a call answers: a text in the caller's buffer, its length, and a number.
ghost use Rattle.std.specs.Prelude.{◌≡◌, length, nat_le};
ghost use Rattle.tardis_c.specs.Answers.{CameTo, IsPut, report_number};

use report::{Report, RunError};
use run_results::error_line;

/// Writes the report, or the line of the error, into the buffer if that has room for it, says how long it is, and
/// answers its number.
pub(crate) fn write_result(
    came: &Result<Report, RunError>,
    buffer: &mut [u8],
    long: &mut usize,
) -> u32
    ensures { CameTo came.now buffer.old buffer.new long.new result }
{
    match came {
        Ok(report) => {
            let fits = write_text(&report.text, buffer, long);
            report_number(report.all_done, fits)
        }
        Err(error) => {
            let line = error_line(error);
            let _fits = write_text(line.as_slice(), buffer, long);
            u32::from(error.number())
        }
    }
}

// Writes a text over the front of what stands in the buffer, if that has room for it, and says how long it is.
fn write_text(text: &[u8], buffer: &mut [u8], long: &mut usize) -> bool
    ensures put { IsPut text.now buffer.old buffer.new long.new }
    ensures fits { result ≡ nat_le (length text.now) (length buffer.old) }
{
    *long = text.len();
    if text.len() > buffer.len() {
        return false;
    }
    buffer[..text.len()].copy_from_slice(text);
    true
}

// The number of a report.
fn report_number(all_done: bool, fits: bool) -> u32
    ensures { result ≡ report_number all_done fits }
{
    if !fits {
        8
    } else if all_done {
        0
    } else {
        7
    }
}
