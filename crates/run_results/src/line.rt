//! The line on standard error that says why there is no report.

ghost use Rattle.std.specs.Prelude.{◌≡◌, ◌+◌, ◌++◌, ◌≤◌, length};
ghost use Rattle.run_results.specs.ErrorLine.{error_line, fault_line, states_line};

use crate::results::RunError;
use arrayvec::ArrayVec;
use itoa::Buffer;

/// A line of at most 96 bytes. It allocates nothing, so it can report a failed allocation, too.
pub type ErrorLine = ArrayVec<u8, 96>;

// More bytes after those of the line.
fn put_line_bytes(line: &mut ErrorLine, bytes: &[u8])
    requires { length line.old.items + length bytes.now ≤ 96 }
    ensures { line.new.items ≡ line.old.items ++ bytes.now }
{
    let _fits = line.try_extend_from_slice(bytes);
}

// The line that has these bytes.
fn line_of_bytes(bytes: &[u8]) -> ErrorLine
    requires { length bytes.now ≤ 96 }
    ensures { result.items ≡ bytes.now }
{
    let mut line = ErrorLine::new();
    put_line_bytes(&mut line, bytes);
    line
}

// The line of a text's fault: which text it is, if that is said, where in it, and its kind by number and name.
fn text_fault_line(text: &[u8], place: usize, number: u8, name: &str) -> ErrorLine
    requires text { length text.now ≤ 9 }
    requires name { length name.now ≤ 14 }
    ensures { result.items ≡ fault_line text.now place number name.now }
{
    let mut digits = Buffer::new();
    let mut line = line_of_bytes(b"tardis: ");
    put_line_bytes(&mut line, text);
    put_line_bytes(&mut line, b"line ");
    put_line_bytes(&mut line, digits.format(place).as_bytes());
    put_line_bytes(&mut line, b": ");
    put_line_bytes(&mut line, digits.format(number).as_bytes());
    put_line_bytes(&mut line, b" ");
    put_line_bytes(&mut line, name.as_bytes());
    put_line_bytes(&mut line, b"\n");
    line
}

// The line that says how many states are too few, and how many are enough to go on.
fn too_many_states_line(most: u64, enough: u64) -> ErrorLine
    ensures { result.items ≡ states_line most enough }
{
    let mut digits = Buffer::new();
    let mut line = line_of_bytes(b"tardis: more than ");
    put_line_bytes(&mut line, digits.format(most).as_bytes());
    put_line_bytes(&mut line, b" states; ");
    put_line_bytes(&mut line, digits.format(enough).as_bytes());
    put_line_bytes(&mut line, b" are enough to go on\n");
    line
}

/// The line of an error, with its line feed.
pub fn error_line(error: &RunError) -> ErrorLine
    ensures { result.items ≡ error_line error.now }
{
    match error {
        RunError::Read => line_of_bytes(b"tardis: read failed\n"),
        RunError::Write => line_of_bytes(b"tardis: write failed\n"),
        RunError::NoMemory => line_of_bytes(b"tardis: no memory\n"),
        RunError::Litmus(e) => text_fault_line(b"", e.line, e.kind.number(), e.kind.name()),
        RunError::Trace(e) => text_fault_line(b"", e.line, e.kind.number(), e.kind.name()),
        RunError::Opening(e) => text_fault_line(
            b"opening: ",
            e.line,
            e.kind.number(),
            e.kind.name(),
        ),
        RunError::BadConfig => line_of_bytes(b"tardis: bad configuration\n"),
        RunError::TooManyStates(most, enough) => too_many_states_line(*most, *enough),
    }
}
