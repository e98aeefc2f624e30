//! The results, their numbers and their exit statuses.

ghost use Rattle.std.specs.Prelude.{◌≡◌};
ghost use Rattle.run_results.specs.Results.{run_number, status_of};

use litmus_lexer::LitmusError;
use thiserror::Error;
use trace_lines::TraceError;

/// The result of a run of the program that gave its report.
#[derive(Clone, Copy, Debug, PartialEq, Eq)]
pub struct Done {
    /// Whether every run ended all done.
    pub all_done: bool,
}

/// Why there is no report.
#[derive(Clone, Copy, Debug, PartialEq, Eq, Error)]
pub enum RunError {
    /// A call of the source failed.
    #[error("reading failed")]
    Read,
    /// A call of the sink failed; a beginning of the report was written.
    #[error("writing failed")]
    Write,
    /// An allocation failed.
    #[error("no memory")]
    NoMemory,
    /// The text is no litmus test: its first fault.
    #[error("line {line}: {kind:?}", line = .0.line, kind = .0.kind)]
    Litmus(LitmusError),
    /// The text is no trace, or its records are none: its first fault.
    #[error("line {line}: {kind:?}", line = .0.line, kind = .0.kind)]
    Trace(TraceError),
    /// The text is no opening: its first fault.
    #[error("opening: line {line}: {kind:?}", line = .0.line, kind = .0.kind)]
    Opening(TraceError),
    /// A value of the machine's configuration is out of its range.
    #[error("bad configuration")]
    BadConfig,
    /// More states of a test would be kept at once than the first number. The second is enough for the layer at which
    /// the list stopped, and for the next.
    #[error("more than {0} states; {1} are enough to go on")]
    TooManyStates(u64, u64),
}

impl RunError {
    /// Its number: 1 reading, 2 writing, 3 no memory, 4 a litmus text, 5 a text of a trace or of records, 6 a
    /// configuration, 7 too many states, 12 a text of an opening; `tardis.h` has those between.
    pub fn number(&self) -> u8
        ensures { result ≡ run_number self.now }
    {
        match self {
            RunError::Read => 1,
            RunError::Write => 2,
            RunError::NoMemory => 3,
            RunError::Litmus(_) => 4,
            RunError::Trace(_) => 5,
            RunError::BadConfig => 6,
            RunError::TooManyStates(_, _) => 7,
            RunError::Opening(_) => 12,
        }
    }
}

/// The exit status: 0 all done, 1 a run ended otherwise, an allocation failed or there are too many states, 2 the text
/// is refused, 3 the configuration is, 4 reading or writing failed.
pub fn exit_status(came: &Result<Done, RunError>) -> u8
    ensures { result ≡ status_of came.now }
{
    match came {
        Ok(done) if done.all_done => 0,
        Ok(_) => 1,
        Err(RunError::NoMemory) => 1,
        Err(RunError::TooManyStates(_, _)) => 1,
        Err(RunError::Litmus(_)) => 2,
        Err(RunError::Trace(_)) => 2,
        Err(RunError::Opening(_)) => 2,
        Err(RunError::BadConfig) => 3,
        Err(RunError::Read) => 4,
        Err(RunError::Write) => 4,
    }
}
