//! The answer to the words of a command line.

ghost use Rattle.std.specs.Prelude.{◌≡◌, ◌⊎◌, Result, map};
ghost use Rattle.command_line.specs.Job.{IsAskedBy, IsRefusedFor};
ghost use Rattle.command_line.specs.declared.words.Job.{Job};
ghost use Rattle.command_line.specs.declared.words.WordsError.{WordsError};
ghost use Rattle.run_results.specs.Results.{status_of};
ghost use Rattle.run_results.specs.declared.results.Done.{Done};
ghost use Rattle.run_results.specs.declared.results.RunError.{RunError};
ghost use Rattle.tardis.specs.Answers.{Does, TextGoesOut, bad_words, came_text, devices, words_status, words_text};

use crate::files::Files;
use crate::jobs::run_job;
use byte_streams::{Sink, write_all};
use command_line::laws::streams_follow_policies;
use command_line::{WordsError, read_words};
use run_results::{Done, ErrorLine, RunError, error_line, exit_status};
use std::alloc::Global;
use std::rt::Clock;
use std::thread::Threads;

/// Does what the words ask for, and answers the exit status. A report goes to `out`; why there is none goes to
/// `errors`, in one line, or in the lines of a command line's refusal. Before it come lines that tell how far a run is,
/// if they are asked for. Nothing reports errors of `errors` itself.
pub fn answer_words<R: Threads + Clock + Sync, F: Files, K: Sink, E: Sink>(
    rt: &R,
    alloc: Global,
    files: &F,
    words: &[&str],
    out: &mut K,
    errors: &mut E,
) -> u8
    ensures { ((e : WordsError) × IsRefusedFor (map (λ w. w.now) words.entry.now) e
        × (result ≡ words_status e) × (out.new ≡ out.old)
        × TextGoesOut (E.contents errors.old) (E.contents errors.new)
        (E.failures errors.old) (E.failures errors.new) (words_text e))
        ⊎ ((job : Job) × (came : Result Done RunError) × (told : E)
        × IsAskedBy (map (λ w. w.now) words.entry.now) job
        × (result ≡ status_of came)
        × Does (devices F.File.remaining F.File.failures K.contents K.failures)
        (devices F.File.remaining F.File.failures E.contents E.failures) (F.opens files.now)
        job out.old out.new errors.old told came
        × TextGoesOut (E.contents told) (E.contents errors.new)
        (E.failures told) (E.failures errors.new) (came_text came)) }
{
    streams_follow_policies();
    match read_words(alloc, words) {
        Ok(job) => {
            let came = run_job(rt, alloc, files, &job, out, errors);
            write_run_error(errors, &came);
            exit_status(&came)
        }
        Err(error) => {
            write_error(errors, words_text(&error));
            words_status(&error)
        }
    }
}

/// The answer if a word is no text: the command line is refused.
pub fn refuse_bad_words<E: Sink>(errors: &mut E) -> u8
    ensures status { result ≡ 3 }
    ensures told { TextGoesOut (E.contents errors.old) (E.contents errors.new)
        (E.failures errors.old) (E.failures errors.new) bad_words }
{
    write_error(errors, b"tardis: bad command line\n");
    3
}

/// The answer if memory for the words can't be allocated.
pub fn refuse_for_no_memory<E: Sink>(errors: &mut E) -> u8
    ensures status { result ≡ 1 }
    ensures told { TextGoesOut (E.contents errors.old) (E.contents errors.new)
        (E.failures errors.old) (E.failures errors.new) (words_text WordsError.NoMemory) }
{
    let error = WordsError::NoMemory;
    write_error(errors, words_text(&error));
    words_status(&error)
}

// Why words are no job, as it is told.
fn words_text(error: &WordsError) -> &[u8]
    ensures { result.now ≡ words_text error.now }
{
    match error {
        WordsError::Refused(text) => text.as_bytes(),
        WordsError::NoMemory => b"tardis: no memory\n",
    }
}

// The exit status if words are no job.
fn words_status(error: &WordsError) -> u8
    ensures { result ≡ words_status error.now }
{
    match error {
        WordsError::Refused(_) => 3,
        WordsError::NoMemory => 1,
    }
}

// Tells why there is no report, if there is none.
fn write_run_error<E: Sink>(errors: &mut E, came: &Result<Done, RunError>)
    ensures { TextGoesOut (E.contents errors.old) (E.contents errors.new)
        (E.failures errors.old) (E.failures errors.new) (came_text came.now) }
{
    let line = match came {
        Ok(_) => ErrorLine::new(),
        Err(error) => error_line(error),
    };
    write_error(errors, line.as_slice());
}

// Writes a text, or what goes out of it.
fn write_error<E: Sink>(errors: &mut E, text: &[u8])
    ensures { TextGoesOut (E.contents errors.old) (E.contents errors.new)
        (E.failures errors.old) (E.failures errors.new) text.now }
{
    let _told = write_all(errors, text);
}
