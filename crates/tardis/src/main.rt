//! The program: it gives its words, the host's files, standard output and standard error to the answer (`answers.rt`),
//! and ends with the exit status that comes back.
#![tactic(auto)]

ghost use Rattle.std.specs.Prelude.{◌≡◌, length, IfOk};

mod answers;
mod files;
mod host;
mod jobs;

use answers::{answer_words, refuse_bad_words, refuse_for_no_memory};
use byte_streams::ToWrite;
use host::HostFiles;
use std::alloc::AllocError;
use std::io;
use std::process::ExitCode;
use std::rt::Clock;
use std::thread::Threads;

/// The words of the command line.
fn read_program_words(rt: &HostRuntime) -> io::Result<Vec<String>> {
    Ok(std::env::args(rt)?.collect(rt.alloc())?)
}

/// The words as they are borrowed: as many as there are.
fn borrow_words<'a>(rt: &HostRuntime, texts: &'a [String]) -> Result<Vec<&'a str>, AllocError>
    ensures { IfOk result (λ words. length words.items ≡ length texts.now) }
{
    texts.iter().map(|text| text.as_str()).collect(rt.alloc())
}

/// The exit status. If a word is no text, the command line is refused; any other failure here is a failed allocation.
/// `threads` share the runs of a litmus test.
fn exit_status_of_program<R: Threads + Clock + Sync>(rt: &HostRuntime, threads: &R) -> u8 {
    let mut out = ToWrite::new(rt.stdout());
    let mut errors = ToWrite::new(rt.stderr());
    let texts = match read_program_words(rt) {
        Ok(texts) => texts,
        Err(error) if error.kind() == io::ErrorKind::InvalidData => return refuse_bad_words(
            &mut errors,
        ),
        Err(_) => return refuse_for_no_memory(&mut errors),
    };
    let files = HostFiles { rt };
    match borrow_words(rt, &texts) {
        Ok(words) => answer_words(threads, rt.alloc(), &files, &words, &mut out, &mut errors),
        Err(AllocError) => refuse_for_no_memory(&mut errors),
    }
}

fn main(rt: HostRuntime) -> ExitCode {
    ExitCode::from(exit_status_of_program(&rt, &rt))
}
