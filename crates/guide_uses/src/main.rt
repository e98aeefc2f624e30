//! The crates as a caller uses them: a history is checked, a machine driven, a program written, a litmus test run, its
//! ends listed, and two configurations compared. docs/USES.md quotes each use. The status of the program is 0 if they
//! give the values that their contracts leave open.
#![tactic(auto)]

mod check;
mod closed;
mod compare;
mod drive;
mod ends;
mod litmus;
mod names;
mod program;
mod values;

use std::process::ExitCode;

fn main(rt: HostRuntime) -> ExitCode {
    ExitCode::from(u8::from(!values::are_told(rt.alloc())))
}
