//! The public names of readers, drivers, reports and seats, each taken from the crate that gives it out, in calls as a
//! caller writes them. They are proved, and not run.
ghost use Rattle.std.specs.Prelude.{◌≡◌, ◌≤◌, length, true};
ghost use Rattle.drawn_numbers.specs.Drawers.{IsDrawerOf};
ghost use Rattle.litmus_reader.specs.TestViews.{test_of};
ghost use Rattle.machine_table.specs.SetUp.{is_good};
ghost use Rattle.mailboxes.specs.Seats.{IsBankSeat, IsCoreSeat};
ghost use Rattle.thread_driver.specs.Shifts.{AreBanksInOrder, AreCoresInOrder, NoneOpen};

use interleaving_core::System;
use litmus_reader::Test;
use mailboxes::{
    Answer, BankSeat, Config, CoreSeat, DrawError, Drawer, Machine, Numbers, OpenError, Refusal,
    Served, open, open_numbers,
};
use physiological_order::{Memory, Op, Record, WordAddr};
use report::{
    Done, Layout, RunError, ToWrite, TraceEnd, TraceOptions, litmus_text, records_text, run_check,
    run_trace, trace_text,
};
use std::alloc::{AllocError, Global};
use std::rt::Clock;
use std::thread::Threads;
use trace_reader::{FromRead, Source, Trace, TraceError, read, read_records};
use worker_driver::{
    Driven, End, Free, Gate, OpProgram, Program, RunEnd, Shift, Step, StepProgram, batch,
    drive_round, drive_seed, drive_threads,
};

/// The next step of a program.
pub fn next_step<P: Program>(program: &P) -> Option<Step> {
    program.next()
}

/// How many steps are left of two lists that are programs.
pub fn steps_left(ops: Vec<Op>, steps: &[Step]) -> (u32, usize)
    requires { length ops.items ≤ 4294967295 }
    ensures { (result.0 ≡ length ops.items) × (result.1 ≡ length steps.now) }
{
    (OpProgram::new(ops).left(), StepProgram::new(steps).left())
}

/// One turn of a seat, as a gate is told of it.
pub fn passed<G: Gate>(gate: &G, seat: u64, turn: u64) {
    gate.before(seat, turn);
    gate.after(seat, turn);
}

/// How a run by rounds ends, and how many events it makes.
pub fn ends_by_rounds<P: Program>(
    alloc: Global,
    system: &mut System,
    programs: &mut [P],
) -> (End, usize)
    requires { length programs.old ≡ system.old.config.cores }
{
    let driven: Driven = drive_round(alloc, system, programs, 1000);
    (driven.end, driven.events.len())
}

/// How a run by a seed ends, and how many events it makes.
pub fn ends_by_a_seed<P: Program>(
    alloc: Global,
    system: &mut System,
    programs: &mut [P],
) -> (End, usize)
    requires { length programs.old ≡ system.old.config.cores }
{
    let driven: Driven = drive_seed(alloc, system, programs, 7, 1000);
    (driven.end, driven.events.len())
}

/// All seats of a machine after two workers gave each at most 1,000 turns.
pub fn ends_by_threads<R: Threads + Clock + Sync, P: Program + Send + Drop>(
    rt: &R,
    alloc: Global,
    machine: &Machine,
    cores: Vec<CoreSeat>,
    banks: Vec<BankSeat>,
    programs: Vec<P>,
) -> Shift<P>
    requires cores { AreCoresInOrder machine.now cores.items × NoneOpen cores.items }
    requires banks { AreBanksInOrder machine.now banks.items }
    requires programs { length programs.items ≡ length cores.items }
{
    drive_threads(rt, alloc, machine, cores, banks, programs, 2, 1000, &Free)
}

/// The report on ten runs of a test by the seeds from 0 on, which two workers share.
pub fn report_by_seeds<R: Threads + Sync>(
    rt: &R,
    alloc: Global,
    test: &Test,
    config: Config,
) -> Result<Vec<u8>, AllocError>
    requires good { is_good config ≡ true }
    requires cores { config.cores ≡ (test_of test.now).threads }
{
    let runs: Vec<RunEnd> = batch(rt, alloc, test, config, 0, 10, 1000, 2, &Free)?;
    litmus_text(alloc, Layout::Lines, test, &runs)
}

/// How many seats a shared machine has.
pub fn seat_count(alloc: Global, config: Config) -> Result<usize, OpenError> {
    let (_machine, cores, banks) = open(alloc, config, Memory::new(alloc))?;
    Ok(cores.len() + banks.len())
}

/// What a core's seat answers to an attempt.
pub fn attempted(seat: &mut CoreSeat, machine: &Machine) -> Answer
    requires { IsCoreSeat machine.now seat.old }
{
    seat.attempt(machine)
}

/// What a bank's seat serves next.
pub fn served_next(seat: &mut BankSeat, machine: &Machine) -> Result<Served, Refusal>
    requires { IsBankSeat machine.now seat.old }
{
    seat.serve(machine)
}

/// How many drawers of numbers are opened for four threads.
pub fn drawer_count(alloc: Global) -> Result<usize, AllocError> {
    let (_numbers, drawers) = open_numbers(alloc, 4)?;
    Ok(drawers.len())
}

/// The next number that a drawer draws.
pub fn next_number(drawer: &mut Drawer, numbers: &Numbers) -> Result<u64, DrawError>
    requires { IsDrawerOf numbers.now drawer.old }
{
    drawer.draw(numbers)
}

/// How many cores a trace has, and how many records a text of records.
pub fn counts(alloc: Global, trace: &[u8], records: &[u8]) -> Result<(u32, usize), TraceError> {
    let trace: Trace = read(alloc, &mut FromRead::new(trace))?;
    let records: Vec<Record> = read_records(alloc, &mut FromRead::new(records))?;
    Ok((trace.cores(), records.len()))
}

/// Whether the records that a run of this trace leaves are legal.
pub fn is_checked<R: Threads + Clock + Sync>(
    rt: &R,
    alloc: Global,
    trace: &[u8],
) -> Result<bool, RunError> {
    let mut records = ToWrite::new(Vec::new(alloc));
    let options = TraceOptions {
        records: true,
        ..TraceOptions::DEFAULT
    };
    let _done: Done = run_trace(rt, alloc, &mut FromRead::new(trace), &mut records, &options)?;
    let records = records.into_inner();
    let mut verdict = ToWrite::new(Vec::new(alloc));
    let done: Done = run_check(
        alloc,
        &mut FromRead::new(trace),
        &mut FromRead::new(records.as_slice()),
        &mut verdict,
    )?;
    Ok(done.all_done)
}

/// The texts of a trace's run: its report, which has a check's verdict on its records, and these.
pub fn texts(
    alloc: Global,
    trace: Trace,
    run: &TraceEnd,
    records: &[Record],
    values: &[(WordAddr, u64)],
) -> Result<(Vec<u8>, Vec<u8>), AllocError> {
    let report = trace_text(alloc, Layout::Lines, trace, run, records, values)?;
    Ok((report, records_text(alloc, records)?))
}

/// Whether a source has the text of a trace.
pub fn is_trace<S: Source>(alloc: Global, source: &mut S) -> bool {
    read(alloc, source).is_ok()
}
