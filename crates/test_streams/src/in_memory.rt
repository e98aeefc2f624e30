//! Reports on texts in memory. Each line is worked out by hand: no two cores take the same word, so that each line of
//! the cache is fetched once and stays; a store has the time 1, one past the time 0 up to which all is read.
ghost use Rattle.worker_driver.specs.SetUp.{FollowsPolicy};

use report::{
    LitmusOptions, MachineOptions, Report, RunError, RunOptions, Schedule, TraceOptions,
    check_report, litmus_report, trace_report,
};
use std::alloc::Global;

const TEST: &[u8] = b"RISCV T
{ 0:x5=1; 0:x6=x; }
 P0          ;
 sw x5,0(x6) ;
 lw x7,0(x6) ;
exists (x=1 /\\ 0:x7=1)
";

// Two runs by rounds, which are the same.
const DONE: &[u8] = b"test T
threads 1
runs 2
all-done 2
stalled 0
limit 0
exhausted 0
memory 0
states 1
2 x=1 0:x7=1
condition exists
held 2
verdict yes
completed 4
renewals 0
upgrades 0
flushes 0
write-backs 0
stale-hits 0
";

// After one round the store waits for its line.
const CUT_OFF: &[u8] = b"test T
threads 1
runs 1
all-done 0
stalled 0
limit 1
exhausted 0
memory 0
states 0
condition exists
held 0
verdict no
completed 0
renewals 0
upgrades 0
flushes 0
write-backs 0
stale-hits 0
";

const TRACE: &[u8] = b"0 W 0x0 7
0 S 0x8 5
0 R 0x0
0 R 0x10
";

const RECORDS: &[u8] = b"0 0 W 0x0 7 1 0
0 1 S 0x8 5 0 1 1
0 2 R 0x0 7 1 2
0 3 R 0x10 0 1 3
";

const TOLD: &[u8] = b"cores 1
issued 4
completed 4
end all-done
loads 2
stores 1
swaps 1
renewals 0
upgrades 0
flushes 0
write-backs 0
stale-hits 0
order legal
word 0x0 7
word 0x8 5
word 0x10 0
";

const TOLD_OBJECT: &[u8] =
    b"{\"version\":1,\"command\":\"trace\",\"cores\":1,\"issued\":4,\"completed\":4,\
\"end\":\"all-done\",\"loads\":2,\"stores\":1,\"swaps\":1,\"renewals\":0,\"upgrades\":0,\"flushes\":0,\
\"write-backs\":0,\"stale-hits\":0,\"order\":\"legal\",\"words\":{\"0x0\":7,\"0x8\":5,\"0x10\":0}}
";

fn by_rounds(limit: u64, lease: u64) -> RunOptions
    ensures { FollowsPolicy result }
{
    RunOptions {
        schedule: Schedule::Round,
        seed: 0,
        workers: 1,
        limit,
        machine: MachineOptions {
            lease,
            ..MachineOptions::DEFAULT
        },
    }
}

fn litmus(alloc: Global, text: &[u8], runs: u64, run: RunOptions) -> Result<Report, RunError>
    requires { FollowsPolicy run }
{
    let options = LitmusOptions {
        runs,
        run,
        ..LitmusOptions::DEFAULT
    };
    litmus_report(alloc, text, &options)
}

fn trace(alloc: Global, text: &[u8], records: bool, run: RunOptions) -> Result<Report, RunError>
    requires { FollowsPolicy run }
{
    trace_as(alloc, text, records, false, run)
}

fn trace_as(
    alloc: Global,
    text: &[u8],
    records: bool,
    json: bool,
    run: RunOptions,
) -> Result<Report, RunError>
    requires { FollowsPolicy run }
{
    let options = TraceOptions {
        records,
        json,
        run,
        ..TraceOptions::DEFAULT
    };
    trace_report(alloc, text, &options)
}

fn is_told(came: &Result<Report, RunError>, all_done: bool, text: &[u8]) -> bool {
    match came {
        Ok(report) => report.all_done == all_done && report.text.as_slice() == text,
        Err(_) => false,
    }
}

#[test]
fn runs_in_memory(rt: HostRuntime) {
    let alloc = rt.alloc();
    let told = [
        is_told(&litmus(alloc, TEST, 2, by_rounds(100, 10)), true, DONE),
        is_told(&litmus(alloc, TEST, 1, by_rounds(1, 10)), false, CUT_OFF),
        is_told(&trace(alloc, TRACE, false, by_rounds(100, 10)), true, TOLD),
        is_told(
            &trace(alloc, TRACE, true, by_rounds(100, 10)),
            true,
            RECORDS,
        ),
        is_told(
            &trace_as(alloc, TRACE, false, true, by_rounds(100, 10)),
            true,
            TOLD_OBJECT,
        ),
        is_told(
            &trace_as(alloc, TRACE, true, true, by_rounds(100, 10)),
            true,
            RECORDS,
        ),
    ];
    assert!(rt; told == [true; 6]);
}

// Records for the trace; whether they are legal, and the line.
const CHECKS: &[(&[u8], bool, &[u8])] = &[
    (RECORDS, true, b"legal\n"),
    (b"0 0 W 0x0 7 1 1\n", false, b"bad number 0\n"),
    (b"0 0 W 0x0 8 1 0\n", false, b"out of program order 0\n"),
    (
        b"0 1 S 0x8 5 7 1 1\n0 0 W 0x0 7 1 0\n",
        false,
        b"wrong value 1\n",
    ),
];

fn is_check_told(alloc: Global, case: &(&[u8], bool, &[u8])) -> bool {
    let (records, legal, line) = *case;
    is_told(&check_report(alloc, TRACE, records), legal, line)
}

#[test]
fn checks_in_memory(rt: HostRuntime) {
    for case in CHECKS {
        assert!(rt; is_check_told(rt.alloc(), case));
    }
}

// The number and, of a fault, the line of why there is no report.
fn why(came: &Result<Report, RunError>) -> (u8, usize) {
    match came {
        Ok(_) => (0, 0),
        Err(RunError::Litmus(fault)) => (4, fault.line),
        Err(RunError::Trace(fault)) => (5, fault.line),
        Err(error) => (error.number(), 0),
    }
}

// No machine has the lease 0, and faults of a text go before that.
fn why_none(alloc: Global) -> [(u8, usize); 8] {
    [
        why(&litmus(alloc, b"RISC T\n", 1, by_rounds(9, 0))),
        why(&litmus(alloc, TEST, 1, by_rounds(9, 0))),
        why(&litmus(alloc, b"RISC T\n", 0, by_rounds(9, 0))),
        why(&litmus(alloc, TEST, 0, by_rounds(9, 0))),
        why(&trace(alloc, b"0 R 0x0\n0 R 0x4\n", false, by_rounds(9, 0))),
        why(&trace(alloc, TRACE, false, by_rounds(9, 0))),
        why(&check_report(alloc, b"\n0 X\n", b"0 0\n")),
        why(&check_report(alloc, TRACE, b"\n\n0 0 R 0x0 7\n")),
    ]
}

#[test]
fn no_reports_in_memory(rt: HostRuntime) {
    let told = why_none(rt.alloc());
    assert!(rt;
        told == [
            (4, 1),
            (6, 0),
            (4, 1),
            (6, 0),
            (5, 2),
            (6, 0),
            (5, 2),
            (5, 3)
        ]
    );
}
