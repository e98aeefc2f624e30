//! Reports on runs that no machine makes: their sums pass 2^64, and some would pass 2^128.
use litmus_reader::read;
use machine_table::Counts;
use programs::End;
use report::Layout;
use report_text::{RunEnd, litmus_text};
use std::alloc::{AllocError, Global};

const TEXT: &[u8] = b"RISCV L
{ 0:x5=1; 0:x6=data; 1:x6=flag_1; }
 P0          | P1          ;
 sw x5,0(x6) | lw x7,0(x6) ;
forall flag_1=0 /\\ (data=1 \\/ 1:x7=3)
";

const GREATEST: u64 = 18446744073709551615;

const GREATEST_COUNT: u128 = 340282366920938463463374607431768211455;

const COUNTS: Counts = Counts {
    renewals: GREATEST_COUNT,
    upgrades: 8,
    flushes: 9223372036854775808,
    write_backs: 18446744073709551615,
};

const GREATEST_COUNTS: Counts = Counts {
    renewals: GREATEST_COUNT,
    upgrades: GREATEST_COUNT,
    flushes: GREATEST_COUNT,
    write_backs: GREATEST_COUNT,
};

// Completed operations, write-backs and stale hits: three times 2^64 - 1 each; renewals 2^128 - 1, since
// their sum is greater; upgrades three times 8, and flushes three times 2^63.
const REPORT: &[u8] = b"test L
threads 2
runs 3
all-done 0
stalled 0
limit 3
exhausted 0
memory 0
states 0
condition forall
held 0
verdict yes
completed 55340232221128654845
renewals 340282366920938463463374607431768211455
upgrades 24
flushes 27670116110564327424
write-backs 55340232221128654845
stale-hits 55340232221128654845
";

// The same, but each count is 2^128 - 1, since its sum is greater.
const GREATEST_REPORT: &[u8] = b"test L
threads 2
runs 3
all-done 0
stalled 0
limit 3
exhausted 0
memory 0
states 0
condition forall
held 0
verdict yes
completed 55340232221128654845
renewals 340282366920938463463374607431768211455
upgrades 340282366920938463463374607431768211455
flushes 340282366920938463463374607431768211455
write-backs 340282366920938463463374607431768211455
stale-hits 55340232221128654845
";

// Of five runs with one state, in which the expression holds, one is all done: its state is told, and it is held.
const STATE_REPORT: &[u8] = b"test L
threads 2
runs 5
all-done 1
stalled 1
limit 1
exhausted 1
memory 1
states 1
1 flag_1=0 data=1 1:x7=0
condition forall
held 1
verdict yes
completed 0
renewals 0
upgrades 0
flushes 0
write-backs 0
stale-hits 0
";

fn runs(alloc: Global, counts: Counts) -> Result<Vec<RunEnd>, AllocError> {
    let mut runs = Vec::new(alloc);
    for _ in 0..3 {
        runs.push(RunEnd {
            end: End::TurnsUsed,
            state: None,
            completed: GREATEST,
            stale: GREATEST,
            counts,
        })?;
    }
    Ok(runs)
}

fn is_reported(alloc: Global, counts: Counts, report: &[u8]) -> Result<bool, AllocError> {
    let runs = runs(alloc, counts)?;
    match read(alloc, TEXT) {
        Ok(test) => Ok(litmus_text(alloc, Layout::Lines, &test, &runs)?.as_slice() == report),
        Err(_) => Ok(false),
    }
}

#[test]
fn great_sums(rt: HostRuntime) {
    for (counts, report) in [(COUNTS, REPORT), (GREATEST_COUNTS, GREATEST_REPORT)] {
        assert_eq!(rt; is_reported(rt.alloc(), counts, report), Ok(true));
    }
}

fn is_state_reported(alloc: Global) -> Result<bool, AllocError> {
    let Ok(test) = read(alloc, TEXT) else {
        return Ok(false);
    };
    let mut runs = Vec::new(alloc);
    for end in [
        End::AllDone,
        End::TurnsUsed,
        End::Stalled,
        End::Exhausted,
        End::NoMemory,
    ] {
        let state = test.end(&[test.start(0), test.start(1)], &[1, 0])?;
        runs.push(RunEnd {
            end,
            state: Some(state),
            completed: 0,
            stale: 0,
            counts: Counts::zeros(),
        })?;
    }
    Ok(litmus_text(alloc, Layout::Lines, &test, &runs)?.as_slice() == STATE_REPORT)
}

#[test]
fn states_are_those_of_runs_that_are_all_done(rt: HostRuntime) {
    assert_eq!(rt; is_state_reported(rt.alloc()), Ok(true));
}

// Whether an end state without thread 1 and without words has 0 for each name.
fn has_zeros(alloc: Global) -> Result<bool, AllocError> {
    let Ok(test) = read(alloc, TEXT) else {
        return Ok(false);
    };
    let state = test.end(&[test.start(0)], &[])?;
    Ok(state.values() == [0, 0, 0].as_slice())
}

#[test]
fn what_is_not_there_is_0_at_the_end(rt: HostRuntime) {
    assert_eq!(rt; has_zeros(rt.alloc()), Ok(true));
}

const LOAD: &[u8] = b"RISCV K\n{ 0:x6=x; 0:x7=5; }\nP0 ;\nlw x7,0(x6) ;\nexists 0:x7=5\n";

// What a register has once the load into it is done without a value.
fn register_after_no_value(alloc: Global) -> Option<u64> {
    let Ok(test) = read(alloc, LOAD) else {
        return None;
    };
    let mut thread = test.start(0);
    thread.done(None);
    Some(thread.register(7))
}

#[test]
fn what_is_not_received_is_not_written(rt: HostRuntime) {
    assert_eq!(rt; register_after_no_value(rt.alloc()), Some(5));
}
