//! Two workers that do jobs at the same time, and one that does them one after the other and keeps its state. Each job
//! is done while the gate has it under way.
ghost use Rattle.std.specs.Prelude.{◌<◌};

use crate::turn_counts::{Calls, TurnCounts};
use shared_jobs::{Begun, Free, Jobs, run_jobs};
use std::alloc::{AllocError, Global};
use std::sync::atomic::{AtomicU64, Ordering};
use std::test::Fail;
use std::thread;
use std::thread::Threads;

// Each job gives the number of jobs that its worker did before it, or the greatest number if the gate doesn't have it
// under way. So many states that are asked for first are refused.
#[derive(Drop)]
struct Counts<'a> {
    gate: &'a TurnCounts,
    refused: AtomicU64,
}

impl<'a> Jobs<u64, u64> for Counts<'a> {
    ghost gives = { λ jobs number result. Unit {0} };

    ghost ready = { λ jobs state. Unit {0} };

    fn open(&self) -> Result<u64, AllocError> {
        if self.refused.load(Ordering::SeqCst) > 0 {
            self.refused.fetch_sub(1, Ordering::SeqCst);
            return Err(AllocError);
        }
        Ok(0)
    }

    fn run(&self, begun: &Begun, state: u64) -> Result<(u64, u64), AllocError> {
        let before = if self.gate.is_under_way(begun.seat() as usize) {
            state
        } else {
            u64::MAX
        };
        Ok((before, state.saturating_add(1)))
    }
}

// The results of so many jobs by so many workers, of which so many are refused a state, if each job is done once, so
// that so many of the first two see the other; none otherwise.
fn results_of<R: Threads + Sync>(
    rt: &R,
    alloc: Global,
    count: u32,
    [workers, refused, looks, met]: [u32; 4],
) -> Result<Vec<u64>, AllocError> {
    let gate = TurnCounts::new(alloc, count, looks)?;
    let jobs = Counts {
        gate: &gate,
        refused: AtomicU64::new(u64::from(refused)),
    };
    if !(1..=16).contains(&workers) {
        return Ok(Vec::new(alloc));
    }
    let results = run_jobs(rt, alloc, &jobs, u64::from(count), workers, &gate)?;
    for number in 0..count {
        if gate.of(number as usize) != Some(1) {
            return Ok(Vec::new(alloc));
        }
    }
    Ok(if gate.has_met(u64::from(met)) {
        results
    } else {
        Vec::new(alloc)
    })
}

#[test]
fn two_workers_do_jobs_at_the_same_time(rt: HostRuntime) -> Result<(), Fail> {
    let results = results_of(&rt, rt.alloc(), 2, [2, 0, 10_000_000, 2])?;
    assert_eq!(rt; results.as_slice(), [0, 0].as_slice());
    Ok(())
}

// Job 0 ends before job 1 begins, so it looks for the other in vain.
#[test]
fn one_worker_does_one_job_after_the_other(rt: HostRuntime) -> Result<(), Fail> {
    let results = results_of(&rt, rt.alloc(), 2, [1, 0, 100, 1])?;
    assert_eq!(rt; results.as_slice(), [0, 1].as_slice());
    Ok(())
}

// Whether a list is 0, 1, 2, and so on, so many numbers.
fn counts_up(list: &[u64], count: u64) -> bool {
    for at in 0..list.len() {
        if list[at] != at as u64 {
            return false;
        }
    }
    list.len() as u64 == count
}

#[test]
fn a_worker_keeps_its_state_from_job_to_job(rt: HostRuntime) -> Result<(), Fail> {
    let results = results_of(&rt, rt.alloc(), 70_000, [1, 0, 0, 0])?;
    assert!(rt; counts_up(results.as_slice(), 70_000));
    Ok(())
}

// Each worker is refused a state, so the calling thread does what is left.
#[test]
fn the_calling_thread_keeps_its_state_too(rt: HostRuntime) -> Result<(), Fail> {
    for (count, workers) in [(70_000, 1), (100, 2), (100, 16)] {
        let results = results_of(&rt, rt.alloc(), count, [workers, workers, 0, 0])?;
        assert!(rt;
            counts_up(results.as_slice(), u64::from(count)),
            "{workers} workers"
        );
    }
    Ok(())
}

// The gate counts each job once, whichever of many workers did it. So many runs is what a command may ask for.
#[test]
fn no_job_of_many_workers_is_done_twice(rt: HostRuntime) -> Result<(), Fail> {
    assert_eq!(rt;
        results_of(&rt, rt.alloc(), 1_000_000, [16, 0, 0, 0])?.len(),
        1_000_000
    );
    Ok(())
}

// Job 0 waits for all others, and gives whether they were done meanwhile. Each of them gives 1. One worker does more
// than its share, by the state that it opened.
#[derive(Drop)]
struct OneWaits {
    opened: AtomicU64,
    done: AtomicU64,
    others: u64,
}

impl Jobs<u64, u64> for OneWaits {
    ghost gives = { λ jobs number result. Unit {0} };

    ghost ready = { λ jobs state. Unit {0} };

    fn open(&self) -> Result<u64, AllocError> {
        self.opened.fetch_add(1, Ordering::SeqCst);
        Ok(0)
    }

    fn run(&self, begun: &Begun, state: u64) -> Result<(u64, u64), AllocError> {
        if begun.seat() > 0 {
            self.done.fetch_add(1, Ordering::SeqCst);
            return Ok((1, state));
        }
        for _ in 0..10_000_000u32 {
            if self.done.load(Ordering::SeqCst) == self.others {
                return Ok((1, state));
            }
            thread::yield_now();
        }
        Ok((0, state))
    }
}

#[test]
fn a_worker_does_all_jobs_that_are_left_while_another_waits(rt: HostRuntime) -> Result<(), Fail> {
    for count in [10u64, 200_000] {
        let jobs = OneWaits {
            opened: AtomicU64::new(0),
            done: AtomicU64::new(0),
            others: count - 1,
        };
        let results = run_jobs(&rt, rt.alloc(), &jobs, count, 2, &Free)?;
        assert_eq!(rt;
            jobs.opened.load(Ordering::SeqCst),
            2,
            "states for {count} jobs"
        );
        assert_eq!(rt; results.len() as u64, count);
        for at in 0..results.len() {
            assert_eq!(rt; results[at], 1, "job {at} of {count}");
        }
    }
    Ok(())
}

// Each job waits until so many were begun, and gives whether they were.
#[derive(Drop)]
struct AllMeet {
    begun: AtomicU64,
    all: u64,
}

impl Jobs<u64, u64> for AllMeet {
    ghost gives = { λ jobs number result. Unit {0} };

    ghost ready = { λ jobs state. Unit {0} };

    fn open(&self) -> Result<u64, AllocError> {
        Ok(0)
    }

    fn run(&self, _begun: &Begun, state: u64) -> Result<(u64, u64), AllocError> {
        self.begun.fetch_add(1, Ordering::SeqCst);
        for _ in 0..10_000_000u32 {
            if self.begun.load(Ordering::SeqCst) >= self.all {
                return Ok((1, state));
            }
            thread::yield_now();
        }
        Ok((0, state))
    }
}

// As many jobs as workers, fewer, and more: each of the first ones waits at a worker of its own.
#[test]
fn all_workers_do_jobs_at_the_same_time(rt: HostRuntime) -> Result<(), Fail> {
    for (count, all) in [(16u64, 16u64), (3, 3), (48, 16)] {
        let jobs = AllMeet {
            begun: AtomicU64::new(0),
            all,
        };
        let results = run_jobs(&rt, rt.alloc(), &jobs, count, 16, &Free)?;
        assert_eq!(rt; results.len() as u64, count);
        for at in 0..results.len() {
            assert_eq!(rt; results[at], 1, "job {at} of {count}");
        }
    }
    Ok(())
}

// One state can be opened, and no other. Each job gives 1.
#[derive(Drop)]
struct OneState {
    opened: AtomicU64,
}

impl Jobs<u64, u64> for OneState {
    ghost gives = { λ jobs number result. Unit {0} };

    ghost ready = { λ jobs state. Unit {0} };

    fn open(&self) -> Result<u64, AllocError> {
        if self.opened.fetch_add(1, Ordering::SeqCst) > 0 {
            return Err(AllocError);
        }
        Ok(0)
    }

    fn run(&self, _begun: &Begun, state: u64) -> Result<(u64, u64), AllocError> {
        Ok((1, state))
    }
}

// The calling thread opens no state if no job is left, and a worker leaves none.
#[test]
fn one_worker_does_all_jobs_by_one_state(rt: HostRuntime) -> Result<(), Fail> {
    let jobs = OneState {
        opened: AtomicU64::new(0),
    };
    let results = run_jobs(&rt, rt.alloc(), &jobs, 200_000, 1, &Free)?;
    assert_eq!(rt; results.len(), 200_000);
    Ok(())
}

// One job is refused so many times before it is done. Each job gives its number.
#[derive(Drop)]
struct OneRefused {
    number: u64,
    refusals: AtomicU64,
}

impl Jobs<u64, u64> for OneRefused {
    ghost gives = { λ jobs number result. Unit {0} };

    ghost ready = { λ jobs state. Unit {0} };

    fn open(&self) -> Result<u64, AllocError> {
        Ok(0)
    }

    fn run(&self, begun: &Begun, state: u64) -> Result<(u64, u64), AllocError> {
        let number = begun.seat();
        if number == self.number && self.refusals.load(Ordering::SeqCst) > 0 {
            self.refusals.fetch_sub(1, Ordering::SeqCst);
            return Err(AllocError);
        }
        Ok((number, state))
    }
}

// Each job begins and ends once, and the one in the middle once more for each time that it is refused: a worker alone
// stops there, and the calling thread does that job and all behind it.
#[test]
fn all_tries_of_jobs_pass_the_gate(rt: HostRuntime) -> Result<(), Fail> {
    for count in [1u64, 2, 100] {
        for workers in [1, 2, 16] {
            for refusals in [0u64, 1] {
                let jobs = OneRefused {
                    number: count / 2,
                    refusals: AtomicU64::new(refusals),
                };
                let gate = Calls::new(workers);
                let results = run_jobs(&rt, rt.alloc(), &jobs, count, workers, &gate)?;
                assert!(rt;
                    counts_up(results.as_slice(), count)
                        && gate.count() == Some([count + refusals; 2]),
                    "{count} jobs by {workers} workers, {refusals} refused"
                );
            }
        }
    }
    Ok(())
}
