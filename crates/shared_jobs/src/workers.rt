//! What each worker does: it claims jobs until there are no more.
ghost use Rattle.std.specs.Prelude.{◌≡◌, ◌+◌, ℕ, ◌<◌, ◌++◌, ◌∷◌, [], length, Err, IfOk, OnErr, OnOk};
ghost use Rattle.std.specs.VecDeque.{deque_capacity, deque_len};
ghost use Rattle.drawn_numbers.specs.Drawers.{IsDrawerOf};
ghost use Rattle.drawn_numbers.specs.Drawn.{RisesFrom};
ghost use Rattle.shared_jobs.specs.declared.workers.Stop.{Stop};
ghost use Rattle.shared_jobs.specs.Results.{AllGiven, AreOfJobsBelow};
ghost use Rattle.shared_jobs.specs.Teams.{HasDone, HasEnded, HasStopped, IsAtWork, IsNewWorker};

use crate::gate::Gate;
use crate::jobs::{Jobs, run_job_at_gate};
use drawn_numbers::{Drawer, Numbers};
use std::alloc::AllocError;
use std::collections::VecDeque;

/// A worker: what it claims jobs with, and the results that it has, each with its job's number, in the order in which
/// it claimed them. Once it has stopped, it says why.
#[derive(Drop)]
pub struct Worker<X: Drop> {
    pub drawer: Drawer,
    pub results: VecDeque<(u64, X)>,
    pub stop: Option<Stop>,
}

/// Why a worker has stopped.
#[derive(Clone, Copy)]
pub enum Stop {
    /// It drew a number that is no job's: all jobs are claimed.
    NoMoreJobs,
    /// There was no place for one more result: it claimed no further job.
    NoPlace,
    /// Another allocation failed, or the worker has drawn as many numbers as a drawer may.
    Refused,
}

/// Claims jobs and runs them, until it draws a number that is no job's. If an allocation fails, the worker stops
/// sooner. The job at which that happens, if it had claimed one, is left undone. Each other job that it claimed has its
/// result in the worker's list, in the order in which they were claimed.
pub fn work_on_jobs<X: Drop, S: Drop, J: Jobs<X, S>, G: Gate>(
    numbers: &Numbers,
    jobs: &J,
    gate: &G,
    count: u64,
    worker: &mut Worker<X>,
)
    requires { IsNewWorker numbers.now worker.old }
    ensures work { IsAtWork numbers.now (J.gives jobs.now) count worker.new }
    ensures stop { HasEnded count worker.new }
{
    let Ok(mut state) = jobs.open() else {
        worker.stop = Some(Stop::Refused);
        return;
    };
    loop {
        match run_next_job(numbers, jobs, gate, count, worker, state) {
            Ok(next) => state = next,
            Err(stop) => {
                worker.stop = Some(stop);
                return;
            }
        }
    }
}

// Claims one job, runs it and keeps its result. Gives the state back, or says why the worker stops.
fn run_next_job<X: Drop, S: Drop, J: Jobs<X, S>, G: Gate>(
    numbers: &Numbers,
    jobs: &J,
    gate: &G,
    count: u64,
    worker: &mut Worker<X>,
    state: S,
) -> Result<S, Stop>
    requires drawer { IsDrawerOf numbers.now worker.old.drawer }
    requires below { AreOfJobsBelow count worker.old.results.items }
    requires given { AllGiven (J.gives jobs.now) worker.old.results.items }
    requires done { HasDone worker.old [] × RisesFrom 0 worker.old.drawer.drawn.items }
    requires ready { J.ready jobs.now state }
    ensures drawer { IsDrawerOf numbers.now worker.new.drawer }
    ensures below { AreOfJobsBelow count worker.new.results.items }
    ensures given { AllGiven (J.gives jobs.now) worker.new.results.items }
    ensures ready { IfOk result (J.ready jobs.now) }
    ensures done { IfOk result (λ state. HasDone worker.new [] ×
        RisesFrom 0 worker.new.drawer.drawn.items ×
        (length worker.new.results.items ≡ length worker.old.results.items + 1)) }
    ensures stop { (stop : Stop) → result ≡ Err stop → HasStopped count stop worker.new }
{
    if worker.results.reserve(1).is_err() {
        return Err(Stop::NoPlace);
    }
    let Ok(number) = worker.drawer.draw(numbers) else {
        return Err(Stop::Refused);
    };
    if number >= count {
        return Err(Stop::NoMoreJobs);
    }
    let Ok(next) = run_claimed_job(jobs, gate, worker, state, number) else {
        return Err(Stop::Refused);
    };
    Ok(next)
}

// Runs a job that was claimed, and keeps its result, for which there is a place. AllocError if an allocation of the
// job's fails.
fn run_claimed_job<X: Drop, S: Drop, J: Jobs<X, S>, G: Gate>(
    jobs: &J,
    gate: &G,
    worker: &mut Worker<X>,
    state: S,
    number: u64,
) -> Result<S, AllocError>
    requires place { deque_len worker.old.results < deque_capacity worker.old.results }
    requires ready { J.ready jobs.now state }
    ensures kept { OnOk result ((x : X) × J.gives jobs.now number x ×
        (worker.new.results.items ≡ worker.old.results.items ++ (number, x) ∷ [])) }
    ensures left { OnErr result (worker.new.results.items ≡ worker.old.results.items) }
    ensures drawer { worker.new.drawer ≡ worker.old.drawer }
    ensures ready { IfOk result (J.ready jobs.now) }
{
    let (result, next) = run_job_at_gate(jobs, gate, state, number)?;
    worker.results.push_back_reserved((number, result));
    Ok(next)
}
