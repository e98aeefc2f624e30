//! Jobs, and running one.
ghost use Rattle.std.specs.Prelude.{ℕ, All, IfOk, IfSome};
ghost use Rattle.shared_jobs.specs.Results.{HasOtherFront};

use crate::gate::{Begun, Gate, begin, end};
use crate::workers::Worker;
use std::alloc::AllocError;

/// Jobs by number, from 0 on, each with a result. Any thread may run any of them, in any order (README.md). A worker
/// keeps a state from one job to the next.
pub trait Jobs<X, S> {
    /// The result that a job of this number may have.
    ghost gives: { Self → ℕ → X → Type 0 };

    /// What is so of a worker's state before each job.
    ghost ready: { Self → S → Type 0 };

    /// A worker's state before its first job. AllocError if memory for it can't be allocated.
    fn open(&self) -> Result<S, AllocError>
        ensures { IfOk result (ready self.now) };

    /// Runs the job that has begun at a gate, and gives the state back for the next one. AllocError if an allocation
    /// fails.
    fn run(&self, begun: &Begun, state: S) -> Result<(X, S), AllocError>
        requires { ready self.now state }
        ensures given { IfOk result (λ done. gives self.now begun.now.seat done.0) }
        ensures ready { IfOk result (λ done. ready self.now done.1) };
}

/// Runs the job of this number between the calls of the gate.
pub fn run_job_at_gate<X: Drop, S: Drop, J: Jobs<X, S>, G: Gate>(
    jobs: &J,
    gate: &G,
    state: S,
    number: u64,
) -> Result<(X, S), AllocError>
    requires { J.ready jobs.now state }
    ensures given { IfOk result (λ done. J.gives jobs.now number done.0) }
    ensures ready { IfOk result (λ done. J.ready jobs.now done.1) }
{
    let begun = begin(gate, number, 0);
    let done = jobs.run(&begun, state);
    end(gate, begun);
    done
}

/// Runs the job of this number, whose result no worker has in front, by the state that there is, or by one that the
/// call opens.
pub fn run_undone_job<X: Drop, S: Drop, J: Jobs<X, S>, G: Gate>(
    jobs: &J,
    gate: &G,
    _team: &[Worker<X>],
    state: Option<S>,
    number: u64,
) -> Result<(X, S), AllocError>
    requires missing { All (λ w. HasOtherFront number w.results.items) _team.now }
    requires ready { IfSome state (J.ready jobs.now) }
    ensures given { IfOk result (λ done. J.gives jobs.now number done.0) }
    ensures ready { IfOk result (λ done. J.ready jobs.now done.1) }
{
    let state = match state {
        Some(state) => state,
        None => jobs.open()?,
    };
    run_job_at_gate(jobs, gate, state, number)
}
