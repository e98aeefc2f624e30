//! The results of all workers, in the order of their jobs.
ghost use Rattle.std.specs.Prelude.{◌≡◌, ◌++◌, [], length, IfOk, IfSome, None, All, vec_capacity};
ghost use Rattle.shared_jobs.specs.Results.{AllGiven, AreGiven, HasOtherFront, numbered_result};
ghost use Rattle.shared_jobs.specs.Teams.{HasEnded};

use crate::gate::Gate;
use crate::jobs::{Jobs, run_undone_job};
use crate::workers::Worker;
use std::alloc::AllocError;
use std::collections::VecDeque;

/// The results of the jobs 0 to `count - 1`, in this order, one after the other in a list that has room for them alone.
/// All workers have stopped. If none has a job's result in front, the call runs the job. AllocError if memory for such
/// a job can't be allocated.
pub fn results_in_order<X: Drop, S: Drop, J: Jobs<X, S>, G: Gate>(
    jobs: &J,
    gate: &G,
    count: u64,
    mut team: Vec<Worker<X>>,
    mut results: Vec<X>,
) -> Result<Vec<X>, AllocError>
    requires given { All (λ w. AllGiven (J.gives jobs.now) w.results.items) team.items }
    requires ended { All (HasEnded count) team.items }
    requires room { (results.items ≡ []) × (vec_capacity results ≡ count) }
    ensures long { IfOk result (λ v. length v.items ≡ count) }
    ensures room { IfOk result (λ v. vec_capacity v ≡ count) }
    ensures given { IfOk result (λ v. AreGiven (J.gives jobs.now) v.items) }
{
    let mut state = None;
    for number in 0..count {
        let result = match take_job_result(jobs, team.as_mut_slice(), number) {
            Some(result) => result,
            None => {
                let (result, next) = run_undone_job(jobs, gate, team.as_slice(), state, number)?;
                state = Some(next);
                result
            }
        };
        results.push_reserved(result);
    }
    Ok(results)
}

// Takes the result of the job of this number from the worker in whose front it stands.
fn take_job_result<X: Drop, S: Drop, J: Jobs<X, S>>(
    jobs: &J,
    team: &mut [Worker<X>],
    number: u64,
) -> Option<X>
    requires { All (λ w. AllGiven (J.gives jobs.now) w.results.items) team.old }
    ensures given { IfSome result (J.gives jobs.now number) }
    ensures left { All (λ w. AllGiven (J.gives jobs.now) w.results.items) team.new }
    ensures missing { result ≡ None → All (λ w. HasOtherFront number w.results.items) team.new }
{
    for at in 0..team.len() {
        if let Some(result) = take_front_result(&mut team[at].results, number) {
            return Some(result);
        }
    }
    None
}

// Takes the result in front, if it is of the job of this number.
fn take_front_result<X: Drop>(results: &mut VecDeque<(u64, X)>, number: u64) -> Option<X>
    ensures taken { results.old.items ≡ numbered_result number result ++ results.new.items }
    ensures missing { result ≡ None → HasOtherFront number results.old.items }
{
    match results.front() {
        Some(front) => {
            if front.0 != number {
                return None;
            }
        }
        None => return None,
    }
    let (_, result) = results.pop_front()?;
    Some(result)
}
