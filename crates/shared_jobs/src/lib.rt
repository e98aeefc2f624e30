//! Jobs that threads share: a thread claims each job by a drawn number, and the results are in the jobs' own order, no
//! matter which thread did which job.
#![tactic(auto)]

mod gate;
mod in_order;
mod jobs;
mod run;
mod workers;

pub use gate::{Begun, Free, Gate, begin, end};
pub use jobs::Jobs;
pub use run::run_jobs;
