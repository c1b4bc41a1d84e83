//! What the worked cases of tasks, boards, lanes and runs share: jobs, and records compared.
#![tactic(auto)]

mod jobs;
mod same;

pub use jobs::{Worked, crowd, endless, job_of, leaves, sums, waits, waits_above, worked_jobs};
pub use same::{are_same, are_same_events, are_same_outcomes, name_of};
