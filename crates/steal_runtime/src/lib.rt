//! Workers that run a job: each takes tasks from lanes, runs them a quantum at a time, publishes their steps on a shared board, and leaves
//! when all threads have ended or the run is stopped. A run that ends so has the records of the serial meaning.
#![tactic(auto)]

mod advance;
mod gate;
mod meet;
mod nap;
mod parts;
mod publish;
mod put;
mod run;
mod seat;
mod stops;
mod turn;
mod waiting;
mod work;

pub use gate::{Free, Gate};
pub use meet::Meet;
pub use run::{run_job, run_over};
pub use stops::RunStop;
