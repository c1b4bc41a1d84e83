//! Local steps of threads, and what holds of their interleavings.
#![tactic(auto)]

mod config;
mod ending;
mod expressions;
mod frame;
mod given;
mod join;
mod kinds;
mod laws;
mod local;
mod lookup;
mod numbers;
mod place;
mod slot;
mod step;

pub use config::{Config, CoreStop};
pub use expressions::evaluate;
pub use laws::{checked_laws, core_laws, input_law, job_is_checked};
pub use local::{Local, Moved, Next};
