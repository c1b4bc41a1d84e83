//! The serial meaning of a job, and the text of a run: what each thread's record says, and the number of all steps.
#![tactic(auto)]

mod outcome;
mod serial;
mod text;
mod written;

pub use outcome::push_value;
pub use serial::{MeaningStop, meaning};
pub use text::{run_text, work_of};
