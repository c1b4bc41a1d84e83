//! Schedules of cost graphs: what is prompt, and the first flaw of what is not.
#![tactic(auto)]

mod checker;
mod laws;
mod marks;
mod reader;
mod ready;
mod schedule;
mod text;

pub use checker::judge;
pub use laws::{all_lines_are_read, every_schedule_is_judged};
pub use reader::{ScheduleFault, read_schedule};
pub use schedule::{Flaw, FlawKind, Schedule, Verdict};
pub use text::plan_text;
