//! The canonical plan of a cost graph.
#![tactic(auto)]

mod lanes;
mod laws;
mod planner;

pub use laws::{canonical_plans_are_prompt, one_canonical_plan, some_canonical_plan};
pub use planner::{plan, plan_by_lanes};
