//! Worked cases of the crates that run a job. They cross crates, so they stand in one of their own, which has nothing else.
#![tactic(auto)]

#[cfg(test)]
mod tasks;
#[cfg(test)]
mod turns;
#[cfg(test)]
mod whole;
