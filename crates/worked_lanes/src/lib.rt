//! Worked cases of lanes. They cross crates, so they stand in one of their own, which has nothing else.
#![tactic(auto)]

#[cfg(test)]
mod cases;
#[cfg(test)]
mod tasks;
#[cfg(test)]
mod workers;
